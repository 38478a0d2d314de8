// The periods of a text's prefixes. A text has a period where each of its bytes stands so many bytes before it too. Those
// that a prefix has three times are listed: each is more than twice the one before it, so that there are few.
ghost use Rattle.std.specs.Prelude.{◌≡◌, ◌+◌, ◌^◌, ◌<◌, ◌≤◌, ℕ, List, length, true, false};
ghost use Rattle.iri_robots.specs.inside.Periods.{ArePeriods, HasPeriod, IsLongest, IsShift};

const MOST: usize = 32;

// Each period that is listed is that of the first bytes, as many as its end says. Of the periods below `settled` all are
// listed that a prefix has three times and no shorter one.
#[derive(Drop)]
pub(crate) struct Periods {
    periods: [usize; MOST],
    ends: [usize; MOST],
    count: usize,
    settled: usize,
}

// A text can stand so many bytes later at the earliest, and so many of its bytes stand there.
#[derive(Clone, Copy)]
pub(crate) struct Shift {
    pub(crate) by: usize,
    pub(crate) kept: usize,
}

// Where a text can stand next, so many of whose bytes stand somewhere.
pub(crate) fn shift_of(known: &Periods, filled: usize) -> Shift
    requires { known.now.count ≤ 32 × (filled < 2 ^ 63) }
    ensures { (t : List ℕ) → ArePeriods t known.now → filled ≤ length t → IsShift t filled result.by result.kept }
{
    for i in 0..known.count {
        if known.periods[i] <= filled / 3 && filled <= known.ends[i] {
            return Shift {
                by: known.periods[i],
                kept: filled - known.periods[i],
            };
        }
    }
    Shift {
        by: known.settled.min(filled / 3 + 1),
        kept: 0,
    }
}

// How many bytes of a text stand so many bytes later too, of which so many are known.
fn repeated_len(text: &[u8], period: usize, known: usize) -> usize
    requires { (period + known ≤ length text.now) × HasPeriod text.now (period + known) period }
    ensures { IsLongest text.now period result }
{
    let mut len = known;
    while len < text.len() - period {
        if text[period + len] != text[len] {
            return len;
        }
        len += 1;
    }
    len
}

// Settles the next period, which a text has for so many bytes more; false where it is to be listed and there is no room.
fn settle(known: &mut Periods, repeated: usize) -> bool
    requires { known.old.count ≤ 32 × (known.old.settled + repeated < 2 ^ 63) }
    ensures settled { result ≡ true → (t : List ℕ) → ArePeriods t known.old → IsLongest t known.old.settled repeated
        → ArePeriods t known.new }
    ensures next { result ≡ true → known.new.settled ≡ known.old.settled + 1 }
    ensures same { result ≡ false → known.new ≡ known.old }
{
    let period = known.settled;
    if period > repeated / 2 {
        known.settled = period + 1;
        return true;
    }
    if known.count == MOST {
        return false;
    }
    known.periods[known.count] = period;
    known.ends[known.count] = period + repeated;
    known.count += 1;
    known.settled = period + 1;
    true
}

// The periods of a text's prefixes.
pub(crate) fn periods_of(text: &[u8]) -> Periods
    ensures { ArePeriods text.now result }
{
    let mut known = Periods {
        periods: [0; MOST],
        ends: [0; MOST],
        count: 0,
        settled: 1,
    };
    let mut repeated = 0;
    while known.settled < text.len() {
        let period = known.settled;
        repeated = repeated_len(text, period, repeated);
        if !settle(&mut known, repeated) {
            return known;
        }
        let shift = shift_of(&known, repeated);
        known.settled = period + shift.by;
        repeated = shift.kept;
    }
    known
}
