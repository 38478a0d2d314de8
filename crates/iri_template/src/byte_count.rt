//! How many bytes a text has.
ghost use Rattle.std.specs.Prelude.{◌≡◌, ◌<◌, false, length, nat_le};
ghost use Rattle.std.specs.Str.{chars};
ghost use Rattle.iri_template.specs.inside.ByteCounts.{CountPuts, CountHalts, count_rules};

use iri_text::{Show, Stop, TextSink};

// Counts the bytes of what is put, and stops where they are more than so many.
#[derive(Drop)]
pub(crate) struct ByteCount {
    // How many bytes more it takes.
    pub(crate) room: usize,
    pub(crate) stops: u64,
}

impl TextSink for ByteCount {
    ghost puts = { CountPuts };

    ghost halts = { CountHalts };

    ghost stops = { λ s. s.stops };

    ghost rules = { count_rules };

    fn put(&mut self, piece: &str) -> Result<(), Stop> {
        if self.room < piece.len() {
            self.stops = self.stops.saturating_add(1);
            return Err(Stop);
        }
        self.room -= piece.len();
        Ok(())
    }
}

// Whether the text of a value has at most so many bytes. One with more has characters.
#[tactic(auto, using(crate::proofs::PrefixChars::some_chars))]
pub(crate) fn is_within<T: Show>(value: &T, limit: usize) -> bool
    ensures within { result ≡ nat_le (length (T.text value.now)) limit }
    ensures longer { result ≡ false → 0 < length (chars (T.text value.now)) }
{
    let mut sink = ByteCount {
        room: limit,
        stops: 0,
    };
    match value.show(&mut sink) {
        Ok(()) => true,
        Err(_) => false,
    }
}
