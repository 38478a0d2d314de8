// How many escapes the compared form of a pattern has: `%2A`, `%24` and `$`. It is read byte by byte and not kept, so
// that nothing is allocated.
ghost use Rattle.std.specs.Prelude.{◌≡◌, ◌∷◌, [], nat_lt};
ghost use Rattle.iri_robots.specs.Compared.{compared};
ghost use Rattle.iri_robots.specs.Patterns.{escapes};
ghost use Rattle.iri_robots.specs.inside.EscapeScans.{begun_after, ends_escape, Counts};
ghost use Rattle.iri_robots.specs.inside.Prefixes.{written_text};

use crate::compared::{Written, prefix_of};

// The longest end of what was read that may begin a triplet `%2A` or `%24`.
#[derive(Clone, Copy)]
enum Begun {
    Nothing,
    Percent,
    PercentTwo,
}

// How many escapes more may come, and what is begun.
#[derive(Clone, Copy)]
struct Scan {
    room: usize,
    begun: Begun,
}

// What is begun after one more byte.
fn begun_after(begun: Begun, byte: u8) -> Begun
    ensures { result ≡ begun_after begun byte }
{
    match begun {
        _ if byte == b'%' => Begun::Percent,
        Begun::Percent if byte == b'2' => Begun::PercentTwo,
        _ => Begun::Nothing,
    }
}

// Whether a byte ends an escape.
fn ends_escape(begun: Begun, byte: u8) -> bool
    ensures { result ≡ ends_escape begun byte }
{
    match begun {
        Begun::PercentTwo => byte == b'$' || byte == b'A' || byte == b'4',
        _ => byte == b'$',
    }
}

// Reads a byte; none where it ends an escape too many.
fn read_byte(scan: Scan, byte: u8) -> Option<Scan>
    ensures { Counts scan (byte ∷ []) result }
{
    let begun = begun_after(scan.begun, byte);
    if !ends_escape(scan.begun, byte) {
        return Some(Scan {
            room: scan.room,
            begun,
        });
    }
    if scan.room == 0 {
        return None;
    }
    Some(Scan {
        room: scan.room - 1,
        begun,
    })
}

// Reads bytes; none where an escape too many ends in them.
fn read_bytes(scan: Scan, bytes: &[u8]) -> Option<Scan>
    ensures { Counts scan bytes.now result }
{
    let mut scan = scan;
    for byte in bytes {
        match read_byte(scan, *byte) {
            Some(next) => scan = next,
            None => return None,
        }
    }
    Some(scan)
}

// Reads what a prefix of a pattern is written as.
fn read_written(scan: Scan, written: Written<'_>) -> Option<Scan>
    ensures { Counts scan (written_text written.entry) result }
{
    match written {
        Written::Run(run) => read_bytes(scan, run.as_bytes()),
        Written::Char(c) => read_bytes(scan, c.encode_utf8(&mut [0; 4]).as_bytes()),
        Written::Triplet(high, low) => read_bytes(scan, &[b'%', high, low]),
    }
}

// Whether the compared form of a pattern has more escapes than so many. A search takes no more time than the lengths of
// pattern and text as many times as it has escapes, and once more, and that only where it has both `$` and `%24`.
pub(crate) fn has_more_escapes(pattern: &[u8], most: usize) -> bool
    ensures { result ≡ nat_lt most (escapes (compared pattern.now)) }
{
    let mut scan = Scan {
        room: most,
        begun: Begun::Nothing,
    };
    let mut rest = pattern;
    while !rest.is_empty() {
        let prefix = prefix_of(rest);
        match read_written(scan, prefix.written) {
            Some(next) => scan = next,
            None => return true,
        }
        rest = &rest[prefix.taken..];
    }
    false
}
