// Octets percent-encoded (RFC 3986 section 2.1).
ghost use Rattle.std.specs.Prelude.{◌≡◌, ◌≤◌, ◌<◌, ◌*◌, ◌∷◌, [], take, length};
ghost use Rattle.iri_text.specs.Shown.{Shows};
ghost use Rattle.iri_percent.specs.Mapping.{capital_hex, triplets};

use iri_text::{Stop, TextSink};

// So many octets are spelled in one piece.
const MOST: usize = 8;

// The hex digits by their values.
// With it `canon` takes 24.0 instructions for a byte of percent-encoded links, without 26.8 (2026-12-01).
static DIGITS: [u8; 16] = *b"0123456789ABCDEF";

/// The hex digit of this value: a capital letter from ten on. It has a condition: the value is below 16.
#[tactic(auto, using(crate::proofs::characters::HexDigits::capital_here))]
#[inline(always)]
pub fn capital_digit(value: u8) -> u8
    requires { value < 16 }
    ensures { result ≡ capital_hex value }
{
    DIGITS[usize::from(value)]
}

// Spells octets at the start of the buffer, and answers the length of what they are spelled by.
fn spell(octets: &[u8], buf: &mut [u8; 24]) -> usize
    requires { length octets.now ≤ 8 }
    ensures count { result ≤ 24 }
    ensures text { take result buf.new ≡ triplets octets.now }
{
    let mut n = 0;
    for octet in octets {
        buf[n] = b'%';
        buf[n + 1] = capital_digit(*octet / 16);
        buf[n + 2] = capital_digit(*octet % 16);
        n += 3;
    }
    n
}

fn put_few<W: TextSink>(sink: &mut W, octets: &[u8]) -> Result<(), Stop>
    requires { length octets.now ≤ 8 }
    ensures { Shows W.puts W.halts W.stops sink.old (triplets octets.now) sink.new result }
{
    let mut buf = [0u8; 24];
    let n = spell(octets, &mut buf);
    sink.put(unsafe { str::from_utf8_unchecked(&buf[..n]) })
}

// One octet, as a space among words, is spelled without the loop: a byte of an expansion of words takes 69.2 instructions,
// with the loop 72.9 (2026-12-01).
fn put_one<W: TextSink>(sink: &mut W, octet: u8) -> Result<(), Stop>
    ensures { Shows W.puts W.halts W.stops sink.old (triplets (octet ∷ [])) sink.new result }
{
    let triplet = [b'%', capital_digit(octet / 16), capital_digit(octet % 16)];
    sink.put(unsafe { str::from_utf8_unchecked(&triplet) })
}

fn put_some<W: TextSink>(sink: &mut W, octets: &[u8]) -> Result<(), Stop>
    requires { length octets.now ≤ 8 }
    ensures { Shows W.puts W.halts W.stops sink.old (triplets octets.now) sink.new result }
{
    if let [octet] = octets {
        return put_one(sink, *octet);
    }
    put_few(sink, octets)
}

// Writes octets percent-encoded, with capital hex digits.
pub(crate) fn put_triplets<W: TextSink>(sink: &mut W, octets: &[u8]) -> Result<(), Stop>
    ensures { Shows W.puts W.halts W.stops sink.old (triplets octets.now) sink.new result }
{
    let mut rest = octets;
    while rest.len() > MOST {
        let (few, more) = rest.split_at(MOST);
        put_few(sink, few)?;
        rest = more;
    }
    put_some(sink, rest)
}
