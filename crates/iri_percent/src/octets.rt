// Percent-encoded octets.
ghost use Rattle.std.specs.Prelude.{◌≡◌, ◌<◌, ◌+◌, ◌∷◌, [], true, false, ◌&&◌, MatchOption, drop};
ghost use Rattle.std.specs.Char.{is_ascii_hexdigit};
ghost use Rattle.iri_percent.specs.Units.{octet, octets};
ghost use Rattle.iri_grammar.specs.inside.Runs.{begins_with_more};

use iri_grammar::digits::{are_hex_digits, hex_value};

// The octet that two hex digits spell.
#[tactic(auto, using(crate::proofs::characters::HexDigits::value_small))]
#[inline(always)]
pub(crate) fn octet_of_digits(high: u8, low: u8) -> u8
    requires { (is_ascii_hexdigit high ≡ true) × (is_ascii_hexdigit low ≡ true) }
    ensures { result ≡ octet high low }
{
    hex_value(high) * 16 + hex_value(low)
}

fn octet(high: u8, low: u8) -> Option<u8>
    ensures { MatchOption result ((is_ascii_hexdigit high && is_ascii_hexdigit low) ≡ false)
        (λ o. ((is_ascii_hexdigit high && is_ascii_hexdigit low) ≡ true) × (o ≡ octet high low)) }
{
    if are_hex_digits(high, low) {
        Some(octet_of_digits(high, low))
    } else {
        None
    }
}

// The value of the percent-encoded octet with which the text begins, and the rest.
pub(crate) fn split_octet(text: &[u8]) -> Option<(u8, &[u8])>
    ensures { MatchOption result (octets text.now ≡ [])
        (λ r. (octets text.now ≡ r.0 ∷ octets r.1.now) × (r.1.now ≡ drop 3 text.now)) }
{
    match text {
        [b'%', high, low, rest @ ..] => Some((octet(*high, *low)?, rest)),
        _ => None,
    }
}

// The value of the percent-encoded octet with which the text begins.
pub(crate) fn first_octet(text: &[u8]) -> Option<u8>
    ensures { MatchOption result (octets text.now ≡ []) (λ o. octets text.now ≡ o ∷ octets (drop 3 text.now)) }
{
    let (octet, _) = split_octet(text)?;
    Some(octet)
}

// The six bits of an octet that continues a character, where the text begins with such a percent-encoded octet, and the
// rest.
pub(crate) fn split_bits(text: &[u8]) -> Option<(u32, &[u8])>
    ensures { MatchOption result (begins_with_more (octets text.now) ≡ false)
        (λ r. (octets text.now ≡ (128 + r.0) ∷ octets r.1.now) × (r.0 < 64)) }
{
    match split_octet(text)? {
        (octet @ 0x80..=0xBF, rest) => Some((u32::from(octet - 0x80), rest)),
        _ => None,
    }
}
