// IPv4 texts (RFC 3986 section 3.2.2).
ghost use Rattle.std.specs.Prelude.{◌≡◌};
ghost use Rattle.iri_grammar.specs.Ipv4.{is_hundreds, is_dec_octet, is_ipv4};

use crate::cutting::cut;

// Whether three digits are a number from 100 to 255.
#[tactic(auto, using(std::proofs::lemmas::Bool::Decides::nat_tests), unfolding(crate::specs::Ipv4::is_hundreds))]
fn is_hundreds(a: u8, b: u8, c: u8) -> bool
    ensures { result ≡ is_hundreds a b c }
{
    match (a, b) {
        (b'1', b'0'..=b'9') | (b'2', b'0'..=b'4') => c.is_ascii_digit(),
        (b'2', b'5') => b'0' <= c && c <= b'5',
        _ => false,
    }
}

// Whether the bytes are a number from 0 to 255 without leading zero.
fn is_dec_octet(s: &[u8]) -> bool
    ensures { result ≡ is_dec_octet s.now }
{
    match s {
        [a] => a.is_ascii_digit(),
        [a, b] => b'1' <= *a && *a <= b'9' && b.is_ascii_digit(),
        [a, b, c] => is_hundreds(*a, *b, *c),
        _ => false,
    }
}

// Whether the text is four numbers from 0 to 255, without leading zeros, parted by dots.
pub(crate) fn is_ipv4(s: &str) -> bool
    ensures { result ≡ is_ipv4 s.now }
{
    let mut rest = s;
    let mut left = 3u8;
    'octets: loop {
        let (octet, more) = cut(rest, b'.');
        if !is_dec_octet(octet.as_bytes()) {
            return false;
        }
        let Some(next) = more else {
            return left == 0;
        };
        if left == 0 {
            return false;
        }
        left -= 1;
        rest = next;
    }
}
