// IP literals: an IPv6 text or an IPvFuture in brackets (RFC 3986 section 3.2.2).
ghost use Rattle.std.specs.Prelude.{◌≡◌, ◌&&◌, ◌||◌, ◌==◌};
ghost use Rattle.std.specs.Char.{is_ascii_hexdigit};
ghost use Rattle.std.specs.List.{list_all};
ghost use Rattle.iri_grammar.specs.Classes.{is_ascii_userinfo};
ghost use Rattle.iri_grammar.specs.Cut.{before, after};
ghost use Rattle.iri_grammar.specs.Ipv6Test.{is_ipv6};
ghost use Rattle.iri_grammar.specs.IpLiteral.{some_of, is_future_address, is_ipvfuture, is_end, is_ip_literal};
ghost use Rattle.iri_grammar.specs.Characters.{dot, right_bracket};

use crate::class::Class;
use crate::cutting::cut;
use crate::digits::all_hex;
use crate::ipv6::is_ipv6;

// Whether the bytes are one or more hex digits.
fn is_version(s: &[u8]) -> bool
    ensures { result ≡ some_of is_ascii_hexdigit s.now }
{
    !s.is_empty() && all_hex(s)
}

fn all_userinfo(s: &[u8]) -> bool
    ensures { result ≡ list_all is_ascii_userinfo s.now }
{
    s.iter().all(|b| Class::Userinfo.has_byte(*b))
}

// Whether the bytes are one or more unreserved characters, sub-delims and colons, all ASCII.
fn is_address(s: &[u8]) -> bool
    ensures { result ≡ some_of is_ascii_userinfo s.now }
{
    !s.is_empty() && all_userinfo(s)
}

// Whether the text is what follows the `v` of an IPvFuture.
fn is_versioned(s: &str) -> bool
    ensures { result ≡ (some_of is_ascii_hexdigit (before dot s.now) && is_future_address (after dot s.now)) }
{
    match cut(s, b'.') {
        (version, Some(address)) => {
            is_version(version.as_bytes()) && is_address(address.as_bytes())
        }
        (_, None) => false,
    }
}

fn is_v(b: u8) -> bool
    ensures { result ≡ (b == 118 || b == 86) }
{
    b == b'v' || b == b'V'
}

// Whether the text is a `v`, a version in hex digits, a dot and an address.
fn is_ipvfuture(s: &str) -> bool
    ensures { result ≡ is_ipvfuture s.now }
{
    match s.as_bytes() {
        [v, ..] => is_v(*v) && is_versioned(&s[1..]),
        [] => false,
    }
}

// Whether the text is what follows the opening bracket of an IP literal.
fn is_closed_literal(s: &str) -> bool
    ensures { result ≡ (is_end (after right_bracket s.now)
        && (is_ipv6 (before right_bracket s.now) || is_ipvfuture (before right_bracket s.now))) }
{
    match cut(s, b']') {
        (inner, Some(rest)) => rest.is_empty() && (is_ipv6(inner) || is_ipvfuture(inner)),
        (_, None) => false,
    }
}

// Whether the text is an IPv6 text or an IPvFuture in brackets.
pub(crate) fn is_ip_literal(s: &str) -> bool
    ensures { result ≡ is_ip_literal s.now }
{
    match s.strip_prefix("[") {
        Some(rest) => is_closed_literal(rest),
        None => false,
    }
}
