//! The parts of an authority (RFC 3986 section 3.2).
ghost use Rattle.std.specs.Prelude.{◌≡◌, ◌≤◌, ◌++◌, not, false, length, true, MatchOption};
ghost use Rattle.std.specs.List.{list_all};
ghost use Rattle.std.specs.Str.{is_utf8};
ghost use Rattle.memchr.specs.Find.{IsLastByte, is_byte};
ghost use Rattle.iri_grammar.specs.Components.{is_port};
ghost use Rattle.iri_grammar.specs.Authority.{is_authority, authority_parts, userinfo_of, after_userinfo, host_of};
ghost use Rattle.iri_grammar.specs.Authority.{port_of};
ghost use Rattle.iri_grammar.specs.ClassTests.{ascii_test};
ghost use Rattle.iri_grammar.specs.Seen.{is_plain_authority, is_small};
ghost use Rattle.iri_grammar.specs.declared.class.Class.TheVariants.{Userinfo};
ghost use Rattle.iri_grammar.specs.inside.LastColon.{LastColon, NoColon};
ghost use Rattle.iri_grammar.specs.inside.PlainAuthority.{is_small_name, name_len, plain_len, port_len};
ghost use Rattle.iri_grammar.specs.Spans.{span_parts};
ghost use Rattle.iri_grammar.specs.OptionalSlices.{now_of};

use crate::class::Class;
use crate::cutting::cut;
use crate::digits::{all_digits, digits_len};
use crate::run::{run_len, small_name_len};
use crate::spec::Spec;
use memchr::memrchr;
use std::str;

/// The parts of an authority, as slices of its text (RFC 3986 section 3.2).
///
/// ```
/// use iri::components::AuthoritySpan;
/// let span = AuthoritySpan::cut("me@h:8");
/// assert_eq!(rt; span.userinfo(), Some("me"));
/// assert_eq!(rt; span.host(), "h");
/// assert_eq!(rt; span.port(), Some("8"));
/// ```
#[derive(Clone, Copy, Debug)]
pub struct AuthoritySpan<'a> {
    userinfo: Option<&'a str>,
    host: &'a str,
    port: Option<&'a str>,
}

// Where the last byte of this kind is.
fn rfind(s: &str, delimiter: u8) -> Option<usize>
    ensures { IsLastByte (is_byte delimiter) s.now result }
{
    memrchr(delimiter, s.as_bytes())
}

// Where the last colon is.
#[tactic(auto, using(crate::proofs::authorities::LastColons::found))]
fn last_colon(s: &str) -> Option<usize>
    ensures { MatchOption result (NoColon s.now) (λ k. LastColon s.now k) }
{
    rfind(s, b':')
}

// Whether the text is digits, possibly none.
pub(crate) fn is_port(s: &str) -> bool
    ensures { result ≡ is_port s.now }
{
    all_digits(s.as_bytes())
}

// How many bytes at the start are ASCII characters of a name, perhaps with a port, and whether a capital letter is among them.
#[derive(Clone, Copy)]
struct NameLen {
    len: usize,
    capitals: bool,
}

// The characters of a name at the start, one by one.
#[inline(always)]
fn short_name_len(bytes: &[u8]) -> NameLen
    ensures len { result.len ≡ name_len bytes.now }
    ensures within { result.len ≤ length bytes.now }
    ensures capitals { result.capitals ≡ not (is_small_name bytes.now) }
{
    let mut capitals = false;
    for (i, b) in bytes.iter().enumerate() {
        if !Class::RegName.has_byte(*b) {
            return NameLen { len: i, capitals };
        }
        capitals |= b.is_ascii_uppercase();
    }
    NameLen {
        len: bytes.len(),
        capitals,
    }
}

// How many ASCII characters of a name are at the start; mostly there is none.
#[inline(always)]
fn rest_of_name(bytes: &[u8]) -> usize
    ensures { result ≡ name_len bytes.now }
{
    match bytes {
        [b, ..] if Class::RegName.has_byte(*b) => run_len(Class::RegName, bytes),
        _ => 0,
    }
}

// The characters of a name at the start. Those in lower case are passed by 16 bytes at a time: web's lines take 1.3 instructions a
// byte fewer than by `short_name_len` alone.
#[inline(always)]
fn name_len(bytes: &[u8]) -> NameLen
    ensures len { result.len ≡ name_len bytes.now }
    ensures within { result.len ≤ length bytes.now }
    ensures capitals { result.capitals ≡ not (is_small_name bytes.now) }
{
    if bytes.len() < 16 {
        return short_name_len(bytes);
    }
    let small = small_name_len(bytes);
    let rest = rest_of_name(&bytes[small..]);
    NameLen {
        len: small + rest,
        capitals: rest != 0,
    }
}

// How many bytes a colon and digits after it have at the start; 0 where there are none.
fn port_len(bytes: &[u8]) -> usize
    ensures len { result ≡ port_len bytes.now }
    ensures within { result ≤ length bytes.now }
{
    match bytes {
        [b':', rest @ ..] => match digits_len(rest) {
            0 => 0,
            digits => digits + 1,
        },
        _ => 0,
    }
}

// A name in ASCII without percent-encoded octets at the start, with a port that isn't empty, where one follows.
#[inline(always)]
fn plain_len(bytes: &[u8]) -> NameLen
    ensures len { result.len ≡ plain_len bytes.now }
    ensures within { result.len ≤ length bytes.now }
    ensures capitals { result.capitals ≡ not (is_small_name bytes.now) }
{
    let name = name_len(bytes);
    NameLen {
        len: name.len + port_len(&bytes[name.len..]),
        capitals: name.capitals,
    }
}

// Such a name and port, what follows them, and whether a capital letter may be among them.
#[derive(Clone, Copy)]
pub(crate) struct PlainCut<'a> {
    pub authority: &'a str,
    pub rest: &'a [u8],
    pub capitals: bool,
}

// Bytes cut after the name and port at their start.
#[inline(always)]
pub(crate) fn cut_plain(s: &[u8]) -> PlainCut<'_>
    ensures whole { s.now ≡ result.authority.now ++ result.rest.now }
    ensures chars { list_all (ascii_test Userinfo) result.authority.now ≡ true }
    ensures plain { is_plain_authority result.authority.now ≡ true }
    ensures capitals { result.capitals ≡ false → list_all is_small result.authority.now ≡ true }
    ensures text { is_utf8 s.now ≡ is_utf8 result.rest.now }
{
    let plain = plain_len(s);
    let authority = unsafe { str::from_utf8_unchecked(&s[..plain.len]) };
    PlainCut {
        authority,
        rest: &s[plain.len..],
        capitals: plain.capitals,
    }
}

// The userinfo, where there is an `@`, and what follows it.
fn cut_userinfo(s: &str) -> (Option<&str>, &str)
    ensures userinfo { now_of result.0 ≡ userinfo_of s.now }
    ensures rest { result.1.now ≡ after_userinfo s.now }
{
    match cut(s, b'@') {
        (userinfo, Some(rest)) => (Some(userinfo), rest),
        (_, None) => (None, s),
    }
}

// The host, and the port where only digits follow the last colon.
fn cut_port(s: &str) -> (&str, Option<&str>)
    ensures host { result.0.now ≡ host_of s.now }
    ensures port { now_of result.1 ≡ port_of s.now }
{
    match last_colon(s) {
        Some(i) => {
            let port = &s[i + 1..];
            if is_port(port) {
                (&s[..i], Some(port))
            } else {
                (s, None)
            }
        }
        None => (s, None),
    }
}

impl<'a> AuthoritySpan<'a> {
    /// The parts of an authority of `S`. It has a condition: the text is one, which `validate::authority` tests.
    pub fn of<S: Spec>(authority: &'a str) -> AuthoritySpan<'a>
        requires { is_authority S.tests authority.now ≡ true }
        ensures { span_parts result ≡ authority_parts authority.now }
    {
        AuthoritySpan::cut(authority)
    }

    /// The parts of any text, read as an authority: by its first `@`, and by its last `:` where only digits follow that.
    /// Whether each is in its production isn't asked.
    #[tactic(auto, unfolding(crate::specs::Authority::authority_parts))]
    pub fn cut(authority: &'a str) -> AuthoritySpan<'a>
        ensures { span_parts result ≡ authority_parts authority.now }
    {
        let (userinfo, rest) = cut_userinfo(authority);
        let (host, port) = cut_port(rest);
        AuthoritySpan {
            userinfo,
            host,
            port,
        }
    }

    /// The userinfo, without the `@` after it; `None` exactly where there is no `@`.
    pub fn userinfo(&self) -> Option<&'a str>
        ensures { now_of result ≡ (span_parts self.now).userinfo }
    {
        self.userinfo
    }

    /// The host.
    pub fn host(&self) -> &'a str
        ensures { result.now ≡ (span_parts self.now).host }
    {
        self.host
    }

    /// The port, without the `:` before it; a `:` without digits gives the empty text, and `None` comes exactly where
    /// no `:` follows the host, as in `[::1]`.
    pub fn port(&self) -> Option<&'a str>
        ensures { now_of result ≡ (span_parts self.now).port }
    {
        self.port
    }
}
