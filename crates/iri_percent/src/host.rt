// Hosts in normal form.
ghost use Rattle.std.specs.Prelude.{◌≡◌, ◌==◌, ◌&&◌, ◌∷◌, true, cond, nat_lt, Some};
ghost use Rattle.std.specs.List.{list_all};
ghost use Rattle.iri_grammar.specs.Host.{is_host};
ghost use Rattle.iri_percent.specs.Units.{two_digits, whole_triplets};
ghost use Rattle.iri_percent.specs.NormalHost.{is_ascii_host, is_plain_byte, normal_host, octet_below_128};
ghost use Rattle.iri_grammar.specs.Characters.{percent_sign};

use crate::normal::show_normal;
use iri_grammar::spec::Spec;
use iri_text::{FormatSink, Show, Stop, TextSink};
use std::alloc::AllocError;
use std::fmt;
use std::marker::PhantomData;

/// A host that shows itself in normal form (RFC 3986 section 6.2.2.1): where every character of it and every octet that is
/// percent-encoded is ASCII, triplet normal form with the other letters in lower case; otherwise triplet normal form.
///
/// ```
/// use iri::format::ToStringFallible;
/// use iri::normalize::NormalizedHost;
/// use iri::spec::UriSpec;
/// let host = NormalizedHost::<UriSpec>::new("EXAMPLE%2Dsite.com");
/// assert_eq!(rt; host.try_to_string(rt.alloc())?.as_str(), "example-site.com");
/// ```
#[derive_where(Debug)]
pub struct NormalizedHost<'a, S: Spec> {
    host: &'a str,
    #[derive_where(skip(Debug))]
    spec: PhantomData<S>,
    pub ghost valid: { is_host S.tests host.now ≡ true },
}

impl<S: Spec> Clone for NormalizedHost<'_, S> {
    ghost is_clone = { λ v w. w ≡ v };

    ghost is_infallible = { λ _. Unit {0} };

    fn clone(&self) -> Result<Self, AllocError> {
        Ok(*self)
    }
}

impl<S: Spec> Copy for NormalizedHost<'_, S> {}

impl<'a, S: Spec> NormalizedHost<'a, S> {
    /// The normal form of a host. It has a condition: the text is a host of `S`, which `validate::host` tests.
    pub fn new(host: &'a str) -> Self
        requires { is_host S.tests host.now ≡ true }
        ensures { result.host.now ≡ host.now }
    {
        NormalizedHost {
            host,
            spec: PhantomData,
        }
    }
}

// Whether the octet of these hex digits is ASCII.
fn is_low(digits: &[u8]) -> bool
    requires { two_digits digits.now ≡ true }
    ensures { result ≡ octet_below_128 digits.now }
{
    digits[0] < b'8'
}

// Whether the first byte is ASCII, and so is the octet where it begins a percent-encoded one.
#[tactic(auto, using(crate::proofs::hosts::AsciiHosts::percent_digits))]
fn is_ascii_prefix(first: u8, tail: &[u8]) -> bool
    requires { whole_triplets (first ∷ tail.now) ≡ true }
    ensures { result ≡ (nat_lt first 128 && cond (first == percent_sign) (octet_below_128 tail.now) true) }
{
    first < 128 && (first != b'%' || is_low(tail))
}

/// Whether each byte of the host is ASCII, and so is each octet that is percent-encoded. It has a condition: two hex digits
/// follow each `%`, as `validate::host` tests.
pub fn is_ascii_host(host: &[u8]) -> bool
    requires { whole_triplets host.now ≡ true }
    ensures { result ≡ is_ascii_host host.now }
{
    let mut rest = host;
    while let [first, tail @ ..] = rest {
        if !is_ascii_prefix(*first, tail) {
            return false;
        }
        rest = tail;
    }
    true
}

// Whether the byte is ASCII, no `%` and no capital letter, without a branch.
#[inline(always)]
fn is_plain_byte(b: u8) -> bool
    ensures { result ≡ is_plain_byte b }
{
    (b < 128) & ((b != b'%') & !b.is_ascii_uppercase())
}

/// Whether the text is ASCII without a percent-encoded octet and a capital letter: as a host or a scheme it is in normal
/// form as it is.
pub fn is_plain(text: &[u8]) -> bool
    ensures { result ≡ list_all is_plain_byte text.now }
{
    text.iter().all(|b| is_plain_byte(*b))
}

impl<S: Spec> Show for NormalizedHost<'_, S> {
    ghost text = { λ h. normal_host S.tests h.host.now };

    #[inline(always)]
    fn show<W: TextSink>(&self, sink: &mut W) -> Result<(), Stop> {
        if is_plain(self.host.as_bytes()) {
            return sink.put(self.host);
        }
        show_normal::<S, W>(self.host, is_ascii_host(self.host.as_bytes()), sink)
    }
}

impl<S: Spec> fmt::Display for NormalizedHost<'_, S> {
    ghost output = { λ h. Some (normal_host S.tests h.host.now) };

    ghost styled_output = { λ h _. Some (normal_host S.tests h.host.now) };

    fn fmt<W: fmt::Write>(&self, f: &mut fmt::Formatter<W>) -> fmt::Result {
        FormatSink::new(f).display(self)
    }
}
