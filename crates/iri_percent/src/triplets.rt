// Texts in triplet normal form.
ghost use Rattle.std.specs.Prelude.{◌≡◌, true, Some};
ghost use Rattle.iri_percent.specs.Units.{whole_triplets};
ghost use Rattle.iri_percent.specs.Triplets.{pct};

use crate::normal::show_normal;
use iri_grammar::spec::Spec;
use iri_text::{FormatSink, Show, Stop, TextSink};
use std::alloc::AllocError;
use std::fmt;
use std::marker::PhantomData;

/// A part of a reference that shows itself in triplet normal form (RFC 3986 sections 6.2.2.1 and 6.2.2.2, RFC 3987
/// section 5.3.2.3): an unreserved character in triplets is written as itself, every other triplet has capital hex
/// digits, and the rest stays. A triplet is a percent-encoded octet, `%` and two hex digits.
///
/// ```
/// use iri::format::ToStringFallible;
/// use iri::normalize::PctCaseNormalized;
/// use iri::spec::UriSpec;
/// let path = PctCaseNormalized::<UriSpec>::new("/%7ebob/%3aa");
/// assert_eq!(rt; path.try_to_string(rt.alloc())?.as_str(), "/~bob/%3Aa");
/// ```
#[derive_where(Debug)]
pub struct PctCaseNormalized<'a, S: Spec> {
    part: &'a str,
    #[derive_where(skip(Debug))]
    spec: PhantomData<S>,
    pub ghost whole: { whole_triplets part.now ≡ true },
}

impl<S: Spec> Clone for PctCaseNormalized<'_, S> {
    ghost is_clone = { λ v w. w ≡ v };

    ghost is_infallible = { λ _. Unit {0} };

    fn clone(&self) -> Result<Self, AllocError> {
        Ok(*self)
    }
}

impl<S: Spec> Copy for PctCaseNormalized<'_, S> {}

impl<'a, S: Spec> PctCaseNormalized<'a, S> {
    /// The normal form of a text. It has a condition: two hex digits follow each `%`, as in every part of a reference.
    /// `validate::path`, `validate::query` and their kin are Ok only then; of any text it is so where the
    /// `bytes_fragments` of `decode_whatwg_bytes` have no `StrayPercent`.
    pub fn new(part: &'a str) -> Self
        requires { whole_triplets part.now ≡ true }
        ensures { result.part.now ≡ part.now }
    {
        PctCaseNormalized {
            part,
            spec: PhantomData,
        }
    }
}

impl<S: Spec> Show for PctCaseNormalized<'_, S> {
    ghost text = { λ p. pct S.tests p.part.now };

    fn show<W: TextSink>(&self, sink: &mut W) -> Result<(), Stop> {
        show_normal::<S, W>(self.part, false, sink)
    }
}

impl<S: Spec> fmt::Display for PctCaseNormalized<'_, S> {
    ghost output = { λ p. Some (pct S.tests p.part.now) };

    ghost styled_output = { λ p _. Some (pct S.tests p.part.now) };

    fn fmt<W: fmt::Write>(&self, f: &mut fmt::Formatter<W>) -> fmt::Result {
        FormatSink::new(f).display(self)
    }
}
