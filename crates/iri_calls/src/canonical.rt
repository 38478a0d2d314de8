// Canonical texts (RFC 3986 sections 5.2 and 6.2.2, RFC 3987 section 5.3.2).
ghost use Rattle.iri_calls.specs.Outcome.{Answered};
ghost use Rattle.iri_calls.specs.Outcomes.{canonical_as, canonical_outcome, uri_as, uri_outcome};

use crate::buffer::answer_text;
use crate::fault::{answer, answer_fault};
use crate::grammar::{IRI, URI, mode_of};
use crate::status::{BAD_BASE, BAD_REFERENCE, UNKNOWN};
use iri_grammar::spec::{IriSpec, Spec, UriSpec};
use iri_normal::canonical::show_canonical_in;
use iri_normal::mode::CanonMode;
use iri_normal::resolver::FixedBaseResolver;
use iri_percent::show_mapped_to_uri;
use iri_text::{Show, Stop, TextSink};
use iri_types::kind::{Absolute, Reference};
use iri_types::split::SplitView;

// The canonical text of a reference against a base, by the rules of a mode.
#[derive(Drop)]
pub(crate) struct Canonical<'r, 'a, S: Spec> {
    pub(crate) mode: CanonMode,
    pub(crate) resolver: &'r FixedBaseResolver<'a, S>,
    pub(crate) reference: &'r SplitView<'a, S, Reference>,
}

impl<S: Spec> Show for Canonical<'_, '_, S> {
    ghost use Rattle.iri_normal.specs.NormalForm.{canonical_in};
    ghost use Rattle.iri_normal.specs.Resolver.{base_text};
    ghost use Rattle.iri_types.specs.SplitText.{split_text};

    ghost text = { λ c. canonical_in S.tests c.mode (base_text c.resolver.now) (split_text c.reference.now) };

    fn show<W: TextSink>(&self, sink: &mut W) -> Result<(), Stop> {
        show_canonical_in(sink, self.mode, self.resolver, self.reference)
    }
}

// A value that shows the canonical text of IRIs mapped to a URI.
#[derive(Drop)]
struct CanonicalUri<'r, 'a> {
    canonical: Canonical<'r, 'a, IriSpec>,
}

impl Show for CanonicalUri<'_, '_> {
    ghost use Rattle.iri_grammar.specs.Classes.{iri_tests};
    ghost use Rattle.iri_normal.specs.NormalForm.{canonical_in};
    ghost use Rattle.iri_normal.specs.Resolver.{base_text};
    ghost use Rattle.iri_percent.specs.Mapping.{mapped};
    ghost use Rattle.iri_types.specs.SplitText.{split_text};

    ghost text = { λ u. mapped (canonical_in iri_tests u.canonical.mode (base_text u.canonical.resolver.now)
        (split_text u.canonical.reference.now)) };

    fn show<W: TextSink>(&self, sink: &mut W) -> Result<(), Stop> {
        show_mapped_to_uri(sink, &self.canonical)
    }
}

// The canonical text in one grammar.
fn canonical_as<S: Spec>(
    mode: CanonMode,
    base: &[u8],
    reference: &[u8],
    out: &mut [u8],
    detail: &mut usize,
) -> u8
    ensures { Answered (canonical_as mode base.now reference.now S.tests) out.old out.new detail.new result }
{
    let base = match SplitView::<S, Absolute>::absolute_from_bytes(base) {
        Ok(base) => base,
        Err(error) => return answer_fault(BAD_BASE, error.kind(), detail),
    };
    match SplitView::<S, Reference>::try_from_bytes(reference) {
        Ok(reference) => {
            let canonical = Canonical {
                mode,
                resolver: &FixedBaseResolver::of_split(base),
                reference: &reference,
            };
            answer_text(out, &canonical, detail)
        }
        Err(error) => answer_fault(BAD_REFERENCE, error.kind(), detail),
    }
}

/// The canonical text of a reference against a base.
pub fn irikit_canonical(
    grammar: u32,
    mode: u32,
    base: &[u8],
    reference: &[u8],
    out: &mut [u8],
    detail: &mut usize,
) -> u8
    ensures { Answered (canonical_outcome grammar mode base.now reference.now) out.old out.new detail.new result }
{
    match (grammar, mode_of(mode)) {
        (URI, Some(mode)) => canonical_as::<UriSpec>(mode, base, reference, out, detail),
        (IRI, Some(mode)) => canonical_as::<IriSpec>(mode, base, reference, out, detail),
        _ => answer(UNKNOWN, detail),
    }
}

// The canonical text of IRIs, mapped.
fn uri_as(mode: CanonMode, base: &[u8], reference: &[u8], out: &mut [u8], detail: &mut usize) -> u8
    ensures { Answered (uri_as mode base.now reference.now) out.old out.new detail.new result }
{
    let base = match SplitView::<IriSpec, Absolute>::absolute_from_bytes(base) {
        Ok(base) => base,
        Err(error) => return answer_fault(BAD_BASE, error.kind(), detail),
    };
    match SplitView::<IriSpec, Reference>::try_from_bytes(reference) {
        Ok(reference) => {
            let canonical = Canonical {
                mode,
                resolver: &FixedBaseResolver::of_split(base),
                reference: &reference,
            };
            answer_text(out, &CanonicalUri { canonical }, detail)
        }
        Err(error) => answer_fault(BAD_REFERENCE, error.kind(), detail),
    }
}

/// The canonical text of a reference against a base, both of IRIs, mapped to a URI.
pub fn irikit_canonical_to_uri(
    mode: u32,
    base: &[u8],
    reference: &[u8],
    out: &mut [u8],
    detail: &mut usize,
) -> u8
    ensures { Answered (uri_outcome mode base.now reference.now) out.old out.new detail.new result }
{
    match mode_of(mode) {
        Some(mode) => uri_as(mode, base, reference, out, detail),
        None => answer(UNKNOWN, detail),
    }
}
