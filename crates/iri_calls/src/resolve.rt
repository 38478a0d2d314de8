// References resolved against a base (RFC 3986 section 5.2), without a normal form.
ghost use Rattle.iri_calls.specs.Outcome.{Answered};
ghost use Rattle.iri_calls.specs.Outcomes.{in_grammar};
ghost use Rattle.iri_calls.specs.Resolutions.{resolved_in};

use crate::buffer::answer_text;
use crate::fault::{answer, answer_fault};
use crate::grammar::{IRI, URI};
use crate::status::{BAD_BASE, BAD_REFERENCE, UNKNOWN};
use iri_grammar::spec::{IriSpec, Spec, UriSpec};
use iri_normal::resolver::FixedBaseResolver;
use iri_types::kind::{Absolute, Reference};
use iri_types::split::SplitView;

// The resolved text in one grammar.
fn resolve_in<S: Spec>(base: &[u8], reference: &[u8], out: &mut [u8], detail: &mut usize) -> u8
    ensures { Answered (resolved_in base.now reference.now S.tests) out.old out.new detail.new result }
{
    let base = match SplitView::<S, Absolute>::absolute_from_bytes(base) {
        Ok(base) => base,
        Err(error) => return answer_fault(BAD_BASE, error.kind(), detail),
    };
    match SplitView::<S, Reference>::try_from_bytes(reference) {
        Ok(reference) => {
            let resolver = FixedBaseResolver::of_split(base);
            answer_text(out, &resolver.resolve_split(&reference), detail)
        }
        Err(error) => answer_fault(BAD_REFERENCE, error.kind(), detail),
    }
}

/// A reference resolved against a base.
pub fn irikit_resolve(
    grammar: u32,
    base: &[u8],
    reference: &[u8],
    out: &mut [u8],
    detail: &mut usize,
) -> u8
    ensures { Answered (in_grammar grammar (resolved_in base.now reference.now)) out.old out.new detail.new result }
{
    match grammar {
        URI => resolve_in::<UriSpec>(base, reference, out, detail),
        IRI => resolve_in::<IriSpec>(base, reference, out, detail),
        _ => answer(UNKNOWN, detail),
    }
}
