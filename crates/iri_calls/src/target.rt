// Targets of references, as they stand (RFC 3986 section 5.2.2).
ghost use Rattle.iri_calls.specs.Outcome.{Answered};
ghost use Rattle.iri_calls.specs.Outcomes.{in_grammar};
ghost use Rattle.iri_calls.specs.Resolutions.{target_in};

use crate::buffer::answer_text;
use crate::fault::{answer, answer_fault};
use crate::grammar::{IRI, URI};
use crate::status::{BAD_BASE, BAD_REFERENCE, UNKNOWN};
use iri_grammar::spec::{IriSpec, Spec, UriSpec};
use iri_normal::resolver::FixedBaseResolver;
use iri_normal::target_text::show_target;
use iri_text::{Show, Stop, TextSink};
use iri_types::kind::{Absolute, Reference};
use iri_types::split::SplitView;

// The target of a reference against a base.
#[derive(Drop)]
struct Target<'r, 'a, S: Spec> {
    resolver: &'r FixedBaseResolver<'a, S>,
    reference: &'r SplitView<'a, S, Reference>,
}

impl<S: Spec> Show for Target<'_, '_, S> {
    ghost use Rattle.iri_normal.specs.Resolver.{base_text};
    ghost use Rattle.iri_types.specs.SplitText.{split_text};
    ghost use Rattle.iri_calls.specs.Resolutions.{target_text};

    ghost text = { λ t. target_text (base_text t.resolver.now) (split_text t.reference.now) };

    fn show<W: TextSink>(&self, sink: &mut W) -> Result<(), Stop> {
        show_target(sink, self.resolver, self.reference)
    }
}

// The target in one grammar.
fn write_target<S: Spec>(base: &[u8], reference: &[u8], out: &mut [u8], detail: &mut usize) -> u8
    ensures { Answered (target_in base.now reference.now S.tests) out.old out.new detail.new result }
{
    let base = match SplitView::<S, Absolute>::absolute_from_bytes(base) {
        Ok(base) => base,
        Err(error) => return answer_fault(BAD_BASE, error.kind(), detail),
    };
    match SplitView::<S, Reference>::try_from_bytes(reference) {
        Ok(reference) => {
            let target = Target {
                resolver: &FixedBaseResolver::of_split(base),
                reference: &reference,
            };
            answer_text(out, &target, detail)
        }
        Err(error) => answer_fault(BAD_REFERENCE, error.kind(), detail),
    }
}

/// The target of a reference against a base, with its dot segments.
pub fn irikit_target(
    grammar: u32,
    base: &[u8],
    reference: &[u8],
    out: &mut [u8],
    detail: &mut usize,
) -> u8
    ensures { Answered (in_grammar grammar (target_in base.now reference.now)) out.old out.new detail.new result }
{
    match grammar {
        URI => write_target::<UriSpec>(base, reference, out, detail),
        IRI => write_target::<IriSpec>(base, reference, out, detail),
        _ => answer(UNKNOWN, detail),
    }
}
