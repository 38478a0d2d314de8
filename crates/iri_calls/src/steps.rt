// Steps to normal forms, in words (RFC 3986 sections 6.2.2 and 6.2.3).
ghost use Rattle.iri_calls.specs.Outcome.{Answered};
ghost use Rattle.iri_calls.specs.Resolutions.{steps_in, steps_outcome};

use crate::buffer::answer_text;
use crate::fault::{answer, answer_fault};
use crate::grammar::{IRI, URI, mode_of};
use crate::status::{BAD_TEXT, UNKNOWN};
use iri_grammar::spec::{IriSpec, Spec, UriSpec};
use iri_normal::mode::CanonMode;
use iri_resolve::normal_steps::show_steps_in;
use iri_text::{Show, Stop, TextSink};
use iri_types::view::RiStr;

// The steps from a text to its normal form in a mode, each with an LF.
#[derive(Drop)]
struct Steps<'a, S: Spec> {
    mode: CanonMode,
    view: RiStr<'a, S>,
}

impl<S: Spec> Show for Steps<'_, S> {
    ghost use Rattle.iri_grammar.specs.Split.{split_of};
    ghost use Rattle.iri_resolve.specs.NormalSteps.{steps_of};
    ghost use Rattle.iri_resolve.specs.StepSinks.{step_lines};
    ghost use Rattle.iri_types.specs.Texts.{text};

    ghost text = { λ x. step_lines (steps_of S.tests x.mode (split_of (text x.view))) };

    fn show<W: TextSink>(&self, sink: &mut W) -> Result<(), Stop> {
        show_steps_in(sink, self.mode, self.view)
    }
}

// The steps in one grammar.
fn write_steps<S: Spec>(mode: CanonMode, text: &[u8], out: &mut [u8], detail: &mut usize) -> u8
    ensures { Answered (steps_in mode text.now S.tests) out.old out.new detail.new result }
{
    match RiStr::<S>::try_from_bytes(text) {
        Ok(view) => answer_text(out, &Steps { mode, view }, detail),
        Err(error) => answer_fault(BAD_TEXT, error.kind(), detail),
    }
}

/// The steps that lead a text with a scheme to its normal form.
pub fn irikit_steps(grammar: u32, mode: u32, text: &[u8], out: &mut [u8], detail: &mut usize) -> u8
    ensures { Answered (steps_outcome grammar mode text.now) out.old out.new detail.new result }
{
    match (grammar, mode_of(mode)) {
        (URI, Some(mode)) => write_steps::<UriSpec>(mode, text, out, detail),
        (IRI, Some(mode)) => write_steps::<IriSpec>(mode, text, out, detail),
        _ => answer(UNKNOWN, detail),
    }
}
