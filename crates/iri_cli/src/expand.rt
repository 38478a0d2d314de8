// The answers of `expand`.
ghost use Rattle.std.specs.Prelude.{◌≡◌, ◌≢◌, ◌≤◌, ◌++◌, ◌∷◌, [], codes, decimal, false, length, Err, None};
ghost use Rattle.std.specs.Vec.{vec_capacity};
ghost use Rattle.iri_template.specs.Contexts.{value_in};
ghost use Rattle.iri_template.specs.ExpandedTexts.{expanded_text};
ghost use Rattle.iri_text.specs.Sink.{KeepsRoom, PutsAll, sink_state};
ghost use Rattle.iri_normal.specs.Resolver.{base_text};
ghost use Rattle.iri_cli.specs.run.Limits.{longest_line, answer_room};
ghost use Rattle.iri_cli.specs.canon.Answers.{refusal};
ghost use Rattle.iri_cli.specs.canon.Rules.{is_ok};
ghost use Rattle.iri_cli.specs.inside.Answering.{PutsAnswer};
ghost use Rattle.iri_cli.specs.expand.Answers.{expansion_answer, template_answer};
ghost use Rattle.iri_docs.specs.Expanded.{expansion_limit, within_limit};
ghost use Rattle.iri_template.specs.ErrorTexts.{description};
ghost use Rattle.iri_text.specs.LineEnds.{line_feed};
ghost use Rattle.iri_cli.specs.declared.run.answers.AnswerError.TheVariants.{SinkFailed};

pub(crate) mod line;
pub(crate) mod variables;

use crate::canon::put_answer;
use crate::expand::line::{Said, line_of};
use crate::expand::variables::apply;
use crate::run::answers::{AnswerError, Answers, Setup};
use crate::run::puts::{put_bad_line, put_number, say_good};
use iri_docs::expand::EXPANSION_LIMIT;
use iri_grammar::spec::Spec;
use iri_normal::mode::CanonMode;
use iri_normal::resolver::FixedBaseResolver;
use iri_template::error::Error;
use iri_template::expanded::Expanded;
use iri_template::simple_context::SimpleContext;
use iri_text::{CapacityOverflowError, Failed, Sink, write_to_slice};
use std::alloc::{AllocError, Global};

// Why a template isn't expanded, and an LF.
fn put_refusal<O: Sink>(sink: &mut O, error: Error) -> Result<(), Failed>
    ensures { let state = sink_state O.written O.faults O.room_left in
        PutsAll (state sink.old) (state sink.new) result (codes "template "
        ++ (description error.kind ++ (codes " at " ++ (decimal error.location ++ line_feed ∷ [])))) }
{
    sink.put_all(b"template ")?;
    sink.put_all(error.kind().description().as_bytes())?;
    sink.put_all(b" at ")?;
    put_number(sink, error.location())?;
    sink.put_all(b"\n")
}

// Puts the answer to an expansion by the rules of a mode, and says whether it is good. Two buffers have room for the expansion, and for its answer.
fn put_expansion<S: Spec, O: Sink>(
    sink: &mut O,
    output: &mut Vec<u8>,
    expansion: &mut [u8],
    mode: CanonMode,
    resolver: &FixedBaseResolver<'_, S>,
    expanded: &Expanded<'_, S, SimpleContext>,
) -> Result<bool, AnswerError>
    requires base { refusal S.tests (base_text resolver.now) ≡ None }
    requires short { length (base_text resolver.now) ≤ longest_line }
    requires room { length expansion.old ≡ expansion_limit }
    requires output_room { answer_room ≤ vec_capacity output.old }
    ensures puts { let state = sink_state O.written O.faults O.room_left in
        PutsAnswer is_ok (state sink.old) (state sink.new) false (expansion_answer S.tests mode
        (base_text resolver.now) (within_limit (expanded_text S.tests value_in expanded.now)))
        result }
    ensures room { KeepsRoom (O.room_left sink.old) (O.room_left sink.new)
        (expansion_answer S.tests mode (base_text resolver.now)
        (within_limit (expanded_text S.tests value_in expanded.now)))
        (result ≢ Err SinkFailed) }
    ensures capacity { vec_capacity output.old ≤ vec_capacity output.new }
{
    match write_to_slice(expansion, expanded) {
        Ok(text) => put_answer::<S, O>(sink, output, mode, resolver, text.as_bytes()),
        Err(CapacityOverflowError) => say_good(false, sink.put_all(b"bad expansion too long\n")),
    }
}

// Puts the answer to a template with these values by the rules of a mode, and says whether it is good.
pub(crate) fn put_template<'a, S: Spec, O: Sink>(
    sink: &mut O,
    output: &mut Vec<u8>,
    expansion: &mut [u8],
    mode: CanonMode,
    resolver: &FixedBaseResolver<'_, S>,
    values: &'a SimpleContext,
    template: &'a [u8],
) -> Result<bool, AnswerError>
    requires base { refusal S.tests (base_text resolver.now) ≡ None }
    requires short { length (base_text resolver.now) ≤ longest_line }
    requires room { length expansion.old ≡ expansion_limit }
    requires output_room { answer_room ≤ vec_capacity output.old }
    ensures puts { let state = sink_state O.written O.faults O.room_left in
        PutsAnswer is_ok (state sink.old) (state sink.new) false (template_answer S.tests mode
        (base_text resolver.now) (value_in values.now) template.now) result }
    ensures room { KeepsRoom (O.room_left sink.old) (O.room_left sink.new)
        (template_answer S.tests mode (base_text resolver.now) (value_in values.now) template.now)
        (result ≢ Err SinkFailed) }
    ensures capacity { vec_capacity output.old ≤ vec_capacity output.new }
{
    match Expanded::<'_, S, SimpleContext>::try_from_bytes(template, values) {
        Ok(expanded) => put_expansion(sink, output, expansion, mode, resolver, &expanded),
        Err(error) => say_good(false, put_refusal(sink, error)),
    }
}

/// Keeps the values of variables, and answers each template by the canonical text of its expansion against a base, by the
/// rules of a mode.
#[derive(Drop)]
pub struct Expand {
    alloc: Global,
    mode: CanonMode,
    values: SimpleContext,
    expansion: Vec<u8>,
    output: Vec<u8>,
}

impl<S: Spec> Answers<S> for Expand {
    type Start = Setup;

    ghost use Rattle.std.specs.Prelude.{refl};
    ghost use Rattle.std.specs.Vec.{vec_capacity};
    ghost use Rattle.iri_template.specs.Contexts.{value_in};
    ghost use Rattle.iri_cli.specs.inside.ExpandAt.{IsExpandAt};
    ghost use Rattle.iri_cli.specs.expand.Rules.{expand_rules};

    ghost rules = { λ setup. expand_rules S.tests setup.mode };

    ghost begins = { λ setup. record { line_limit = refl; input_limit = refl; refusal = refl } };

    ghost stands_at = { λ e base at. IsExpandAt S.tests e.mode base e.expansion.items
        (vec_capacity e.output) (value_in e.values) at };

    fn open(
        setup: Setup,
        _resolver: &FixedBaseResolver<'_, S>,
        output: Vec<u8>,
    ) -> Result<Self, AllocError> {
        let Setup { alloc, mode } = setup;
        Ok(Expand {
            alloc,
            mode,
            values: SimpleContext::new(alloc),
            expansion: vec![in alloc; 0; EXPANSION_LIMIT]?,
            output,
        })
    }

    fn answer<O: Sink>(
        &mut self,
        resolver: &FixedBaseResolver<'_, S>,
        line: &[u8],
        sink: &mut O,
    ) -> Result<bool, AnswerError> {
        match line_of(line) {
            Said::Changes(change) => match apply(self.alloc, &mut self.values, change) {
                Ok(()) => Ok(true),
                Err(_) => Err(AnswerError::Memory),
            },
            Said::Expands(template) => put_template::<S, O>(
                sink,
                &mut self.output,
                &mut self.expansion,
                self.mode,
                resolver,
                &self.values,
                template,
            ),
            Said::Bad => say_good(false, put_bad_line(sink)),
        }
    }

    fn close<O: Sink>(&mut self, _sink: &mut O) -> Result<(), Failed> {
        Ok(())
    }
}
