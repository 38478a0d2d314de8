// The lines after the base line.
ghost use Rattle.std.specs.Prelude.{◌≡◌, ◌≢◌, ◌≤◌, ℕ, List, false, length};
ghost use Rattle.iri_text.specs.Sink.{KeepsRoom, sink_state};
ghost use Rattle.iri_normal.specs.Resolver.{base_text};
ghost use Rattle.iri_cli.specs.run.Run.{outside_state};
ghost use Rattle.iri_cli.specs.inside.Steps.{end_at, end_of_all};
ghost use Rattle.iri_cli.specs.inside.Going.{Beginning, FlushedAfter, ComesNext, GoesOn, HasAnswer, ahead};
ghost use Rattle.iri_cli.specs.inside.Answering.{Answering, AnswersLine, AnswersLines, IsReady, ClosesRun, end_of_error};
ghost use Rattle.iri_cli.specs.declared.run.end.End.TheVariants.{SinkFailed};

use crate::run::answers::{AnswerError, Answers};
use crate::run::end::End;
use iri_grammar::spec::Spec;
use iri_normal::resolver::FixedBaseResolver;
use iri_text::{Failed, LineFault, LineReader, Sink, Source};

/// The end of a run at a fault of its reader.
pub fn fault_end(fault: LineFault) -> End
    ensures { result ≡ end_at fault }
{
    match fault {
        LineFault::Source => End::SourceFailed,
        LineFault::LineTooLong => End::LineTooLong,
        LineFault::InputTooLong => End::InputTooLong,
    }
}

// The end of a run that answered all lines.
fn last_end(all_good: bool) -> End
    ensures { result ≡ end_of_all all_good }
{
    if all_good { End::Done } else { End::SomeBad }
}

// The end of a run at an answer that failed.
fn error_end(error: AnswerError) -> End
    ensures { result ≡ end_of_error error }
{
    match error {
        AnswerError::SinkFailed => End::SinkFailed,
        AnswerError::Memory => End::Memory,
    }
}

// Flushes the sink after an answer, where the reader holds no LF after the line that it has.
#[inline(always)]
fn flushed<O: Sink>(
    answer: Result<bool, AnswerError>,
    reader: &LineReader,
    sink: &mut O,
) -> Result<bool, AnswerError>
    ensures { let state = sink_state O.written O.faults O.room_left in
        FlushedAfter (state sink.old) (state sink.new) answer result }
{
    if reader.holds_lf() {
        return answer;
    }
    match answer {
        Ok(good) => match sink.flush() {
            Ok(()) => Ok(good),
            Err(Failed) => Err(AnswerError::SinkFailed),
        },
        Err(error) => Err(error),
    }
}

// Answers the line that the reader has.
fn answer_line<S: Spec, A: Answers<S>, O: Sink>(
    answers: &mut A,
    resolver: &FixedBaseResolver<'_, S>,
    reader: &LineReader,
    sink: &mut O,
) -> Result<bool, AnswerError>
    requires { (at : Answering) × (A.stands_at answers.old (base_text resolver.now) at)
        × (length reader.now.line ≤ at.rules.line_limit)
        × (length at.between ≤ at.rules.input_limit) }
    ensures { let state = sink_state O.written O.faults O.room_left in
        (at : Answering) → A.stands_at answers.old (base_text resolver.now) at
        → AnswersLine (A.stands_at answers.new (base_text resolver.now)) at reader.now.line
        (state sink.old) (state sink.new) result }
{
    let answer = answers.answer(resolver, reader.line(), sink);
    flushed(answer, reader, sink)
}

/// Goes to the next line, or to the end of the run.
#[inline(always)]
pub(crate) fn next_line<I: Source>(
    all_good: bool,
    reader: &mut LineReader,
    source: &mut I,
) -> Option<End>
    requires { reader.old.done ≡ false }
    ensures { ComesNext reader.old reader.new (I.left source.old) (I.left source.new)
        (I.faults source.old) (I.faults source.new) all_good result }
{
    match reader.advance(source) {
        Ok(true) => None,
        Ok(false) => Some(last_end(all_good)),
        Err(fault) => Some(fault_end(fault)),
    }
}

/// Goes on after an answer to the next line, or to the end of the run.
#[inline(always)]
pub(crate) fn go_on<I: Source, O: Sink>(
    answer: Result<bool, AnswerError>,
    all_good: &mut bool,
    reader: &mut LineReader,
    source: &mut I,
    sink: &mut O,
) -> Option<End>
    requires { let state = outside_state I.left I.faults O.written O.faults O.room_left in
        (b : Beginning) × HasAnswer b reader.old (state source.old sink.old) all_good.old answer }
    ensures { let state = outside_state I.left I.faults O.written O.faults O.room_left in
        (b : Beginning) → HasAnswer b reader.old (state source.old sink.old) all_good.old answer
        → GoesOn b (ahead reader.old) reader.new (state source.new sink.new) all_good.new result }
{
    match flushed(answer, reader, sink) {
        Ok(good) => {
            *all_good &= good;
            next_line(*all_good, reader, source)
        }
        Err(error) => Some(error_end(error)),
    }
}

// Puts the text after all answers.
fn close_lines<S: Spec, A: Answers<S>, O: Sink>(
    answers: &mut A,
    all_good: bool,
    sink: &mut O,
) -> End
    ensures closes { let state = sink_state O.written O.faults O.room_left in
        (text : List ℕ) (at : Answering) → A.stands_at answers.old text at
        → ClosesRun (state sink.old) (state sink.new) all_good
        (at.rules.closing at.base at.between) result }
    ensures room { (text : List ℕ) (at : Answering) → A.stands_at answers.old text at
        → KeepsRoom (O.room_left sink.old) (O.room_left sink.new)
        (at.rules.closing at.base at.between) (result ≢ SinkFailed) }
{
    match answers.close(sink) {
        Ok(()) => last_end(all_good),
        Err(Failed) => End::SinkFailed,
    }
}

/// Answers the lines after a base line that is taken, which the reader gave before.
pub fn answer_lines<S: Spec, A: Answers<S>, I: Source, O: Sink>(
    answers: &mut A,
    resolver: &FixedBaseResolver<'_, S>,
    mut reader: LineReader,
    source: &mut I,
    sink: &mut O,
) -> End
    requires { (start : Answering)
        × IsReady (A.stands_at answers.old (base_text resolver.now)) start reader }
    ensures { let state = outside_state I.left I.faults O.written O.faults O.room_left in
        (start : Answering)
        → IsReady (A.stands_at answers.old (base_text resolver.now)) start reader
        → AnswersLines start reader
        (state source.old sink.old) (state source.new sink.new) result }
{
    if let Err(Failed) = sink.flush() {
        return End::SinkFailed;
    }
    let mut all_good = true;
    loop {
        match reader.advance(source) {
            Ok(true) => match answer_line::<S, A, O>(answers, resolver, &reader, sink) {
                Ok(good) => all_good &= good,
                Err(error) => return error_end(error),
            },
            Ok(false) => return close_lines::<S, A, O>(answers, all_good, sink),
            Err(fault) => return fault_end(fault),
        }
    }
}
