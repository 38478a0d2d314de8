// The run of a command over the lines of a source.
ghost use Rattle.std.specs.Prelude.{◌≡◌, ◌≤◌, ℕ, List, None, Option};
ghost use Rattle.std.specs.Vec.{vec_capacity};
ghost use Rattle.iri_text.specs.Sink.{sink_state};
ghost use Rattle.iri_types.specs.Texts.{text};
ghost use Rattle.iri_cli.specs.inside.Opening.{StandsAfter};
ghost use Rattle.iri_cli.specs.run.Buffers.{AreBuffers};
ghost use Rattle.iri_cli.specs.run.Limits.{answer_room};
ghost use Rattle.iri_cli.specs.run.Run.{Ran, Runs, outside, outside_state};

use crate::run::answering::{answer_lines, fault_end};
use crate::run::answers::Answers;
use crate::run::base::{first_line, refuse_base};
use crate::run::buffers::CanonBuffers;
use crate::run::end::{End, finish};
use crate::run::prepared::prepare_base;
use iri_grammar::spec::Spec;
use iri_normal::resolver::FixedBaseResolver;
use iri_text::{LineReader, Sink, Source};
use iri_types::view::RiAbsoluteStr;
use std::alloc::AllocError;

// Answers the lines that the reader gives after a base, which is prepared.
fn answer_after<S: Spec, A: Answers<S>, I: Source, O: Sink>(
    start: A::Start,
    base: RiAbsoluteStr<'_, S>,
    reader: LineReader,
    output: Vec<u8>,
    source: &mut I,
    sink: &mut O,
) -> End
    requires room { answer_room ≤ vec_capacity output }
    requires base { (line : List ℕ) × (left : Option (List ℕ))
        × StandsAfter S.tests (A.rules start) left (I.left source.old) reader line (text base) }
    ensures { let state = outside_state I.left I.faults O.written O.faults O.room_left in
        (line : List ℕ) (left : Option (List ℕ)) (faults : ℕ)
        → StandsAfter S.tests (A.rules start) left (I.left source.old) reader line (text base.entry)
        → faults ≤ I.faults source.old
        → Ran (A.rules start)
        (outside left faults (sink_state O.written O.faults O.room_left sink.old))
        (state source.new sink.new) result }
{
    let resolver = FixedBaseResolver::new(base);
    match A::open(start, &resolver, output) {
        Ok(mut answers) => {
            answer_lines::<S, A, I, O>(&mut answers, &resolver, reader, source, sink)
        }
        Err(AllocError) => End::Memory,
    }
}

// Reads the base line, prepares the base in a buffer, and answers the lines after it.
fn answer_with<S: Spec, A: Answers<S>, I: Source, O: Sink>(
    start: A::Start,
    mut reader: LineReader,
    base: &mut Vec<u8>,
    output: Vec<u8>,
    source: &mut I,
    sink: &mut O,
) -> End
    requires buffers { AreBuffers reader (vec_capacity base.old) (vec_capacity output) }
    requires not_fixed { (A.rules start).fixed_base ≡ None }
    ensures { let state = outside_state I.left I.faults O.written O.faults O.room_left in
        Ran (A.rules start) (state source.old sink.old) (state source.new sink.new) result }
{
    match reader.advance(source) {
        Ok(found) => match prepare_base::<S>(first_line(&reader, found), base) {
            Ok(base) => answer_after::<S, A, I, O>(start, base, reader, output, source, sink),
            Err(words) => refuse_base(sink, words),
        },
        Err(fault) => fault_end(fault),
    }
}

/// Reads a base line and the lines of a command after it, answers each, and gives the program's
/// status. It allocates nothing but what the command does.
pub(crate) fn run_lines<S: Spec, A: Answers<S>, I: Source, O: Sink>(
    start: A::Start,
    buffers: CanonBuffers,
    source: &mut I,
    sink: &mut O,
) -> u8
    requires { (A.rules start).fixed_base ≡ None }
    ensures { let state = outside_state I.left I.faults O.written O.faults O.room_left in
        Runs (A.rules start) (state source.old sink.old) (state source.new sink.new) result }
{
    let CanonBuffers {
        reader,
        mut base,
        output,
    } = buffers;
    let end = answer_with::<S, A, I, O>(start, reader, &mut base, output, source, sink);
    finish(sink, end)
}
