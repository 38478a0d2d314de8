//! The run over a writer of std.
ghost use Rattle.std.specs.Prelude.{◌≡◌, ◌≢◌, ℕ, false, map, string_bytes};
ghost use Rattle.iri_cli.specs.generator.References.{gen_text};
ghost use Rattle.iri_cli.specs.help.Notices.{MakesText, Tells, notice_text};
ghost use Rattle.iri_cli.specs.inside.HandsOn.{HandsOn};
ghost use Rattle.iri_cli.specs.run.Run.{RunsLines, outside};
ghost use Rattle.iri_cli.specs.run.Words.{IsCommand, rules_of, tests_of};
ghost use Rattle.iri_cli.specs.declared.help.Notice.{Notice};
ghost use Rattle.iri_cli.specs.declared.run.words.Command.{Command};
ghost use Rattle.iri_cli.specs.declared.run.words.Grammar.{Grammar};
ghost use Rattle.iri_cli.specs.declared.run.words.LineCommand.{LineCommand};
ghost use Rattle.iri_percent.specs.declared.canon_mode.CanonMode.{CanonMode};
ghost use Rattle.iri_text.specs.Streams.{untold};

use crate::run::{NO_COMMAND, run};
use iri_text::{Failed, Sink, Source, WriteSink};
use std::alloc::Global;
use std::io::Write;

// The status where the sink failed.
const SINK_FAILED: u8 = 5;

// The status of a run, once what its sink holds back is handed on. Where the words are no command,
// or the sink failed, it isn't asked.
fn hand_on<W: Write>(status: u8, sink: &mut WriteSink<W>) -> u8
    ensures flushes { HandsOn sink.old.faults sink.new.faults status result }
    ensures handed_on { result ≢ 2 → result ≢ 5 → sink.new.pending ≡ false }
{
    if status == NO_COMMAND || status == SINK_FAILED {
        return status;
    }
    match sink.flush() {
        Ok(()) => status,
        Err(Failed) => SINK_FAILED,
    }
}

/// Does what [`run`](super::run) does, over a writer, as the program calls it. What is answered is
/// handed on to the writer's device at the end: nothing is pending then, but where the words are no
/// command or the writer failed.
///
/// Statuses are those of `run`. Such a sink tells no bytes, so its clauses speak of counts of
/// faults; what the answers are is said by those of `run`.
pub fn run_to_writer<I: Source, W: Write>(
    alloc: Global,
    words: &[String],
    source: &mut I,
    sink: &mut WriteSink<W>,
) -> u8
    // Words that are no command: nothing is read or written.
    ensures no_command { ((command : Command) → ¬ (IsCommand (map string_bytes words.now) command))
        → (result ≡ 2)
        × (outside (I.left source.new) (I.faults source.new) (untold sink.new.faults)
        ≡ outside (I.left source.old) (I.faults source.old) (untold sink.old.faults)) }

    // `--help` and `--version`: the text is written, and nothing is read.
    ensures tells { (notice : Notice) → IsCommand (map string_bytes words.now) (Command.Tell notice)
        → Tells (notice_text notice)
        (outside (I.left source.old) (I.faults source.old) (untold sink.old.faults))
        (outside (I.left source.new) (I.faults source.new) (untold sink.new.faults)) result }

    // A command over lines: each status comes only by its cause.
    ensures lines { (command : LineCommand) (mode : CanonMode) (grammar : Grammar)
        → IsCommand (map string_bytes words.now) (Command.Lines command mode grammar)
        → RunsLines (rules_of command (tests_of grammar) mode)
        (outside (I.left source.old) (I.faults source.old) (untold sink.old.faults))
        (outside (I.left source.new) (I.faults source.new) (untold sink.new.faults)) result }

    // `gen`: the three lines are written, and nothing is read; or allocation failed.
    ensures gens { (grammar : Grammar) (count : ℕ)
        → IsCommand (map string_bytes words.now) (Command.Gen grammar count)
        → MakesText (gen_text (tests_of grammar) count)
        (outside (I.left source.old) (I.faults source.old) (untold sink.old.faults))
        (outside (I.left source.new) (I.faults source.new) (untold sink.new.faults)) result }

    // Nothing is pending, but where the words are no command or the sink failed.
    ensures handed_on { result ≢ 2 → result ≢ 5 → sink.new.pending ≡ false }
{
    let status = run(alloc, words, source, sink);
    hand_on(status, sink)
}
