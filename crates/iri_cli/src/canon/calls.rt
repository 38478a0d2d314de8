//! The lines of `canon`.
ghost use Rattle.std.specs.Prelude.{◌≢◌};
ghost use Rattle.iri_cli.specs.canon.Answers.{AnswersAreCanonicalIn};
ghost use Rattle.iri_cli.specs.run.Run.{Runs, outside_state};
ghost use Rattle.iri_cli.specs.canon.Rules.{canon_rules, canon_rules_in};

use crate::canon::Canon;
use crate::run::buffers::CanonBuffers;
use crate::run::opening::run_lines;
use iri_grammar::spec::Spec;
use iri_normal::mode::CanonMode;
use iri_text::{Sink, Source};

/// Reads a base line and reference lines, answers each reference line by its canonical text, and gives the program's status. It
/// allocates nothing.
///
/// - 0: all lines were answered, and each answer begins with `ok `; 1: the same, but some answer doesn't begin so
/// - 3: the base line is no absolute URI of `S`, and the one line written names its first fault
/// - 4: the source failed; 5: the sink failed
/// - 7: a line has more than [`LARGEST_LINE_LIMIT`](iri_text::LARGEST_LINE_LIMIT) bytes before its LF; 8: the input has more
///   than 1,073,741,824 bytes
pub fn canon_lines<S: Spec, I: Source, O: Sink>(
    buffers: CanonBuffers,
    source: &mut I,
    sink: &mut O,
) -> u8
    ensures runs { let state = outside_state I.left I.faults O.written O.faults O.room_left in
        Runs (canon_rules S.tests) (state source.old sink.old) (state source.new sink.new) result }
    ensures a_command { result ≢ 2 }
    ensures in_memory { result ≢ 6 }

    // Each good answer is a URI of the spec that splits into exactly the normal form of the target, and is its own canonical text.
    ensures canonical { AnswersAreCanonicalIn S.tests CanonMode.Default }
{
    canon_lines_in::<S, I, O>(CanonMode::Default, buffers, source, sink)
}

/// Reads a base line and reference lines, and answers each as [`canon_lines`] does, by the rules of a mode: that call is
/// this one with those of every scheme. By scheme rules, for five schemes, the default port goes, and beside an authority
/// an empty path becomes `/` (RFC 3986 section 6.2.3).
pub fn canon_lines_in<S: Spec, I: Source, O: Sink>(
    mode: CanonMode,
    buffers: CanonBuffers,
    source: &mut I,
    sink: &mut O,
) -> u8
    ensures runs { let state = outside_state I.left I.faults O.written O.faults O.room_left in
        Runs (canon_rules_in S.tests mode)
        (state source.old sink.old) (state source.new sink.new) result }
    ensures a_command { result ≢ 2 }
    ensures in_memory { result ≢ 6 }

    // Each good answer is a URI of the spec that splits into exactly the normal form of the target, and is its own canonical text.
    ensures canonical { AnswersAreCanonicalIn S.tests mode }
{
    run_lines::<S, Canon, I, O>(mode, buffers, source, sink)
}
