//! The run of the program.
ghost use Rattle.std.specs.Prelude.{◌≡◌, ℕ, List, [], ◌∷◌, codes, map, string_bytes};
ghost use Rattle.iri_cli.specs.run.Words.{HasToken, IsCommand, mode_words, rules_of, tests_of, word_of};
ghost use Rattle.iri_cli.specs.docs.Expansions.{AnswersAreExpansions};
ghost use Rattle.iri_cli.specs.links.FieldValues.{AnswersAreLinks, LaxAnswersAreLinks};
ghost use Rattle.iri_cli.specs.pairs.OfCanon.{AnswersAreOfCanon, AnswersAreOfCanonUris};
ghost use Rattle.iri_cli.specs.parts.Answers.{AnswersAreTakenApart};
ghost use Rattle.iri_cli.specs.register.Shared.{LiveLinesShareEntries};
ghost use Rattle.iri_cli.specs.robots.Verdicts.{AnswersAreVerdicts};
ghost use Rattle.iri_cli.specs.canon.Answers.{AnswersAreCanonicalIn};
ghost use Rattle.iri_cli.specs.to_uri.Answers.{AnswersAreCanonicalUris};
ghost use Rattle.iri_cli.specs.run.Run.{RunsLines, outside_state};
ghost use Rattle.iri_cli.specs.generator.References.{gen_text};
ghost use Rattle.iri_cli.specs.help.Notices.{MakesText, Tells, notice_text};
ghost use Rattle.iri_cli.specs.inside.Obeyed.{IsSound, Obeys};
ghost use Rattle.iri_cli.specs.declared.run.words.Command.{Command};
ghost use Rattle.iri_cli.specs.declared.run.words.Grammar.{Grammar};
ghost use Rattle.iri_cli.specs.declared.run.words.LineCommand.{LineCommand};
ghost use Rattle.iri_cli.specs.declared.help.Notice.{Notice};

pub(crate) mod answering;
pub(crate) mod answers;
pub(crate) mod base;
pub(crate) mod buffers;
pub(crate) mod end;
pub(crate) mod opening;
pub(crate) mod prepared;
pub(crate) mod puts;
pub(crate) mod shown;
pub(crate) mod sink_text;
pub mod to_writer;
pub mod words;

use crate::canon::calls::canon_lines_in;
use crate::docs::Docs;
use crate::expand::Expand;
use crate::generator::generate;
use crate::help::tell;
use crate::links::{LaxLinks, Links};
use crate::pairs::link::LinkText;
use crate::pairs::pairs_lines;
use crate::parts::Parts;
use crate::register::Registers;
use crate::robots::robots_lines;
use crate::run::answers::Setup;
use crate::run::buffers::CanonBuffers;
use crate::run::opening::run_lines;
use crate::run::words::{Command, Grammar, LineCommand, command_of};
use crate::to_uri::ToUri;
use iri_grammar::spec::{IriSpec, Spec, UriSpec};
use iri_normal::mode::CanonMode;
use iri_text::{Sink, Source};
use std::alloc::Global;

/// The status of words that are no command.
pub const NO_COMMAND: u8 = 2;

/// The status where allocation failed.
pub const MEMORY: u8 = 6;

// The lines of a command in a grammar by the rules of a mode, once there are buffers.
fn lines_in<S: Spec, I: Source, O: Sink>(
    setup: Setup,
    command: LineCommand<'_>,
    source: &mut I,
    sink: &mut O,
) -> u8
    requires { HasToken command }
    ensures { let state = outside_state I.left I.faults O.written O.faults O.room_left in
        RunsLines (rules_of command.entry S.tests setup.mode)
        (state source.old sink.old) (state source.new sink.new) result }
{
    let Ok(buffers) = CanonBuffers::new(setup.alloc) else {
        return MEMORY;
    };
    match command {
        LineCommand::Canon => canon_lines_in::<S, I, O>(setup.mode, buffers, source, sink),
        LineCommand::ToUri => run_lines::<S, ToUri, I, O>(setup.mode, buffers, source, sink),
        LineCommand::Parts => run_lines::<S, Parts, I, O>(setup.mode, buffers, source, sink),
        LineCommand::Expand => run_lines::<S, Expand, I, O>(setup, buffers, source, sink),
        LineCommand::Register => run_lines::<S, Registers<S>, I, O>(setup, buffers, source, sink),
        LineCommand::Links => run_lines::<S, Links, I, O>(setup, buffers, source, sink),
        LineCommand::LaxLinks => run_lines::<S, LaxLinks, I, O>(setup, buffers, source, sink),
        LineCommand::Docs => run_lines::<S, Docs, I, O>(setup, buffers, source, sink),
        LineCommand::Robots(token) => {
            robots_lines::<S, I, O>(setup, token, buffers, source, sink)
        }
        LineCommand::Pairs => {
            pairs_lines::<S, I, O>(LinkText::Canonical(setup.mode), buffers, source, sink)
        }
        LineCommand::PairsToUri => {
            pairs_lines::<S, I, O>(LinkText::Mapped(setup.mode), buffers, source, sink)
        }
    }
}

// The lines of a command by a grammar.
fn lines_by<I: Source, O: Sink>(
    setup: Setup,
    command: LineCommand<'_>,
    grammar: Grammar,
    source: &mut I,
    sink: &mut O,
) -> u8
    requires { HasToken command }
    ensures { let state = outside_state I.left I.faults O.written O.faults O.room_left in
        RunsLines (rules_of command.entry (tests_of grammar) setup.mode)
        (state source.old sink.old) (state source.new sink.new) result }
{
    match grammar {
        Grammar::Uri => lines_in::<UriSpec, I, O>(setup, command, source, sink),
        Grammar::Iri => lines_in::<IriSpec, I, O>(setup, command, source, sink),
    }
}

// Does what a command says, and gives the program's status.
fn obey<I: Source, O: Sink>(
    alloc: Global,
    command: Option<Command<'_>>,
    source: &mut I,
    sink: &mut O,
) -> u8
    requires { IsSound command }
    ensures { let state = outside_state I.left I.faults O.written O.faults O.room_left in
        Obeys command.entry (state source.old sink.old) (state source.new sink.new) result }
{
    match command {
        Some(Command::Lines(command, mode, grammar)) => {
            lines_by(Setup { alloc, mode }, command, grammar, source, sink)
        }
        Some(Command::Gen(grammar, count)) => generate(alloc, grammar, count, sink),
        Some(Command::Tell(notice)) => tell(notice, sink),
        None => NO_COMMAND,
    }
}

/// Does what the words after the program's name say, and gives the program's status:
///
/// - 0: the input was read to its end, and each answer is a good one (of `canon`, `expand`, `links`,
///   `docs` and `pairs`: it begins with `ok `; of `register` and `robots`: it doesn't begin with
///   `bad`); 1: the same, but some answer isn't
/// - 2: the words are no command, and nothing was read or written
/// - 3: the base line is refused; never with `pairs`, which has none
/// - 4: the source failed: exactly the lines that an LF ended in what was read were answered
/// - 5: the sink failed: what was written is a prefix of the output. It never comes where the sink
///   is known to have room
/// - 6: allocation failed; with `canon`, `links` and `pairs` nothing was read or written; with the others
///   that may be so, or it failed at a base line that is taken or at a line whose answer takes
///   memory, and the lines before it were answered
/// - 7: a line has more than [`LARGEST_LINE_LIMIT`](iri_text::LARGEST_LINE_LIMIT) bytes before its
///   LF; 8: the input has more than 1,073,741,824 bytes; the lines before are answered
///
/// 4 and 5 come only where the count of faults of the source, or of the sink, rose in this call;
/// the others exactly where what is said of them holds, but that they yield to 5, and to 6. Of 3, 7
/// and 8 the first in the order of bytes decides, and 8 comes before 7 on one byte. `--help` and
/// `--version`, each as the only word, read nothing and write their text: 0 where it was written, 5
/// where the sink failed. So does `gen`, whose text is three lines, and which answers 6 where
/// allocation failed and nothing was written.
pub fn run<I: Source, O: Sink>(alloc: Global, words: &[String], source: &mut I, sink: &mut O) -> u8
    // Words that are no command: nothing is read or written.
    ensures no_command { let state = outside_state I.left I.faults O.written O.faults O.room_left in
        ((command : Command) → ¬ (IsCommand (map string_bytes words.now) command))
        → (result ≡ 2) × (state source.new sink.new ≡ state source.old sink.old) }

    // `--help` and `--version`: the text is written, and nothing is read.
    ensures tells { let state = outside_state I.left I.faults O.written O.faults O.room_left in
        (notice : Notice) → IsCommand (map string_bytes words.now) (Command.Tell notice)
        → Tells (notice_text notice)
        (state source.old sink.old) (state source.new sink.new) result }

    // A command over lines, in the mode that its words name: each status comes only by its cause. Allocation fails only before
    // anything is read or written, or at a line that takes memory by the command's rules.
    ensures lines { let state = outside_state I.left I.faults O.written O.faults O.room_left in
        (command : LineCommand) (mode : CanonMode) (grammar : Grammar)
        → IsCommand (map string_bytes words.now) (Command.Lines command mode grammar)
        → RunsLines (rules_of command (tests_of grammar) mode)
        (state source.old sink.old) (state source.new sink.new) result }

    // `gen`: the three lines are written, and nothing is read; or allocation failed, and nothing
    // was written.
    ensures gens { let state = outside_state I.left I.faults O.written O.faults O.room_left in
        (grammar : Grammar) (count : ℕ)
        → IsCommand (map string_bytes words.now) (Command.Gen grammar count)
        → MakesText (gen_text (tests_of grammar) count)
        (state source.old sink.old) (state source.new sink.new) result }

    // `canon`, in the mode that its words name: each good answer is a URI of the spec that splits
    // into exactly the normal form of the target, and is its own canonical text.
    ensures canonical { (mode : CanonMode) (grammar : Grammar)
        → IsCommand (map string_bytes words.now) (Command.Lines LineCommand.Canon mode grammar)
        → AnswersAreCanonicalIn (tests_of grammar) mode }

    // `canon` with `to uri`: each good answer has the canonical text, mapped to a URI, and this is
    // the canonical text of the mapped base and reference.
    ensures canonical_uris { (mode : CanonMode) (grammar : Grammar)
        → IsCommand (map string_bytes words.now) (Command.Lines LineCommand.ToUri mode grammar)
        → AnswersAreCanonicalUris (tests_of grammar) mode }

    // `parts`, in its mode: each good answer is the object of the canonical text and the components of
    // its one split, as JSON.
    ensures parts { (mode : CanonMode) (grammar : Grammar)
        → IsCommand (map string_bytes words.now) (Command.Lines LineCommand.Parts mode grammar)
        → AnswersAreTakenApart (tests_of grammar) mode }

    // `register`, in its mode: two live lines share an entry exactly where the mode's steps join the
    // targets of their references.
    ensures register { (mode : CanonMode) (grammar : Grammar)
        → IsCommand (map string_bytes words.now) (Command.Lines LineCommand.Register mode grammar)
        → LiveLinesShareEntries (tests_of grammar) mode }

    // `links`, in its mode: a field value is answered by its one list of link-values, with canonical
    // targets.
    ensures links { (mode : CanonMode) (grammar : Grammar)
        → IsCommand (map string_bytes words.now) (Command.Lines LineCommand.Links mode grammar)
        → AnswersAreLinks (tests_of grammar) mode }

    // `links` with `lax`, in its mode: a text is answered by the link-values that are read laxly,
    // and a field value as by `links`.
    ensures lax { (mode : CanonMode) (grammar : Grammar)
        → IsCommand (map string_bytes words.now) (Command.Lines LineCommand.LaxLinks mode grammar)
        → LaxAnswersAreLinks (tests_of grammar) mode }

    // `docs`, in its mode: a template document is answered by the canonical text of its expansion
    // with its own values.
    ensures docs { (mode : CanonMode) (grammar : Grammar)
        → IsCommand (map string_bytes words.now) (Command.Lines LineCommand.Docs mode grammar)
        → AnswersAreExpansions (tests_of grammar) mode }

    // `robots`, in its mode: a link is answered by what the longest patterns that match it say of
    // the token's crawler.
    ensures robots { (mode : CanonMode) (grammar : Grammar) (token : List ℕ)
        → map string_bytes words.now ≡ codes "robots" ∷ word_of grammar ∷ token ∷ mode_words mode
        → AnswersAreVerdicts (tests_of grammar) mode token }

    // `pairs`, in the mode that its words name: each line is answered by itself alone, as `canon`
    // answers its link where its page is the base line.
    ensures pairs { (mode : CanonMode) (grammar : Grammar)
        → IsCommand (map string_bytes words.now) (Command.Lines LineCommand.Pairs mode grammar)
        → AnswersAreOfCanon (tests_of grammar) mode }

    // `pairs` with `to uri`: the same of `canon` with `to uri`.
    ensures pair_uris { (mode : CanonMode) (grammar : Grammar)
        → IsCommand (map string_bytes words.now) (Command.Lines LineCommand.PairsToUri mode grammar)
        → AnswersAreOfCanonUris (tests_of grammar) mode }
{
    obey(alloc, command_of(words), source, sink)
}
