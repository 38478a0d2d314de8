//! What holds of a run over memory, of a base that is prepared once, of the entries of `register`,
//! of the answers of `links`, and of the references of `gen`.
ghost use Rattle.std.specs.Prelude.{◌≡◌, ◌≤◌, ◌+◌, ◌⊎◌, ℕ, true, List, [], ◌++◌, length, None, Some};
ghost use Rattle.std.specs.List.{list_all};
ghost use Rattle.iri_grammar.specs.Parts.{IsAbsolute, IsReference};
ghost use Rattle.iri_grammar.specs.WholeFault.{reference_fault};
ghost use Rattle.iri_normal.specs.NormalForm.{canonical_in};
ghost use Rattle.iri_cli.specs.canon.Answers.{refusal};
ghost use Rattle.iri_normal.specs.Answers.{answer_in};
ghost use Rattle.iri_cli.specs.run.Prepared.{prepared, IsAlike};
ghost use Rattle.iri_cli.specs.run.Words.{rules_of};
ghost use Rattle.iri_cli.specs.declared.run.words.LineCommand.{LineCommand};
ghost use Rattle.iri_cli.specs.generator.References.{gen_base, gen_reference};
ghost use Rattle.iri_cli.specs.links.FieldValues.{AnswersAreLinks, LaxAnswersAreLinks};
ghost use Rattle.iri_cli.specs.parts.Object.{is_unescaped};
ghost use Rattle.iri_cli.specs.register.Shared.{LiveLinesShareEntries};
ghost use Rattle.iri_text.specs.Memory.{memory_written, state_of};
ghost use Rattle.iri_text.specs.declared.streams.memory_sink.MemorySink.{MemorySink};
ghost use Rattle.iri_cli.specs.run.Ending.{Rules, ending};
ghost use Rattle.iri_cli.specs.run.Run.{outside, MayRunOut, Runs};

use iri_grammar::spec::Spec;
use iri_normal::mode::CanonMode;

/// Over plain bytes, and a sink over memory that has no failing calls and has room for the
/// output of their ending, a run has that ending's status and writes its output, or allocation
/// failed at a line that takes memory.
pub fn run_over_memory()
    ensures { (rules : Rules) (input left : List ℕ) (old new : MemorySink) (status : ℕ)
        → Runs rules (outside (Some input) 0 (state_of old)) (outside (Some left) 0 (state_of new))
        status
        → old.fails.now ≡ [] → length (memory_written old) + length (ending rules input).output
        ≤ length old.buf.now →
        ((status ≡ (ending rules input).status)
        × (memory_written new ≡ memory_written old ++ (ending rules input).output))
        ⊎ ((status ≡ 6) × MayRunOut rules input) }
{}

/// A base whose scheme and authority are put into normal form, and whose path loses the dot
/// segments before its last segment, is an absolute URI again, is no longer than before, and has
/// the same canonical texts in every mode. So each line has the same answer against it, of every
/// command.
pub fn prepared_base_has_the_same_answers<S: Spec>()
    ensures valid { (base : List ℕ) → IsAbsolute S.tests base
        → IsAbsolute S.tests (prepared S.tests base) }
    ensures len { (base : List ℕ) → IsAbsolute S.tests base
        → length (prepared S.tests base) ≤ length base }
    ensures texts { (mode : CanonMode) (base reference : List ℕ) → IsAbsolute S.tests base
        → canonical_in S.tests mode (prepared S.tests base) reference
        ≡ canonical_in S.tests mode base reference }
    ensures answers { (mode : CanonMode) (base line : List ℕ) → refusal S.tests base ≡ None
        → answer_in S.tests mode (prepared S.tests base) line ≡ answer_in S.tests mode base line }
    ensures commands { (command : LineCommand) (mode : CanonMode) (base : List ℕ) → refusal S.tests base ≡ None
        → IsAlike (rules_of command S.tests mode) (prepared S.tests base) base }
{}

/// No byte of a reference is one that a string of JSON escapes: `"`, `\\`, or one below 32 (RFC 8259 section 7).
pub fn references_need_no_escape<S: Spec>()
    ensures { (t : List ℕ) → IsReference S.tests t → list_all is_unescaped t ≡ true }
{}

/// Two live lines of `register`, which add links that no line after them takes out, share an entry
/// exactly where their canonical targets are equal, and that is exactly where steps of the mode join the
/// targets of their references.
pub fn live_lines_share_an_entry<S: Spec>()
    ensures { (mode : CanonMode) → LiveLinesShareEntries S.tests mode }
{}

/// `links` answers a field value whose targets are URI-references by its one list of link-values,
/// with their canonical targets, and every other line by a fault. What it writes of a field value
/// is answered by itself, against every base.
pub fn field_values_are_answered<S: Spec>()
    ensures { (mode : CanonMode) → AnswersAreLinks S.tests mode }
{}

/// `links` with `lax` answers each text by the link-values that are read laxly, with their
/// canonical targets, and a field value whose targets are URI-references as `links` does.
pub fn texts_are_answered_laxly<S: Spec>()
    ensures { (mode : CanonMode) → LaxAnswersAreLinks S.tests mode }
{}

/// Each reference that `gen` makes is a URI-reference, and its base is an absolute URI: so each has
/// a canonical text.
pub fn references_of_gen_have_no_fault<S: Spec>()
    ensures references { (state : ℕ) → reference_fault S.tests (gen_reference state) ≡ None }
    ensures base { refusal S.tests gen_base ≡ None }
{}
