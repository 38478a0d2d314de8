// What answers lines.
ghost use Rattle.std.specs.Prelude.{◌≤◌, ℕ, List, length};
ghost use Rattle.std.specs.Vec.{vec_capacity};
ghost use Rattle.iri_text.specs.Sink.{PutsAll, sink_state};
ghost use Rattle.iri_normal.specs.Resolver.{base_text};
ghost use Rattle.iri_cli.specs.inside.Answering.{Answering, AnswersLine};
ghost use Rattle.iri_cli.specs.run.Ending.{Rules};
ghost use Rattle.iri_cli.specs.run.Limits.{answer_room, longest_line};
ghost use Rattle.iri_cli.specs.inside.Opening.{BeginsAsCanon, Opens};

use iri_grammar::spec::Spec;
use iri_normal::mode::CanonMode;
use iri_normal::resolver::FixedBaseResolver;
use iri_text::{Failed, Sink};
use std::alloc::{AllocError, Global};

/// Why an answer was not put, or not whole.
#[derive(Clone, Copy)]
pub enum AnswerError {
    /// The sink failed.
    SinkFailed,
    /// Allocation failed, and nothing was put.
    Memory,
}

/// What a command begins with: what gives it memory, and the rules of its canonical texts.
#[derive(Drop)]
pub struct Setup {
    pub(crate) alloc: Global,
    pub(crate) mode: CanonMode,
}

/// Answers the lines of a command after a base, one after the other.
pub trait Answers<S: Spec>: Drop + Sized {
    /// What it is made of before the base line is read.
    type Start: Drop;

    /// What the command says of lines.
    ghost rules: { Self.Start → Rules };

    /// Whether it stands at these, where references are resolved against this text: the command,
    /// the base, and the lines that were answered.
    ghost stands_at: { Self → List ℕ → Answering → Type 0 };

    /// Begins after a base line, with the resolver of its prepared base and a buffer that has the capacity for each answer. It fails on
    /// allocation failure alone.
    fn open(
        start: Self::Start,
        resolver: &FixedBaseResolver<'_, S>,
        output: Vec<u8>,
    ) -> Result<Self, AllocError>
        requires short { length (base_text resolver.now) ≤ longest_line }
        requires room { answer_room ≤ vec_capacity output }
        ensures { Opens S.tests (rules start) (base_text resolver.now) stands_at result };

    /// Puts the answer to a line within the limits, and says whether a run with it may end in
    /// status 0.
    fn answer<O: Sink>(
        &mut self,
        resolver: &FixedBaseResolver<'_, S>,
        line: &[u8],
        sink: &mut O,
    ) -> Result<bool, AnswerError>
        requires { (at : Answering) × (stands_at self.old (base_text resolver.now) at)
            × (length line.now ≤ at.rules.line_limit) × (length at.between ≤ at.rules.input_limit) }
        ensures { let state = sink_state O.written O.faults O.room_left in
            (at : Answering) → stands_at self.old (base_text resolver.now) at
            → AnswersLine (stands_at self.new (base_text resolver.now)) at line.now
            (state sink.old) (state sink.new) result };

    /// Puts the text after all answers. It allocates nothing.
    fn close<O: Sink>(&mut self, sink: &mut O) -> Result<(), Failed>
        ensures { let state = sink_state O.written O.faults O.room_left in
            (text : List ℕ) (at : Answering) → stands_at self.old text at
            → PutsAll (state sink.old) (state sink.new) result
            (at.rules.closing at.base at.between) };

    /// Limits and base of the command are those of every command.
    ghost begins: { (start : Self.Start) → BeginsAsCanon S.tests (rules start) };
}
