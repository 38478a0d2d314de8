// The answers of `parts`: canonical texts and their components, as JSON (RFC 8259; RFC 3986 section 3).
ghost use Rattle.std.specs.Prelude.{◌≡◌, ◌≢◌, ◌≤◌, ◌+◌, [], ◌++◌, false, Err, length};
ghost use Rattle.std.specs.Vec.{vec_capacity};
ghost use Rattle.iri_grammar.specs.Split.{split_of};
ghost use Rattle.iri_text.specs.Sink.{PutsAll, KeepsRoom, sink_state};
ghost use Rattle.iri_types.specs.SplitText.{split_text};
ghost use Rattle.iri_types.specs.Texts.{text};
ghost use Rattle.iri_normal.specs.NormalForm.{canonical_in};
ghost use Rattle.iri_normal.specs.Resolver.{base_text};
ghost use Rattle.iri_cli.specs.inside.Answering.{PutsAnswer};
ghost use Rattle.iri_cli.specs.parts.Object.{bad_text, parts_text};
ghost use Rattle.iri_cli.specs.parts.Answers.{parts_answer};
ghost use Rattle.iri_cli.specs.parts.Rules.{is_taken_apart};
ghost use Rattle.iri_cli.specs.declared.run.answers.AnswerError.TheVariants.{SinkFailed};

mod shown;

use crate::canon::text::write_canonical;
use crate::parts::shown::TakenApart;
use crate::run::answers::{AnswerError, Answers};
use crate::run::buffers::room_for;
use crate::run::puts::say_good;
use crate::run::sink_text::SinkText;
use iri_grammar::spec::Spec;
use iri_normal::mode::CanonMode;
use iri_normal::resolver::FixedBaseResolver;
use iri_text::{Failed, Show, Sink};
use iri_types::kind::Reference;
use iri_types::split::SplitView;
use iri_types::view::RiStr;
use std::alloc::AllocError;

// Puts the answer to a refused reference, by the words for its fault.
fn put_bad_object<O: Sink>(sink: &mut O, words: &str) -> Result<(), Failed>
    ensures { let state = sink_state O.written O.faults O.room_left in
        PutsAll (state sink.old) (state sink.new) result (bad_text words.now) }
{
    sink.put_all(b"{\"bad\":\"")?;
    sink.put_all(words.as_bytes())?;
    sink.put_all(b"\"}\n")
}

// Puts a text and its components.
fn put_parts<S: Spec, O: Sink>(sink: &mut O, iri: RiStr<'_, S>) -> Result<(), Failed>
    ensures { let state = sink_state O.written O.faults O.room_left in
        PutsAll (state sink.old) (state sink.new) result
        (parts_text (text iri.entry) (split_of (text iri.entry))) }
{
    let mut to = SinkText::new(sink);
    let taken_apart = TakenApart {
        iri: SplitView::of(iri),
    };
    match taken_apart.show(&mut to) {
        Ok(()) => Ok(()),
        Err(_) => Err(Failed),
    }
}

// Puts the answer to an accepted reference, whose canonical text is written to a buffer with room for it.
fn put_good<'a, S: Spec, O: Sink>(
    sink: &mut O,
    output: &mut [u8],
    mode: CanonMode,
    resolver: &FixedBaseResolver<'a, S>,
    reference: &SplitView<'a, S, Reference>,
) -> Result<(), Failed>
    requires { length (base_text resolver.now) + length (split_text reference.now) + 3
        ≤ length output.old }
    ensures { let state = sink_state O.written O.faults O.room_left in
        let canonical = canonical_in S.tests mode (base_text resolver.now) (split_text reference.now) in
        PutsAll (state sink.old) (state sink.new) result (parts_text canonical (split_of canonical)) }
{
    put_parts(sink, write_canonical(output, mode, resolver, reference))
}

// Puts the answer to a line by the rules of a mode, and says whether it is good.
fn put_answer<S: Spec, O: Sink>(
    sink: &mut O,
    output: &mut Vec<u8>,
    mode: CanonMode,
    resolver: &FixedBaseResolver<'_, S>,
    line: &[u8],
) -> Result<bool, AnswerError>
    requires { length (base_text resolver.now) + length line.now + 4
        ≤ vec_capacity output.old }
    ensures puts { let state = sink_state O.written O.faults O.room_left in
        PutsAnswer is_taken_apart (state sink.old) (state sink.new) false
        (parts_answer S.tests mode (base_text resolver.now) line.now) result }
    ensures room { KeepsRoom (O.room_left sink.old) (O.room_left sink.new)
        (parts_answer S.tests mode (base_text resolver.now) line.now) (result ≢ Err SinkFailed) }
    ensures capacity { vec_capacity output.old ≤ vec_capacity output.new }
{
    match SplitView::<S, Reference>::try_from_bytes(line) {
        Ok(reference) => {
            room_for(output, resolver.base().len() + line.len() + 4);
            say_good(true, put_good(sink, output, mode, resolver, &reference))
        }
        Err(error) => say_good(false, put_bad_object(sink, error.kind().description())),
    }
}

/// Answers each line by its canonical text against a base and the text's components, as JSON.
#[derive(Drop)]
pub struct Parts {
    mode: CanonMode,
    output: Vec<u8>,
}

impl<S: Spec> Answers<S> for Parts {
    type Start = CanonMode;

    ghost use Rattle.std.specs.Prelude.{refl};
    ghost use Rattle.std.specs.Vec.{vec_capacity};
    ghost use Rattle.iri_cli.specs.inside.Puts.{IsWriterAt};
    ghost use Rattle.iri_cli.specs.parts.Rules.{parts_rules};

    ghost rules = { λ mode. parts_rules S.tests mode };

    ghost begins = { λ mode. record { line_limit = refl; input_limit = refl; refusal = refl } };

    ghost stands_at = { λ p base at. IsWriterAt (parts_rules S.tests p.mode) S.tests base (vec_capacity p.output) at };

    fn open(
        mode: CanonMode,
        _resolver: &FixedBaseResolver<'_, S>,
        output: Vec<u8>,
    ) -> Result<Self, AllocError> {
        Ok(Parts { mode, output })
    }

    fn answer<O: Sink>(
        &mut self,
        resolver: &FixedBaseResolver<'_, S>,
        line: &[u8],
        sink: &mut O,
    ) -> Result<bool, AnswerError> {
        put_answer::<S, O>(sink, &mut self.output, self.mode, resolver, line)
    }

    fn close<O: Sink>(&mut self, _sink: &mut O) -> Result<(), Failed> {
        Ok(())
    }
}
