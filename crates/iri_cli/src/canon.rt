// The answers of `canon`.
ghost use Rattle.std.specs.Prelude.{◌≡◌, ◌≢◌, ◌≤◌, ◌+◌, [], ◌∷◌, ◌++◌, false, None, Err, codes, length};
ghost use Rattle.std.specs.Vec.{vec_capacity};
ghost use Rattle.iri_text.specs.Sink.{PutsAll, KeepsRoom, sink_state};
ghost use Rattle.iri_text.specs.SliceText.{slice_taken};
ghost use Rattle.iri_types.specs.SplitText.{split_text};
ghost use Rattle.iri_normal.specs.NormalForm.{canonical_in};
ghost use Rattle.iri_normal.specs.Resolver.{base_text};
ghost use Rattle.iri_cli.specs.canon.Answers.{refusal};
ghost use Rattle.iri_normal.specs.Answers.{answer_in};
ghost use Rattle.iri_cli.specs.canon.Rules.{is_ok};
ghost use Rattle.iri_cli.specs.inside.Answering.{PutsAnswer};
ghost use Rattle.iri_cli.specs.declared.run.answers.AnswerError.TheVariants.{SinkFailed};
ghost use Rattle.iri_text.specs.LineEnds.{line_feed};

pub(crate) mod calls;
pub(crate) mod text;

use crate::run::answers::{AnswerError, Answers};
use crate::run::buffers::room_for;
use crate::run::puts::{put_bad, put_good_text, say_good};
use iri_grammar::spec::Spec;
use iri_normal::canonical::show_canonical_in;
use iri_normal::mode::CanonMode;
use iri_normal::resolver::FixedBaseResolver;
use iri_text::{Failed, Sink, SliceSink, TextSink};
use iri_types::kind::Reference;
use iri_types::split::SplitView;
use std::alloc::AllocError;

// The canonical text of an accepted reference by the rules of a mode, and an LF, in a buffer with room for them.
fn fill<'a, S: Spec>(
    line: &mut SliceSink<'_>,
    mode: CanonMode,
    resolver: &FixedBaseResolver<'a, S>,
    reference: &SplitView<'a, S, Reference>,
)
    requires empty { line.old.len ≡ 0 }
    requires room { length (canonical_in S.tests mode (base_text resolver.now)
        (split_text reference.now)) + 1 ≤ length line.old.buf.now }
    ensures { slice_taken line.new ≡ canonical_in S.tests mode (base_text resolver.now)
        (split_text reference.now) ++ line_feed ∷ [] }
{
    if let Ok(()) = show_canonical_in(line, mode, resolver, reference) {
        let _ = line.put("\n");
    }
}

// Puts the answer to an accepted reference: the mark, then its text with an LF.
fn put_good<'a, S: Spec, O: Sink>(
    sink: &mut O,
    output: &mut [u8],
    mode: CanonMode,
    resolver: &FixedBaseResolver<'a, S>,
    reference: &SplitView<'a, S, Reference>,
) -> Result<(), Failed>
    requires { length (canonical_in S.tests mode (base_text resolver.now)
        (split_text reference.now)) + 1 ≤ length output.old }
    ensures { let state = sink_state O.written O.faults O.room_left in
        PutsAll (state sink.old) (state sink.new) result
        (codes "ok " ++ (canonical_in S.tests mode (base_text resolver.now)
        (split_text reference.now) ++ line_feed ∷ [])) }
{
    let mut line = SliceSink::new(output);
    fill(&mut line, mode, resolver, reference);
    put_good_text(sink, line.as_str())
}

/// Puts the answer to a line by the rules of a mode, and says whether it is good.
pub(crate) fn put_answer<S: Spec, O: Sink>(
    sink: &mut O,
    output: &mut Vec<u8>,
    mode: CanonMode,
    resolver: &FixedBaseResolver<'_, S>,
    line: &[u8],
) -> Result<bool, AnswerError>
    requires base { refusal S.tests (base_text resolver.now) ≡ None }
    requires room { length (base_text resolver.now) + length line.now + 4
        ≤ vec_capacity output.old }
    ensures puts { let state = sink_state O.written O.faults O.room_left in
        PutsAnswer is_ok (state sink.old) (state sink.new) false
        (answer_in S.tests mode (base_text resolver.now) line.now) result }
    ensures room { KeepsRoom (O.room_left sink.old) (O.room_left sink.new)
        (answer_in S.tests mode (base_text resolver.now) line.now) (result ≢ Err SinkFailed) }
    ensures capacity { vec_capacity output.old ≤ vec_capacity output.new }
{
    match SplitView::<S, Reference>::try_from_bytes(line) {
        Ok(reference) => {
            room_for(output, resolver.base().len() + line.len() + 4);
            say_good(true, put_good(sink, output, mode, resolver, &reference))
        }
        Err(error) => say_good(false, put_bad(sink, error.kind().description())),
    }
}

/// Answers each line by its canonical text against a base, by the rules of a mode.
#[derive(Drop)]
pub struct Canon {
    mode: CanonMode,
    output: Vec<u8>,
}

impl<S: Spec> Answers<S> for Canon {
    type Start = CanonMode;

    ghost use Rattle.std.specs.Prelude.{refl};
    ghost use Rattle.std.specs.Vec.{vec_capacity};
    ghost use Rattle.iri_cli.specs.inside.Puts.{IsWriterAt};
    ghost use Rattle.iri_cli.specs.canon.Rules.{canon_rules_in};

    ghost rules = { λ mode. canon_rules_in S.tests mode };

    ghost begins = { λ mode. record { line_limit = refl; input_limit = refl; refusal = refl } };

    ghost stands_at = { λ c base at. IsWriterAt (canon_rules_in S.tests c.mode) S.tests base (vec_capacity c.output) at };

    fn open(
        mode: CanonMode,
        _resolver: &FixedBaseResolver<'_, S>,
        output: Vec<u8>,
    ) -> Result<Self, AllocError> {
        Ok(Canon { mode, output })
    }

    fn answer<O: Sink>(
        &mut self,
        resolver: &FixedBaseResolver<'_, S>,
        line: &[u8],
        sink: &mut O,
    ) -> Result<bool, AnswerError> {
        put_answer::<S, O>(sink, &mut self.output, self.mode, resolver, line)
    }

    fn close<O: Sink>(&mut self, _sink: &mut O) -> Result<(), Failed> {
        Ok(())
    }
}
