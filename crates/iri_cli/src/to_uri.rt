// The answers of `canon` with `to uri`: canonical texts of IRIs, mapped to URIs (RFC 3987 section 3.1).
ghost use Rattle.std.specs.Prelude.{◌≢◌, [], ◌∷◌, ◌++◌, Err, codes, false};
ghost use Rattle.iri_text.specs.LineEnds.{line_feed};
ghost use Rattle.iri_text.specs.Sink.{KeepsRoom, PutsAll, sink_state};
ghost use Rattle.iri_types.specs.SplitText.{split_text};
ghost use Rattle.iri_percent.specs.Mapping.{mapped};
ghost use Rattle.iri_normal.specs.NormalForm.{canonical_in};
ghost use Rattle.iri_normal.specs.Resolver.{base_text};
ghost use Rattle.iri_cli.specs.canon.Rules.{is_ok};
ghost use Rattle.iri_cli.specs.declared.run.answers.AnswerError.TheVariants.{SinkFailed};
ghost use Rattle.iri_cli.specs.inside.Answering.{PutsAnswer};
ghost use Rattle.iri_cli.specs.to_uri.Answers.{uri_answer};

use crate::canon::text::CanonicalText;
use crate::run::answers::{AnswerError, Answers};
use crate::run::puts::{put_bad, say_good};
use crate::run::sink_text::SinkText;
use iri_grammar::spec::Spec;
use iri_normal::mode::CanonMode;
use iri_normal::resolver::FixedBaseResolver;
use iri_percent::show_mapped_to_uri;
use iri_text::{Failed, Sink};
use iri_types::kind::Reference;
use iri_types::split::SplitView;
use std::alloc::AllocError;

// Puts the canonical text of an accepted reference, mapped to a URI.
fn put_mapped<S: Spec, O: Sink>(
    sink: &mut O,
    mode: CanonMode,
    resolver: &FixedBaseResolver<'_, S>,
    reference: &SplitView<'_, S, Reference>,
) -> Result<(), Failed>
    ensures { let state = sink_state O.written O.faults O.room_left in
        PutsAll (state sink.old) (state sink.new) result
        (mapped (canonical_in S.tests mode (base_text resolver.now) (split_text reference.now))) }
{
    let canonical = CanonicalText {
        mode,
        resolver,
        reference,
    };
    match show_mapped_to_uri(&mut SinkText::new(sink), &canonical) {
        Ok(()) => Ok(()),
        Err(_) => Err(Failed),
    }
}

// Puts the answer to an accepted reference: the mark, then that text, and an LF.
fn put_good<S: Spec, O: Sink>(
    sink: &mut O,
    mode: CanonMode,
    resolver: &FixedBaseResolver<'_, S>,
    reference: &SplitView<'_, S, Reference>,
) -> Result<(), Failed>
    ensures { let state = sink_state O.written O.faults O.room_left in
        PutsAll (state sink.old) (state sink.new) result
        (codes "ok " ++ (mapped (canonical_in S.tests mode (base_text resolver.now)
        (split_text reference.now)) ++ line_feed ∷ [])) }
{
    sink.put_all(b"ok ")?;
    put_mapped(sink, mode, resolver, reference)?;
    sink.put_all(b"\n")
}

/// Puts the answer to a line, its canonical text mapped to a URI, and says whether it is good.
pub(crate) fn put_uri_answer<S: Spec, O: Sink>(
    sink: &mut O,
    mode: CanonMode,
    resolver: &FixedBaseResolver<'_, S>,
    line: &[u8],
) -> Result<bool, AnswerError>
    ensures puts { let state = sink_state O.written O.faults O.room_left in
        PutsAnswer is_ok (state sink.old) (state sink.new) false
        (uri_answer S.tests mode (base_text resolver.now) line.now) result }
    ensures room { KeepsRoom (O.room_left sink.old) (O.room_left sink.new)
        (uri_answer S.tests mode (base_text resolver.now) line.now) (result ≢ Err SinkFailed) }
{
    match SplitView::<S, Reference>::try_from_bytes(line) {
        Ok(reference) => say_good(true, put_good(sink, mode, resolver, &reference)),
        Err(error) => say_good(false, put_bad(sink, error.kind().description())),
    }
}

/// Answers each line by its canonical text against a base, mapped to a URI, by the rules of a mode.
#[derive(Drop)]
pub struct ToUri {
    mode: CanonMode,
}

impl<S: Spec> Answers<S> for ToUri {
    type Start = CanonMode;

    ghost use Rattle.std.specs.Prelude.{false, refl};
    ghost use Rattle.iri_cli.specs.inside.StatelessAt.{IsStatelessAt};
    ghost use Rattle.iri_cli.specs.to_uri.Answers.{uri_answer};
    ghost use Rattle.iri_cli.specs.to_uri.Rules.{to_uri_rules};

    ghost rules = { λ mode. to_uri_rules S.tests mode };

    ghost begins = { λ mode. record { line_limit = refl; input_limit = refl; refusal = refl } };

    ghost stands_at = { λ t base at. IsStatelessAt uri_answer false (λ _ _. false) S.tests t.mode base at };

    fn open(
        mode: CanonMode,
        _resolver: &FixedBaseResolver<'_, S>,
        _output: Vec<u8>,
    ) -> Result<Self, AllocError> {
        Ok(ToUri { mode })
    }

    fn answer<O: Sink>(
        &mut self,
        resolver: &FixedBaseResolver<'_, S>,
        line: &[u8],
        sink: &mut O,
    ) -> Result<bool, AnswerError> {
        put_uri_answer::<S, O>(sink, self.mode, resolver, line)
    }

    fn close<O: Sink>(&mut self, _sink: &mut O) -> Result<(), Failed> {
        Ok(())
    }
}
