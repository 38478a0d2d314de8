// What a link on a page is answered by.
ghost use Rattle.std.specs.Prelude.{◌≡◌, ◌≢◌, ◌≤◌, ◌+◌, Err, None, false, length};
ghost use Rattle.std.specs.Vec.{vec_capacity};
ghost use Rattle.iri_text.specs.Sink.{KeepsRoom, sink_state};
ghost use Rattle.iri_normal.specs.Resolver.{base_text};
ghost use Rattle.iri_cli.specs.canon.Answers.{refusal};
ghost use Rattle.iri_cli.specs.canon.Rules.{is_ok};
ghost use Rattle.iri_cli.specs.declared.run.answers.AnswerError.TheVariants.{SinkFailed};
ghost use Rattle.iri_cli.specs.inside.Answering.{PutsAnswer};
ghost use Rattle.iri_cli.specs.inside.Paged.{link_answer};

use crate::canon::put_answer;
use crate::run::answers::AnswerError;
use crate::to_uri::put_uri_answer;
use iri_grammar::spec::Spec;
use iri_normal::mode::CanonMode;
use iri_normal::resolver::FixedBaseResolver;
use iri_text::Sink;

/// What links are answered by, by the rules of a mode.
#[derive(Clone, Copy)]
pub enum LinkText {
    /// Their canonical texts.
    Canonical(CanonMode),
    /// These, mapped to URIs.
    Mapped(CanonMode),
}

/// Puts the answer to a link on the page of a resolver, and says whether it is good.
pub(crate) fn put_link<S: Spec, O: Sink>(
    sink: &mut O,
    output: &mut Vec<u8>,
    text: LinkText,
    resolver: &FixedBaseResolver<'_, S>,
    link: &[u8],
) -> Result<bool, AnswerError>
    requires base { refusal S.tests (base_text resolver.now) ≡ None }
    requires room { length (base_text resolver.now) + length link.now + 4
        ≤ vec_capacity output.old }
    ensures puts { let state = sink_state O.written O.faults O.room_left in
        PutsAnswer is_ok (state sink.old) (state sink.new) false
        (link_answer S.tests text (base_text resolver.now) link.now) result }
    ensures room { KeepsRoom (O.room_left sink.old) (O.room_left sink.new)
        (link_answer S.tests text (base_text resolver.now) link.now) (result ≢ Err SinkFailed) }
    ensures capacity { vec_capacity output.old ≤ vec_capacity output.new }
{
    match text {
        LinkText::Canonical(mode) => put_answer::<S, O>(sink, output, mode, resolver, link),
        LinkText::Mapped(mode) => put_uri_answer::<S, O>(sink, mode, resolver, link),
    }
}
