// The base line.
ghost use Rattle.std.specs.Prelude.{◌≡◌, ◌≢◌, cond, [], None, Some, MatchResult};
ghost use Rattle.iri_text.specs.Sink.{KeepsRoom, sink_state};
ghost use Rattle.iri_types.specs.Texts.{text};
ghost use Rattle.iri_cli.specs.canon.Answers.{refusal};
ghost use Rattle.iri_cli.specs.run.Ending.{base_line};
ghost use Rattle.iri_cli.specs.inside.Answering.{RefusesBase};
ghost use Rattle.iri_cli.specs.declared.run.end.End.TheVariants.{SinkFailed};

use crate::run::end::End;
use crate::run::puts::put_line;
use iri_grammar::spec::Spec;
use iri_text::{Failed, LineReader, Sink};
use iri_types::view::RiAbsoluteStr;

/// The first line that a reader was asked for, by what it answered: the empty text where there is none.
pub fn first_line(reader: &LineReader, found: bool) -> &[u8]
    ensures { result.now ≡ cond found reader.now.line [] }
{
    if found { reader.line() } else { b"" }
}

/// The base of a base line, or in words why it is refused.
#[tactic(auto, unfolding(crate::specs::canon::Answers::refusal))]
pub fn base_of<S: Spec>(line: &[u8]) -> Result<RiAbsoluteStr<'_, S>, &'static str>
    ensures { MatchResult result
        (λ base. (text base ≡ line.now) × (refusal S.tests line.now ≡ None))
        (λ words. refusal S.tests line.now ≡ Some words.now) }
{
    match RiAbsoluteStr::<S>::try_from_bytes(line) {
        Ok(base) => Ok(base),
        Err(error) => Err(error.kind().description()),
    }
}

/// Writes why a base line is refused, which ends the run.
pub fn refuse_base<O: Sink>(sink: &mut O, words: &str) -> End
    ensures refuses { let state = sink_state O.written O.faults O.room_left in
        RefusesBase words.now (state sink.old) (state sink.new) result }
    ensures room { KeepsRoom (O.room_left sink.old) (O.room_left sink.new) (base_line words.now)
        (result ≢ SinkFailed) }
{
    match put_line(sink, "base ", words) {
        Ok(()) => End::BadBase,
        Err(Failed) => End::SinkFailed,
    }
}
