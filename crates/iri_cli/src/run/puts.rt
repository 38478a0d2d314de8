// What several commands put, and say of it.
ghost use Rattle.std.specs.Prelude.{◌≡◌, [], ◌∷◌, ◌++◌, codes, decimal};
ghost use Rattle.iri_text.specs.LineEnds.{line_feed};
ghost use Rattle.iri_text.specs.Sink.{PutsAll, sink_state};
ghost use Rattle.iri_cli.specs.inside.Puts.{said_good};
ghost use Rattle.iri_cli.specs.run.Refused.{bad_line};

use crate::run::answers::AnswerError;
use crate::run::sink_text::SinkText;
use iri_text::{Failed, Show, Sink};

/// Puts a number in decimal.
pub(crate) fn put_number<O: Sink>(sink: &mut O, number: usize) -> Result<(), Failed>
    ensures { let state = sink_state O.written O.faults O.room_left in
        PutsAll (state sink.old) (state sink.new) result (decimal number) }
{
    let mut to = SinkText::new(sink);
    match number.show(&mut to) {
        Ok(()) => Ok(()),
        Err(_) => Err(Failed),
    }
}

/// Puts a good answer: the mark `ok ` as a piece of its own, then its text, which ends in an LF.
#[inline(always)]
pub(crate) fn put_good_text<O: Sink>(sink: &mut O, text: &str) -> Result<(), Failed>
    ensures { let state = sink_state O.written O.faults O.room_left in
        PutsAll (state sink.old) (state sink.new) result (codes "ok " ++ text.now) }
{
    sink.put_all(b"ok ")?;
    sink.put_all(text.as_bytes())
}

/// Puts a line: a mark with the space after it, a text and an LF.
pub(crate) fn put_line<O: Sink>(sink: &mut O, mark: &str, text: &str) -> Result<(), Failed>
    ensures { let state = sink_state O.written O.faults O.room_left in
        PutsAll (state sink.old) (state sink.new) result
        (mark.now ++ (text.now ++ line_feed ∷ [])) }
{
    sink.put_all(mark.as_bytes())?;
    sink.put_all(text.as_bytes())?;
    sink.put_all(b"\n")
}

/// Puts the answer to a refused reference: `bad `, the words for its fault and an LF.
pub(crate) fn put_bad<O: Sink>(sink: &mut O, words: &str) -> Result<(), Failed>
    ensures { let state = sink_state O.written O.faults O.room_left in
        PutsAll (state sink.old) (state sink.new) result
        (codes "bad " ++ (words.now ++ line_feed ∷ [])) }
{
    put_line(sink, "bad ", words)
}

/// Puts the answer to a line that asks nothing.
pub(crate) fn put_bad_line<O: Sink>(sink: &mut O) -> Result<(), Failed>
    ensures { let state = sink_state O.written O.faults O.room_left in
        PutsAll (state sink.old) (state sink.new) result bad_line }
{
    sink.put_all(b"bad line\n")
}

/// The answer to a line once it was put: whether it is good, or that the sink failed.
pub(crate) fn say_good(good: bool, put: Result<(), Failed>) -> Result<bool, AnswerError>
    ensures { result ≡ said_good good put }
{
    match put {
        Ok(()) => Ok(good),
        Err(Failed) => Err(AnswerError::SinkFailed),
    }
}
