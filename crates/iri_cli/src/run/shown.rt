// Texts that go to a sink of bytes as they are shown. Nothing is allocated.

use crate::run::sink_text::SinkText;
use iri_text::{Failed, Sink, Stop, TextSink};

impl<'b, O: Sink> TextSink for SinkText<'b, O> {
    ghost use Rattle.iri_text.specs.Sink.{sink_state};
    ghost use Rattle.iri_cli.specs.inside.SinkTexts.{TextPuts, TextHalts, text_rules};

    ghost puts = { TextPuts (sink_state O.written O.faults O.room_left) };

    ghost halts = { TextHalts (sink_state O.written O.faults O.room_left) };

    ghost stops = { λ t. O.faults t.to.now };

    ghost rules = { text_rules (sink_state O.written O.faults O.room_left) };

    fn put(&mut self, piece: &str) -> Result<(), Stop> {
        match self.to.put_all(piece.as_bytes()) {
            Ok(()) => Ok(()),
            Err(Failed) => Err(Stop),
        }
    }
}
