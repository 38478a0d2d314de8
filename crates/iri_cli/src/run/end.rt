// How a run ends.
ghost use Rattle.std.specs.Prelude.{◌≡◌};
ghost use Rattle.iri_text.specs.Sink.{sink_state};
ghost use Rattle.iri_cli.specs.run.Run.{status_of};
ghost use Rattle.iri_cli.specs.inside.Closes.{Finishes};

use iri_text::{Failed, Sink};

/// How a run ends: that over the lines of an input, or `Done` and `SinkFailed` of one that writes a
/// text.
#[derive(Clone, Copy)]
pub enum End {
    /// All lines were answered, and each answer is good; or the text was written.
    Done,
    /// All lines were answered, and some answer is bad.
    SomeBad,
    /// The base line is refused.
    BadBase,
    /// The source failed.
    SourceFailed,
    /// The sink failed.
    SinkFailed,
    /// Allocation failed.
    Memory,
    /// A line has too many bytes.
    LineTooLong,
    /// The input has too many bytes.
    InputTooLong,
}

/// The status of the program.
pub fn status(end: End) -> u8
    ensures { result ≡ status_of end }
{
    match end {
        End::Done => 0,
        End::SomeBad => 1,
        End::BadBase => 3,
        End::SourceFailed => 4,
        End::SinkFailed => 5,
        End::Memory => 6,
        End::LineTooLong => 7,
        End::InputTooLong => 8,
    }
}

/// The status of a run that ended so, once its sink is flushed. A sink that failed isn't asked
/// again.
pub fn finish<O: Sink>(sink: &mut O, end: End) -> u8
    ensures { let state = sink_state O.written O.faults O.room_left in
        Finishes (state sink.old) (state sink.new) end result }
{
    match end {
        End::SinkFailed => status(end),
        _ => match sink.flush() {
            Ok(()) => status(end),
            Err(Failed) => status(End::SinkFailed),
        },
    }
}
