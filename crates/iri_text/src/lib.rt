//! Sources and sinks of bytes, the lines of a source, and values with a text that they show to a sink.
//!
//! - [`Source`] gives bytes, [`Sink`] takes them. Each may tell which bytes, and each counts its faults. A sink may buffer bytes
//!   until it is flushed.
//! - [`PlainSource`], [`MemorySource`] and [`MemorySink`] work on slices; the last two fail as they are told.
//! - [`ReadSource`] and [`WriteSink`] work on std's readers and writers.
//! - [`LineReader`] gives the lines of any source, with a limit for the bytes of a line and one for those of the whole input.
//! - [`Show`] is a value with a text, and [`TextSink`] takes text in pieces and needn't keep it. [`SliceSink`] keeps it in a
//!   slice, [`StringSink`] at the end of a string.
//! - [`write_to_slice`], [`write_at_start`], [`try_append_to_string`], [`ToStringFallible`] and [`ToDedicatedString`] take the
//!   text of a value, and [`FormatSink::display`] makes a `Display` of a `Show`.
//! - [`show_two`] to [`show_five`] and [`show_each`] show values in a row: a `show` of several pieces is one call of these.
//! - [`Text`] and [`Bytes`] own a text and bytes.
//!
//! Proved: every source and sink here keeps its trait (`Takes`, `PutsAll`, `Flushes`): what was taken or put, that a flush
//! keeps what is written, that the count of faults never falls, and that it rose where a call failed.
//! A `WriteSink` is told to hold nothing back only after a flush that succeeded.
//! `MemorySource` and `MemorySink` fail exactly where they are told to or have no room, `PlainSource` never. A sink that is known
//! to have room for a piece takes it (`KeepsRoom`), and a `MemorySink` that is told no failing calls is known to have its room.
//! A `LineReader` gives the next of the `lines` of what is still to come, answers that a limit is passed exactly where one is and
//! names the one that is passed first, and keeps what it took after every fault.
//! `show` appends exactly the text of its value, or the sink's count of stops rose and the sink stopped within that text
//! (`Shows`). The text of an integer is std's decimal. A slice sink stops exactly where a piece is longer than the rest of its
//! slice, and a string sink only where its string would have to grow; both take nothing of a piece at which they stop.
//! What is behind the text in a slice stays as it was, and the capacity of a string is never less than before.
//! `write_to_slice` refuses exactly where the text is longer than the slice. `display` fails only where the count of pieces that
//! the formatter refused rises.
//!
//! Not proved: what a real stream does, and what a writer still buffers once its `flush` answered Ok, of which std's contract of
//! writers says nothing. As a source and a sink, `ReadSource` and `WriteSink` tell no bytes; they are proved to pass on the
//! bytes of a reader or a writer that tells its own, as one over memory. Which of their calls fail is the reader's or the
//! writer's matter; that they fail only where it does, and that a flush reaches the writer, is tested. So are that
//! `LineReader::new` gets its memory, that memory is allocated where a string grows, and that a `Display` here fails only where the
//! formatter does.
//!
//! A `LineReader` looks at each byte for an LF once, and keeps where the first one is, so `holds_lf` looks at none. That
//! lines come out the same in whatever pieces a source gives them is proved, and `reader/tests.rt` shows it byte by byte.
#![tactic(auto)]

ghost use Rattle.std.specs.Prelude.{ℕ, List, Option, None, ⊤};
ghost use Rattle.iri_text.specs.Source.{Takes};
ghost use Rattle.iri_text.specs.Sink.{PutsAll, Flushes, sink_state};

mod copying;
pub mod laws;
mod shown;
mod streams;

pub use shown::format_sink::FormatSink;
pub use shown::owned::{ToDedicatedString, ToStringFallible};
pub use shown::owned_text::{Bytes, Text};
pub use shown::sequence::{show_each, show_five, show_four, show_three, show_two};
pub use shown::show::{Show, Stop, TextSink};
pub use shown::slice::{CapacityOverflowError, write_at_start, write_to_slice};
pub use shown::slice_sink::SliceSink;
pub use shown::string_sink::{StringSink, try_append_to_string};
pub use streams::memory_sink::MemorySink;
pub use streams::memory_source::MemorySource;
pub use streams::plain_source::PlainSource;
pub use streams::read_source::ReadSource;
pub use streams::reader::{LARGEST_LINE_LIMIT, LineFault, LineReader};
pub use streams::write_sink::WriteSink;

/// A source or a sink failed.
///
/// ```
/// use iri::streams::{Failed, MemorySource, Source};
/// let mut source = MemorySource::new(b"abc", &[3], &[1]);
/// let mut buffer = [0; 4];
/// assert!(rt; matches!(source.take(&mut buffer), Err(Failed)));
/// assert!(rt; matches!(source.take(&mut buffer), Ok(3)));
/// ```
#[derive(Clone, Copy, Debug)]
pub struct Failed;

/// Where bytes come from.
///
/// ```
/// use iri::streams::{PlainSource, Source};
/// let mut source = PlainSource::new(b"abc");
/// let mut buffer = [0; 2];
/// assert!(rt; matches!(source.take(&mut buffer), Ok(2)));
/// assert!(rt; matches!(source.take(&mut buffer), Ok(1)));
/// assert!(rt; matches!(source.take(&mut buffer), Ok(0)));
/// ```
pub trait Source {
    /// The bytes still to come, where the source tells them.
    ghost left: { Self → Option (List ℕ) };

    /// How often it failed, up to 2^64 - 1, where the count stays.
    ghost faults: { Self → ℕ };

    /// One call of `take` leads from this source to that one. A source that says no more of its calls needn't give it.
    ghost call: { Self → Self → Type 0 } = { λ _ _. ⊤ };

    /// Puts the next bytes at the start of `buf` and answers how many, at most its length. The answer is 0 only where
    /// nothing is left or `buf` is empty.
    ///
    /// # Errors
    ///
    /// Only where the count of faults rises; nothing is taken then.
    fn take(&mut self, buf: &mut [u8]) -> Result<usize, Failed>
        ensures takes { Takes (left self.old) (left self.new) (faults self.old) (faults self.new) result buf.new }
        ensures call { call self.old self.new };
}

/// Where bytes go. `put_all` alone is to be given.
///
/// ```
/// use iri::streams::{MemorySink, Sink};
/// let mut buffer = [0; 8];
/// let mut sink = MemorySink::new(&mut buffer, &[]);
/// assert!(rt; sink.put_all(b"ok ").is_ok());
/// assert!(rt; sink.put_all(b"a\n").is_ok());
/// assert!(rt; sink.flush().is_ok());
/// assert_eq!(rt; sink.written(), b"ok a\n".as_slice());
/// ```
pub trait Sink {
    /// The bytes that were written, where the sink tells them. Those that it buffers are among them.
    ghost written: { Self → Option (List ℕ) };

    /// How often it failed, up to 2^64 - 1, where the count stays.
    ghost faults: { Self → ℕ };

    /// How many more bytes it is known to take without a fault. A sink of which that isn't known needn't give it.
    ghost room_left: { Self → Option ℕ } = { λ _. None };

    /// Writes the whole piece.
    ///
    /// # Errors
    ///
    /// Only where the count of faults rises, and never where the sink is known to have room for the piece; a prefix of
    /// the piece is written then.
    fn put_all(&mut self, piece: &[u8]) -> Result<(), Failed>
        ensures { let state = sink_state written faults room_left in
            PutsAll (state self.old) (state self.new) result piece.now };

    /// Hands on what the sink buffers. A sink that buffers nothing needn't give it: nothing is done then.
    ///
    /// # Errors
    ///
    /// Only where the count of faults rises; what is written stays as it was.
    fn flush(&mut self) -> Result<(), Failed>
        ensures { let state = sink_state written faults room_left in
            Flushes (state self.old) (state self.new) result }
    {
        Ok(())
    }
}
