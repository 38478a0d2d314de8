// A text written over the start of the caller's buffer.
ghost use Rattle.std.specs.Prelude.{◌≡◌, ◌^◌, ◌-◌, min, length};
ghost use Rattle.iri_calls.specs.Buffers.{over};
ghost use Rattle.iri_calls.specs.Outcome.{Answered};
ghost use Rattle.iri_calls.specs.Outcome.Outcome.{text};
ghost use Rattle.iri_calls.specs.inside.Placed.{over_at};

use crate::status::{OK, SHORT};
use iri_text::{Show, Stop, TextSink};

/// Writes bytes over what stands at a place, as far as there is room.
pub(crate) fn copy_at(buf: &mut [u8], at: usize, bytes: &[u8])
    ensures { buf.new ≡ over_at at bytes.now buf.old }
{
    if at > buf.len() {
        return;
    }
    let room = buf.len() - at;
    if bytes.len() <= room {
        // A piece of known length is copied in place.
        buf[at..at + bytes.len()].copy_from_slice(bytes);
    } else {
        buf[at..].copy_from_slice(&bytes[..room]);
    }
}

/// A sink over a buffer, which keeps what has room there and counts all. It stops only where the count would pass 2^64 - 1.
#[derive(Drop)]
pub struct BufferSink<'b> {
    buf: &'b mut [u8],
    len: usize,
    stops: u64,
}

impl<'b> BufferSink<'b> {
    // A sink over the whole buffer.
    pub(crate) fn new(buf: &'b mut [u8]) -> BufferSink<'b>
        ensures same { result.buf.ghost_name ≡ buf.entry.ghost_name }
        ensures buf { result.buf.now ≡ buf.old }
        ensures len { result.len ≡ 0 }
    {
        BufferSink {
            buf,
            len: 0,
            stops: 0,
        }
    }

    // How many bytes were put.
    pub(crate) fn count(&self) -> usize
        ensures { result ≡ self.now.len }
    {
        self.len
    }
}

impl<'b> TextSink for BufferSink<'b> {
    ghost use Rattle.iri_calls.specs.inside.BufferText.{BufferPuts, BufferHalts};
    ghost use Rattle.iri_calls.specs.inside.BufferLaws.{buffer_none, buffer_both, buffer_until, buffer_within};

    ghost puts = { BufferPuts };

    ghost halts = { BufferHalts };

    ghost stops = { λ s. s.stops };

    ghost rules = { record { none = buffer_none; both = buffer_both; until = buffer_until; within = buffer_within } };

    fn put(&mut self, piece: &str) -> Result<(), Stop> {
        copy_at(self.buf, self.len, piece.as_bytes());
        match self.len.checked_add(piece.len()) {
            Some(len) => {
                self.len = len;
                Ok(())
            }
            None => {
                self.stops = self.stops.saturating_add(1);
                Err(Stop)
            }
        }
    }
}

/// Writes the text of a value over the start of a buffer, as far as there is room, and returns how many bytes the whole text has.
#[tactic(auto, using(crate::specs::inside::PlacedLaws::over_at_start))]
pub fn write_text<T: Show>(buf: &mut [u8], value: &T) -> usize
    ensures bytes { buf.new ≡ over (T.text value.now) buf.old }
    ensures len { result ≡ min (length (T.text value.now)) (2 ^ 64 - 1) }
{
    let mut sink = BufferSink::new(buf);
    match value.show(&mut sink) {
        Ok(()) => sink.count(),
        Err(_) => usize::MAX,
    }
}

/// Writes the text of a value over the start of a buffer as far as there is room, and its length in bytes to `detail`; returns
/// `OK`, or `SHORT` where it has no room.
pub fn answer_text<T: Show>(out: &mut [u8], value: &T, detail: &mut usize) -> u8
    ensures { Answered (text (T.text value.now)) out.old out.new detail.new result }
{
    *detail = write_text(out, value);
    if *detail <= out.len() { OK } else { SHORT }
}
