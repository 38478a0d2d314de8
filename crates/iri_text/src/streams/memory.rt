// What is written to memory.
ghost use Rattle.std.specs.Prelude.{◌≡◌, ◌<◌, ◌+◌, ◌-◌, ◌^◌, ◌⊎◌, ◌↔◌, min, length, drop, Some, IsOk, IsErr, OnErr};
ghost use Rattle.std.specs.Prelude.{Contains};
ghost use Rattle.iri_text.specs.Memory.{memory_written, room_left_of, state_of};
ghost use Rattle.iri_text.specs.Sink.{PutsAll, Flushes};

use crate::copying::copy_to;
use crate::streams::memory_sink::MemorySink;
use crate::{Failed, Sink};

impl<'a> MemorySink<'a> {
    /// The bytes that were written.
    pub fn written(&self) -> &[u8]
        ensures { result.now ≡ memory_written self.now }
    {
        &self.buf[..self.len]
    }
}

impl<'a> Sink for MemorySink<'a> {
    ghost written = { λ s. Some (memory_written s) };

    ghost faults = { λ s. s.faults };

    ghost room_left = { room_left_of };

    /// Writes the whole piece. What is behind the bytes that were written stays as it was.
    ///
    /// # Errors
    ///
    /// Exactly where the number of the call is in `fails`, or the piece is longer than the room that is left; the slice is
    /// as it was then.
    fn put_all(&mut self, piece: &[u8]) -> Result<(), Failed>
        ensures puts { PutsAll (state_of self.old) (state_of self.new) result piece.now }
        ensures calls { self.new.calls ≡ min (self.old.calls + 1) (2 ^ 64 - 1) }
        ensures exact { IsErr result ↔ (Contains self.old.fails.now self.new.calls
            ⊎ (length self.old.buf.now < length (memory_written self.old) + length piece.now)) }
        ensures nothing { OnErr result ((self.new.len ≡ self.old.len) × (self.new.buf.now ≡ self.old.buf.now)) }
        ensures same_reference { self.new.buf.ghost_name ≡ self.old.buf.ghost_name }
        ensures room { length self.new.buf.now ≡ length self.old.buf.now }
        ensures behind { drop self.new.len self.new.buf.now ≡ drop self.new.len self.old.buf.now }
        ensures fails { self.new.fails ≡ self.old.fails }
    {
        self.calls = self.calls.saturating_add(1);
        if self.fails.contains(&self.calls) || self.buf.len() - self.len < piece.len() {
            self.faults = self.faults.saturating_add(1);
            return Err(Failed);
        }
        let end = self.len + piece.len();
        copy_to(self.buf, self.len, piece);
        self.len = end;
        Ok(())
    }

    /// Nothing is ever held back: it never fails, and changes nothing.
    fn flush(&mut self) -> Result<(), Failed>
        ensures flushes { Flushes (state_of self.old) (state_of self.new) result }
        ensures succeeds { IsOk result }
        ensures same { self.new ≡ self.old }
    {
        Ok(())
    }
}
