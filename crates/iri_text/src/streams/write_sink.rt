// A sink over std's writers. It tells no bytes: what a real stream takes is not known.
ghost use Rattle.std.specs.Prelude.{◌≡◌, None, true};

use crate::{Failed, Sink};
use std::io::Write;
use std::marker::Model;

/// A sink that puts bytes into a writer of std, which may buffer them.
///
/// ```
/// use iri::streams::{Sink, WriteSink};
/// let mut sink = WriteSink::new(Vec::<u8>::new(rt.alloc()));
/// assert!(rt; sink.put_all(b"ok http://a/b\n").is_ok());
/// assert!(rt; sink.flush().is_ok());
/// ```
#[derive(Debug, Drop)]
pub struct WriteSink<W> {
    writer: W,
    faults: u64,
    pending: bool,
}

impl<W> Model for WriteSink<W> {
    ghost use Rattle.iri_text.specs.Streams.{Writing};

    ghost Value = { Writing W };

    ghost view = { λ s. record { inner = s.writer; faults = s.faults; pending = s.pending } };
}

impl<W: Write> WriteSink<W> {
    /// It has not failed yet, and never tells what is written. The writer may hold bytes from before.
    pub fn new(writer: W) -> WriteSink<W>
        ensures writer { result.inner ≡ writer }
        ensures written { ⟦<WriteSink<W> as Sink>⟧.written result ≡ None }
        ensures faults { ⟦<WriteSink<W> as Sink>⟧.faults result ≡ 0 }
        ensures pending { result.pending ≡ true }
    {
        WriteSink {
            writer,
            faults: 0,
            pending: true,
        }
    }
}

impl<W: Write> WriteSink<W> {
    ghost use Rattle.std.specs.Prelude.{◌+◌, ◌-◌, ◌^◌, ◌<◌, ◌≤◌, min, length, take, OnOk, OnErr, IfOk};
    ghost use Rattle.std.specs.Io.KnownBytes.{Appends, WriteAppends};
    ghost use Rattle.iri_text.specs.Streams.{WritesPrefix};

    // Writes once. It is a fault where the writer answers an error or takes nothing.
    #[inline(always)]
    fn write_some(&mut self, piece: &[u8]) -> Result<usize, Failed>
        ensures count { IfOk result (λ n. (0 < n) × (n ≤ length piece.now)) }
        ensures bytes { WriteAppends (W.contents self.old.inner) (W.contents self.new.inner) result piece.now }
        ensures same { OnOk result (self.new.faults ≡ self.old.faults) }
        ensures raised { OnErr result (self.new.faults ≡ min (self.old.faults + 1) (2 ^ 64 - 1)) }
        ensures later { self.old.faults ≤ self.new.faults }
        ensures pending { self.new.pending ≡ true }
    {
        self.pending = true;
        match self.writer.write(piece) {
            Ok(0) | Err(_) => {
                self.faults = self.faults.saturating_add(1);
                Err(Failed)
            }
            Ok(n) => Ok(n),
        }
    }

    // Writes until the piece is taken. It stands apart, so that the first write is inlined: a writer that buffers takes most pieces at
    // once.
    #[cold]
    #[inline(never)]
    fn put_rest(&mut self, piece: &[u8]) -> Result<(), Failed>
        ensures whole { OnOk result (Appends (W.contents self.old.inner) (W.contents self.new.inner) piece.now) }
        ensures prefix { OnErr result (WritesPrefix (W.contents self.old.inner) (W.contents self.new.inner) piece.now) }
        ensures same { OnOk result (self.new.faults ≡ self.old.faults) }
        ensures raised { OnErr result (self.new.faults ≡ min (self.old.faults + 1) (2 ^ 64 - 1)) }
        ensures later { self.old.faults ≤ self.new.faults }
        ensures pending { self.old.pending ≡ true → self.new.pending ≡ true }
    {
        let mut rest = piece;
        while !rest.is_empty() {
            let n = self.write_some(rest)?;
            rest = &rest[n..];
        }
        Ok(())
    }
}

impl<W: Write> Sink for WriteSink<W> {
    ghost use Rattle.std.specs.Prelude.{◌≡◌, ◌≢◌, ◌+◌, ◌-◌, ◌^◌, [], false, min, None, OnOk, OnErr, IsOk, true};
    ghost use Rattle.std.specs.Io.KnownBytes.{Appends, Keeps};
    ghost use Rattle.iri_text.specs.Streams.{WritesPrefix, untold};
    ghost use Rattle.iri_text.specs.Sink.{PutsAll, Flushes};

    ghost written = { λ _. None };

    ghost faults = { λ s. s.faults };

    /// Writes until the whole piece is taken. Where the writer tells its bytes, it has the whole piece, or a prefix of
    /// it, after them. An empty piece is not written at all.
    ///
    /// # Errors
    ///
    /// Where the writer answers an error or takes nothing; the count rises by one, up to its last value.
    fn put_all(&mut self, piece: &[u8]) -> Result<(), Failed>
        ensures puts { PutsAll (untold self.old.faults) (untold self.new.faults) result piece.now }
        ensures whole { OnOk result (Appends (W.contents self.old.inner) (W.contents self.new.inner) piece.now) }
        ensures prefix { OnErr result (WritesPrefix (W.contents self.old.inner) (W.contents self.new.inner) piece.now) }
        ensures raised { OnErr result (self.new.faults ≡ min (self.old.faults + 1) (2 ^ 64 - 1)) }
        ensures empty { piece.now ≡ [] → IsOk result }
        ensures nothing { piece.now ≡ [] → self.new ≡ self.old }
        ensures pending { piece.now ≢ [] → self.new.pending ≡ true }
    {
        if piece.is_empty() {
            return Ok(());
        }
        match self.write_some(piece) {
            Ok(n) => {
                if n < piece.len() {
                    return self.put_rest(&piece[n..]);
                }
                Ok(())
            }
            Err(Failed) => Err(Failed),
        }
    }

    /// Flushes the writer, where bytes may be pending: at first, and where a piece that isn't empty was put since the
    /// last flush that succeeded, also one at which `put_all` failed. A writer that tells its bytes keeps them. No clause
    /// says that the writer is called, since std's contract of writers tells of no call; a test counts the calls.
    ///
    /// # Errors
    ///
    /// Where the writer answers an error; the count rises by one, up to its last value.
    fn flush(&mut self) -> Result<(), Failed>
        ensures flushes { Flushes (untold self.old.faults) (untold self.new.faults) result }
        ensures kept { Keeps (W.contents self.old.inner) (W.contents self.new.inner) }
        ensures handed_on { OnOk result (self.new.pending ≡ false) }
        ensures pending { OnErr result (self.new.pending ≡ self.old.pending) }
        ensures raised { OnErr result (self.new.faults ≡ min (self.old.faults + 1) (2 ^ 64 - 1)) }
    {
        if !self.pending {
            return Ok(());
        }
        match self.writer.flush() {
            Ok(()) => {
                self.pending = false;
                Ok(())
            }
            Err(_) => {
                self.faults = self.faults.saturating_add(1);
                Err(Failed)
            }
        }
    }
}
