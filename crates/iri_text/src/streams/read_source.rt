// A source over std's readers. It tells no bytes: what a real stream gives is not known.
ghost use Rattle.std.specs.Prelude.{◌≡◌, None};

use crate::{Failed, Source};
use std::io::{ErrorKind, Read};
use std::marker::Model;

/// A source that takes bytes from a reader of std.
///
/// ```
/// use iri::streams::{ReadSource, Source};
/// let mut source = ReadSource::new(b"abc".as_slice());
/// let mut buffer = [0; 4];
/// assert!(rt; matches!(source.take(&mut buffer), Ok(3)));
/// assert_eq!(rt; &buffer[..3], b"abc".as_slice());
/// ```
#[derive(Debug, Drop)]
pub struct ReadSource<R> {
    reader: R,
    faults: u64,
}

impl<R> Model for ReadSource<R> {
    ghost use Rattle.iri_text.specs.Streams.{ReadState};

    ghost Value = { ReadState R };

    ghost view = { λ s. record { inner = s.reader; faults = s.faults } };
}

impl<R: Read> ReadSource<R> {
    /// It has not failed yet, and never tells what is left.
    pub fn new(reader: R) -> ReadSource<R>
        ensures reader { result.inner ≡ reader }
        ensures left { ⟦<ReadSource<R> as Source>⟧.left result ≡ None }
        ensures faults { ⟦<ReadSource<R> as Source>⟧.faults result ≡ 0 }
    {
        ReadSource { reader, faults: 0 }
    }
}

impl<R: Read> Source for ReadSource<R> {
    ghost use Rattle.std.specs.Prelude.{◌≡◌, ◌+◌, ◌-◌, ◌^◌, min, None, OnOk, OnErr};
    ghost use Rattle.std.specs.Io.KnownBytes.{ReadConsumes};
    ghost use Rattle.iri_text.specs.Source.{Takes};

    ghost left = { λ _. None };

    ghost faults = { λ s. s.faults };

    /// Reads once; a read that a signal ended before it gave a byte (`Interrupted`) is begun again, as std's own loops do. Each
    /// other error of the reader raises the count by one, up to its last value. Where the reader tells its bytes, these are the
    /// ones that it gives. No clause says which errors are followed by another read, since std's contract of readers tells of
    /// no call; a test counts the calls.
    fn take(&mut self, buf: &mut [u8]) -> Result<usize, Failed>
        ensures takes { Takes None None self.old.faults self.new.faults result buf.new }
        ensures through { ReadConsumes (R.remaining self.old.inner) (R.remaining self.new.inner) result buf.new }
        ensures same { OnOk result (self.new.faults ≡ self.old.faults) }
        ensures raised { OnErr result (self.new.faults ≡ min (self.old.faults + 1) (2 ^ 64 - 1)) }
    {
        'reads: for _ in 0..u64::MAX {
            match self.reader.read(buf) {
                Ok(n) => return Ok(n),
                Err(error) if error.kind() == ErrorKind::Interrupted => {}
                Err(_) => break,
            }
        }
        self.faults = self.faults.saturating_add(1);
        Err(Failed)
    }
}
