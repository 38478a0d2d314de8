// A source over memory that never fails.
ghost use Rattle.std.specs.Prelude.{◌≡◌, Some};

use crate::{Failed, Source};
use std::marker::Model;

/// A source that gives the bytes of a slice, and never fails.
///
/// ```
/// use iri::streams::{LineReader, PlainSource};
/// let mut source = PlainSource::new(b"a\nb");
/// let mut reader = LineReader::new(rt.alloc(), 10, 10)?;
/// let mut count = 0;
/// for _ in 0..3 {
///     if !reader.is_done() && matches!(reader.advance(&mut source), Ok(true)) {
///         count += 1;
///     }
/// }
/// assert_eq!(rt; count, 2);
/// ```
#[derive(Debug, Drop)]
pub struct PlainSource<'a> {
    bytes: &'a [u8],
}

impl<'a> Model for PlainSource<'a> {
    ghost use Rattle.std.specs.Prelude.{ℕ, List};

    ghost Value = { List ℕ };

    ghost view = { λ s. s.bytes.now };
}

impl<'a> PlainSource<'a> {
    /// All of the bytes are left.
    pub fn new(bytes: &'a [u8]) -> PlainSource<'a>
        ensures left { ⟦<PlainSource<'a> as Source>⟧.left result ≡ Some bytes.now }
        ensures faults { ⟦<PlainSource<'a> as Source>⟧.faults result ≡ 0 }
    {
        PlainSource { bytes }
    }
}

impl<'a> Source for PlainSource<'a> {
    ghost use Rattle.std.specs.Prelude.{◌≡◌, min, length, Some, IsOkAnd};
    ghost use Rattle.iri_text.specs.Source.{Takes};

    ghost left = { λ s. Some s };

    ghost faults = { λ _. 0 };

    /// Gives as many bytes as there are and as the buffer has room for.
    fn take(&mut self, buf: &mut [u8]) -> Result<usize, Failed>
        ensures takes { Takes (Some self.old) (Some self.new) 0 0 result buf.new }
        ensures exact { IsOkAnd result (λ n. n ≡ min (length self.old) (length buf.old)) }
    {
        let n = self.bytes.len().min(buf.len());
        buf[..n].copy_from_slice(&self.bytes[..n]);
        self.bytes = &self.bytes[n..];
        Ok(n)
    }
}
