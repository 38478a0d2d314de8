// Text in a slice.
ghost use Rattle.std.specs.Prelude.{◌≡◌, ◌≤◌, ◌<◌, ◌+◌, ◌++◌, ◌↔◌, Some, length, take, codes, IfOk, IsErr, OnErr};
ghost use Rattle.std.specs.Str.{IsUtf8};
ghost use Rattle.iri_text.specs.Shown.{Shows};
ghost use Rattle.iri_text.specs.SliceText.{slice_taken, SlicePuts, SliceHalts, BeginsWithin, over_start};
ghost use Rattle.iri_text.specs.inside.AppendingLaws.{slice_rules};

use crate::copying::copy_to;
use crate::shown::slice_sink::SliceSink;
use crate::{Show, Stop, TextSink};
use std::fmt;

impl<'b> SliceSink<'b> {
    /// The text that was taken.
    pub fn as_str(&self) -> &str
        ensures { result.now ≡ slice_taken self.now }
    {
        unsafe { str::from_utf8_unchecked(&self.buf[..self.len]) }
    }
}

impl<'b> TextSink for SliceSink<'b> {
    ghost puts = { SlicePuts };

    ghost halts = { SliceHalts };

    ghost stops = { λ s. s.stops };

    ghost rules = { slice_rules };

    /// Takes the piece.
    ///
    /// # Errors
    ///
    /// Exactly where the piece is longer than the rest of the slice; nothing of it is taken then, and the slice is as it
    /// was.
    fn put(&mut self, piece: &str) -> Result<(), Stop>
        ensures shows { Shows SlicePuts SliceHalts (λ s. s.stops) self.old piece.now self.new result }
        ensures exact { IsErr result ↔ (length self.old.buf.now < length (slice_taken self.old) + length piece.now) }
        ensures nothing { OnErr result ((self.new.len ≡ self.old.len) × (self.new.buf.now ≡ self.old.buf.now)) }
    {
        let bytes = piece.as_bytes();
        if self.buf.len() - self.len < bytes.len() {
            self.stops = self.stops.saturating_add(1);
            return Err(Stop);
        }
        let end = self.len + bytes.len();
        copy_to(self.buf, self.len, bytes);
        self.len = end;
        Ok(())
    }
}

/// A text has more bytes than the slice that it was to be written to.
///
/// ```
/// use iri::format::{CapacityOverflowError, write_to_slice};
/// use iri::types::UriStr;
/// let mut short = [0; 4];
/// let written = write_to_slice(&mut short, &UriStr::new("urn:a")?);
/// assert!(rt; matches!(written, Err(CapacityOverflowError)));
/// ```
#[derive(Clone, Copy, Debug)]
pub struct CapacityOverflowError;

impl fmt::Display for CapacityOverflowError {
    ghost output = { λ _. Some (codes "buffer capacity overflow") };

    ghost styled_output = { λ _ _. Some (codes "buffer capacity overflow") };

    fn fmt<W: fmt::Write>(&self, f: &mut fmt::Formatter<W>) -> fmt::Result {
        f.write_str("buffer capacity overflow")
    }
}

impl std::error::Error for CapacityOverflowError {}

/// Writes the text of a value to the start of a slice, and says how many bytes it has. What is behind it stays as it was.
/// It allocates nothing.
///
/// # Errors
///
/// Exactly where the text has more bytes than the slice; the slice begins with a prefix of it then.
///
/// ```
/// use iri::format::write_at_start;
/// use iri::types::UriStr;
/// let mut buffer = [b'.'; 12];
/// assert_eq!(rt; write_at_start(&mut buffer, &UriStr::new("http://a/b")?)?, 10);
/// assert_eq!(rt; buffer, *b"http://a/b..");
/// ```
pub fn write_at_start<T: Show>(buf: &mut [u8], value: &T) -> Result<usize, CapacityOverflowError>
    ensures len { IfOk result (λ n. n ≡ length (T.text value.now)) }
    ensures whole { IfOk result (λ _. buf.new ≡ over_start (T.text value.now) buf.old) }
    ensures utf8 { IfOk result (λ n. IsUtf8 (take n buf.new)) }
    ensures prefix { OnErr result (BeginsWithin (T.text value.now) buf.old buf.new) }
    ensures exact { IsErr result ↔ (length buf.old < length (T.text value.now)) }
{
    let mut sink = SliceSink::new(buf);
    match value.show(&mut sink) {
        Ok(()) => Ok(sink.len),
        Err(_) => Err(CapacityOverflowError),
    }
}

/// Writes the text of a value to the start of a slice, and gives it back. It allocates nothing. What the slice holds then
/// [`write_at_start`] says, which it calls.
///
/// # Errors
///
/// Exactly where the text has more bytes than the slice.
///
/// ```
/// use iri::format::write_to_slice;
/// use iri::prelude::Normalize;
/// use iri::types::UriStr;
/// let mut buffer = [0; 27];
/// let link = UriStr::new("eXAMPLE://a/./b/../b/%63/%7bfoo%7d")?.normalize();
/// assert_eq!(rt; write_to_slice(&mut buffer, &link)?, "example://a/b/c/%7Bfoo%7D");
/// let mut short = [0; 10];
/// assert!(rt; write_to_slice(&mut short, &link).is_err());
/// ```
pub fn write_to_slice<'b, T: Show>(
    buf: &'b mut [u8],
    value: &T,
) -> Result<&'b str, CapacityOverflowError>
    ensures text { IfOk result (λ s. s.now ≡ T.text value.now) }
    ensures exact { IsErr result ↔ (length buf.old < length (T.text value.now)) }
{
    match write_at_start(buf, value) {
        Ok(len) => Ok(unsafe { str::from_utf8_unchecked(&buf[..len]) }),
        Err(error) => Err(error),
    }
}
