// A sink over a slice.
ghost use Rattle.std.specs.Prelude.{◌≡◌, ◌≤◌, length, take};
ghost use Rattle.std.specs.Str.{IsUtf8};

/// A sink over a slice of bytes, which it fills from the start. What is behind the text that it took stays as it was.
///
/// ```
/// use iri::format::{SliceSink, TextSink};
/// let mut buffer = [0; 4];
/// let mut sink = SliceSink::new(&mut buffer);
/// assert!(rt; sink.put("ab").is_ok());
/// assert!(rt; sink.put("cde").is_err());
/// assert_eq!(rt; sink.as_str(), "ab");
/// assert_eq!(rt; buffer, *b"ab\0\0");
/// ```
#[derive(Debug, Drop)]
pub struct SliceSink<'b> {
    pub(crate) buf: &'b mut [u8],
    pub(crate) len: usize,
    pub(crate) stops: u64,
    ghost within: { len ≤ length buf.now },
    ghost utf8: { ∥ IsUtf8 (take len buf.now) ∥₁ },
}

impl<'b> SliceSink<'b> {
    /// An empty sink with room for as many bytes as the slice has. The slice holds what was taken at its start when the
    /// sink is given up, and behind that what it held before.
    pub fn new(buf: &'b mut [u8]) -> SliceSink<'b>
        ensures same_reference { result.buf.ghost_name ≡ buf.entry.ghost_name }
        ensures same_slice { result.buf.now ≡ buf.old }
        ensures empty { result.len ≡ 0 }
        ensures stops { result.stops ≡ 0 }
    {
        SliceSink {
            buf,
            len: 0,
            stops: 0,
        }
    }
}
