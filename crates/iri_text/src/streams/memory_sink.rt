// A sink over memory.
ghost use Rattle.std.specs.Prelude.{◌≡◌, ◌≤◌, [], Some, length};

use crate::Sink;

/// A sink that writes to a slice of bytes. It fails as it is told, and where a piece has no room. What is behind the bytes
/// that were written stays as it was.
///
/// ```
/// use iri::streams::{MemorySink, Sink};
/// let mut buffer = [b'.'; 6];
/// let mut sink = MemorySink::new(&mut buffer, &[2]);
/// assert!(rt; sink.put_all(b"ab").is_ok());
/// assert!(rt; sink.put_all(b"c").is_err());
/// assert!(rt; sink.put_all(b"de").is_ok());
/// assert_eq!(rt; sink.written(), b"abde".as_slice());
/// assert_eq!(rt; buffer, *b"abde..");
/// ```
#[derive(Debug, Drop)]
pub struct MemorySink<'a> {
    pub(crate) buf: &'a mut [u8],
    pub(crate) len: usize,
    pub(crate) fails: &'a [u64],
    pub(crate) calls: u64,
    pub(crate) faults: u64,
    ghost within: { len ≤ length buf.now },
}

impl<'a> MemorySink<'a> {
    /// An empty sink with no call numbered yet. The calls whose numbers, from 1, are in `fails` fail. The slice holds what
    /// was written at its start when the sink is given up, and behind that what it held before.
    pub fn new(buf: &'a mut [u8], fails: &'a [u64]) -> MemorySink<'a>
        ensures written { ⟦<MemorySink<'a> as Sink>⟧.written result ≡ Some [] }
        ensures faults { ⟦<MemorySink<'a> as Sink>⟧.faults result ≡ 0 }
        ensures same_reference { result.buf.ghost_name ≡ buf.entry.ghost_name }
        ensures same_slice { result.buf.now ≡ buf.old }
        ensures fails { result.fails.now ≡ fails.now }
        ensures calls { result.calls ≡ 0 }
        ensures room_left { fails.now ≡ [] → ⟦<MemorySink<'a> as Sink>⟧.room_left result ≡ Some (length buf.old) }
    {
        MemorySink {
            buf,
            len: 0,
            fails,
            calls: 0,
            faults: 0,
        }
    }
}
