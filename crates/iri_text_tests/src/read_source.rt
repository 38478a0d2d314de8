use crate::same::same;
use crate::told::tells;
use iri_text::{ReadSource, Source};
use std::io;
use std::io::Read;
use std::test::Fail;

// Gives at most two bytes a call. The second call fails.
#[derive(Debug, Drop)]
struct ShortReader {
    bytes: &'static [u8],
    calls: u8,
}

impl Read for ShortReader {
    fn read(&mut self, buf: &mut [u8]) -> io::Result<usize> {
        self.calls = self.calls.saturating_add(1);
        if self.calls == 2 {
            return Err(io::ErrorKind::Other.into());
        }
        let n = self.bytes.len().min(buf.len()).min(2);
        buf[..n].copy_from_slice(&self.bytes[..n]);
        self.bytes = &self.bytes[n..];
        Ok(n)
    }
}

#[test]
fn takes_what_the_reader_gives(rt: HostRuntime) -> Result<(), Fail> {
    let mut source = ReadSource::new(ShortReader {
        bytes: b"abc",
        calls: 0,
    });
    let mut buf = [0; 4];
    same(&rt, source.take(&mut buf).ok(), Some(2));
    same(&rt, &buf[..2], b"ab".as_slice());
    assert!(rt; tells(rt.alloc(), &source, &["calls: 1 ", "faults: 0 "])?);
    same(&rt, source.take(&mut buf).ok(), None);
    // The error isn't followed by another read.
    assert!(rt; tells(rt.alloc(), &source, &["calls: 2 ", "faults: 1 "])?);
    same(&rt, source.take(&mut buf).ok(), Some(1));
    same(&rt, &buf[..1], b"c".as_slice());
    same(&rt, source.take(&mut buf).ok(), Some(0));
    assert!(rt; tells(rt.alloc(), &source, &["calls: 4 ", "faults: 1 "])?);
    Ok(())
}

// Each call that is odd is ended by a signal; the others give the last byte.
#[derive(Debug, Drop)]
struct SignalledReader {
    calls: u8,
}

impl Read for SignalledReader {
    fn read(&mut self, buf: &mut [u8]) -> io::Result<usize> {
        self.calls = self.calls.saturating_add(1);
        if self.calls % 2 == 1 {
            return Err(io::ErrorKind::Interrupted.into());
        }
        buf.fill(b'a');
        Ok(buf.len())
    }
}

#[test]
fn reads_again_after_a_signal(rt: HostRuntime) -> Result<(), Fail> {
    let mut source = ReadSource::new(SignalledReader { calls: 0 });
    let mut buf = [0; 1];
    for &calls in &["calls: 2 ", "calls: 4 "] {
        same(&rt, source.take(&mut buf).ok(), Some(1));
        assert!(rt; tells(rt.alloc(), &source, &[calls, "faults: 0 "])?);
    }
    Ok(())
}
