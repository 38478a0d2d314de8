use crate::told::tells;
use iri_text::{Sink, WriteSink};
use std::io;
use std::io::Write;
use std::test::Fail;

// Takes at most three bytes a call, fails once where it has `failing` bytes, and takes nothing once it has `full`.
#[derive(Debug, Drop)]
struct ShortWriter {
    got: Vec<u8>,
    failing: Option<usize>,
    full: usize,
    flushes: u8,
}

impl Write for ShortWriter {
    fn write(&mut self, buf: &[u8]) -> io::Result<usize> {
        let len = self.got.len();
        if self.failing == Some(len) {
            self.failing = None;
            return Err(io::ErrorKind::Other.into());
        }
        if len >= self.full {
            return Ok(0);
        }
        let n = buf.len().min(3);
        self.got.extend_from_slice(&buf[..n])?;
        Ok(n)
    }

    fn flush(&mut self) -> io::Result<()> {
        self.flushes = self.flushes.saturating_add(1);
        Ok(())
    }
}

#[test]
fn writes_until_all_is_taken(rt: HostRuntime) -> Result<(), Fail> {
    let mut sink = WriteSink::new(ShortWriter {
        got: Vec::with_capacity(rt.alloc(), 10)?,
        failing: Some(7),
        full: 10,
        flushes: 0,
    });
    assert!(rt; sink.put_all(b"abcdefg").is_ok());
    assert!(rt; tells(rt.alloc(), &sink, &["faults: 0,"])?);
    // An error, and nothing after it is tried.
    assert!(rt; sink.put_all(b"hij").is_err());
    let first = ["faults: 1,", "got: [97, 98, 99, 100, 101, 102, 103]"];
    assert!(rt; tells(rt.alloc(), &sink, &first)?);
    // A write of no bytes.
    assert!(rt; sink.put_all(b"hijk").is_err());
    let all = [
        "faults: 2,",
        "got: [97, 98, 99, 100, 101, 102, 103, 104, 105, 106]",
    ];
    assert!(rt; tells(rt.alloc(), &sink, &all)?);
    Ok(())
}

// Holds bytes back until it is flushed, and answers an error to two of its flushes, by their numbers.
#[derive(Debug, Drop)]
struct HoldingWriter {
    held: Vec<u8>,
    out: Vec<u8>,
    failing: [u8; 2],
    flushes: u8,
}

impl Write for HoldingWriter {
    fn write(&mut self, buf: &[u8]) -> io::Result<usize> {
        self.held.extend_from_slice(buf)?;
        Ok(buf.len())
    }

    fn flush(&mut self) -> io::Result<()> {
        self.flushes = self.flushes.saturating_add(1);
        if self.failing.contains(&self.flushes) {
            return Err(io::ErrorKind::Other.into());
        }
        self.out.extend_from_slice(self.held.as_slice())?;
        self.held.clear();
        Ok(())
    }
}

#[test]
fn flushes_its_writer(rt: HostRuntime) -> Result<(), Fail> {
    let mut sink = WriteSink::new(HoldingWriter {
        held: Vec::with_capacity(rt.alloc(), 3)?,
        out: Vec::with_capacity(rt.alloc(), 3)?,
        failing: [1, 3],
        flushes: 0,
    });
    assert!(rt; sink.put_all(b"abc").is_ok());
    assert!(rt; tells(rt.alloc(), &sink, &["flushes: 0 "])?);
    assert!(rt; sink.flush().is_err());
    assert!(rt; tells(rt.alloc(), &sink, &["flushes: 1 ", "faults: 1,"])?);
    assert!(rt; sink.flush().is_ok());
    let flushed = ["flushes: 2 ", "faults: 1,", "out: [97, 98, 99]"];
    assert!(rt; tells(rt.alloc(), &sink, &flushed)?);
    // Nothing is pending now: the writer, whose next flush fails, isn't called.
    assert!(rt; sink.flush().is_ok());
    assert!(rt; tells(rt.alloc(), &sink, &["flushes: 2 "])?);
    assert!(rt; sink.put_all(b"d").is_ok());
    assert!(rt; sink.flush().is_err());
    assert!(rt; tells(rt.alloc(), &sink, &["flushes: 3 "])?);
    Ok(())
}

// The writer may hold bytes from before.
#[test]
fn flushes_a_writer_before_any_put(rt: HostRuntime) -> Result<(), Fail> {
    let mut held = Vec::with_capacity(rt.alloc(), 1)?;
    held.push(b'a')?;
    let mut sink = WriteSink::new(HoldingWriter {
        held,
        out: Vec::with_capacity(rt.alloc(), 1)?,
        failing: [0, 0],
        flushes: 0,
    });
    assert!(rt; sink.flush().is_ok());
    assert!(rt; tells(rt.alloc(), &sink, &["flushes: 1 ", "out: [97]"])?);
    Ok(())
}

// A piece that isn't empty may leave bytes pending, also where the writer took none of it.
#[test]
fn flushes_after_a_piece_that_failed(rt: HostRuntime) -> Result<(), Fail> {
    let mut sink = WriteSink::new(ShortWriter {
        got: Vec::new(rt.alloc()),
        failing: None,
        full: 0,
        flushes: 0,
    });
    assert!(rt; sink.flush().is_ok());
    assert!(rt; sink.put_all(b"").is_ok());
    assert!(rt; sink.flush().is_ok());
    assert!(rt; tells(rt.alloc(), &sink, &["flushes: 1 "])?);
    assert!(rt; sink.put_all(b"a").is_err());
    assert!(rt; sink.flush().is_ok());
    assert!(rt; tells(rt.alloc(), &sink, &["flushes: 2 "])?);
    Ok(())
}
