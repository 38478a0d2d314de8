use crate::same::same;
use iri_text::{LineFault, LineReader, MemorySource, PlainSource, Source};
use std::alloc::{AllocError, Global};
use std::test::Fail;

// These are the lines of the source, and then comes this end or fault.
fn gives<I: Source>(
    reader: &mut LineReader,
    source: &mut I,
    lines: &[&[u8]],
    fault: Option<LineFault>,
) -> bool {
    for want in lines {
        if reader.is_done() {
            return false;
        }
        match reader.next_line(source) {
            Ok(Some(line)) if line == *want => {}
            _ => return false,
        }
    }
    if reader.is_done() {
        return false;
    }
    let last = match reader.next_line(source) {
        Ok(Some(_)) => return false,
        Ok(None) => None,
        Err(fault) => Some(fault),
    };
    last == fault && reader.is_done()
}

#[test]
fn lines_and_the_end(rt: HostRuntime) -> Result<(), Fail> {
    let text = b"ab\r\ncd";
    let want: [&[u8]; 2] = [b"ab", b"cd"];
    let mut reader = LineReader::new(rt.alloc(), 8, 20)?;
    let mut whole = PlainSource::new(text);
    assert!(rt; gives(&mut reader, &mut whole, &want, None));
    let mut reader = LineReader::new(rt.alloc(), 8, 20)?;
    let mut bytes = MemorySource::new(text, &[1], &[]);
    assert!(rt; gives(&mut reader, &mut bytes, &want, None));
    Ok(())
}

#[test]
fn limits(rt: HostRuntime) -> Result<(), Fail> {
    let mut reader = LineReader::new(rt.alloc(), 8, 20)?;
    let mut source = PlainSource::new(b"123456789");
    assert!(rt; gives(&mut reader, &mut source, &[], Some(LineFault::LineTooLong)));
    let mut reader = LineReader::new(rt.alloc(), 8, 20)?;
    let mut source = PlainSource::new(b"1234567\n1234567\n12345");
    let want: [&[u8]; 2] = [b"1234567", b"1234567"];
    assert!(rt;
        gives(
            &mut reader,
            &mut source,
            &want,
            Some(LineFault::InputTooLong)
        )
    );
    // The ninth byte passes both limits.
    let mut reader = LineReader::new(rt.alloc(), 8, 8)?;
    let mut source = PlainSource::new(b"123456789");
    assert!(rt; gives(&mut reader, &mut source, &[], Some(LineFault::InputTooLong)));
    Ok(())
}

// A line of so many letters, which repeat after 23.
fn long_line(alloc: Global, len: usize) -> Result<Vec<u8>, AllocError> {
    let mut line = Vec::new(alloc);
    for i in 0..len {
        line.push(b'a' + (i % 23) as u8)?;
    }
    Ok(line)
}

// The buffer is one block at first. With lines of two blocks it grows to its capacity.
#[test]
fn lines_longer_than_a_block(rt: HostRuntime) -> Result<(), Fail> {
    let long = long_line(rt.alloc(), 131072)?;
    let mut text = Vec::new(rt.alloc());
    text.extend_from_slice(b"a\n")?;
    text.extend_from_slice(&long)?;
    text.extend_from_slice(b"\n")?;
    text.extend_from_slice(&long)?;
    let want: [&[u8]; 3] = [b"a", &long, &long];
    let mut reader = LineReader::new(rt.alloc(), 131072, 1048576)?;
    let mut whole = PlainSource::new(&text);
    assert!(rt; gives(&mut reader, &mut whole, &want, None));
    let mut reader = LineReader::new(rt.alloc(), 131072, 1048576)?;
    let mut pieces = MemorySource::new(&text, &[65535, 1, 4093], &[]);
    assert!(rt; gives(&mut reader, &mut pieces, &want, None));
    text.push(b'z')?;
    let mut reader = LineReader::new(rt.alloc(), 131072, 1048576)?;
    let mut source = PlainSource::new(&text);
    assert!(rt;
        gives(
            &mut reader,
            &mut source,
            &want[..2],
            Some(LineFault::LineTooLong)
        )
    );
    Ok(())
}

#[test]
fn a_source_that_fails_in_a_line(rt: HostRuntime) -> Result<(), Fail> {
    let mut reader = LineReader::new(rt.alloc(), 8, 20)?;
    let mut source = MemorySource::new(b"ab\ncd", &[4], &[2]);
    let want: [&[u8]; 1] = [b"ab"];
    assert!(rt; gives(&mut reader, &mut source, &want, Some(LineFault::Source)));
    Ok(())
}

#[test]
fn goes_to_a_line(rt: HostRuntime) -> Result<(), Fail> {
    let mut reader = LineReader::new(rt.alloc(), 1048576, 268435456)?;
    same(
        &rt,
        reader.advance(&mut PlainSource::new(b"a\nb")),
        Ok(true),
    );
    same(&rt, reader.line(), b"a".as_slice());
    Ok(())
}

// Whether an LF is held before the next line, and that line.
fn next_held<'a, I: Source>(
    reader: &'a mut LineReader,
    source: &mut I,
) -> Option<(bool, &'a [u8])> {
    if reader.is_done() {
        return None;
    }
    let held = reader.holds_lf();
    match reader.advance(source) {
        Ok(true) => Some((held, reader.line())),
        _ => None,
    }
}

#[test]
fn tells_whether_an_lf_is_held(rt: HostRuntime) -> Result<(), Fail> {
    let mut reader = LineReader::new(rt.alloc(), 8, 20)?;
    let mut source = MemorySource::new(b"a\nb\nc\n", &[5, 2], &[]);
    // What is held before each line: nothing, then `b`, LF and `c`, then `c` alone.
    for &(held, line) in &[(false, b"a"), (true, b"b"), (false, b"c")] {
        let want = Some((held, line.as_slice()));
        assert_eq!(rt; next_held(&mut reader, &mut source), want);
    }
    assert!(rt; !reader.holds_lf());
    Ok(())
}
