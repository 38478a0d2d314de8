// Lines, bases, paths and expansions as long as they may be, and longer.
use super::{LINE, answers, canon_uri};
use iri_text::PlainSource;
use std::test::Fail;

// What is before the line, then so many times `a`.
fn long_line(rt: &HostRuntime, prefix: &[u8], count: usize) -> Result<Vec<u8>, Fail> {
    let mut input = Vec::new(rt.alloc());
    input.extend_from_slice(prefix)?;
    input.extend_from_slice(&vec![in rt.alloc(); b'a'; count]?)?;
    Ok(input)
}

// A line that is too long ends a run with status 7, after the answers to the lines before it.
#[test]
fn lines_that_are_too_long(rt: HostRuntime) -> Result<(), Fail> {
    static ROWS: [(&[&str], &[u8], usize, &[u8]); 5] = [
        (
            &["canon", "uri"],
            b"http://a/\ng\n",
            1048577,
            b"ok http://a/g\n",
        ),
        (
            &["docs", "uri"],
            b"http://a/\n{\"template\":\"b\"}\n",
            1048577,
            b"ok http://a/b\n",
        ),
        (
            &["expand", "iri"],
            b"http://a/\nt g\ns v ",
            1048573,
            b"ok http://a/g\n",
        ),
        (
            &["links", "uri"],
            b"http://a/\n<b>\n",
            1048577,
            b"ok <http://a/b>\n",
        ),
        (
            &["register", "uri"],
            b"http://a/\na b\n",
            1048577,
            b"new 1\n",
        ),
    ];
    for &(words, prefix, count, output) in &ROWS {
        let input = long_line(&rt, prefix, count)?;
        let mut source = PlainSource::new(&input);
        assert!(rt;
            answers(&rt, words, &mut source, &[], 7, output)?,
            "{words:?}"
        );
    }
    Ok(())
}

#[test]
fn a_line_as_long_as_it_may_be(rt: HostRuntime) -> Result<(), Fail> {
    let input = long_line(&rt, b"http://a/\ng\n", 1048576)?;
    let mut output = long_line(&rt, b"ok http://a/g\nok http://a/", 1048576)?;
    output.push(b'\n')?;
    assert!(rt; canon_uri(&rt, &input, 0, &output)?);
    Ok(())
}

#[test]
fn a_base_as_long_as_a_line_may_be(rt: HostRuntime) -> Result<(), Fail> {
    let count = LINE - b"HTTP://A/".len();
    let mut input = long_line(&rt, b"HTTP://A/", count)?;
    input.extend_from_slice(b"\n\n")?;
    let mut output = long_line(&rt, b"ok http://a/", count)?;
    output.push(b'\n')?;
    assert!(rt; canon_uri(&rt, &input, 0, &output)?);
    Ok(())
}

// An expansion has at most 1,048,576 bytes, which is told before whether it is a reference.
#[test]
fn long_expansions_of_documents(rt: HostRuntime) -> Result<(), Fail> {
    static ROWS: [(&[u8], usize, usize, &[u8]); 3] = [
        (b"{v}{v}", 524288, 1048576, b"ok http://a/"),
        (b"{v}{v}a", 524288, 0, b"bad expansion too long"),
        (b"1:{v}{v}", 524288, 0, b"bad expansion too long"),
    ];
    for &(template, count, written, answer) in &ROWS {
        let mut prefix = Vec::new(rt.alloc());
        prefix.extend_from_slice(b"http://a/\n{\"template\":\"")?;
        prefix.extend_from_slice(template)?;
        prefix.extend_from_slice(b"\",\"vars\":{\"v\":\"")?;
        let mut input = long_line(&rt, &prefix, count)?;
        input.extend_from_slice(b"\"}}\n")?;
        let mut output = long_line(&rt, answer, written)?;
        output.push(b'\n')?;
        let status = if written == 0 { 1 } else { 0 };
        let mut source = PlainSource::new(&input);
        assert!(rt; answers(&rt, &["docs", "uri"], &mut source, &[], status, &output)?);
    }
    Ok(())
}

// An expansion may have 1,048,576 bytes. One with more is too long, whatever else is wrong with it.
#[test]
fn long_expansions(rt: HostRuntime) -> Result<(), Fail> {
    static REST: [(&[u8], usize, &[u8]); 3] = [
        (b"\ns w aaaa\nt {v}{w}\n", 1048576, b"ok http://a/"),
        (b"\ns w aaaaa\nt {v}{w}\n", 0, b"bad expansion too long"),
        (b"\ns w 1:a\nt {+w}:{v}{v}\n", 0, b"bad expansion too long"),
    ];
    for &(lines, count, answer) in &REST {
        let mut input = long_line(&rt, b"http://a/\ns v ", 1048572)?;
        input.extend_from_slice(lines)?;
        let mut output = long_line(&rt, answer, count)?;
        output.push(b'\n')?;
        let status = if count == 0 { 1 } else { 0 };
        let mut source = PlainSource::new(&input);
        assert!(rt; answers(&rt, &["expand", "uri"], &mut source, &[], status, &output)?);
    }
    Ok(())
}

// A prefix, so many times one text, so many times another, and a suffix.
fn long(
    rt: &HostRuntime,
    prefix: &[u8],
    parts: [(&[u8], usize); 2],
    suffix: &[u8],
) -> Result<Vec<u8>, Fail> {
    let mut text = Vec::new(rt.alloc());
    text.extend_from_slice(prefix)?;
    for (part, count) in parts {
        text.extend_from_slice(&part.to_vec(rt.alloc())?.repeat(rt.alloc(), count)?)?;
    }
    text.extend_from_slice(suffix)?;
    Ok(text)
}

// Paths as long as a line may be: as many segments as leave one byte at least for what is after them.
#[test]
fn deep_paths(rt: HostRuntime) -> Result<(), Fail> {
    for count in [10_900, (LINE - 1) / 5] {
        let up = long(&rt, b"http://a/\n", [(b"a/", count), (b"../", count)], b"g")?;
        assert!(rt;
            canon_uri(&rt, &up, 0, b"ok http://a/g\n")?,
            "{count} times"
        );
    }
    for count in [32_767, (LINE - 1) / 2] {
        let input = long(&rt, b"http://a/\n", [(b"a/", count), (b"", 0)], b".")?;
        let output = long(&rt, b"ok http://a/", [(b"a/", count), (b"", 0)], b"\n")?;
        assert!(rt; canon_uri(&rt, &input, 0, &output)?, "{count} times");
    }
    Ok(())
}
