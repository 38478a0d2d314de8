// Sources that give few bytes at a time or fail, and sinks that fail.
use super::answers;
use iri_text::{MemorySource, PlainSource};
use std::test::Fail;

// A character in triplets is one, wherever its bytes are cut.
#[test]
fn cuts(rt: HostRuntime) -> Result<(), Fail> {
    for &(input, output) in &[
        ("http://a/\n//%C3%89X.COM", "ok http://ÉX.COM\n"),
        ("http://a/\n%ce%ce%b1%b1", "ok http://a/%CEα%B1\n"),
    ] {
        for cut in 1..4 {
            let cuts = [cut];
            let mut source = MemorySource::new(input.as_bytes(), &cuts, &[]);
            let words = ["canon", "iri"];
            assert!(rt;
                answers(&rt, &words, &mut source, &[], 0, output.as_bytes())?,
                "{input}, {cut} bytes at a time"
            );
        }
    }
    Ok(())
}

const LINES: &[u8] = b"http://a/\nb\nc\n";

// Byte by byte, each call for a byte fails once: the lines that ended before it are answered.
#[test]
fn failing_sources(rt: HostRuntime) -> Result<(), Fail> {
    for call in 1..15 {
        let output: &[u8] = if call > 12 { b"ok http://a/b\n" } else { b"" };
        let fails = [call];
        let mut source = MemorySource::new(LINES, &[1], &fails);
        assert!(rt;
            answers(&rt, &["canon", "uri"], &mut source, &[], 4, output)?,
            "call {call}"
        );
    }
    Ok(())
}

// Each answer takes two puts, its mark and then its text with an LF, and each of them fails once: what was put before it is written.
#[test]
fn failing_sinks(rt: HostRuntime) -> Result<(), Fail> {
    static ROWS: [(u64, &[u8]); 4] = [
        (1, b""),
        (2, b"ok "),
        (3, b"ok http://a/b\n"),
        (4, b"ok http://a/b\nok "),
    ];
    for &(put, written) in &ROWS {
        let fails = [put];
        let mut source = PlainSource::new(LINES);
        assert!(rt;
            answers(&rt, &["canon", "uri"], &mut source, &fails, 5, written)?,
            "put {put}"
        );
    }
    Ok(())
}

// The lines before the end of a run have their answers, and none is begun where its source fails.
#[test]
fn sources_that_fail_in_each_command(rt: HostRuntime) -> Result<(), Fail> {
    static ROWS: [(&[&str], &[u8], [usize; 2], &[u8]); 5] = [
        (
            &["canon", "uri"],
            b"http://a/\nb\nc",
            [12, 1],
            b"ok http://a/b\n",
        ),
        (
            &["docs", "uri"],
            b"http://a/\n{\"template\":\"b\"}\n{\"template\":\"c\"}\n",
            [27, 4],
            b"ok http://a/b\n",
        ),
        (
            &["expand", "iri"],
            b"http://a/\ns v 6\nt {v}\nt x",
            [25, 1],
            b"ok http://a/6\n",
        ),
        (
            &["links", "uri"],
            b"http://a/\n<b>\n<c>\n",
            [14, 4],
            b"ok <http://a/b>\n",
        ),
        (
            &["register", "uri"],
            b"http://a/\na b\na c\n",
            [14, 4],
            b"new 1\n",
        ),
    ];
    for &(words, input, cuts, output) in &ROWS {
        let mut source = MemorySource::new(input, &cuts, &[2]);
        assert!(rt;
            answers(&rt, words, &mut source, &[], 4, output)?,
            "{words:?}"
        );
    }
    Ok(())
}

// Where the sink of a command fails, and what is written then. The entries of a register are written only where the input was read to
// its end.
static SINKS: [(&[&str], &[u8], u64, &[u8]); 11] = [
    (&["canon", "uri"], b"http://a/\nb\nc", 3, b"ok http://a/b\n"),
    (
        &["canon", "uri", "scheme"],
        b"http://h\n\nx\n",
        3,
        b"ok http://h/\n",
    ),
    (
        &["docs", "uri"],
        b"http://a/\n{\"template\":\"b\"}\n{\"template\":\"c\"}\n",
        3,
        b"ok http://a/b\n",
    ),
    (
        &["expand", "iri"],
        b"http://a/\ns v 6\nt {v}\nt x",
        3,
        b"ok http://a/6\n",
    ),
    (
        &["links", "uri"],
        b"http://a/\n<b>\n<c>\n",
        9,
        b"ok <http://a/b>\n",
    ),
    (
        &["register", "uri"],
        b"http://a/\na b\na c\n",
        7,
        b"new 1\nnew 2\n",
    ),
    (&["robots", "uri", "x"], b"http://a/\nu b\n", 2, b"allow "),
    (&["gen", "uri", "1"], b"a", 1, b""),
    (&["gen", "iri", "1"], b"a", 1, b""),
    (&["--help"], b"a", 1, b""),
    (&["--version"], b"a", 1, b""),
];

#[test]
fn sinks_that_fail_in_each_command(rt: HostRuntime) -> Result<(), Fail> {
    for &(words, input, put, output) in &SINKS {
        let fails = [put];
        let mut source = PlainSource::new(input);
        assert!(rt;
            answers(&rt, words, &mut source, &fails, 5, output)?,
            "{words:?}"
        );
    }
    Ok(())
}
