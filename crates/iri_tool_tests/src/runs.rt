ghost use Rattle.std.specs.Prelude.{None};

mod devices;
mod long;

use crate::same::same;
use iri_cli::help::HELP;
use iri_cli::run::{MEMORY, run};
use iri_cli::{CanonBuffers, canon_lines, canon_lines_in};
use iri_grammar::spec::{IriSpec, UriSpec};
use iri_normal::mode::CanonMode;
use iri_text::{Failed, MemorySink, PlainSource, Sink, Source};
use std::alloc::AllocError;
use std::test::Fail;

// The longest line, in bytes before its LF (docs/COMMANDS.md).
const LINE: usize = 1_048_576;

// Whether the run of these words over the source ends in this status and writes this, where the sink fails at these calls.
fn answers<I: Source>(
    rt: &HostRuntime,
    words: &[&str],
    source: &mut I,
    sink_fails: &[u64],
    status: u8,
    output: &[u8],
) -> Result<bool, Fail> {
    let mut list = Vec::new(rt.alloc());
    for word in words {
        list.push(String::from_str(rt.alloc(), word)?)?;
    }
    let mut room = vec![in rt.alloc(); 0; output.len() + 4096]?;
    let mut sink = MemorySink::new(&mut room, sink_fails);
    let ended = run(rt.alloc(), &list, source, &mut sink);
    // Where allocation failed, whole answer lines were written.
    if ended == MEMORY && is_prefix_of_lines(sink.written(), output) {
        return Err(AllocError.into());
    }
    Ok(ended == status && sink.written() == output)
}

// A status, or that allocation failed.
fn unless_memory(status: u8) -> Result<u8, AllocError> {
    if status == MEMORY {
        return Err(AllocError);
    }
    Ok(status)
}

// Whether these are the first lines of others.
fn is_prefix_of_lines(prefix: &[u8], all: &[u8]) -> bool {
    all.starts_with(prefix) && (prefix.is_empty() || prefix.ends_with(b"\n"))
}

// The same over plain bytes.
fn canon_uri(rt: &HostRuntime, input: &[u8], status: u8, output: &[u8]) -> Result<bool, Fail> {
    answers(
        rt,
        &["canon", "uri"],
        &mut PlainSource::new(input),
        &[],
        status,
        output,
    )
}

// The help is written, and nothing is read.
#[test]
fn help(rt: HostRuntime) -> Result<(), Fail> {
    let mut source = PlainSource::new(b"a");
    assert!(rt; answers(&rt, &["--help"], &mut source, &[], 0, HELP.as_bytes())?);
    assert!(rt; matches!(source.take(&mut [0; 2]), Ok(1)));
    for &command in &[
        "canon GRAMMAR [scheme]",
        "canon GRAMMAR to uri [scheme]",
        "pairs GRAMMAR [scheme]",
        "pairs GRAMMAR to uri [scheme]",
        "parts GRAMMAR [scheme]",
        "expand GRAMMAR [scheme]",
        "register GRAMMAR [scheme]",
        "links GRAMMAR [lax] [scheme]",
        "docs GRAMMAR [scheme]",
        "robots GRAMMAR TOKEN [scheme]",
        "gen GRAMMAR N",
        "--help",
        "--version",
    ] {
        let line = format!(in rt.alloc(); "\n  irikit {command} ")?;
        assert!(rt; HELP.contains(line.as_str()), "{command}");
    }
    Ok(())
}

// The buffers are made where there is memory, and the lines are answered in them.
#[test]
fn lines_in_buffers(rt: HostRuntime) -> Result<(), Fail> {
    let buffers = CanonBuffers::new(rt.alloc())?;
    let mut source = PlainSource::new(b"http://a/b/c/d;p?q\n../../../g\n");
    let mut room = [0; 64];
    let mut sink = MemorySink::new(&mut room, &[]);
    let status = canon_lines::<UriSpec, PlainSource, MemorySink>(buffers, &mut source, &mut sink);
    assert!(rt; status == 0);
    assert!(rt; sink.written() == b"ok http://a/g\n".as_slice());
    Ok(())
}

#[test]
fn lines_in_a_mode(rt: HostRuntime) -> Result<(), Fail> {
    static ROWS: [(CanonMode, &[u8]); 2] = [
        (CanonMode::Default, b"ok http://h:80\n"),
        (CanonMode::Scheme, b"ok http://h/\n"),
    ];
    for &(mode, output) in &ROWS {
        let buffers = CanonBuffers::new(rt.alloc())?;
        let mut source = PlainSource::new(b"http://h:80\n\n");
        let mut room = [0; 64];
        let mut sink = MemorySink::new(&mut room, &[]);
        let status = canon_lines_in::<IriSpec, PlainSource, MemorySink>(
            mode,
            buffers,
            &mut source,
            &mut sink,
        );
        assert!(rt; status == 0);
        assert!(rt; sink.written() == output);
    }
    Ok(())
}

// A sink that counts bytes, of which `put_all` alone is given.
#[derive(Drop)]
struct Counted {
    bytes: usize,
}

impl Sink for Counted {
    ghost written = { λ _. None };

    ghost faults = { λ _. 0 };

    fn put_all(&mut self, piece: &[u8]) -> Result<(), Failed> {
        self.bytes = self.bytes.wrapping_add(piece.len());
        Ok(())
    }
}

#[test]
fn a_sink_gives_one_call(rt: HostRuntime) -> Result<(), Fail> {
    let mut words = Vec::new(rt.alloc());
    words.push(String::from_str(rt.alloc(), "canon")?)?;
    words.push(String::from_str(rt.alloc(), "uri")?)?;
    let mut sink = Counted { bytes: 0 };
    let mut source = PlainSource::new(b"http://a/\nb\n");
    let ended = run(rt.alloc(), &words, &mut source, &mut sink);
    same(&rt, unless_memory(ended)?, 0);
    same(&rt, sink.bytes, b"ok http://a/b\n".len());
    Ok(())
}
