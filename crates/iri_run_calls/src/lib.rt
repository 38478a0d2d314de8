//! The program's commands for C, over memory: what `irikit` would do with words and an input, its output in the caller's
//! buffer. `iri_run_c` exports it.
//!
//! Proved: `irikit_run` keeps the contract of the program's `run`, over a source that has the input and never fails, and a sink
//! that has as much room as the buffer; or allocation failed before anything was read. That comes only for a command over lines and for
//! `gen`: for words that are no command, and those of a notice, nothing is allocated.
//!
//! Not proved: that memory is there.
#![tactic(auto)]

ghost use Rattle.std.specs.Prelude.{◌≡◌, ◌≢◌, ◌≤◌, [], ◌∷◌, IfOk, map, string_bytes, length};
ghost use Rattle.iri_cli.specs.run.Words.{notice_word};
ghost use Rattle.iri_grammar.specs.Pieces.{pieces};
ghost use Rattle.iri_text.specs.SliceText.{over_start};
ghost use Rattle.iri_grammar.specs.Blanks.{space};
ghost use Rattle.iri_run_calls.specs.Runs.{RanOrMemory, RunAnswered, TakesMemory};

mod words;

use crate::words::command_in;
use iri_cli::help::{Notice, text_of};
use iri_cli::run::words::Command;
use iri_cli::run::{MEMORY, NO_COMMAND, run};
use iri_grammar::cutting::cut;
use iri_text::{MemorySink, PlainSource};
use std::alloc::{AllocError, Global};

// The status where the output has no room.
const SHORT: u8 = 5;

// The words of a text, with one space between each two.
fn words_in(alloc: Global, text: &str) -> Result<Vec<String>, AllocError>
    ensures { IfOk result (λ v. map string_bytes v.items ≡ pieces space text.now) }
{
    let mut words = Vec::new(alloc);
    let mut rest = text;
    'words: loop {
        let (word, after) = cut(rest, b' ');
        match String::from_str(alloc, word) {
            Ok(word) => match words.push(word) {
                Ok(()) => (),
                Err(_) => return Err(AllocError),
            },
            Err(error) => return Err(error),
        }
        match after {
            Some(after) => rest = after,
            None => return Ok(words),
        }
    }
}

// Writes bytes over the start of a buffer that has room for them.
fn copy_over(buf: &mut [u8], bytes: &[u8])
    requires { length bytes.now ≤ length buf.old }
    ensures { buf.new ≡ over_start bytes.now buf.old }
{
    buf[..bytes.len()].copy_from_slice(bytes);
}

// Does what words say with an input, in a buffer of its own.
fn run_words(
    alloc: Global,
    words: &[String],
    input: &[u8],
    out: &mut [u8],
    out_len: &mut usize,
) -> u8
    ensures { RanOrMemory (map string_bytes words.now) input.now out.old out.new out_len.new result }
{
    let mut buffer = match Vec::from_elem(alloc, 0u8, out.len()) {
        Ok(buffer) => buffer,
        Err(_) => {
            *out_len = 0;
            return MEMORY;
        }
    };
    let mut source = PlainSource::new(input);
    let mut sink = MemorySink::new(&mut buffer, &[]);
    let status = run(alloc, words, &mut source, &mut sink);
    let written = sink.written();
    // The sink has just that room. No contract of a run says so, since it speaks of every sink.
    if written.len() > out.len() {
        *out_len = 0;
        return MEMORY;
    }
    copy_over(out, written);
    *out_len = written.len();
    status
}

// Does what the words of a text say with an input.
fn run_text(alloc: Global, text: &str, input: &[u8], out: &mut [u8], out_len: &mut usize) -> u8
    ensures { RanOrMemory (pieces space text.now) input.now out.old out.new out_len.new result }
{
    match words_in(alloc, text) {
        Ok(words) => run_words(alloc, words.as_slice(), input, out, out_len),
        Err(_) => {
            *out_len = 0;
            MEMORY
        }
    }
}

// Writes a notice over the start of a buffer, where it has room.
fn write_notice(notice: Notice, input: &[u8], out: &mut [u8], out_len: &mut usize) -> u8
    ensures run { RanOrMemory (notice_word notice ∷ []) input.now out.old out.new out_len.new result }
    ensures memory { result ≢ 6 }
{
    let text = text_of(notice);
    if text.len() > out.len() {
        *out_len = 0;
        return SHORT;
    }
    copy_over(out, text.as_bytes());
    *out_len = text.len();
    0
}

// Tells that nothing was written, since words are no command.
fn no_command(out_len: &mut usize) -> u8
    ensures out_len { out_len.new ≡ 0 }
    ensures status { result ≡ 2 }
{
    *out_len = 0;
    NO_COMMAND
}

/// What the program would do with words, one space between each two, and an input. Words are looked at before memory is taken.
pub fn irikit_run(
    alloc: Global,
    words: &[u8],
    input: &[u8],
    out: &mut [u8],
    out_len: &mut usize,
) -> u8
    ensures run { RunAnswered words.now input.now out.old out.new out_len.new result }
    // Allocation fails only at a command over lines, or at `gen`.
    ensures memory { result ≡ 6 → TakesMemory (pieces space words.now) }
{
    let Ok(text) = str::from_utf8(words) else {
        return no_command(out_len);
    };
    match command_in(text) {
        Some(Command::Tell(notice)) => write_notice(notice, input, out, out_len),
        Some(_) => run_text(alloc, text, input, out, out_len),
        None => no_command(out_len),
    }
}
