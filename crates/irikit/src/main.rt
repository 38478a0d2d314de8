//! `irikit`: works on the lines of its standard input as the words after its name say, and ends with a status.
//!
//! All of its work is `run_to_writer` of `iri_cli`, whose contract says what each status means, and that nothing is held back at
//! the end of a run whose sink didn't fail. Not proved, and shown by tests/devices/edges on the built program: that `main` makes
//! a source of standard input and a sink of standard output, and passes on the words.
#![tactic(auto)]

use iri_cli::run::to_writer::run_to_writer;
use iri_cli::run::words::command_of;
use iri_cli::run::{MEMORY, NO_COMMAND};
use iri_text::{ReadSource, WriteSink};
use std::alloc::AllocError;
use std::env;
use std::io::{BufWriter, ErrorKind};
use std::process::ExitCode;

// How many bytes of output are written at once.
const BLOCK: usize = 65536;

// Runs over standard input and standard output. A word that isn't UTF-8 is of no command. Words are looked at before more memory is
// taken, so that those of no command end in their status where it is refused.
fn main(rt: HostRuntime) -> ExitCode {
    let words: Result<Vec<String>, AllocError> = match env::args(&rt) {
        Ok(args) => args.skip(1).collect(rt.alloc()),
        Err(error) if error.kind() == ErrorKind::OutOfMemory => return ExitCode::from(MEMORY),
        Err(_) => return ExitCode::from(NO_COMMAND),
    };
    let Ok(words) = words else {
        return ExitCode::from(MEMORY);
    };
    if command_of(&words).is_none() {
        return ExitCode::from(NO_COMMAND);
    }
    let Ok(writer) = BufWriter::with_capacity(rt.alloc(), BLOCK, rt.stdout()) else {
        return ExitCode::from(MEMORY);
    };
    let mut source = ReadSource::new(rt.stdin());
    let mut sink = WriteSink::new(writer);
    ExitCode::from(run_to_writer(rt.alloc(), &words, &mut source, &mut sink))
}
