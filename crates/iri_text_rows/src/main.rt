//! Rows of tables, tried at the public calls of `iri_grammar`, `iri_types` and `iri_percent`. The input names the subjects, one a line.
#![tactic(auto)]

mod grammar;
mod percent;
mod subjects;
mod types;

use crate::subjects::Texts;
use iri_rows::judge::judge;
use std::io;

fn main(rt: HostRuntime) -> io::Result<()> {
    let mut subjects = Texts;
    for subject in rt.lines(rt.alloc()) {
        judge(&rt, &mut subjects, subject?.as_str())?;
    }
    Ok(())
}
