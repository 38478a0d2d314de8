//! Rows of tables, tried at the public calls of `iri_template` and `iri_docs`. The input names the subjects, one a line.
#![tactic(auto)]

mod docs;
mod subjects;
mod template;
mod values;

use crate::subjects::Templates;
use iri_rows::judge::judge;
use std::io;

fn main(rt: HostRuntime) -> io::Result<()> {
    let mut subjects = Templates::new(rt.alloc());
    for subject in rt.lines(rt.alloc()) {
        judge(&rt, &mut subjects, subject?.as_str())?;
    }
    Ok(())
}
