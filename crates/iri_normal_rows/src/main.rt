//! Rows of tables, tried at the public calls of `iri_normal`, `iri_resolve` and `iri_edit`. The input names the subjects, one a line.
#![tactic(auto)]

mod canonical;
mod edit;
mod steps;
mod subjects;

use crate::subjects::Forms;
use iri_rows::judge::judge;
use std::io;

fn main(rt: HostRuntime) -> io::Result<()> {
    let mut subjects = Forms;
    for subject in rt.lines(rt.alloc()) {
        judge(&rt, &mut subjects, subject?.as_str())?;
    }
    Ok(())
}
