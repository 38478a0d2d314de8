//! Rows of tables, tried at the public calls of `iri_link`, `iri_register`, `iri_robots` and `iri_cli`. The input names the subjects, one a
//! line.
#![tactic(auto)]

mod link;
mod register;
mod robots;
mod run;
mod subjects;

use crate::subjects::Tools;
use iri_rows::judge::judge;
use std::io;

fn main(rt: HostRuntime) -> io::Result<()> {
    let mut subjects = Tools::new(rt.alloc());
    for subject in rt.lines(rt.alloc()) {
        judge(&rt, &mut subjects, subject?.as_str())?;
    }
    Ok(())
}
