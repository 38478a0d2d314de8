//! Rows that are tried.
use crate::answer::escaped;
use crate::error::RowError;
use crate::field::Field;
use crate::row::Row;
use std::alloc::{AllocError, Global};
use std::rt::Files;
use std::{fs, io};

/// The subjects of a program, with what they keep from row to row.
pub trait Subjects {
    /// The answer of a row of a subject.
    ///
    /// # Errors
    ///
    /// `NoRow`, where it is no row of the subject; `Memory`, where allocation fails.
    fn answer(
        &mut self,
        alloc: Global,
        subject: &str,
        verb: &str,
        fields: &[Field],
    ) -> Result<Vec<u8>, RowError>;
}

// The answer of a row's call, where it isn't the one that is wanted.
fn differing(
    alloc: Global,
    subjects: &mut impl Subjects,
    subject: &str,
    line: &str,
) -> Result<Option<String>, AllocError> {
    match judged(alloc, subjects, subject, line) {
        Ok(differs) => Ok(differs),
        Err(RowError::NoRow) => Ok(Some(String::from_str(alloc, "is no row")?)),
        Err(RowError::Memory(error)) => Err(error),
    }
}

// The same of a line that may be no row.
fn judged(
    alloc: Global,
    subjects: &mut impl Subjects,
    subject: &str,
    line: &str,
) -> Result<Option<String>, RowError> {
    let row = Row::new(alloc, line)?;
    let answer = subjects.answer(alloc, subject, row.verb()?, row.arguments())?;
    if row.wants(answer.as_slice()) {
        return Ok(None);
    }
    Ok(Some(escaped(alloc, answer.as_slice())?))
}

/// Tries the rows of a subject, which are the lines of a file of its name, and writes those that differ, and their counts.
///
/// # Errors
///
/// Those of the file and of the output, and where allocation fails.
pub fn judge(
    rt: &(impl Files + AllocGlobal + Print),
    subjects: &mut impl Subjects,
    subject: &str,
) -> io::Result<()> {
    let name = format!(in rt.alloc(); "{subject}.txt")?;
    let text = fs::read_to_string(rt, name.as_str())?;
    let (mut rows, mut differ) = (0u64, 0u64);
    for line in text.lines() {
        if line.is_empty() || line.starts_with('#') {
            continue;
        }
        rows = rows.saturating_add(1);
        if let Some(answer) = differing(rt.alloc(), subjects, subject, line)? {
            differ = differ.saturating_add(1);
            println!(rt; "{subject}: {line}: {answer}")?;
        }
    }
    println!(rt; "{subject}: {rows} rows, {differ} differ")
}
