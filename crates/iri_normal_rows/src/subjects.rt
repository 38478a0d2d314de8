use crate::{canonical, edit, steps};
use iri_rows::error::RowError;
use iri_rows::field::Field;
use iri_rows::judge::Subjects;
use std::alloc::Global;

// The subjects, which keep nothing from row to row.
#[derive(Drop)]
pub(crate) struct Forms;

impl Subjects for Forms {
    fn answer(
        &mut self,
        alloc: Global,
        subject: &str,
        verb: &str,
        fields: &[Field],
    ) -> Result<Vec<u8>, RowError> {
        let answer = match subject {
            "canonical" => canonical::answer(alloc, verb, fields)?,
            "edit" => edit::answer(alloc, verb, fields)?,
            "steps" => steps::answer(alloc, verb, fields)?,
            _ => return Err(RowError::NoRow),
        };
        Ok(answer.into_bytes())
    }
}
