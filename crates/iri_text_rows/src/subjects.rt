use crate::{grammar, percent, types};
use iri_rows::error::RowError;
use iri_rows::field::Field;
use iri_rows::judge::Subjects;
use std::alloc::Global;

// The subjects, which keep nothing from row to row.
#[derive(Drop)]
pub(crate) struct Texts;

impl Subjects for Texts {
    fn answer(
        &mut self,
        alloc: Global,
        subject: &str,
        verb: &str,
        fields: &[Field],
    ) -> Result<Vec<u8>, RowError> {
        match subject {
            "grammar" => Ok(grammar::answer(alloc, verb, fields)?.into_bytes()),
            "percent" => percent::answer(alloc, verb, fields),
            "types" => Ok(types::answer(alloc, verb, fields)?.into_bytes()),
            _ => Err(RowError::NoRow),
        }
    }
}
