use crate::values::Values;
use crate::{docs, template};
use iri_rows::error::RowError;
use iri_rows::field::Field;
use iri_rows::judge::Subjects;
use std::alloc::Global;

// The subjects, with the values that rows gave variables.
#[derive(Drop)]
pub(crate) struct Templates {
    values: Values,
}

impl Templates {
    pub(crate) fn new(alloc: Global) -> Templates {
        Templates {
            values: Values::new(alloc),
        }
    }
}

impl Subjects for Templates {
    fn answer(
        &mut self,
        alloc: Global,
        subject: &str,
        verb: &str,
        fields: &[Field],
    ) -> Result<Vec<u8>, RowError> {
        let answer = match subject {
            "docs" => docs::answer(alloc, verb, fields)?,
            "template" => template::answer(alloc, &mut self.values, verb, fields)?,
            _ => return Err(RowError::NoRow),
        };
        Ok(answer.into_bytes())
    }
}
