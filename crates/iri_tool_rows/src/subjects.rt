use crate::{link, register, robots, run};
use iri_rows::error::RowError;
use iri_rows::field::Field;
use iri_rows::judge::Subjects;
use std::alloc::Global;

// The subjects, with what each keeps from row to row.
#[derive(Drop)]
pub(crate) struct Tools {
    link: link::Links,
    register: register::Links,
    robots: robots::File,
}

impl Tools {
    pub(crate) fn new(alloc: Global) -> Tools {
        Tools {
            link: link::Links::new(),
            register: register::Links::None,
            robots: robots::File::new(alloc),
        }
    }
}

impl Subjects for Tools {
    fn answer(
        &mut self,
        alloc: Global,
        subject: &str,
        verb: &str,
        fields: &[Field],
    ) -> Result<Vec<u8>, RowError> {
        match subject {
            "link" => Ok(link::answer(alloc, &mut self.link, verb, fields)?.into_bytes()),
            "register" => {
                Ok(register::answer(alloc, &mut self.register, verb, fields)?.into_bytes())
            }
            "robots" => Ok(robots::answer(alloc, &mut self.robots, verb, fields)?.into_bytes()),
            "run" => run::answer(alloc, verb, fields),
            _ => Err(RowError::NoRow),
        }
    }
}
