use crate::error::RowError;
use crate::field::Field;
use std::alloc::Global;

// A row: a verb, its arguments, the answer that is wanted, and where the row is from.
#[derive(Drop)]
pub(crate) struct Row {
    verb: Field,
    arguments: Vec<Field>,
    wanted: Field,
}

impl Row {
    pub(crate) fn new(alloc: Global, line: &str) -> Result<Row, RowError> {
        let mut arguments = Vec::new(alloc);
        for raw in line.split('\t') {
            arguments.push(Field::new(alloc, raw)?)?;
        }
        let (Some(source), Some(wanted)) = (arguments.pop(), arguments.pop()) else {
            return Err(RowError::NoRow);
        };
        if source.bytes().is_empty() || arguments.is_empty() {
            return Err(RowError::NoRow);
        }
        let verb = arguments.remove(0);
        Ok(Row {
            verb,
            arguments,
            wanted,
        })
    }

    pub(crate) fn verb(&self) -> Result<&str, RowError> {
        self.verb.text()
    }

    pub(crate) fn arguments(&self) -> &[Field] {
        self.arguments.as_slice()
    }

    // Whether this is the answer that is wanted.
    pub(crate) fn wants(&self, answer: &[u8]) -> bool {
        self.wanted.bytes() == answer
    }
}
