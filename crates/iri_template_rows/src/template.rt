// Templates and their expansions (RFC 6570).
mod chars;
mod conversions;
mod expansions;
mod grammar;
mod members;
mod naming;
mod pieces;

use crate::values::Values;
use iri_rows::error::RowError;
use iri_rows::field::Field;
use iri_template::error::{Error, ErrorKind};
use std::alloc::{AllocError, Global};

// A refusal as an answer, its kind and its place, or that memory was refused.
fn refused(alloc: Global, error: Error) -> Result<String, RowError> {
    if error.kind() == ErrorKind::Memory {
        return Err(RowError::Memory(AllocError));
    }
    Ok(format!(in alloc; "{:?} at {}", error.kind(), error.location())?)
}

pub(crate) fn answer(
    alloc: Global,
    values: &mut Values,
    verb: &str,
    fields: &[Field],
) -> Result<String, RowError> {
    match (verb, fields) {
        ("fault", [template]) => grammar::fault(alloc, template),
        ("taken", [template]) => grammar::taken(alloc, template),
        ("error", [template]) => grammar::error(alloc, template),
        ("kind", [name]) => grammar::kind(alloc, name),
        ("name", [name]) => naming::name(alloc, name),
        ("names", [template]) => naming::names(alloc, template),
        ("places", [template]) => naming::places(alloc, template),
        ("expand", [grammar, template]) => expansions::expanded(alloc, values, grammar, template),
        ("within", [limit, template]) => expansions::within(alloc, values, limit, template),
        ("copied", [template]) => expansions::copied(alloc, values, template),
        ("refused", [template]) => expansions::refusal(alloc, values, template),
        ("each", [grammar, template, value]) => pieces::each(alloc, grammar, template, value),
        ("pieces", [grammar, template, one, two, three, four]) => {
            pieces::in_four(alloc, grammar, template, [one, two, three, four])
        }
        ("items", [template, items @ ..]) => members::of_items(alloc, template, items),
        ("entries", [template, entries @ ..]) => members::of_entries(alloc, template, entries),
        ("items_stopped", [template, items @ ..]) => {
            members::items_stopped(alloc, template, items)
        }
        ("entries_stopped", [template, entries @ ..]) => {
            members::entries_stopped(alloc, template, entries)
        }
        ("convert", [kind, template]) => conversions::converted(alloc, values, kind, template),
        ("conversion_error", [kind, template]) => {
            conversions::error(alloc, values, kind, template)
        }
        ("conversion_memory", []) => conversions::memory(alloc),
        _ => values.answer(alloc, verb, fields),
    }
}
