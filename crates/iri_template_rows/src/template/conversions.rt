// Expansions that are made owned texts.
use super::refused;
use crate::values::Values;
use iri_grammar::spec::UriSpec;
use iri_owned::owned::Owned;
use iri_rows::answer::displayed;
use iri_rows::error::RowError;
use iri_rows::field::Field;
use iri_template::expanded::{Expanded, ExpandedError};
use iri_template::simple_context::SimpleContext;
use iri_types::kind::Kind;
use std::alloc::{AllocError, Global};

type Expansion<'a> = Expanded<'a, UriSpec, SimpleContext>;

fn text_of<K: Kind>(
    made: Result<Owned<UriSpec, K>, ExpandedError>,
) -> Result<String, ExpandedError> {
    Ok(made?.into_string())
}

fn made(
    alloc: Global,
    expansion: Expansion<'_>,
    kind: &str,
) -> Result<Result<String, ExpandedError>, RowError> {
    match kind {
        "reference" => Ok(text_of(expansion.try_into_reference(alloc))),
        "iri" => Ok(text_of(expansion.try_into_iri(alloc))),
        "absolute" => Ok(text_of(expansion.try_into_absolute(alloc))),
        "relative" => Ok(text_of(expansion.try_into_relative(alloc))),
        _ => Err(RowError::NoRow),
    }
}

// `convert KIND TEMPLATE`: the expansion as a text of this kind, or what is wrong with which text.
pub(crate) fn converted(
    alloc: Global,
    values: &Values,
    kind: &Field,
    template: &Field,
) -> Result<String, RowError> {
    let expansion = match Expansion::try_from_bytes(template.bytes(), values.context()) {
        Ok(expansion) => expansion,
        Err(error) => return refused(alloc, error),
    };
    match made(alloc, expansion, kind.text()?)? {
        Ok(text) => Ok(text),
        Err(ExpandedError::Memory(error)) => Err(RowError::Memory(error)),
        Err(ExpandedError::Invalid(error)) => {
            let kind = error.validation_error().kind();
            Ok(format!(in alloc; "{kind:?} in {}", error.into_source())?)
        }
    }
}

// `conversion_error KIND TEMPLATE`: the same refusal as it is displayed.
pub(crate) fn error(
    alloc: Global,
    values: &Values,
    kind: &Field,
    template: &Field,
) -> Result<String, RowError> {
    let expansion = match Expansion::try_from_bytes(template.bytes(), values.context()) {
        Ok(expansion) => expansion,
        Err(error) => return refused(alloc, error),
    };
    match made(alloc, expansion, kind.text()?)? {
        Ok(text) => Ok(text),
        Err(ExpandedError::Memory(error)) => Err(RowError::Memory(error)),
        Err(error) => Ok(displayed(alloc, &error)?),
    }
}

// `conversion_memory`: the error of a refused allocation as it is displayed.
pub(crate) fn memory(alloc: Global) -> Result<String, RowError> {
    Ok(displayed(alloc, &ExpandedError::Memory(AllocError))?)
}
