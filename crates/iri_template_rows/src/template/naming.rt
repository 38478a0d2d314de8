// Names of variables.
use super::refused;
use iri_rows::error::RowError;
use iri_rows::field::Field;
use iri_template::template::UriTemplateStr;
use iri_template::var_name::VarName;
use std::alloc::{AllocError, Global};

// `name TEXT`: the fault of a text that is no variable's name.
pub(crate) fn name(alloc: Global, name: &Field) -> Result<String, RowError> {
    match VarName::new(name.text()?) {
        Ok(_) => Ok(String::from_str(alloc, "none")?),
        Err(error) => refused(alloc, error),
    }
}

fn names_of(alloc: Global, template: UriTemplateStr<'_>) -> Result<String, AllocError> {
    let mut names = String::new(alloc);
    for name in template.variables() {
        names.push_str(name.as_str())?;
        names.push_str(" ")?;
    }
    Ok(names)
}

// `names TEMPLATE`: the names, each with a space after it.
pub(crate) fn names(alloc: Global, template: &Field) -> Result<String, RowError> {
    match UriTemplateStr::new(template.text()?) {
        Ok(template) => Ok(names_of(alloc, template)?),
        Err(error) => refused(alloc, error),
    }
}

fn places_of(alloc: Global, template: UriTemplateStr<'_>) -> Result<String, AllocError> {
    let mut places = String::new(alloc);
    let mut variables = template.variables();
    for _ in 0..template.len() {
        match variables.next_with_place() {
            Some((place, name)) => {
                let shown = format!(in alloc; "{place} {} ", name.as_str())?;
                places.push_str(shown.as_str())?;
            }
            None => break,
        }
    }
    Ok(places)
}

// `places TEMPLATE`: the place of each name and the name, each with a space after it.
pub(crate) fn places(alloc: Global, template: &Field) -> Result<String, RowError> {
    match UriTemplateStr::new(template.text()?) {
        Ok(template) => Ok(places_of(alloc, template)?),
        Err(error) => refused(alloc, error),
    }
}
