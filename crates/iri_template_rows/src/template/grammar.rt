// What is a template, and the first fault of what is none.
use super::refused;
use iri_rows::answer::{agreed, displayed, yes_or_no};
use iri_rows::error::RowError;
use iri_rows::field::Field;
use iri_template::error::{Error, ErrorKind};
use iri_template::template::UriTemplateStr;
use std::alloc::Global;

fn fault_of(alloc: Global, read: Result<UriTemplateStr<'_>, Error>) -> Result<String, RowError> {
    match read {
        Ok(_) => Ok(String::from_str(alloc, "none")?),
        Err(error) => refused(alloc, error),
    }
}

// `fault TEMPLATE`: the first fault of bytes, which is that of their text where they are one.
pub(crate) fn fault(alloc: Global, template: &Field) -> Result<String, RowError> {
    let of_bytes = fault_of(alloc, UriTemplateStr::try_from_bytes(template.bytes()))?;
    match template.text() {
        Ok(text) => {
            let of_text = fault_of(alloc, UriTemplateStr::new(text))?;
            Ok(agreed(alloc, of_bytes, of_text.as_str())?)
        }
        Err(_) => Ok(of_bytes),
    }
}

// `taken TEMPLATE`: whether a text is a template.
pub(crate) fn taken(alloc: Global, template: &Field) -> Result<String, RowError> {
    Ok(yes_or_no(alloc, UriTemplateStr::new(template.text()?).is_ok())?)
}

// `error TEMPLATE`: the first fault as it is displayed.
pub(crate) fn error(alloc: Global, template: &Field) -> Result<String, RowError> {
    match UriTemplateStr::new(template.text()?) {
        Ok(_) => Ok(String::from_str(alloc, "none")?),
        Err(error) => Ok(displayed(alloc, &error)?),
    }
}

fn kind_of(name: &str) -> Result<ErrorKind, RowError> {
    match name {
        "WriteFailed" => Ok(ErrorKind::WriteFailed),
        "ExpressionNotClosed" => Ok(ErrorKind::ExpressionNotClosed),
        "InvalidCharacter" => Ok(ErrorKind::InvalidCharacter),
        "InvalidExpression" => Ok(ErrorKind::InvalidExpression),
        "InvalidPercentEncoding" => Ok(ErrorKind::InvalidPercentEncoding),
        "InvalidUtf8" => Ok(ErrorKind::InvalidUtf8),
        "UnexpectedValueType" => Ok(ErrorKind::UnexpectedValueType),
        "UnsupportedOperator" => Ok(ErrorKind::UnsupportedOperator),
        "Memory" => Ok(ErrorKind::Memory),
        _ => Err(RowError::NoRow),
    }
}

// `kind NAME`: the words of a kind of fault.
pub(crate) fn kind(alloc: Global, name: &Field) -> Result<String, RowError> {
    Ok(String::from_str(alloc, kind_of(name.text()?)?.description())?)
}
