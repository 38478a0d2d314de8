// Expansions with the values that a file of rows gives.
use super::refused;
use crate::template::chars::Bytewise;
use crate::values::Values;
use iri_grammar::spec::{IriSpec, Spec, UriSpec};
use iri_rows::answer::{agreed, displayed};
use iri_rows::error::RowError;
use iri_rows::field::Field;
use iri_template::context::Context;
use iri_template::dynamic_context::Fixed;
use iri_template::expanded::Expanded;
use iri_template::simple_context::SimpleContext;
use iri_template::template::UriTemplateStr;
use iri_text::{SliceSink, ToStringFallible};
use std::alloc::{AllocError, Global};

fn shown<S: Spec, C: Context>(
    alloc: Global,
    template: UriTemplateStr<'_>,
    context: &C,
) -> Result<String, RowError> {
    match template.expand::<S, C>(context) {
        Ok(expanded) => Ok(expanded.try_to_string(alloc)?),
        Err(error) => refused(alloc, error),
    }
}

fn shown_of_bytes<S: Spec, C: Context>(
    alloc: Global,
    template: &[u8],
    context: &C,
) -> Result<String, RowError> {
    match Expanded::<'_, S, C>::try_from_bytes(template, context) {
        Ok(expanded) => Ok(expanded.try_to_string(alloc)?),
        Err(error) => refused(alloc, error),
    }
}

fn put<S: Spec, C: Context>(
    alloc: Global,
    template: UriTemplateStr<'_>,
    context: &C,
) -> Result<String, RowError> {
    let mut buf = [0u8; 200];
    let mut sink = SliceSink::new(&mut buf);
    let mut fixed = Fixed::new(context);
    match template.expand_dynamic::<S, SliceSink<'_>, Fixed<'_, C>>(&mut sink, &mut fixed) {
        Ok(()) => Ok(String::from_str(alloc, sink.as_str())?),
        Err(error) => refused(alloc, error),
    }
}

fn made<S: Spec, C: Context>(
    alloc: Global,
    template: UriTemplateStr<'_>,
    context: &C,
) -> Result<String, RowError> {
    match template.expand_dynamic_to_string::<S, Fixed<'_, C>>(alloc, &mut Fixed::new(context)) {
        Ok(text) => Ok(text),
        Err(error) => refused(alloc, error),
    }
}

// What every call that expands a template gives.
fn by_each_call<S: Spec, C: Context>(
    alloc: Global,
    template: &str,
    context: &C,
) -> Result<String, RowError> {
    let read = shown_of_bytes::<S, C>(alloc, template.as_bytes(), context)?;
    let Ok(template) = UriTemplateStr::new(template) else {
        return Ok(read);
    };
    let shown = shown::<S, C>(alloc, template, context)?;
    let read = agreed(alloc, read, shown.as_str())?;
    let put = put::<S, C>(alloc, template, context)?;
    let made = made::<S, C>(alloc, template, context)?;
    let read = agreed(alloc, read, put.as_str())?;
    Ok(agreed(alloc, read, made.as_str())?)
}

// The same in a grammar: that of URIs, that of IRIs, or both alike.
pub(crate) fn in_grammar<C: Context>(
    alloc: Global,
    grammar: &str,
    template: &str,
    context: &C,
) -> Result<String, RowError> {
    match grammar {
        "uri" => by_each_call::<UriSpec, C>(alloc, template, context),
        "iri" => by_each_call::<IriSpec, C>(alloc, template, context),
        "both" => {
            let uri = by_each_call::<UriSpec, C>(alloc, template, context)?;
            let iri = by_each_call::<IriSpec, C>(alloc, template, context)?;
            Ok(agreed(alloc, uri, iri.as_str())?)
        }
        _ => Err(RowError::NoRow),
    }
}

// `expand GRAMMAR TEMPLATE`: the expansion by every call, with strings in one piece and character by character.
pub(crate) fn expanded(
    alloc: Global,
    values: &Values,
    grammar: &Field,
    template: &Field,
) -> Result<String, RowError> {
    let (grammar, template) = (grammar.text()?, template.text()?);
    let context = values.context();
    let whole = in_grammar(alloc, grammar, template, context)?;
    let pieces = in_grammar(alloc, grammar, template, &Bytewise { context })?;
    Ok(agreed(alloc, whole, pieces.as_str())?)
}

// `refused TEMPLATE`: the fault of bytes, of their text or else of a value's type.
pub(crate) fn refusal(
    alloc: Global,
    values: &Values,
    template: &Field,
) -> Result<String, RowError> {
    match Expanded::<'_, UriSpec, SimpleContext>::try_from_bytes(
        template.bytes(),
        values.context(),
    ) {
        Ok(_) => Ok(String::from_str(alloc, "none")?),
        Err(error) => refused(alloc, error),
    }
}

// `within LIMIT TEMPLATE`: the expansion where it has at most so many bytes.
pub(crate) fn within(
    alloc: Global,
    values: &Values,
    limit: &Field,
    template: &Field,
) -> Result<String, RowError> {
    let template = template.bytes();
    match Expanded::<'_, UriSpec, SimpleContext>::try_from_bytes(template, values.context()) {
        Ok(expanded) => match expanded.try_into_text_within(alloc, limit.number()?)? {
            Some(text) => Ok(text),
            None => Ok(String::from_str(alloc, "too long")?),
        },
        Err(error) => refused(alloc, error),
    }
}

fn shown_by_value<C: Context>(
    alloc: Global,
    expanded: Expanded<'_, UriSpec, C>,
) -> Result<String, AllocError> {
    expanded.try_to_string(alloc)
}

fn thrice(
    alloc: Global,
    expanded: Expanded<'_, UriSpec, SimpleContext>,
) -> Result<String, RowError> {
    let one = shown_by_value(alloc, expanded)?;
    let other = shown_by_value(alloc, expanded.clone()?)?;
    let displayed = displayed(alloc, &expanded)?;
    let one = agreed(alloc, one, other.as_str())?;
    Ok(agreed(alloc, one, displayed.as_str())?)
}

// `copied TEMPLATE`: the text of an expansion, of its copy, and as it is displayed.
pub(crate) fn copied(alloc: Global, values: &Values, template: &Field) -> Result<String, RowError> {
    let template = template.bytes();
    match Expanded::<'_, UriSpec, SimpleContext>::try_from_bytes(template, values.context()) {
        Ok(expanded) => thrice(alloc, expanded),
        Err(error) => refused(alloc, error),
    }
}
