// Documents: lines of JSON with a template and its variables.
use crate::values::shown_at;
use iri_docs::doc_error::DocError;
use iri_docs::document::Document;
use iri_docs::expand::{
    EXPANSION_LIMIT, expand_document, expand_document_against, expand_document_against_in,
    expand_document_in,
};
use iri_docs::expand_error::DocExpandError;
use iri_docs::read::read_document;
use iri_grammar::spec::{Spec, UriSpec};
use iri_normal::resolver::FixedBaseResolver;
use iri_rows::answer::{agreed, displayed};
use iri_rows::error::RowError;
use iri_rows::field::Field;
use iri_rows::in_grammar;
use iri_types::view::RiAbsoluteStr;
use std::alloc::{AllocError, Global};

// A refusal in words, described and displayed alike.
fn refused(alloc: Global, error: DocError) -> Result<String, RowError> {
    if error == DocError::Memory {
        return Err(RowError::Memory(AllocError));
    }
    words(alloc, error)
}

fn words(alloc: Global, error: DocError) -> Result<String, RowError> {
    Ok(agreed(alloc, displayed(alloc, &error)?, error.description())?)
}

fn fault_of(alloc: Global, line: &[u8]) -> Result<String, RowError> {
    match read_document(alloc, line) {
        Ok(_) => Ok(String::from_str(alloc, "none")?),
        Err(error) => refused(alloc, error),
    }
}

// `fault LINE`: what a line is refused for.
fn fault(alloc: Global, line: &Field) -> Result<String, RowError> {
    fault_of(alloc, line.bytes())
}

// The start of a line, and as many lists, one in the other, with what ends the line.
fn nested_line(alloc: Global, start: &str, depth: usize, end: &str) -> Result<String, AllocError> {
    let opened = String::from_str(alloc, "[")?.repeat(alloc, depth)?;
    let closed = String::from_str(alloc, "]")?.repeat(alloc, depth)?;
    format!(in alloc; "{start}{opened}{closed}{end}")
}

// `nested START DEPTH END`: what a line is refused for in which as many lists stand one in the other.
fn nested(alloc: Global, start: &Field, depth: &Field, end: &Field) -> Result<String, RowError> {
    let line = nested_line(alloc, start.text()?, depth.number()?, end.text()?)?;
    fault_of(alloc, line.as_bytes())
}

// `template LINE`: the template of a document.
fn template(alloc: Global, line: &Field) -> Result<String, RowError> {
    match read_document(alloc, line.bytes()) {
        Ok(document) => Ok(String::from_str(alloc, document.template())?),
        Err(error) => refused(alloc, error),
    }
}

// `value LINE NAME`: the value of a variable of a document.
fn value(alloc: Global, line: &Field, name: &Field) -> Result<String, RowError> {
    match read_document(alloc, line.bytes()) {
        Ok(document) => Ok(shown_at(alloc, document.context(), name.text()?)?),
        Err(error) => refused(alloc, error),
    }
}

fn expanded_in<S: Spec>(
    alloc: Global,
    base: &Field,
    document: &Document,
) -> Result<String, RowError> {
    let base: RiAbsoluteStr<'_, S> = base.view()?;
    match expand_document(alloc, base, document) {
        Ok(text) => Ok(text.into_string()),
        Err(error) => unexpanded(alloc, error),
    }
}

fn unexpanded(alloc: Global, error: DocExpandError) -> Result<String, RowError> {
    if error == DocExpandError::Memory {
        return Err(RowError::Memory(AllocError));
    }
    Ok(displayed(alloc, &error)?)
}

// `expand GRAMMAR BASE LINE`: the canonical text of a document's expansion.
fn expanded(
    alloc: Global,
    grammar: &Field,
    base: &Field,
    line: &Field,
) -> Result<String, RowError> {
    let document = match read_document(alloc, line.bytes()) {
        Ok(document) => document,
        Err(error) => return refused(alloc, error),
    };
    in_grammar!(grammar, expanded_in(alloc, base, &document))
}

// `against BASE LINE`: the same by a resolver.
fn against(alloc: Global, base: &Field, line: &Field) -> Result<String, RowError> {
    let base: RiAbsoluteStr<'_, UriSpec> = base.view()?;
    let document = match read_document(alloc, line.bytes()) {
        Ok(document) => document,
        Err(error) => return refused(alloc, error),
    };
    match expand_document_against(alloc, &FixedBaseResolver::new(base), &document) {
        Ok(text) => Ok(text.into_string()),
        Err(error) => unexpanded(alloc, error),
    }
}

// `expand_in MODE BASE LINE`: the canonical text of a document's expansion by the rules of a mode.
fn expanded_by(
    alloc: Global,
    mode: &Field,
    base: &Field,
    line: &Field,
) -> Result<String, RowError> {
    let base: RiAbsoluteStr<'_, UriSpec> = base.view()?;
    let document = match read_document(alloc, line.bytes()) {
        Ok(document) => document,
        Err(error) => return refused(alloc, error),
    };
    match expand_document_in(alloc, mode.mode()?, base, &document) {
        Ok(text) => Ok(text.into_string()),
        Err(error) => unexpanded(alloc, error),
    }
}

// `against_in MODE BASE LINE`: the same by a resolver.
fn against_by(alloc: Global, mode: &Field, base: &Field, line: &Field) -> Result<String, RowError> {
    let base: RiAbsoluteStr<'_, UriSpec> = base.view()?;
    let document = match read_document(alloc, line.bytes()) {
        Ok(document) => document,
        Err(error) => return refused(alloc, error),
    };
    let page = FixedBaseResolver::new(base);
    match expand_document_against_in(alloc, mode.mode()?, &page, &document) {
        Ok(text) => Ok(text.into_string()),
        Err(error) => unexpanded(alloc, error),
    }
}

// `long TEMPLATE COUNT`: how many bytes the text has where the variable `v` has so many letters and `l` is the list of 1, or the
// fault.
fn long(alloc: Global, template: &Field, count: &Field) -> Result<String, RowError> {
    let letters = String::from_str(alloc, "a")?.repeat(alloc, count.number()?)?;
    let template = template.text()?;
    let line = format!(in alloc;
        "{{\"template\":\"{template}\",\"vars\":{{\"l\":[1],\"v\":\"{letters}\"}}}}"
    )?;
    let document = match read_document(alloc, line.as_bytes()) {
        Ok(document) => document,
        Err(error) => return refused(alloc, error),
    };
    let Ok(base) = RiAbsoluteStr::<'_, UriSpec>::new("http://a/") else {
        return Err(RowError::NoRow);
    };
    match expand_document(alloc, base, &document) {
        Ok(text) => Ok(format!(in alloc; "{} bytes", text.as_str().len())?),
        Err(error) => unexpanded(alloc, error),
    }
}

pub(crate) fn answer(alloc: Global, verb: &str, fields: &[Field]) -> Result<String, RowError> {
    match (verb, fields) {
        ("fault", [line]) => fault(alloc, line),
        ("nested", [start, depth, end]) => nested(alloc, start, depth, end),
        ("template", [line]) => template(alloc, line),
        ("value", [line, name]) => value(alloc, line, name),
        ("expand", [grammar, base, line]) => expanded(alloc, grammar, base, line),
        ("against", [base, line]) => against(alloc, base, line),
        ("expand_in", [mode, base, line]) => expanded_by(alloc, mode, base, line),
        ("against_in", [mode, base, line]) => against_by(alloc, mode, base, line),
        ("long", [template, count]) => long(alloc, template, count),
        ("limit", []) => Ok(displayed(alloc, &EXPANSION_LIMIT)?),
        ("memory", []) => words(alloc, DocError::Memory),
        ("expansion_memory", []) => Ok(displayed(alloc, &DocExpandError::Memory)?),
        _ => Err(RowError::NoRow),
    }
}
