//! Lines that are read as documents.
ghost use Rattle.std.specs.Prelude.{◌≡◌, ◌<◌, length, option_map};
ghost use Rattle.serde_json.specs.View.{view, members_view};
ghost use Rattle.iri_template.specs.Contexts.{value_in};
ghost use Rattle.iri_docs.specs.Answered.{AnswersBut, TellsFault};
ghost use Rattle.iri_docs.specs.Documents.{line_document, document, has_only_known, all_known, is_known, vars_of, with_vars};
ghost use Rattle.iri_docs.specs.Held.{held};

use crate::doc_error::DocError;
use crate::document::Document;
use crate::variables::read_variables;
use iri_template::simple_context::SimpleContext;
use serde_json::{Map, Value as Json};
use std::alloc::Global;

fn is_known_key(key: &str) -> bool
    ensures { result ≡ is_known key.now }
{
    key == "template" || key == "vars"
}

fn are_all_known(members: &Map<String, Json>) -> bool
    ensures { result ≡ all_known (members_view members.now.entries) }
{
    for (key, _) in members.iter() {
        if !is_known_key(key.as_str()) {
            return false;
        }
    }
    true
}

fn has_only_known(object: Option<&Map<String, Json>>) -> bool
    ensures { result ≡ has_only_known (option_map (λ m. members_view m.now.entries) object.entry) }
{
    match object {
        Some(members) => are_all_known(members),
        None => false,
    }
}

fn read_vars(alloc: Global, vars: Option<&Json>) -> Result<SimpleContext, DocError>
    ensures answer { AnswersBut DocError.Memory value_in result (vars_of (option_map (λ v. view v.now) vars.entry)) }
    ensures fault { TellsFault result (vars_of (option_map (λ v. view v.now) vars.entry)) }
{
    match vars {
        None => Ok(SimpleContext::new(alloc)),
        Some(Json::Object(object)) => read_variables(alloc, object),
        Some(_) => Err(DocError::Shape),
    }
}

// The document of a template's text and the values of its variables.
fn with_vars(alloc: Global, template: &str, vars: Option<&Json>) -> Result<Document, DocError>
    ensures answer { AnswersBut DocError.Memory held result
        (with_vars (Some template.now) (vars_of (option_map (λ v. view v.now) vars.entry))) }
    ensures fault { TellsFault result
        (with_vars (Some template.now) (vars_of (option_map (λ v. view v.now) vars.entry))) }
{
    match read_vars(alloc, vars) {
        Ok(context) => Ok(Document {
            template: String::from_str(alloc, template)?,
            context,
        }),
        Err(error) => Err(error),
    }
}

/// The document that a value of JSON is: an object with a string as its member `template`, maybe an object as its
/// member `vars`, and no other member. `vars` has the values of variables, as [`read_variables`] reads them.
///
/// # Errors
///
/// The first of these, whatever memory there is:
///
/// - `Shape` exactly where the value isn't such an object.
/// - Those of [`read_variables`] for `vars`.
/// - `Memory` where allocation fails, only where the value is a document.
pub fn document_of(alloc: Global, value: &Json) -> Result<Document, DocError>
    ensures answer { AnswersBut DocError.Memory held result (document (view value.now)) }
    ensures fault { TellsFault result (document (view value.now)) }
{
    if !has_only_known(value.as_object()) {
        return Err(DocError::Shape);
    }
    let template = value
        .get("template")
        .and_then(Json::as_str)
        .ok_or(DocError::Shape)?;
    with_vars(alloc, template, value.get("vars"))
}

/// The document of a line, which is one value of JSON, as [`document_of`] has it. The line is as `serde_json` reads it:
/// an object has its members in the order of their keys' bytes, and the last value of a key stays.
///
/// # Errors
///
/// The first fault, in the order of [`DocError`]'s kinds: `Json`, then those of `document_of`. `Memory` where allocation
/// fails, only where the line isn't empty; it says nothing else of the line, since `serde_json` may run out of memory at
/// any place of its reading.
///
/// ```
/// use iri::docs::read_document;
/// let line = b"{\"template\":\"x{?q}\",\"vars\":{\"q\":7}}";
/// let document = read_document(rt.alloc(), line)?;
/// assert_eq!(rt; document.template(), "x{?q}");
/// assert!(rt; read_document(rt.alloc(), b"x{?q}").is_err());
/// ```
pub fn read_document(alloc: Global, line: &[u8]) -> Result<Document, DocError>
    ensures answer { AnswersBut DocError.Memory held result (line_document line.now) }
    ensures memory { result ≡ Err DocError.Memory → 0 < length line.now }
{
    match Json::from_slice(alloc, line) {
        Ok(value) => document_of(alloc, &value),
        Err(error) => if error.is_memory() {
            Err(DocError::Memory)
        } else {
            Err(DocError::Json)
        },
    }
}
