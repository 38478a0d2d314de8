// Views: texts of a kind, their parts, and their faults.
use iri_grammar::error::Error;
use iri_grammar::spec::Spec;
use iri_rows::answer::spaced;
use iri_rows::error::RowError;
use iri_rows::field::Field;
use iri_rows::{in_grammar, in_kind};
use iri_types::kind::{Absolute, Fragment, Kind, Query, Reference};
use iri_types::split::SplitView;
use iri_types::view::{RiFragmentStr, RiQueryStr, RiReferenceStr, View};
use std::alloc::{AllocError, Global};

// The text of an answer, or the fault by its description.
fn outcome(alloc: Global, answer: Result<&str, Error>) -> Result<String, AllocError> {
    match answer {
        Ok(text) => String::from_str(alloc, text),
        Err(error) => String::from_str(alloc, error.kind().description()),
    }
}

// `view GRAMMAR KIND BYTES`: the text of a view of bytes, or the first fault.
fn viewed<S: Spec, K: Kind>(alloc: Global, bytes: &Field) -> Result<String, RowError> {
    let answer = match View::<'_, S, K>::try_from_bytes(bytes.bytes()) {
        Ok(view) => Ok(view.as_str()),
        Err(error) => Err(error),
    };
    Ok(outcome(alloc, answer)?)
}

// `new GRAMMAR KIND TEXT`: the same of characters.
fn new<S: Spec, K: Kind>(alloc: Global, text: &Field) -> Result<String, RowError> {
    let answer = match View::<'_, S, K>::new(text.text()?) {
        Ok(view) => Ok(view.as_str()),
        Err(error) => Err(error),
    };
    Ok(outcome(alloc, answer)?)
}

// `query GRAMMAR TEXT`: a query after its question mark.
fn prefixed_query<S: Spec>(alloc: Global, text: &Field) -> Result<String, RowError> {
    let answer = match RiQueryStr::<'_, S>::from_prefixed(text.text()?) {
        Ok(query) => Ok(query.as_str()),
        Err(error) => Err(error),
    };
    Ok(outcome(alloc, answer)?)
}

// `fragment GRAMMAR TEXT`: a fragment after its number sign.
fn prefixed_fragment<S: Spec>(alloc: Global, text: &Field) -> Result<String, RowError> {
    let answer = match RiFragmentStr::<'_, S>::from_prefixed(text.text()?) {
        Ok(fragment) => Ok(fragment.as_str()),
        Err(error) => Err(error),
    };
    Ok(outcome(alloc, answer)?)
}

// `split GRAMMAR BYTES`: the text of a reference that is split as it is read, or the first fault.
fn split<S: Spec>(alloc: Global, bytes: &Field) -> Result<String, RowError> {
    let answer = match SplitView::<'_, S, Reference>::try_from_bytes(bytes.bytes()) {
        Ok(split) => Ok(split.view().as_str()),
        Err(error) => Err(error),
    };
    Ok(outcome(alloc, answer)?)
}

// `split_base GRAMMAR BYTES`: the same of an absolute URI.
fn split_base<S: Spec>(alloc: Global, bytes: &Field) -> Result<String, RowError> {
    let answer = match SplitView::<'_, S, Absolute>::absolute_from_bytes(bytes.bytes()) {
        Ok(split) => Ok(split.view().as_str()),
        Err(error) => Err(error),
    };
    Ok(outcome(alloc, answer)?)
}

// `parts GRAMMAR REFERENCE`: the five parts of a reference, with `-` for what is absent.
fn parts<S: Spec>(alloc: Global, text: &Field) -> Result<String, RowError> {
    let view: RiReferenceStr<'_, S> = text.view()?;
    let scheme = view.scheme_str().unwrap_or("-");
    let authority = view.authority_str().unwrap_or("-");
    let query = view.query_str().unwrap_or("-");
    let fragment = view.fragment_str().unwrap_or("-");
    Ok(spaced(
        alloc,
        &[scheme, authority, view.path_str(), query, fragment],
    )?)
}

// `ends GRAMMAR REFERENCE`: the query and the fragment of a reference, as views.
fn ends<S: Spec>(alloc: Global, text: &Field) -> Result<String, RowError> {
    let view: RiReferenceStr<'_, S> = text.view()?;
    let query = match view.query() {
        Some(query) => query.as_str(),
        None => "-",
    };
    let fragment = match view.fragment() {
        Some(fragment) => fragment.as_str(),
        None => "-",
    };
    Ok(spaced(alloc, &[query, fragment])?)
}

// `authority GRAMMAR REFERENCE`: the userinfo, the host, the registered name and the port of a reference.
fn authority<S: Spec>(alloc: Global, text: &Field) -> Result<String, RowError> {
    let view: RiReferenceStr<'_, S> = text.view()?;
    let Some(parts) = view.authority_components() else {
        return Ok(String::from_str(alloc, "-")?);
    };
    let userinfo = parts.userinfo().unwrap_or("-");
    let name = parts.reg_name().unwrap_or("-");
    let port = parts.port().unwrap_or("-");
    Ok(spaced(alloc, &[userinfo, parts.host(), name, port])?)
}

// What is tried as a text of a kind: `view` and `new`, and the latter of queries and fragments as `new_query` and `new_fragment`.
fn of_kind<S: Spec>(alloc: Global, verb: &str, fields: &[Field]) -> Result<String, RowError> {
    match (verb, fields) {
        ("view", [kind, bytes]) => in_kind!(kind, viewed::<S>(alloc, bytes)),
        ("new", [kind, text]) => in_kind!(kind, new::<S>(alloc, text)),
        ("new_query", [text]) => new::<S, Query>(alloc, text),
        ("new_fragment", [text]) => new::<S, Fragment>(alloc, text),
        _ => Err(RowError::NoRow),
    }
}

fn of_grammar<S: Spec>(alloc: Global, verb: &str, fields: &[Field]) -> Result<String, RowError> {
    match (verb, fields) {
        ("query", [text]) => prefixed_query::<S>(alloc, text),
        ("fragment", [text]) => prefixed_fragment::<S>(alloc, text),
        ("split", [bytes]) => split::<S>(alloc, bytes),
        ("split_base", [bytes]) => split_base::<S>(alloc, bytes),
        ("parts", [text]) => parts::<S>(alloc, text),
        ("ends", [text]) => ends::<S>(alloc, text),
        ("authority", [text]) => authority::<S>(alloc, text),
        _ => of_kind::<S>(alloc, verb, fields),
    }
}

pub(crate) fn answer(alloc: Global, verb: &str, fields: &[Field]) -> Result<String, RowError> {
    let [grammar, rest @ ..] = fields else {
        return Err(RowError::NoRow);
    };
    in_grammar!(grammar, of_grammar(alloc, verb, rest))
}
