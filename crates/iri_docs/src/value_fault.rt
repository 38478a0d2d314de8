//! The first faults of JSON values as the values of variables.
ghost use Rattle.std.specs.Prelude.{◌≡◌};
ghost use Rattle.std.specs.Result.{result_err};
ghost use Rattle.serde_json.specs.View.{view, number_view, items_view, members_view};
ghost use Rattle.iri_docs.specs.Documents.{whole_text, inner_text, inner_texts, inner_pairs, value as value_of};

use crate::doc_error::DocError;
use serde_json::{Map, Number, Value as Json};

// Whether a number is held as a float.
fn number_fault(number: &Number) -> Option<DocError>
    ensures { result ≡ result_err (whole_text (number_view number.now)) }
{
    if number.is_f64() {
        Some(DocError::Float)
    } else {
        None
    }
}

// The fault of a value in an array or an object.
fn inner_fault(value: &Json) -> Option<DocError>
    ensures { result ≡ result_err (inner_text (view value.now)) }
{
    match value {
        Json::Bool(_) => Some(DocError::Truth),
        Json::Number(number) => number_fault(number),
        Json::String(_) => None,
        Json::Null | Json::Array(_) | Json::Object(_) => Some(DocError::Nested),
    }
}

// The first fault of an array.
fn list_fault(array: &Vec<Json>) -> Option<DocError>
    ensures { result ≡ result_err (inner_texts (items_view array.now.items)) }
{
    for value in array {
        if let Some(fault) = inner_fault(value) {
            return Some(fault);
        }
    }
    None
}

// The first fault of an object.
fn pairs_fault(object: &Map<String, Json>) -> Option<DocError>
    ensures { result ≡ result_err (inner_pairs (members_view object.now.entries)) }
{
    for (_, value) in object.iter() {
        if let Some(fault) = inner_fault(value) {
            return Some(fault);
        }
    }
    None
}

// The first fault of a value. It allocates nothing.
pub(crate) fn value_fault(value: &Json) -> Option<DocError>
    ensures { result ≡ result_err (value_of (view value.now)) }
{
    match value {
        Json::Null | Json::String(_) => None,
        Json::Bool(_) => Some(DocError::Truth),
        Json::Number(number) => number_fault(number),
        Json::Array(array) => list_fault(array),
        Json::Object(object) => pairs_fault(object),
    }
}
