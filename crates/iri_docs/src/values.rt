//! JSON values as the values of variables.
ghost use Rattle.std.specs.Prelude.{◌≡◌, ◌++◌, ◌∷◌, [], string_bytes, IfErr, OnOk};
ghost use Rattle.serde_json.specs.View.{view, number_view, items_view, members_view};
ghost use Rattle.iri_template.specs.HeldValues.{shown_value};
ghost use Rattle.iri_docs.specs.Answered.{AnswersBut, TellsFault};
ghost use Rattle.iri_docs.specs.Documents.{whole_text, inner_text, inner_texts, inner_pairs, value as value_of};

use crate::doc_error::DocError;
use crate::value_fault::value_fault;
use iri_template::value::{PairList, TextList, Value};
use iri_text::Text;
use serde_json::{Map, Number, Value as Json};
use std::alloc::Global;

// The digits of a whole number.
fn read_number(alloc: Global, number: &Number) -> Result<String, DocError>
    ensures { AnswersBut DocError.Memory string_bytes result (whole_text (number_view number.now)) }
{
    if let Some(n) = number.as_u64() {
        return Ok(n.to_string(alloc)?);
    }
    match number.as_i64() {
        Some(n) => Ok(n.to_string(alloc)?),
        None => Err(DocError::Float),
    }
}

// A text in an array or an object.
fn read_inner(alloc: Global, value: &Json) -> Result<String, DocError>
    ensures { AnswersBut DocError.Memory string_bytes result (inner_text (view value.now)) }
{
    match value {
        Json::Bool(_) => Err(DocError::Truth),
        Json::Number(number) => read_number(alloc, number),
        Json::String(text) => Ok(String::from_str(alloc, text.as_str())?),
        Json::Null | Json::Array(_) | Json::Object(_) => Err(DocError::Nested),
    }
}

// Puts an item at the end.
fn push_item(items: &mut TextList, item: String) -> Result<(), DocError>
    ensures pushed { OnOk result (items.new ≡ items.old ++ string_bytes item ∷ []) }
    ensures memory { IfErr result (λ e. e ≡ DocError.Memory) }
{
    match items.push(item) {
        Ok(()) => Ok(()),
        Err(_) => Err(DocError::Memory),
    }
}

// Puts a pair at the end.
fn push_pair(pairs: &mut PairList, key: String, value: String) -> Result<(), DocError>
    ensures pushed { OnOk result (pairs.new ≡ pairs.old ++ (string_bytes key, string_bytes value) ∷ []) }
    ensures memory { IfErr result (λ e. e ≡ DocError.Memory) }
{
    match pairs.push(key, value) {
        Ok(()) => Ok(()),
        Err(_) => Err(DocError::Memory),
    }
}

// The texts of an array.
fn read_list(alloc: Global, array: &Vec<Json>) -> Result<TextList, DocError>
    ensures { AnswersBut DocError.Memory (λ l. l) result (inner_texts (items_view array.now.items)) }
{
    let mut items = TextList::new(alloc);
    for value in array {
        let text = read_inner(alloc, value)?;
        push_item(&mut items, text)?;
    }
    Ok(items)
}

// The pairs of an object, in the order of its keys.
fn read_pairs(alloc: Global, object: &Map<String, Json>) -> Result<PairList, DocError>
    ensures { AnswersBut DocError.Memory (λ l. l) result (inner_pairs (members_view object.now.entries)) }
{
    let mut pairs = PairList::new(alloc);
    for (key, value) in object.iter() {
        let text = read_inner(alloc, value)?;
        let key = String::from_str(alloc, key.as_str())?;
        push_pair(&mut pairs, key, text)?;
    }
    Ok(pairs)
}

// A value as that of a variable. Memory may be taken before a fault is found.
pub(crate) fn copy_value(alloc: Global, value: &Json) -> Result<Value, DocError>
    ensures { AnswersBut DocError.Memory shown_value result (value_of (view value.now)) }
{
    match value {
        Json::Null => Ok(Value::Undefined),
        Json::Bool(_) => Err(DocError::Truth),
        Json::Number(number) => Ok(Value::String(Text::from_string(read_number(alloc, number)?))),
        Json::String(text) => Ok(Value::String(Text::from_string(String::from_str(
            alloc,
            text.as_str(),
        )?))),
        Json::Array(array) => Ok(Value::List(read_list(alloc, array)?)),
        Json::Object(object) => Ok(Value::Assoc(read_pairs(alloc, object)?)),
    }
}

/// A value of JSON as the value of a variable (RFC 6570 section 2.3). A string is itself, a whole number its text in
/// decimal, null no value; an array of strings and whole numbers is a list, an object of them an associative array, in
/// the order in which the map has its members.
///
/// # Errors
///
/// The first fault from the left, whatever memory there is:
///
/// - `Truth` for a truth value.
/// - `Float` for what `serde_json` holds as a float: `1.0`, `1e2`, `-0`, and a whole number below -2^63 or above 2^64 -
///   1.
/// - `Nested` for a null, an array or an object in an array or an object.
/// - `Memory` where allocation fails, only where the value has no fault.
pub fn read_value(alloc: Global, value: &Json) -> Result<Value, DocError>
    ensures answer { AnswersBut DocError.Memory shown_value result (value_of (view value.now)) }
    ensures fault { TellsFault result (value_of (view value.now)) }
{
    match value_fault(value) {
        Some(fault) => Err(fault),
        None => copy_value(alloc, value),
    }
}
