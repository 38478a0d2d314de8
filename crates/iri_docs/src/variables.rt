//! JSON members as variables.
ghost use Rattle.std.specs.Prelude.{◌≡◌, ℕ, List, true, if◌then◌else◌, string_bytes, IfErr, OnOk};
ghost use Rattle.std.specs.Result.{result_err};
ghost use Rattle.std.specs.Str.{bytes_eq};
ghost use Rattle.serde_json.specs.View.{view, members_view};
ghost use Rattle.iri_template.specs.Contexts.{value_in};
ghost use Rattle.iri_template.specs.HeldValues.{shown_value};
ghost use Rattle.iri_template.specs.Names.{is_varname};
ghost use Rattle.iri_docs.specs.Answered.{AnswersBut, TellsFault};
ghost use Rattle.iri_docs.specs.Documents.{result_map, value_by_name, variable, variables};
ghost use Rattle.iri_docs.specs.inside.Entries.{entry_of};

use crate::doc_error::DocError;
use crate::value_fault::value_fault;
use crate::values::copy_value;
use iri_template::simple_context::SimpleContext;
use iri_template::value::Value;
use iri_template::var_name::VarName;
use serde_json::{Map, Value as Json};
use std::alloc::Global;

// The first fault of a variable. It allocates nothing.
fn variable_fault(key: &str, value: &Json) -> Option<DocError>
    ensures { result ≡ result_err (variable key.now (view value.now)) }
{
    match VarName::new(key) {
        Ok(_) => value_fault(value),
        Err(_) => Some(DocError::Name),
    }
}

// The first fault of an object's members as variables.
fn variables_fault(object: &Map<String, Json>) -> Option<DocError>
    ensures { result ≡ result_err (variables (members_view object.now.entries)) }
{
    for (key, value) in object.iter() {
        if let Some(fault) = variable_fault(key.as_str(), value) {
            return Some(fault);
        }
    }
    None
}

// A variable of a key and its value. Memory may be taken before a fault is found.
fn copy_variable(alloc: Global, key: &str, value: &Json) -> Result<(String, Value), DocError>
    ensures { AnswersBut DocError.Memory entry_of result (variable key.now (view value.now)) }
{
    if let Err(_) = VarName::new(key) {
        return Err(DocError::Name);
    }
    let value = copy_value(alloc, value)?;
    Ok((String::from_str(alloc, key)?, value))
}

/// A variable of a key and its value, as [`read_value`] reads it.
///
/// # Errors
///
/// `Name` exactly where the key is no variable's name (RFC 6570 section 2.3), before its value is looked at; then those
/// of [`read_value`]. `Memory` where allocation fails, only where the variable has no fault.
///
/// [`read_value`]: crate::values::read_value
pub fn read_variable(alloc: Global, key: &str, value: &Json) -> Result<(String, Value), DocError>
    ensures answer { AnswersBut DocError.Memory entry_of result (variable key.now (view value.now)) }
    ensures fault { TellsFault result (variable key.now (view value.now)) }
{
    match variable_fault(key, value) {
        Some(fault) => Err(fault),
        None => copy_variable(alloc, key, value),
    }
}

// Gives a name its value.
fn insert(context: &mut SimpleContext, name: String, value: Value) -> Result<(), DocError>
    requires { is_varname (string_bytes name) ≡ true }
    ensures set { OnOk result ((n : List ℕ) → value_in context.new n
        ≡ (if bytes_eq n (string_bytes name) then shown_value value else value_in context.old n)) }
    ensures memory { IfErr result (λ e. e ≡ DocError.Memory) }
{
    match context.insert(name, value) {
        Ok(_) => Ok(()),
        Err(_) => Err(DocError::Memory),
    }
}

// The values of an object's members by their keys. Memory may be taken before a fault is found.
fn copy_variables(alloc: Global, object: &Map<String, Json>) -> Result<SimpleContext, DocError>
    ensures { AnswersBut DocError.Memory value_in result
        (result_map value_by_name (variables (members_view object.now.entries))) }
{
    let mut context = SimpleContext::new(alloc);
    for (key, value) in object.iter() {
        let (name, value) = copy_variable(alloc, key.as_str(), value)?;
        insert(&mut context, name, value)?;
    }
    Ok(context)
}

/// The values of an object's members by their keys, each as [`read_variable`] reads it.
///
/// # Errors
///
/// Those of [`read_variable`]: that of the first member that has one, in the order in which the map has its members.
/// `Memory` where allocation fails, only where no member has a fault.
pub fn read_variables(alloc: Global, object: &Map<String, Json>) -> Result<SimpleContext, DocError>
    ensures answer { AnswersBut DocError.Memory value_in result
        (result_map value_by_name (variables (members_view object.now.entries))) }
    ensures fault { TellsFault result (result_map value_by_name (variables (members_view object.now.entries))) }
{
    match variables_fault(object) {
        Some(fault) => Err(fault),
        None => copy_variables(alloc, object),
    }
}
