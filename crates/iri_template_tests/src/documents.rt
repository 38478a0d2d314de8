// Documents of JSON that is in memory.
use crate::same::same;
use iri_docs::laws::first_fault_of_variables;
use iri_docs::read::document_of;
use iri_docs::values::read_value;
use iri_docs::variables::{read_variable, read_variables};
use iri_template::simple_context::SimpleContext;
use iri_template::value::Value;
use iri_template::var_name::VarName;
use serde_json::Value as Json;
use std::alloc::AllocError;
use std::test::Fail;

// The text of a name.
fn text_at<'c>(context: &'c SimpleContext, name: &str) -> Option<&'c str> {
    match VarName::new(name) {
        Ok(name) => match context.get(name) {
            Some(Value::String(text)) => Some(text.as_str()),
            _ => None,
        },
        Err(_) => None,
    }
}

// JSON that is in memory, and its parts.
#[test]
fn values_in_memory(rt: HostRuntime) -> Result<(), Fail> {
    let line = b"{\"template\":\"{v}\",\"vars\":{\"v\":7}}";
    // The line is JSON, so only allocation can fail.
    let Ok(value) = Json::from_slice(rt.alloc(), line) else {
        return Err(AllocError.into());
    };
    let document = document_of(rt.alloc(), &value)?;
    same(&rt, document.template(), "{v}");
    same(&rt, text_at(document.context(), "v"), Some("7"));
    let vars = value.get("vars").ok_or("no member")?;
    let members = vars.as_object().ok_or("no object")?;
    let context = read_variables(rt.alloc(), members)?;
    same(&rt, text_at(&context, "v"), Some("7"));
    let number = vars.get("v").ok_or("no member")?;
    let (name, read) = read_variable(rt.alloc(), "v", number)?;
    same(&rt, name.as_str(), "v");
    assert!(rt; matches!(&read, Value::String(text) if text.as_str() == "7"));
    let read = read_value(rt.alloc(), number)?;
    assert!(rt; matches!(&read, Value::String(text) if text.as_str() == "7"));
    first_fault_of_variables();
    Ok(())
}
