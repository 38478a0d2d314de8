// Lists and values by name, where memory is refused.
use crate::same::same;
use iri_template::simple_context::SimpleContext;
use iri_template::value::{PairList, TextList, Value};
use iri_template::var_name::VarName;
use iri_text::Text;
use std::alloc::{AllocError, Global};
use std::test::Fail;

fn string(alloc: Global, s: &str) -> Result<Value, Fail> {
    Ok(Value::String(Text::from_string(s.to_string(alloc)?)))
}

fn text(value: Option<&Value>) -> Option<&str> {
    match value {
        Some(Value::String(text)) => Some(text.as_str()),
        _ => None,
    }
}

fn at<'c>(context: &'c SimpleContext, name: &str) -> Option<&'c str> {
    match VarName::new(name) {
        Ok(name) => text(context.get(name)),
        Err(_) => None,
    }
}

// Where allocation fails what was to be put in is handed back, and nothing changes.
#[test]
fn items_handed_back_where_memory_is_refused(rt: HostRuntime) -> Result<(), Fail> {
    let mut items = TextList::new(rt.alloc());
    match items.push("a".to_string(rt.alloc())?) {
        Ok(()) => {
            same(&rt, items.get(0), Some("a"));
            same(&rt, items.get(1), None);
            same(&rt, items.len(), 1);
        }
        Err(item) => {
            same(&rt, item.as_str(), "a");
            same(&rt, items.len(), 0);
            return Err(AllocError)?;
        }
    }
    let mut pairs = PairList::new(rt.alloc());
    match pairs.push("k".to_string(rt.alloc())?, "v".to_string(rt.alloc())?) {
        Ok(()) => {
            same(&rt, pairs.get(0), Some(("k", "v")));
            same(&rt, pairs.get(1), None);
            same(&rt, pairs.len(), 1);
        }
        Err((key, value)) => {
            same(&rt, key.as_str(), "k");
            same(&rt, value.as_str(), "v");
            same(&rt, pairs.len(), 0);
            return Err(AllocError)?;
        }
    }
    Ok(())
}

#[test]
fn values_handed_back_where_memory_is_refused(rt: HostRuntime) -> Result<(), Fail> {
    let mut context = SimpleContext::new(rt.alloc());
    let value = string(rt.alloc(), "6")?;
    match context.insert("v".to_string(rt.alloc())?, value) {
        Ok(_) => same(&rt, at(&context, "v"), Some("6")),
        Err(error) => {
            same(&rt, error.key.as_str(), "v");
            same(&rt, text(Some(&error.value)), Some("6"));
            same(&rt, at(&context, "v"), None);
            return Err(AllocError)?;
        }
    }
    Ok(())
}
