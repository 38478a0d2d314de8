// The variables of `expand`.
ghost use Rattle.std.specs.Prelude.{◌≡◌, MatchResult, OnOk};
ghost use Rattle.iri_template.specs.Contexts.{value_in};
ghost use Rattle.iri_template.specs.HeldValues.{shown_value};
ghost use Rattle.iri_template.specs.ShownValues.{optional, undefined};
ghost use Rattle.iri_cli.specs.expand.Lines.{adds_item, adds_pair, changed, entries_of, items_of, with_value};
ghost use Rattle.iri_cli.specs.inside.Said.{change_of};

use crate::expand::line::Change;
use iri_template::simple_context::SimpleContext;
use iri_template::value::{PairList, TextList, Value};
use iri_template::var_name::VarName;
use iri_text::Text;
use std::alloc::{AllocError, Global};

// Gives a variable a value.
fn set(
    alloc: Global,
    values: &mut SimpleContext,
    name: VarName<'_>,
    value: Value,
) -> Result<(), AllocError>
    ensures { OnOk result (value_in values.new
        ≡ with_value (value_in values.old) name.entry.text.now (shown_value value)) }
{
    let key = String::from_str(alloc, name.as_str())?;
    match values.insert(key, value) {
        Ok(_) => Ok(()),
        Err(_) => Err(AllocError),
    }
}

// Takes the value of a variable away.
fn take(
    alloc: Global,
    values: &mut SimpleContext,
    name: VarName<'_>,
) -> Result<Option<Value>, AllocError>
    ensures { MatchResult result
        (λ old. (optional shown_value old ≡ value_in values.old name.entry.text.now)
        × (value_in values.new ≡ with_value (value_in values.old) name.entry.text.now undefined))
        (λ _. Unit {0}) }
{
    let key = String::from_str(alloc, name.as_str())?;
    match values.insert(key, Value::Undefined) {
        Ok(old) => Ok(old),
        Err(_) => Err(AllocError),
    }
}

// The list of a value; a new one where it has none.
fn list_of(alloc: Global, value: Option<Value>) -> TextList
    ensures { result ≡ items_of (optional shown_value value) }
{
    match value {
        Some(Value::List(items)) => items,
        _ => TextList::new(alloc),
    }
}

// The associative array of a value; a new one where it has none.
fn entries_of(alloc: Global, value: Option<Value>) -> PairList
    ensures { result ≡ entries_of (optional shown_value value) }
{
    match value {
        Some(Value::Assoc(entries)) => entries,
        _ => PairList::new(alloc),
    }
}

// Puts an item at the end of a variable's list.
fn add_item(
    alloc: Global,
    values: &mut SimpleContext,
    name: VarName<'_>,
    item: &str,
) -> Result<(), AllocError>
    ensures { OnOk result (value_in values.new
        ≡ changed (value_in values.old) (adds_item name.entry.text.now item.now)) }
{
    let item = String::from_str(alloc, item)?;
    let old = take(alloc, values, name)?;
    let mut items = list_of(alloc, old);
    match items.push(item) {
        Ok(()) => set(alloc, values, name, Value::List(items)),
        Err(_) => Err(AllocError),
    }
}

// Puts a pair at the end of a variable's associative array.
fn add_pair(
    alloc: Global,
    values: &mut SimpleContext,
    name: VarName<'_>,
    key: &str,
    value: &str,
) -> Result<(), AllocError>
    ensures { OnOk result (value_in values.new
        ≡ changed (value_in values.old) (adds_pair name.entry.text.now key.now value.now)) }
{
    let key = String::from_str(alloc, key)?;
    let value = String::from_str(alloc, value)?;
    let old = take(alloc, values, name)?;
    let mut entries = entries_of(alloc, old);
    match entries.push(key, value) {
        Ok(()) => set(alloc, values, name, Value::Assoc(entries)),
        Err(_) => Err(AllocError),
    }
}

/// Changes a variable. It fails on allocation failure alone; the variable then has its old value or none.
pub(crate) fn apply(
    alloc: Global,
    values: &mut SimpleContext,
    change: Change<'_>,
) -> Result<(), AllocError>
    ensures { OnOk result (value_in values.new
        ≡ changed (value_in values.old) (change_of change.entry)) }
{
    match change {
        Change::Sets(name, value) => {
            let text = Text::from_string(String::from_str(alloc, value)?);
            set(alloc, values, name, Value::String(text))
        }
        Change::AddsItem(name, item) => add_item(alloc, values, name, item),
        Change::AddsPair(name, key, value) => add_pair(alloc, values, name, key, value),
        Change::Unsets(name) => set(alloc, values, name, Value::Undefined),
    }
}
