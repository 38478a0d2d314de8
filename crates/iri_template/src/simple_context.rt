//! Values by name.
ghost use Rattle.std.specs.Prelude.{◌≡◌, ℕ, List, None, cond, ◌&&◌, IfOk, IfErr, OnOk, OnErr, option_copied};
ghost use Rattle.std.specs.String.{string_bytes};
ghost use Rattle.std.specs.Str.{bytes_eq};
ghost use Rattle.iri_template.specs.Names.{is_varname};
ghost use Rattle.iri_template.specs.Contexts.{value_at, is_undefined, kept, value_in};

use crate::context::Context;
use crate::naive::VisitValueNaive;
use crate::value::Value;
use crate::var_name::{VarName, is_varname};
use crate::visitor::Visitor;
use iri_text::Stop;
use std::alloc::Global;
use std::collections::BTreeMap;

/// A map from the names of variables to their values. A name that it hasn't has no value.
///
/// ```
/// use iri::template::context::VarName;
/// use iri::template::simple_context::{SimpleContext, Value};
/// let mut values = SimpleContext::new(rt.alloc());
/// let name = String::from_str(rt.alloc(), "undef")?;
/// assert!(rt; values.insert(name, Value::Undefined).is_ok());
/// assert!(rt; values.get(VarName::new("undef")?).is_none());
/// ```
#[derive(Debug, Drop)]
pub struct SimpleContext {
    map: BTreeMap<String, Value>,
}

/// Memory for a new name was refused. It hands back what was to be inserted.
///
/// ```
/// use iri::template::simple_context::{InsertError, SimpleContext, Value};
/// let mut values = SimpleContext::new(rt.alloc());
/// match values.insert(String::from_str(rt.alloc(), "q")?, Value::Undefined) {
///     Ok(old) => assert!(rt; old.is_none()),
///     Err(InsertError { key, value: _ }) => assert_eq!(rt; key.as_str(), "q"),
/// }
/// ```
#[derive(Debug, Drop)]
pub struct InsertError {
    /// The name.
    pub key: String,
    /// The value.
    pub value: Value,
}

fn is_undefined(value: &Value) -> bool
    ensures { result ≡ is_undefined value.now }
{
    matches!(value, Value::Undefined)
}

impl SimpleContext {
    /// The map without names. It allocates nothing.
    pub fn new(alloc: Global) -> Self
        ensures { (q : List ℕ) → value_at result q ≡ None }
    {
        SimpleContext {
            map: BTreeMap::new(alloc),
        }
    }

    /// Gives a name a value, or takes the name out where the value is `Undefined`, and answers the old value. Where the
    /// key is no variable's name, it answers `None` and nothing changes.
    ///
    /// # Errors
    ///
    /// Where allocation fails, only for a name that the map hasn't; key and value are handed back then, and nothing
    /// changes.
    pub fn insert(&mut self, key: String, value: Value) -> Result<Option<Value>, InsertError>
        ensures old { IfOk result (λ o. o ≡ cond (is_varname (string_bytes key))
            (value_at self.old (string_bytes key)) None) }
        ensures set { OnOk result ((q : List ℕ)
            → value_at self.new q ≡ cond (is_varname (string_bytes key) && bytes_eq q (string_bytes key)) (kept value)
            (value_at self.old q)) }
        ensures handed_back { IfErr result (λ e. (e.key ≡ key) × (e.value ≡ value)) }
        ensures same { OnErr result ((q : List ℕ) → value_at self.new q ≡ value_at self.old q) }
        ensures new_name { OnErr result (value_at self.old (string_bytes key) ≡ None) }
    {
        if !is_varname(key.as_bytes()) {
            return Ok(None);
        }
        if is_undefined(&value) {
            return Ok(self.map.remove(key.as_str()));
        }
        match self.map.insert(key, value) {
            Ok(old) => Ok(old),
            Err(refused) => {
                let (key, value) = refused.value;
                Err(InsertError { key, value })
            }
        }
    }

    /// Takes all names out.
    pub fn clear(&mut self)
        ensures { (q : List ℕ) → value_at self.new q ≡ None }
    {
        self.map.clear();
    }

    /// The value of a name: `None` exactly where the map hasn't the name.
    pub fn get(&self, key: VarName<'_>) -> Option<&Value>
        ensures { option_copied result ≡ value_at self.now key.entry.text.now }
    {
        self.map.get(key.as_str())
    }
}

impl Context for SimpleContext {
    ghost value_of = { value_in };

    fn visit<V: Visitor>(&self, visitor: &mut V) -> Result<(), Stop> {
        match self.get(visitor.var_name()) {
            Some(value) => value.visit_value(visitor),
            None => visitor.visit_undefined(),
        }
    }
}
