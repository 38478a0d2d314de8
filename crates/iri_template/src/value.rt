//! The values of variables (RFC 6570 section 2.3), owned.
ghost use Rattle.std.specs.Prelude.{◌≡◌, ◌++◌, ◌∷◌, [], length, map, OnOk, OnErr, IfErr};
ghost use Rattle.std.specs.String.{string_bytes};
ghost use Rattle.std.specs.List.{slice_get};
ghost use Rattle.iri_grammar.specs.OptionalSlices.{now_of};
ghost use Rattle.iri_template.specs.Values.{lent_pair, pair_of};

use crate::naive::VisitValueNaive;
use crate::visitor::Visitor;
use iri_text::{Stop, Text};
use std::alloc::Global;
use std::marker::Model;

/// A list of texts, which is seen as the list of their UTF-8 bytes.
///
/// ```
/// use iri::template::simple_context::TextList;
/// let mut colors = TextList::new(rt.alloc());
/// assert!(rt; colors.push(String::from_str(rt.alloc(), "red")?).is_ok());
/// assert_eq!(rt; colors.len(), 1);
/// assert_eq!(rt; colors.get(0), Some("red"));
/// ```
#[derive(Debug, Drop)]
pub struct TextList {
    items: Vec<String>,
}

impl Model for TextList {
    ghost use Rattle.std.specs.Prelude.{ℕ, List, map};
    ghost use Rattle.std.specs.String.{string_bytes};

    ghost Value = { List (List ℕ) };

    ghost view = { λ a. map string_bytes a.items.items };
}

impl TextList {
    /// The list without items. It allocates nothing.
    pub fn new(alloc: Global) -> Self
        ensures { result ≡ [] }
    {
        TextList {
            items: Vec::new(alloc),
        }
    }

    /// Puts an item at the end.
    ///
    /// # Errors
    ///
    /// The item handed back where allocation fails; nothing changes then.
    pub fn push(&mut self, item: String) -> Result<(), String>
        ensures pushed { OnOk result (self.new ≡ self.old ++ string_bytes item ∷ []) }
        ensures same { OnErr result (self.new ≡ self.old) }
        ensures handed_back { IfErr result (λ s. s ≡ item) }
    {
        self.items.push(item).map_err(|refused| refused.value)
    }

    /// How many items there are.
    pub fn len(&self) -> usize
        ensures { result ≡ length self.now }
    {
        self.items.len()
    }

    /// The item of this number, from 0: `None` exactly where there are no more than so many.
    pub fn get(&self, i: usize) -> Option<&str>
        ensures { now_of result ≡ slice_get self.now i }
    {
        self.items.get(i).map(|item| item.as_str())
    }

    fn as_slice(&self) -> &[String]
        ensures { map string_bytes result.now ≡ self.now }
    {
        self.items.as_slice()
    }
}

/// A list of pairs of texts, a key and a value each, which is seen as the list of their UTF-8 bytes. A key may stand
/// in it more than once.
///
/// ```
/// use iri::template::simple_context::PairList;
/// let mut keys = PairList::new(rt.alloc());
/// for (key, value) in [("semi", ";"), ("dot", ".")] {
///     let (key, value) = (String::from_str(rt.alloc(), key)?, String::from_str(rt.alloc(), value)?);
///     assert!(rt; keys.push(key, value).is_ok());
/// }
/// assert_eq!(rt; keys.len(), 2);
/// assert_eq!(rt; keys.get(1), Some(("dot", ".")));
/// ```
#[derive(Debug, Drop)]
pub struct PairList {
    pairs: Vec<(String, String)>,
}

impl Model for PairList {
    ghost use Rattle.std.specs.Prelude.{ℕ, List, map};
    ghost use Rattle.iri_template.specs.Values.{pair_of};

    ghost Value = { List (List ℕ × List ℕ) };

    ghost view = { λ a. map pair_of a.pairs.items };
}

impl PairList {
    /// The list without pairs. It allocates nothing.
    pub fn new(alloc: Global) -> Self
        ensures { result ≡ [] }
    {
        PairList {
            pairs: Vec::new(alloc),
        }
    }

    /// Puts a pair at the end.
    ///
    /// # Errors
    ///
    /// Key and value handed back where allocation fails; nothing changes then.
    ///
    /// ```
    /// use iri::template::simple_context::PairList;
    /// let mut keys = PairList::new(rt.alloc());
    /// let (key, value) = (String::from_str(rt.alloc(), "semi")?, String::from_str(rt.alloc(), ";")?);
    /// assert!(rt; keys.push(key, value).is_ok());
    /// assert_eq!(rt; keys.get(0), Some(("semi", ";")));
    /// ```
    pub fn push(&mut self, key: String, value: String) -> Result<(), (String, String)>
        ensures pushed { OnOk result (self.new ≡ self.old ++ (string_bytes key, string_bytes value) ∷ []) }
        ensures same { OnErr result (self.new ≡ self.old) }
        ensures handed_back { IfErr result (λ p. (p.0 ≡ key) × (p.1 ≡ value)) }
    {
        self.pairs
            .push((key, value))
            .map_err(|refused| refused.value)
    }

    /// How many pairs there are.
    pub fn len(&self) -> usize
        ensures { result ≡ length self.now }
    {
        self.pairs.len()
    }

    /// The pair of this number, from 0: `None` exactly where there are no more than so many.
    pub fn get(&self, i: usize) -> Option<(&str, &str)>
        ensures { lent_pair result ≡ slice_get self.now i }
    {
        self.pairs
            .get(i)
            .map(|pair| (pair.0.as_str(), pair.1.as_str()))
    }

    fn as_slice(&self) -> &[(String, String)]
        ensures { map pair_of result.now ≡ self.now }
    {
        self.pairs.as_slice()
    }
}

/// The value of a variable (RFC 6570 section 2.3).
///
/// ```
/// use iri::format::ToStringFallible;
/// use iri::spec::UriSpec;
/// use iri::template::UriTemplateStr;
/// use iri::template::simple_context::{SimpleContext, TextList, Value};
/// let mut labels = TextList::new(rt.alloc());
/// assert!(rt; labels.push(String::from_str(rt.alloc(), "bug")?).is_ok());
/// let mut values = SimpleContext::new(rt.alloc());
/// let name = String::from_str(rt.alloc(), "labels")?;
/// assert!(rt; values.insert(name, Value::List(labels)).is_ok());
/// let expanded = UriTemplateStr::new("/issues{?labels*}")?.expand::<UriSpec, SimpleContext>(&values)?;
/// assert_eq!(rt; expanded.try_to_string(rt.alloc())?.as_str(), "/issues?labels=bug");
/// ```
#[derive(Debug, Drop)]
pub enum Value {
    /// None.
    Undefined,
    /// A text.
    String(Text),
    /// A list of texts.
    List(TextList),
    /// An associative array: a list of pairs.
    Assoc(PairList),
}

impl VisitValueNaive for Value {
    ghost use Rattle.iri_template.specs.HeldValues.{shown_value};

    ghost naive_value = { shown_value };

    fn visit_value<V: Visitor>(&self, visitor: &mut V) -> Result<(), Stop> {
        match self {
            Value::Undefined => visitor.visit_undefined(),
            Value::String(text) => visitor.visit_string(text),
            Value::List(items) => visitor.visit_list_direct(items.as_slice()),
            Value::Assoc(entries) => visitor.visit_assoc_direct(entries.as_slice()),
        }
    }
}
