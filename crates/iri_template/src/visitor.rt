//! Visitors of values: what is told the value of a variable.
ghost use Rattle.std.specs.Prelude.{◌≡◌, ◌⊎◌, ℕ, List, [], ◌∷◌, map};
ghost use Rattle.iri_text.specs.Shown.{AreSinkLaws};
ghost use Rattle.iri_template.specs.ShownValues.{ShownValue, list, pairs};
ghost use Rattle.iri_template.specs.Events.{Event, Undefined, StringTold, ListBegun, Item, PairsBegun, Entry, Finished};
ghost use Rattle.iri_template.specs.Events.{telling, pair_text};
ghost use Rattle.iri_template.specs.Visits.{Visits};
ghost use Rattle.iri_template.specs.declared.visitor.VisitPurpose.{VisitPurpose};
ghost use Rattle.iri_template.specs.declared.visitor.Phase.{Phase};
ghost use Rattle.iri_template.specs.declared.visitor.Phase.TheVariants.{Fresh, InList, InPairs, Done};

use crate::var_name::VarName;
use iri_text::{Show, Stop};

/// What a visit is for.
///
/// ```
/// use iri::format::Stop;
/// use iri::spec::UriSpec;
/// use iri::template::UriTemplateStr;
/// use iri::template::context::{DynamicContext, VisitPurpose, Visitor};
/// #[derive(Drop)]
/// struct Value;
/// impl DynamicContext for Value {
///     ghost tells = { λ _. None };
///     ghost starts = { λ _. None };
///     ghost ends = { λ _. None };
///     fn visit_dynamic<V: Visitor>(&mut self, visitor: &mut V) -> Result<(), Stop> {
///         match visitor.purpose() {
///             VisitPurpose::Typecheck => visitor.visit_undefined(),
///             VisitPurpose::Expand => visitor.visit_string(&"value"),
///         }
///     }
///     fn on_expansion_start(&mut self) {}
///     fn on_expansion_end(&mut self) {}
/// }
/// let template = UriTemplateStr::new("{var}")?;
/// let text = template.expand_dynamic_to_string::<UriSpec, Value>(rt.alloc(), &mut Value)?;
/// assert_eq!(rt; text.as_str(), "value");
/// ```
#[derive(Clone, Copy, Debug, PartialEq, Eq)]
pub enum VisitPurpose {
    /// To learn whether the value is a list or an associative array that isn't empty.
    Typecheck,
    /// To write the value.
    Expand,
}

/// How far a visitor has been told a value.
#[derive(Clone, Copy, Debug, PartialEq, Eq)]
pub enum Phase {
    /// It has been told nothing.
    Fresh,
    /// A list was begun, and hasn't ended.
    InList,
    /// An associative array was begun, and hasn't ended.
    InPairs,
    /// It has been told a value.
    Done,
    /// It stopped.
    Halted,
}

/// What is told the value of a variable, by calls in order: `visit_undefined`, `visit_string`, or a list or an
/// associative array with its members and its end. It needn't keep what it is told. Each call answers `Stop` only where
/// the count of stops rose in it; then no other call may follow.
///
/// ```
/// use iri::format::Stop;
/// use iri::spec::UriSpec;
/// use iri::template::UriTemplateStr;
/// use iri::template::context::{DynamicContext, Visitor};
/// #[derive(Drop)]
/// struct Point;
/// impl DynamicContext for Point {
///     ghost tells = { λ _. None };
///     ghost starts = { λ _. None };
///     ghost ends = { λ _. None };
///     fn visit_dynamic<V: Visitor>(&mut self, visitor: &mut V) -> Result<(), Stop> {
///         match visitor.var_name().as_str() {
///             "x" => visitor.visit_string(&"1024"),
///             "y" => visitor.visit_string(&"768"),
///             _ => visitor.visit_undefined(),
///         }
///     }
///     fn on_expansion_start(&mut self) {}
///     fn on_expansion_end(&mut self) {}
/// }
/// let template = UriTemplateStr::new("map?{x,y}")?;
/// let text = template.expand_dynamic_to_string::<UriSpec, Point>(rt.alloc(), &mut Point)?;
/// assert_eq!(rt; text.as_str(), "map?1024,768");
/// ```
pub trait Visitor {
    /// The name of the variable, as its UTF-8 bytes.
    ghost name: { Self → List ℕ };

    /// What the visit is for.
    ghost aim: { Self → VisitPurpose };

    /// How far it has been told.
    ghost phase: { Self → Phase };

    /// These events were told: the visitor before, the events, the visitor after.
    ghost hears: { Self → List Event → Self → Type 0 };

    /// The visitor stopped at one of these events.
    ghost halts: { Self → List Event → Self → Type 0 };

    /// How often it has stopped, up to 2^64 - 1, where the count stays.
    ghost stops: { Self → ℕ };

    /// The name of the variable.
    fn var_name(&self) -> VarName<'_>
        ensures { result.text.now ≡ name self.now };

    /// What the visit is for.
    fn purpose(&self) -> VisitPurpose
        ensures { result ≡ aim self.now };

    /// The variable has no value. It has a condition: nothing was told yet.
    ///
    /// # Errors
    ///
    /// Only where the count of stops rises.
    fn visit_undefined(&mut self) -> Result<(), Stop>
        requires { phase self.old ≡ Fresh }
        ensures { Visits name aim phase hears halts stops self.old (Undefined ∷ []) Done self.new result };

    /// The value is a string. It has a condition: nothing was told yet.
    ///
    /// # Errors
    ///
    /// Only where the count of stops rises.
    fn visit_string<T: Show>(&mut self, value: &T) -> Result<(), Stop>
        requires { phase self.old ≡ Fresh }
        ensures { Visits name aim phase hears halts stops self.old
            (StringTold (T.text value.now) ∷ []) Done self.new result };

    /// The value is a list, whose items follow. It has a condition: nothing was told yet.
    ///
    /// # Errors
    ///
    /// Only where the count of stops rises.
    fn visit_list(&mut self) -> Result<(), Stop>
        requires { phase self.old ≡ Fresh }
        ensures { Visits name aim phase hears halts stops self.old (ListBegun ∷ []) InList self.new result };

    /// An item of the list. It has a condition: a list was begun, and hasn't ended.
    ///
    /// # Errors
    ///
    /// Only where the count of stops rises.
    fn visit_item<T: Show>(&mut self, item: &T) -> Result<(), Stop>
        requires { phase self.old ≡ InList }
        ensures { Visits name aim phase hears halts stops self.old
            (Item (T.text item.now) ∷ []) InList self.new result };

    /// The value is a list of pairs, which follow. It has a condition: nothing was told yet.
    ///
    /// # Errors
    ///
    /// Only where the count of stops rises.
    fn visit_assoc(&mut self) -> Result<(), Stop>
        requires { phase self.old ≡ Fresh }
        ensures { Visits name aim phase hears halts stops self.old (PairsBegun ∷ []) InPairs self.new result };

    /// A pair of the list of pairs. It has a condition: a list of pairs was begun, and hasn't ended.
    ///
    /// # Errors
    ///
    /// Only where the count of stops rises.
    fn visit_entry<K: Show, T: Show>(&mut self, key: &K, value: &T) -> Result<(), Stop>
        requires { phase self.old ≡ InPairs }
        ensures { Visits name aim phase hears halts stops self.old
            (Entry (K.text key.now) (T.text value.now) ∷ []) InPairs self.new result };

    /// The list, or the list of pairs, ends. It has a condition: one was begun, and hasn't ended.
    ///
    /// # Errors
    ///
    /// Only where the count of stops rises.
    fn finish(&mut self) -> Result<(), Stop>
        requires { (phase self.old ≡ InList) ⊎ (phase self.old ≡ InPairs) }
        ensures { Visits name aim phase hears halts stops self.old (Finished ∷ []) Done self.new result };

    /// The value is a list of these items. It has a condition: nothing was told yet.
    ///
    /// # Errors
    ///
    /// Only where the count of stops rises.
    fn visit_list_direct<T: Show>(&mut self, items: &[T]) -> Result<(), Stop>
        requires { phase self.old ≡ Fresh }
        ensures { Visits name aim phase hears halts stops self.old
            (telling (list (map T.text items.now))) Done self.new result }
    {
        self.visit_list()?;
        for item in items {
            self.visit_item(item)?;
        }
        self.finish()
    }

    /// The value is a list of these pairs. It has a condition: nothing was told yet.
    ///
    /// # Errors
    ///
    /// Only where the count of stops rises.
    fn visit_assoc_direct<K: Show, T: Show>(&mut self, entries: &[(K, T)]) -> Result<(), Stop>
        requires { phase self.old ≡ Fresh }
        ensures { Visits name aim phase hears halts stops self.old
            (telling (pairs (map (pair_text K.text T.text) entries.now))) Done self.new result }
    {
        self.visit_assoc()?;
        for entry in entries {
            self.visit_entry(&entry.0, &entry.1)?;
        }
        self.finish()
    }

    /// Events that are told one after the other are told as one list.
    ghost rules: { AreSinkLaws hears halts };
}
