//! Values that tell themselves to a visitor.
ghost use Rattle.std.specs.Prelude.{◌≡◌, decimal, map, string_bytes};
ghost use Rattle.std.specs.Fmt.{signed_decimal};
ghost use Rattle.iri_template.specs.ShownValues.{ShownValue, undefined, string, optional, list, pairs};
ghost use Rattle.iri_template.specs.Events.{telling, pair_text};
ghost use Rattle.iri_template.specs.Visits.{Visits};
ghost use Rattle.iri_template.specs.declared.visitor.Phase.TheVariants.{Fresh, Done};

use crate::visitor::Visitor;
use iri_text::{Show, Stop};
use std::collections::{BTreeMap, BTreeSet};

/// What has a value and tells it.
///
/// ```
/// use iri::format::Stop;
/// use iri::spec::UriSpec;
/// use iri::template::UriTemplateStr;
/// use iri::template::context::{DynamicContext, VisitValueNaive, Visitor};
/// #[derive(Drop)]
/// struct Port;
/// impl DynamicContext for Port {
///     ghost tells = { λ _. None };
///     ghost starts = { λ _. None };
///     ghost ends = { λ _. None };
///     fn visit_dynamic<V: Visitor>(&mut self, visitor: &mut V) -> Result<(), Stop> {
///         8042u16.visit_value(visitor)
///     }
///     fn on_expansion_start(&mut self) {}
///     fn on_expansion_end(&mut self) {}
/// }
/// let template = UriTemplateStr::new("{port}")?;
/// let text = template.expand_dynamic_to_string::<UriSpec, Port>(rt.alloc(), &mut Port)?;
/// assert_eq!(rt; text.as_str(), "8042");
/// ```
pub trait VisitValueNaive {
    /// The value, with the texts of what is shown.
    ghost naive_value: { Self → ShownValue };

    /// Tells the visitor the value. It has a condition: the visitor was told nothing yet, as one that an expansion
    /// hands in.
    ///
    /// # Errors
    ///
    /// Only where the visitor answered `Stop`; it was told a beginning of the value then, and is told no more.
    fn visit_value<V: Visitor>(&self, visitor: &mut V) -> Result<(), Stop>
        requires { V.phase visitor.old ≡ Fresh }
        ensures { Visits V.name V.aim V.phase V.hears V.halts V.stops visitor.old
            (telling (naive_value self.now)) Done visitor.new result };
}

/// Tells the visitor a value. It has a condition: the visitor was told nothing yet, as one that an expansion hands in.
///
/// # Errors
///
/// Only where the visitor answered `Stop`; it was told a beginning of the value then, and is told no more.
pub fn visit_value_naive<V: Visitor, T: VisitValueNaive>(
    visitor: &mut V,
    value: &T,
) -> Result<(), Stop>
    requires { V.phase visitor.old ≡ Fresh }
    ensures { Visits V.name V.aim V.phase V.hears V.halts V.stops visitor.old
        (telling (T.naive_value value.now)) Done visitor.new result }
{
    value.visit_value(visitor)
}

impl VisitValueNaive for () {
    ghost naive_value = { λ _. undefined };

    fn visit_value<V: Visitor>(&self, visitor: &mut V) -> Result<(), Stop> {
        visitor.visit_undefined()
    }
}

impl VisitValueNaive for u8 {
    ghost naive_value = { λ n. string (decimal n) };

    fn visit_value<V: Visitor>(&self, visitor: &mut V) -> Result<(), Stop> {
        visitor.visit_string(self)
    }
}

impl VisitValueNaive for u16 {
    ghost naive_value = { λ n. string (decimal n) };

    fn visit_value<V: Visitor>(&self, visitor: &mut V) -> Result<(), Stop> {
        visitor.visit_string(self)
    }
}

impl VisitValueNaive for u32 {
    ghost naive_value = { λ n. string (decimal n) };

    fn visit_value<V: Visitor>(&self, visitor: &mut V) -> Result<(), Stop> {
        visitor.visit_string(self)
    }
}

impl VisitValueNaive for u64 {
    ghost naive_value = { λ n. string (decimal n) };

    fn visit_value<V: Visitor>(&self, visitor: &mut V) -> Result<(), Stop> {
        visitor.visit_string(self)
    }
}

impl VisitValueNaive for u128 {
    ghost naive_value = { λ n. string (decimal n) };

    fn visit_value<V: Visitor>(&self, visitor: &mut V) -> Result<(), Stop> {
        visitor.visit_string(self)
    }
}

impl VisitValueNaive for usize {
    ghost naive_value = { λ n. string (decimal n) };

    fn visit_value<V: Visitor>(&self, visitor: &mut V) -> Result<(), Stop> {
        visitor.visit_string(self)
    }
}

impl VisitValueNaive for i8 {
    ghost naive_value = { λ n. string (signed_decimal n) };

    fn visit_value<V: Visitor>(&self, visitor: &mut V) -> Result<(), Stop> {
        visitor.visit_string(self)
    }
}

impl VisitValueNaive for i16 {
    ghost naive_value = { λ n. string (signed_decimal n) };

    fn visit_value<V: Visitor>(&self, visitor: &mut V) -> Result<(), Stop> {
        visitor.visit_string(self)
    }
}

impl VisitValueNaive for i32 {
    ghost naive_value = { λ n. string (signed_decimal n) };

    fn visit_value<V: Visitor>(&self, visitor: &mut V) -> Result<(), Stop> {
        visitor.visit_string(self)
    }
}

impl VisitValueNaive for i64 {
    ghost naive_value = { λ n. string (signed_decimal n) };

    fn visit_value<V: Visitor>(&self, visitor: &mut V) -> Result<(), Stop> {
        visitor.visit_string(self)
    }
}

impl VisitValueNaive for i128 {
    ghost naive_value = { λ n. string (signed_decimal n) };

    fn visit_value<V: Visitor>(&self, visitor: &mut V) -> Result<(), Stop> {
        visitor.visit_string(self)
    }
}

impl VisitValueNaive for isize {
    ghost naive_value = { λ n. string (signed_decimal n) };

    fn visit_value<V: Visitor>(&self, visitor: &mut V) -> Result<(), Stop> {
        visitor.visit_string(self)
    }
}

impl<'a> VisitValueNaive for &'a str {
    ghost naive_value = { λ s. string s.now };

    fn visit_value<V: Visitor>(&self, visitor: &mut V) -> Result<(), Stop> {
        visitor.visit_string(self)
    }
}

impl VisitValueNaive for String {
    ghost naive_value = { λ s. string (string_bytes s) };

    fn visit_value<V: Visitor>(&self, visitor: &mut V) -> Result<(), Stop> {
        visitor.visit_string(self)
    }
}

impl<T: VisitValueNaive> VisitValueNaive for Option<T> {
    ghost naive_value = { optional T.naive_value };

    fn visit_value<V: Visitor>(&self, visitor: &mut V) -> Result<(), Stop> {
        match self {
            Some(value) => value.visit_value(visitor),
            None => visitor.visit_undefined(),
        }
    }
}

impl<T: Show> VisitValueNaive for Vec<T> {
    ghost naive_value = { λ v. list (map T.text v.items) };

    fn visit_value<V: Visitor>(&self, visitor: &mut V) -> Result<(), Stop> {
        visitor.visit_list_direct(self.as_slice())
    }
}

impl<T: Show, const N: usize> VisitValueNaive for [T; N] {
    ghost naive_value = { λ a. list (map T.text a) };

    fn visit_value<V: Visitor>(&self, visitor: &mut V) -> Result<(), Stop> {
        visitor.visit_list_direct(self)
    }
}

impl<T: Show + Ord> VisitValueNaive for BTreeSet<T> {
    ghost naive_value = { λ s. list (map T.text s.keys) };

    fn visit_value<V: Visitor>(&self, visitor: &mut V) -> Result<(), Stop> {
        visitor.visit_list()?;
        for item in self {
            visitor.visit_item(item)?;
        }
        visitor.finish()
    }
}

impl<K: Show + Ord, T: Show> VisitValueNaive for BTreeMap<K, T> {
    ghost naive_value = { λ m. pairs (map (pair_text K.text T.text) m.entries) };

    fn visit_value<V: Visitor>(&self, visitor: &mut V) -> Result<(), Stop> {
        visitor.visit_assoc()?;
        for (key, value) in self {
            visitor.visit_entry(key, value)?;
        }
        visitor.finish()
    }
}
