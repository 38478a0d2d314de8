//! Contexts whose values may change while a template is expanded.
ghost use Rattle.std.specs.Prelude.{◌≡◌, ℕ, Option, None, Some};
ghost use Rattle.iri_template.specs.Tells.{Telling, VisitsNext, Calls, StartsOnce, EndsOnce, always};
ghost use Rattle.iri_template.specs.inside.ByPurpose.{by_purpose, untold};
ghost use Rattle.iri_template.specs.declared.visitor.Phase.TheVariants.{Fresh};

use crate::context::Context;
use crate::visitor::{VisitPurpose, Visitor};
use iri_text::Stop;

/// What has the values of variables, which may change with each call. An expansion calls `on_expansion_start` once, then
/// for each varspec `visit_dynamic` to look at the value's type and `visit_dynamic` again to write the value, and at last
/// `on_expansion_end` once.
///
/// ```
/// use iri::format::Stop;
/// use iri::spec::UriSpec;
/// use iri::template::UriTemplateStr;
/// use iri::template::context::{DynamicContext, Visitor};
/// #[derive(Drop)]
/// struct Counter {
///     count: u8,
/// }
/// impl DynamicContext for Counter {
///     ghost tells = { λ _. None };
///     ghost starts = { λ _. None };
///     ghost ends = { λ _. None };
///     fn visit_dynamic<V: Visitor>(&mut self, visitor: &mut V) -> Result<(), Stop> {
///         visitor.visit_string(&self.count)
///     }
///     fn on_expansion_start(&mut self) {
///         self.count = self.count.saturating_add(1);
///     }
///     fn on_expansion_end(&mut self) {}
/// }
/// let mut counter = Counter { count: 0 };
/// let template = UriTemplateStr::new("/page{/n}")?;
/// for text in ["/page/1", "/page/2"] {
///     let page = template.expand_dynamic_to_string::<UriSpec, Counter>(rt.alloc(), &mut counter)?;
///     assert_eq!(rt; page.as_str(), text);
/// }
/// ```
pub trait DynamicContext {
    /// The values that visits tell, where the context says so: after so many more calls of these three, for a name and a
    /// purpose.
    ghost tells: { Self → Option Telling };

    /// How many expansions were started, where it is told.
    ghost starts: { Self → Option ℕ };

    /// How many expansions were ended, where it is told.
    ghost ends: { Self → Option ℕ };

    /// Tells the visitor the value of the variable that it names. It has a condition: the visitor was told nothing yet,
    /// as one that an expansion hands in.
    ///
    /// # Errors
    ///
    /// Only where the visitor answered `Stop`; it was told a beginning of a value then, and is told no more.
    fn visit_dynamic<V: Visitor>(&mut self, visitor: &mut V) -> Result<(), Stop>
        requires { V.phase visitor.old ≡ Fresh }
        ensures visit { VisitsNext V.name V.aim V.phase V.hears V.halts V.stops (tells self.old) visitor.old visitor.new
            result }
        ensures call { Calls 1 (tells self.old) (tells self.new) (starts self.old) (starts self.new) (ends self.old)
            (ends self.new) };

    /// An expansion starts.
    fn on_expansion_start(&mut self)
        ensures { StartsOnce (tells self.old) (tells self.new) (starts self.old) (starts self.new) (ends self.old)
            (ends self.new) };

    /// An expansion ends, whether it succeeded or not.
    fn on_expansion_end(&mut self)
        ensures { EndsOnce (tells self.old) (tells self.new) (starts self.old) (starts self.new) (ends self.old)
            (ends self.new) };
}

/// A dynamic context whose values stay as they are: those of a `Context`.
///
/// ```
/// use iri::spec::UriSpec;
/// use iri::template::UriTemplateStr;
/// use iri::template::context::Fixed;
/// use iri::template::simple_context::SimpleContext;
/// let values = SimpleContext::new(rt.alloc());
/// let mut fixed = Fixed::new(&values);
/// let template = UriTemplateStr::new("/search{?q}")?;
/// let text = template.expand_dynamic_to_string::<UriSpec, Fixed<'_, SimpleContext>>(rt.alloc(), &mut fixed)?;
/// assert_eq!(rt; text.as_str(), "/search");
/// ```
#[derive(Debug, Drop)]
pub struct Fixed<'a, C> {
    context: &'a C,
}

impl<'a, C: Context> Fixed<'a, C> {
    /// It tells what this context tells.
    pub fn new(context: &'a C) -> Fixed<'a, C>
        ensures { result.context.now ≡ context.now }
    {
        Fixed { context }
    }
}

impl<'a, C: Context> DynamicContext for Fixed<'a, C> {
    ghost tells = { λ f. Some (always (C.value_of f.context.now)) };

    ghost starts = { λ f. None };

    ghost ends = { λ f. None };

    fn visit_dynamic<V: Visitor>(&mut self, visitor: &mut V) -> Result<(), Stop> {
        self.context.visit(visitor)
    }

    fn on_expansion_start(&mut self) {}

    fn on_expansion_end(&mut self) {}
}

// A dynamic context that tells the values of a `Context` where they are written, and none where a type is asked for.
#[derive(Drop)]
pub(crate) struct Typechecked<'a, C> {
    context: &'a C,
}

impl<'a, C: Context> Typechecked<'a, C> {
    // It tells what this context tells.
    pub(crate) fn new(context: &'a C) -> Typechecked<'a, C>
        ensures { result.context.now ≡ context.now }
    {
        Typechecked { context }
    }
}

impl<'a, C: Context> DynamicContext for Typechecked<'a, C> {
    ghost tells = { λ t. Some (by_purpose untold (C.value_of t.context.now)) };

    ghost starts = { λ t. None };

    ghost ends = { λ t. None };

    fn visit_dynamic<V: Visitor>(&mut self, visitor: &mut V) -> Result<(), Stop> {
        match visitor.purpose() {
            VisitPurpose::Typecheck => visitor.visit_undefined(),
            VisitPurpose::Expand => self.context.visit(visitor),
        }
    }

    fn on_expansion_start(&mut self) {}

    fn on_expansion_end(&mut self) {}
}
