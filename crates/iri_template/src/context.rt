//! Contexts: what has the values of variables.
ghost use Rattle.std.specs.Prelude.{◌≡◌, ℕ, List};
ghost use Rattle.iri_template.specs.ShownValues.{ShownValue};
ghost use Rattle.iri_template.specs.Events.{telling};
ghost use Rattle.iri_template.specs.Visits.{Visits};
ghost use Rattle.iri_template.specs.declared.visitor.Phase.TheVariants.{Fresh, Done};

use crate::visitor::Visitor;
use iri_text::Stop;

/// What has the values of variables.
///
/// ```
/// use iri::prelude::ToStringFallible;
/// use iri::spec::UriSpec;
/// use iri::template::UriTemplateStr;
/// use iri::template::context::Context;
/// use iri::template::simple_context::SimpleContext;
/// use std::alloc::Global;
/// fn expanded<C: Context>(alloc: Global, template: UriTemplateStr<'_>, values: &C) -> Option<String> {
///     template.expand::<UriSpec, C>(values).ok()?.try_to_string(alloc).ok()
/// }
/// let values = SimpleContext::new(rt.alloc());
/// let text = expanded(rt.alloc(), UriTemplateStr::new("/search{?q}")?, &values).ok_or("memory")?;
/// assert_eq!(rt; text.as_str(), "/search");
/// ```
pub trait Context {
    /// The value of the variable of this name.
    ghost value_of: { Self → List ℕ → ShownValue };

    /// Tells the visitor the value of the variable that it names. It has a condition: the visitor was told nothing yet,
    /// as one that an expansion hands in.
    ///
    /// # Errors
    ///
    /// Only where the visitor answered `Stop`; it was told a beginning of the value then, and is told no more.
    fn visit<V: Visitor>(&self, visitor: &mut V) -> Result<(), Stop>
        requires { V.phase visitor.old ≡ Fresh }
        ensures { Visits V.name V.aim V.phase V.hears V.halts V.stops visitor.old
            (telling (value_of self.now (V.name visitor.old))) Done visitor.new result };
}
