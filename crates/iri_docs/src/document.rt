//! Documents.
ghost use Rattle.std.specs.Prelude.{◌≡◌, string_bytes};
ghost use Rattle.iri_template.specs.Contexts.{value_in};
ghost use Rattle.iri_docs.specs.Held.{held};

use iri_template::simple_context::SimpleContext;

/// A text that is to be a template, and values of its variables.
///
/// ```
/// use iri::docs::read_document;
/// let document = read_document(rt.alloc(), b"{\"template\":\"/{q}\",\"vars\":{\"q\":7}}")?;
/// assert_eq!(rt; document.template(), "/{q}");
/// ```
#[derive(Debug, Drop)]
pub struct Document {
    pub(crate) template: String,
    pub(crate) context: SimpleContext,
}

impl Document {
    /// The text of the template, as the line gives it: it may be no template.
    pub fn template(&self) -> &str
        ensures { result.now ≡ (held self.now).template }
    {
        self.template.as_str()
    }

    /// The values of variables. A name that it hasn't is undefined.
    pub fn context(&self) -> &SimpleContext
        ensures { value_in result.now ≡ (held self.now).value_of }
    {
        &self.context
    }
}
