//! Templates that are expanded (RFC 6570 section 3).
ghost use Rattle.std.specs.Prelude.{◌≡◌, ◌≤◌, length, IfOk, MatchResult, None, Some};
ghost use Rattle.iri_grammar.specs.WholeFault.{reference_fault, iri_fault, absolute_fault, relative_fault};
ghost use Rattle.iri_template.specs.Fault.{Answers};
ghost use Rattle.iri_template.specs.Reading.{pieces_of};
ghost use Rattle.iri_template.specs.Texts.{text};
ghost use Rattle.iri_template.specs.TypeFaults.{type_fault, expansion_fault};

use crate::byte_count::is_within;
use crate::context::Context;
use crate::dynamic_context::Typechecked;
use crate::error::Error;
use crate::expansion_writer::write_expansion;
use crate::template::UriTemplateStr;
use iri_grammar::spec::Spec;
use iri_owned::error::CreationError;
use iri_owned::owned::{Owned, RiAbsoluteString, RiReferenceString, RiRelativeString, RiString};
use iri_text::{FormatSink, Show, Stop, TextSink, ToStringFallible};
use iri_types::kind::Kind;
use std::alloc::{AllocError, Global};
use std::fmt;
use std::marker::PhantomData;

/// A template whose expansion for a URI or an IRI is shown, with the values of a context (RFC 6570 section 3). It
/// allocates nothing until it is made owned, and the values may put their texts in any pieces.
///
/// ```
/// use iri::format::{Text, ToStringFallible};
/// use iri::spec::UriSpec;
/// use iri::template::UriTemplateStr;
/// use iri::template::simple_context::{SimpleContext, Value};
/// let mut values = SimpleContext::new(rt.alloc());
/// let name = String::from_str(rt.alloc(), "hello")?;
/// let value = Text::from_string(String::from_str(rt.alloc(), "Hello World!")?);
/// assert!(rt; values.insert(name, Value::String(value)).is_ok());
/// let template = UriTemplateStr::new("{+hello}")?;
/// let text = template.expand::<UriSpec, SimpleContext>(&values)?.try_to_string(rt.alloc())?;
/// assert_eq!(rt; text.as_str(), "Hello%20World!");
/// ```
#[derive_where(Debug; C)]
pub struct Expanded<'a, S, C: Context> {
    pub(crate) template: UriTemplateStr<'a>,
    pub(crate) context: &'a C,
    #[derive_where(skip(Debug))]
    pub(crate) spec: PhantomData<S>,
    pub ghost fine: { ∥ type_fault (C.value_of context.now) (pieces_of (text template)) ≡ None ∥₁ },
}

impl<S, C: Context> Clone for Expanded<'_, S, C> {
    ghost is_clone = { λ e f. f ≡ e };

    ghost is_infallible = { λ _. Unit {0} };

    fn clone(&self) -> Result<Self, AllocError> {
        Ok(*self)
    }
}

impl<S, C: Context> Copy for Expanded<'_, S, C> {}

/// Why an expansion was made no owned text of its kind.
///
/// ```
/// use iri::spec::UriSpec;
/// use iri::template::simple_context::SimpleContext;
/// use iri::template::{ExpandedError, UriTemplateStr};
/// let values = SimpleContext::new(rt.alloc());
/// let expanded = UriTemplateStr::new("1a:b")?.expand::<UriSpec, SimpleContext>(&values)?;
/// assert!(rt; matches!(expanded.try_into_reference(rt.alloc()), Err(ExpandedError::Invalid(_))));
/// ```
#[derive(Debug, Drop, thiserror::Error)]
pub enum ExpandedError {
    /// It isn't in the production of that kind. It is handed out.
    #[error(transparent)]
    Invalid(CreationError<String>),
    /// Allocation failed.
    #[error(transparent)]
    Memory(AllocError),
}

impl<'a, S: Spec, C: Context> Show for Expanded<'a, S, C> {
    ghost use Rattle.iri_template.specs.ExpandedTexts.{expanded_text};

    ghost text = { λ e. expanded_text S.tests C.value_of e };

    fn show<W: TextSink>(&self, sink: &mut W) -> Result<(), Stop> {
        let mut values = Typechecked::new(self.context);
        let template = self.template.as_str();
        match write_expansion::<Typechecked<'_, C>, S, W>(sink, &mut values, template) {
            Ok(()) => Ok(()),
            Err(_) => Err(Stop),
        }
    }
}

impl<'a, S: Spec, C: Context> fmt::Display for Expanded<'a, S, C> {
    ghost use Rattle.iri_template.specs.ExpandedTexts.{expanded_text};

    ghost output = { λ e. Some (expanded_text S.tests C.value_of e) };

    ghost styled_output = { λ e _. Some (expanded_text S.tests C.value_of e) };

    fn fmt<W: fmt::Write>(&self, f: &mut fmt::Formatter<W>) -> fmt::Result {
        FormatSink::new(f).display(self)
    }
}

impl<'a, S: Spec, C: Context> Expanded<'a, S, C> {
    ghost use Rattle.iri_template.specs.ExpandedTexts.{expanded_text, RefusedAs, IsWithin};

    /// The expansion of a template that stands in bytes. Nothing is written and nothing is allocated.
    ///
    /// # Errors
    ///
    /// The fault that [`try_from_bytes`](UriTemplateStr::try_from_bytes) has, or else that of
    /// [`expand`](UriTemplateStr::expand).
    ///
    /// ```
    /// use iri::format::ToStringFallible;
    /// use iri::spec::UriSpec;
    /// use iri::template::Expanded;
    /// use iri::template::simple_context::SimpleContext;
    /// let values = SimpleContext::new(rt.alloc());
    /// let expanded = Expanded::<'_, UriSpec, SimpleContext>::try_from_bytes(b"/search{?q}", &values)?;
    /// assert_eq!(rt; expanded.try_to_string(rt.alloc())?.as_str(), "/search");
    /// ```
    pub fn try_from_bytes(b: &'a [u8], context: &'a C) -> Result<Self, Error>
        ensures fault { Answers result (expansion_fault (C.value_of context.now) b.now) }
        ensures expanded { IfOk result (λ e. (text e.template ≡ b.now) × (e.context.now ≡ context.now)) }
    {
        match UriTemplateStr::try_from_bytes(b) {
            Ok(template) => template.expand(context),
            Err(error) => Err(error),
        }
    }

    // The expansion as an owned text of a kind.
    fn into_owned<K: Kind>(&self, alloc: Global) -> Result<Owned<S, K>, ExpandedError>
        ensures { MatchResult result (λ t. t.text ≡ expanded_text S.tests C.value_of self.now)
            (λ e. RefusedAs e (expanded_text S.tests C.value_of self.now)
            (K.fault S.tests (expanded_text S.tests C.value_of self.now))) }
    {
        let text = self.try_to_string(alloc).map_err(ExpandedError::Memory)?;
        Owned::try_from_string(text).map_err(ExpandedError::Invalid)
    }

    /// The expansion as a reference.
    ///
    /// # Errors
    ///
    /// - `Invalid` exactly where it is none: its first fault, with the text handed back.
    /// - `Memory` where allocation fails.
    ///
    /// ```
    /// use iri::spec::UriSpec;
    /// use iri::template::UriTemplateStr;
    /// use iri::template::simple_context::SimpleContext;
    /// let values = SimpleContext::new(rt.alloc());
    /// let template = UriTemplateStr::new("/search{?q}")?;
    /// let address = template.expand::<UriSpec, SimpleContext>(&values)?.try_into_reference(rt.alloc())?;
    /// assert_eq!(rt; address.as_str(), "/search");
    /// ```
    pub fn try_into_reference(&self, alloc: Global) -> Result<RiReferenceString<S>, ExpandedError>
        ensures { MatchResult result (λ t. t.text ≡ expanded_text S.tests C.value_of self.now)
            (λ e. RefusedAs e (expanded_text S.tests C.value_of self.now)
            (reference_fault S.tests (expanded_text S.tests C.value_of self.now))) }
    {
        self.into_owned(alloc)
    }

    /// The expansion as an IRI of the grammar, which has a scheme.
    ///
    /// # Errors
    ///
    /// - `Invalid` exactly where it is none: its first fault, with the text handed back.
    /// - `Memory` where allocation fails.
    pub fn try_into_iri(&self, alloc: Global) -> Result<RiString<S>, ExpandedError>
        ensures { MatchResult result (λ t. t.text ≡ expanded_text S.tests C.value_of self.now)
            (λ e. RefusedAs e (expanded_text S.tests C.value_of self.now)
            (iri_fault S.tests (expanded_text S.tests C.value_of self.now))) }
    {
        self.into_owned(alloc)
    }

    /// The expansion as an absolute IRI of the grammar, which has a scheme and no fragment.
    ///
    /// # Errors
    ///
    /// - `Invalid` exactly where it is none: its first fault, with the text handed back.
    /// - `Memory` where allocation fails.
    pub fn try_into_absolute(&self, alloc: Global) -> Result<RiAbsoluteString<S>, ExpandedError>
        ensures { MatchResult result (λ t. t.text ≡ expanded_text S.tests C.value_of self.now)
            (λ e. RefusedAs e (expanded_text S.tests C.value_of self.now)
            (absolute_fault S.tests (expanded_text S.tests C.value_of self.now))) }
    {
        self.into_owned(alloc)
    }

    /// The expansion as a relative reference, which has no scheme.
    ///
    /// # Errors
    ///
    /// - `Invalid` exactly where it is none: its first fault, with the text handed back.
    /// - `Memory` where allocation fails.
    pub fn try_into_relative(&self, alloc: Global) -> Result<RiRelativeString<S>, ExpandedError>
        ensures { MatchResult result (λ t. t.text ≡ expanded_text S.tests C.value_of self.now)
            (λ e. RefusedAs e (expanded_text S.tests C.value_of self.now)
            (relative_fault S.tests (expanded_text S.tests C.value_of self.now))) }
    {
        self.into_owned(alloc)
    }

    /// The expansion as a string, where it has at most `limit` bytes; `None` exactly where it has more, and nothing
    /// is allocated for it.
    ///
    /// # Errors
    ///
    /// Where allocation fails, only where it has at most `limit` bytes.
    ///
    /// ```
    /// use iri::spec::UriSpec;
    /// use iri::template::UriTemplateStr;
    /// use iri::template::simple_context::SimpleContext;
    /// let values = SimpleContext::new(rt.alloc());
    /// let expanded = UriTemplateStr::new("/search")?.expand::<UriSpec, SimpleContext>(&values)?;
    /// assert!(rt; expanded.try_into_text_within(rt.alloc(), 6)?.is_none());
    /// assert!(rt; expanded.try_into_text_within(rt.alloc(), 7)?.is_some());
    /// ```
    pub fn try_into_text_within(
        &self,
        alloc: Global,
        limit: usize,
    ) -> Result<Option<String>, AllocError>
        ensures { MatchResult result (λ o. IsWithin limit (expanded_text S.tests C.value_of self.now) o)
            (λ _. length (expanded_text S.tests C.value_of self.now) ≤ limit) }
    {
        if !is_within(self, limit) {
            return Ok(None);
        }
        Ok(Some(self.try_to_string(alloc)?))
    }
}
