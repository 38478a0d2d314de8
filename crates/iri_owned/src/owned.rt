//! Owned texts of a kind.
ghost use Rattle.std.specs.Prelude.{◌≡◌, ◌≤◌, ◌<◌, ◌+◌, length, MatchResult, None, Some, IfOk, IsOk, OnErr, OnOk};
ghost use Rattle.std.specs.String.{string_bytes};
ghost use Rattle.iri_grammar.specs.Fault.{bytes_fault};
ghost use Rattle.iri_owned.specs.OwnedText.{owned_text};
ghost use Rattle.iri_owned.specs.Refusals.{RefusedFor};
ghost use Rattle.iri_types.specs.Texts.{text};

use crate::error::{CreateError, CreationError};
use iri_grammar::spec::{IriSpec, Spec, UriSpec};
use iri_types::kind::{Absolute, Fragment, Iri, Kind, Query, Reference, Relative};
use iri_types::view::View;
use std::alloc::{AllocError, Global};
use std::marker::{Model, PhantomData};
use std::mem;

/// A text of the kind `K` in the grammar `S`, owned. It is seen as its UTF-8 bytes and its capacity. Owned texts are
/// equal, ordered and hashed as their texts.
///
/// ```
/// use iri::types::UriString;
/// let link = UriString::try_from_str(rt.alloc(), "http://example.com/")?;
/// assert_eq!(rt; link.as_slice().path_str(), "/");
/// ```
#[derive(Drop)]
#[derive_where(Debug)]
pub struct Owned<S: Spec, K: Kind> {
    pub(crate) text: String,
    #[derive_where(skip(Debug))]
    spec: PhantomData<S>,
    #[derive_where(skip(Debug))]
    kind: PhantomData<K>,
}

impl<S: Spec, K: Kind> Model for Owned<S, K> {
    ghost use Rattle.std.specs.Prelude.{◌≡◌, None};
    ghost use Rattle.std.specs.String.{string_bytes};
    ghost use Rattle.iri_owned.specs.OwnedText.{OwnedText, owned_text};

    ghost Value = { OwnedText };

    ghost view = { λ t. owned_text t.text };

    ghost invariant = { λ t. K.fault S.tests (string_bytes t.text) ≡ None };
}

impl<S: Spec, K: Kind> Owned<S, K> {
    /// A copy of a text that is in its production.
    ///
    /// # Errors
    ///
    /// - `Invalid` exactly where the text isn't: its first fault.
    /// - `Memory` where allocation fails; the text has no fault then.
    ///
    /// ```
    /// use iri::types::{CreateError, UriString};
    /// assert!(rt; UriString::try_from_str(rt.alloc(), "urn:example:a").is_ok());
    /// let error = UriString::try_from_str(rt.alloc(), "//example.com/").err().ok_or("a fault")?;
    /// assert!(rt; matches!(error, CreateError::Invalid(_)));
    /// ```
    pub fn try_from_str(alloc: Global, s: &str) -> Result<Self, CreateError>
        ensures { MatchResult result (λ t. t.text ≡ s.now) (λ e. RefusedFor e (K.fault S.tests s.now)) }
    {
        match View::<'_, S, K>::new(s) {
            Ok(view) => Owned::from_view(alloc, view).map_err(CreateError::Memory),
            Err(error) => Err(CreateError::Invalid(error)),
        }
    }

    /// A copy of bytes that are the UTF-8 of a text in its production.
    ///
    /// # Errors
    ///
    /// - `Invalid` with `InvalidUtf8` where the bytes aren't UTF-8, which is tested first.
    /// - `Invalid` exactly where the text isn't in its production: its first fault.
    /// - `Memory` where allocation fails; the text has no fault then.
    ///
    /// ```
    /// use iri::types::{CreateError, UriString};
    /// assert_eq!(rt; UriString::try_from_bytes(rt.alloc(), b"http://a/")?.as_str(), "http://a/");
    /// assert!(rt; matches!(UriString::try_from_bytes(rt.alloc(), b"a/b"), Err(CreateError::Invalid(_))));
    /// ```
    pub fn try_from_bytes(alloc: Global, b: &[u8]) -> Result<Self, CreateError>
        ensures { MatchResult result (λ t. t.text ≡ b.now) (λ e. RefusedFor e (bytes_fault (K.fault S.tests) b.now)) }
    {
        match View::<'_, S, K>::try_from_bytes(b) {
            Ok(view) => Owned::from_view(alloc, view).map_err(CreateError::Memory),
            Err(error) => Err(CreateError::Invalid(error)),
        }
    }

    /// A string whose text is in its production. It allocates nothing.
    ///
    /// # Errors
    ///
    /// Exactly where the text isn't: its first fault, with the string handed back.
    ///
    /// ```
    /// use iri::types::UriReferenceString;
    /// let text = String::from_str(rt.alloc(), "a b")?;
    /// let error = UriReferenceString::try_from_string(text).err().ok_or("a fault")?;
    /// assert_eq!(rt; error.into_source().as_str(), "a b");
    /// ```
    pub fn try_from_string(s: String) -> Result<Self, CreationError<String>>
        ensures { MatchResult result (λ t. t ≡ owned_text s)
            (λ e. (e.source ≡ s) × (K.fault S.tests (string_bytes s) ≡ Some e.error.kind)) }
    {
        match K::validate::<S>(s.as_str()) {
            Ok(()) => Ok(Owned {
                text: s,
                spec: PhantomData,
                kind: PhantomData,
            }),
            Err(error) => Err(CreationError { source: s, error }),
        }
    }

    /// A copy of a view's text.
    ///
    /// # Errors
    ///
    /// Where allocation fails.
    ///
    /// ```
    /// use iri::types::{UriStr, UriString};
    /// let link = UriStr::new("http://example.com/")?;
    /// assert_eq!(rt; UriString::from_view(rt.alloc(), link)?.as_slice(), link);
    /// ```
    pub fn from_view(alloc: Global, view: View<'_, S, K>) -> Result<Self, AllocError>
        ensures { IfOk result (λ t. t.text ≡ text view.entry) }
    {
        let text = String::from_str(alloc, view.as_str())?;
        Ok(Owned {
            text,
            spec: PhantomData,
            kind: PhantomData,
        })
    }

    /// A string whose text is in its production, without a test. It has a condition: `try_from_string` tests it. It
    /// allocates nothing.
    pub fn from_valid(s: String) -> Self
        requires { K.fault S.tests (string_bytes s) ≡ None }
        ensures { result ≡ owned_text s }
    {
        Owned {
            text: s,
            spec: PhantomData,
            kind: PhantomData,
        }
    }

    /// The text as a view, which has the getters.
    ///
    /// ```
    /// use iri::types::UriString;
    /// let link = UriString::try_from_str(rt.alloc(), "http://example.com/a?b")?;
    /// assert_eq!(rt; link.as_slice().query_str(), Some("b"));
    /// ```
    pub fn as_slice(&self) -> View<'_, S, K>
        ensures { text result ≡ self.now.text }
    {
        View::from_valid(self.text.as_str())
    }

    /// The text.
    pub fn as_str(&self) -> &str
        ensures text { result.now ≡ self.now.text }
        ensures valid { K.fault S.tests result.now ≡ None }
    {
        self.text.as_str()
    }

    /// The text as a string. It allocates nothing.
    ///
    /// ```
    /// use iri::types::UriString;
    /// let link = UriString::try_from_str(rt.alloc(), "http://a/")?;
    /// assert_eq!(rt; link.into_string().as_str(), "http://a/");
    /// ```
    pub fn into_string(self) -> String
        ensures text { owned_text result ≡ self }
        ensures valid { K.fault S.tests (string_bytes result) ≡ None }
    {
        let Owned {
            text,
            spec: _,
            kind: _,
        } = self;
        text
    }

    /// How many bytes the text can have before it needs more memory.
    pub fn capacity(&self) -> usize
        ensures capacity { result ≡ self.now.capacity }
        ensures room { length self.now.text ≤ result }
    {
        self.text.capacity()
    }

    /// Gives back memory that the text doesn't need, and all of it where the text is empty.
    ///
    /// # Errors
    ///
    /// None: where a smaller place is refused, the text stays in the one that it has.
    pub fn shrink_to_fit(&mut self) -> Result<(), AllocError>
        ensures succeeds { IsOk result }
        ensures text { self.new.text ≡ self.old.text }
        ensures capacity { self.new.capacity ≤ self.old.capacity }
        ensures frees { length self.old.text ≡ 0 → self.new.capacity ≡ 0 }
    {
        self.text.shrink_to_fit();
        Ok(())
    }

    /// Makes room for this many bytes more than the text has. Edits whose text fits within the capacity then never
    /// want memory.
    ///
    /// # Errors
    ///
    /// Where allocation fails, and only where the room isn't there yet; the text and its capacity are as they were
    /// then.
    ///
    /// ```
    /// use iri::types::UriString;
    /// let mut link = UriString::try_from_str(rt.alloc(), "urn:a")?;
    /// link.try_reserve(100)?;
    /// assert!(rt; link.capacity() >= 105);
    /// ```
    pub fn try_reserve(&mut self, additional: usize) -> Result<(), AllocError>
        ensures text { self.new.text ≡ self.old.text }
        ensures room { OnOk result (length self.old.text + additional ≤ self.new.capacity) }
        ensures err { OnErr result (self.new ≡ self.old) }
        ensures full { OnErr result (self.old.capacity < length self.old.text + additional) }
        ensures capacity { self.old.capacity ≤ self.new.capacity }
        ensures held { length self.new.text ≤ self.new.capacity }
    {
        self.text.try_reserve(additional)
    }

    /// A copy.
    ///
    /// # Errors
    ///
    /// Where allocation fails.
    ///
    /// ```
    /// use iri::types::UriString;
    /// let link = UriString::try_from_str(rt.alloc(), "http://a/")?;
    /// assert_eq!(rt; link.try_clone(rt.alloc())?.as_str(), "http://a/");
    /// ```
    pub fn try_clone(&self, alloc: Global) -> Result<Self, AllocError>
        ensures { IfOk result (λ t. t.text ≡ self.now.text) }
    {
        Owned::from_view(alloc, self.as_slice())
    }

    /// Puts a text that is in its production in the old one's place, and gives the old one back. It has a condition:
    /// `K::validate` tests it. It allocates nothing.
    pub fn replace_text(&mut self, text: String) -> String
        requires { K.fault S.tests (string_bytes text) ≡ None }
        ensures new { self.new ≡ owned_text text }
        ensures old { owned_text result ≡ self.old }
    {
        mem::replace(&mut self.text, text)
    }
}

/// A `URI-reference` of `S`, owned (RFC 3986 section 4.1).
///
/// ```
/// use iri::spec::{IriSpec, UriSpec};
/// use iri::types::RiReferenceString;
/// assert!(rt; RiReferenceString::<IriSpec>::try_from_str(rt.alloc(), "../rosé").is_ok());
/// assert!(rt; RiReferenceString::<UriSpec>::try_from_str(rt.alloc(), "../rosé").is_err());
/// ```
pub type RiReferenceString<S> = Owned<S, Reference>;

/// A `URI` of `S`, with a scheme, owned (RFC 3986 section 3).
///
/// ```
/// use iri::spec::{IriSpec, UriSpec};
/// use iri::types::RiString;
/// assert!(rt; RiString::<IriSpec>::try_from_str(rt.alloc(), "urn:rosé").is_ok());
/// assert!(rt; RiString::<UriSpec>::try_from_str(rt.alloc(), "urn:rosé").is_err());
/// ```
pub type RiString<S> = Owned<S, Iri>;

/// An `absolute-URI` of `S`, with a scheme and without a fragment, owned (RFC 3986 section 4.3).
///
/// ```
/// use iri::spec::{IriSpec, UriSpec};
/// use iri::types::RiAbsoluteString;
/// assert!(rt; RiAbsoluteString::<IriSpec>::try_from_str(rt.alloc(), "urn:rosé?q").is_ok());
/// assert!(rt; RiAbsoluteString::<UriSpec>::try_from_str(rt.alloc(), "urn:rosé?q").is_err());
/// ```
pub type RiAbsoluteString<S> = Owned<S, Absolute>;

/// A `relative-ref` of `S`, without a scheme, owned (RFC 3986 section 4.2).
///
/// ```
/// use iri::spec::{IriSpec, UriSpec};
/// use iri::types::RiRelativeString;
/// assert!(rt; RiRelativeString::<IriSpec>::try_from_str(rt.alloc(), "/rosé").is_ok());
/// assert!(rt; RiRelativeString::<UriSpec>::try_from_str(rt.alloc(), "/rosé").is_err());
/// ```
pub type RiRelativeString<S> = Owned<S, Relative>;

/// A `query` of `S`, without its `?`, owned (RFC 3986 section 3.4).
///
/// ```
/// use iri::spec::{IriSpec, UriSpec};
/// use iri::types::RiQueryString;
/// assert!(rt; RiQueryString::<IriSpec>::try_from_str(rt.alloc(), "q=rosé").is_ok());
/// assert!(rt; RiQueryString::<UriSpec>::try_from_str(rt.alloc(), "q=rosé").is_err());
/// ```
pub type RiQueryString<S> = Owned<S, Query>;

/// A `fragment` of `S`, without its `#`, owned (RFC 3986 section 3.5).
///
/// ```
/// use iri::spec::{IriSpec, UriSpec};
/// use iri::types::RiFragmentString;
/// assert!(rt; RiFragmentString::<IriSpec>::try_from_str(rt.alloc(), "rosé").is_ok());
/// assert!(rt; RiFragmentString::<UriSpec>::try_from_str(rt.alloc(), "rosé").is_err());
/// ```
pub type RiFragmentString<S> = Owned<S, Fragment>;

/// An `IRI-reference`, owned (RFC 3987 section 2.2).
///
/// ```
/// use iri::types::IriReferenceString;
/// assert_eq!(rt; IriReferenceString::try_from_str(rt.alloc(), "../rosé")?.as_str(), "../rosé");
/// assert!(rt; IriReferenceString::try_from_str(rt.alloc(), "1:rosé").is_err());
/// ```
pub type IriReferenceString = RiReferenceString<IriSpec>;

/// An `IRI`, owned (RFC 3987 section 2.2).
///
/// ```
/// use iri::types::IriString;
/// let link = IriString::try_from_str(rt.alloc(), "http://example.com/rosé")?;
/// assert_eq!(rt; link.as_str(), "http://example.com/rosé");
/// ```
pub type IriString = RiString<IriSpec>;

/// An `absolute-IRI`: an IRI without a fragment, owned (RFC 3987 section 2.2).
///
/// ```
/// use iri::types::IriAbsoluteString;
/// assert_eq!(rt; IriAbsoluteString::try_from_str(rt.alloc(), "http://a/rosé")?.as_str(), "http://a/rosé");
/// assert!(rt; IriAbsoluteString::try_from_str(rt.alloc(), "http://a/#rosé").is_err());
/// ```
pub type IriAbsoluteString = RiAbsoluteString<IriSpec>;

/// An `irelative-ref`: a reference without a scheme, owned (RFC 3987 section 2.2).
///
/// ```
/// use iri::types::IriRelativeString;
/// assert_eq!(rt; IriRelativeString::try_from_str(rt.alloc(), "/rosé")?.as_str(), "/rosé");
/// assert!(rt; IriRelativeString::try_from_str(rt.alloc(), "a:rosé").is_err());
/// ```
pub type IriRelativeString = RiRelativeString<IriSpec>;

/// An `iquery`, without its `?`, owned (RFC 3987 section 2.2).
///
/// ```
/// use iri::types::IriQueryString;
/// assert_eq!(rt; IriQueryString::try_from_str(rt.alloc(), "q=rosé")?.as_str(), "q=rosé");
/// assert!(rt; IriQueryString::try_from_str(rt.alloc(), "a#b").is_err());
/// ```
pub type IriQueryString = RiQueryString<IriSpec>;

/// An `ifragment`, without its `#`, owned (RFC 3987 section 2.2).
///
/// ```
/// use iri::types::IriFragmentString;
/// assert_eq!(rt; IriFragmentString::try_from_str(rt.alloc(), "rosé")?.as_str(), "rosé");
/// assert!(rt; IriFragmentString::try_from_str(rt.alloc(), "a#b").is_err());
/// ```
pub type IriFragmentString = RiFragmentString<IriSpec>;

/// A `URI-reference`, owned (RFC 3986 section 4.1).
///
/// ```
/// use iri::types::UriReferenceString;
/// let link = UriReferenceString::try_from_str(rt.alloc(), "../../g")?;
/// assert!(rt; link.into_iri().is_err());
/// ```
pub type UriReferenceString = RiReferenceString<UriSpec>;

/// A `URI`, owned (RFC 3986 section 3).
///
/// ```
/// use iri::types::UriString;
/// let link = UriString::try_from_str(rt.alloc(), "mailto:John.Doe@example.com")?;
/// assert_eq!(rt; link.as_slice().scheme_str(), "mailto");
/// ```
pub type UriString = RiString<UriSpec>;

/// An `absolute-URI`: a URI without a fragment, as a base is, owned (RFC 3986 section 4.3).
///
/// ```
/// use iri::types::UriAbsoluteString;
/// assert_eq!(rt; UriAbsoluteString::try_from_str(rt.alloc(), "http://a/b/c/d;p?q")?.as_str(), "http://a/b/c/d;p?q");
/// assert!(rt; UriAbsoluteString::try_from_str(rt.alloc(), "http://a/b#c").is_err());
/// ```
pub type UriAbsoluteString = RiAbsoluteString<UriSpec>;

/// A `relative-ref`: a reference without a scheme, owned (RFC 3986 section 4.2).
///
/// ```
/// use iri::types::UriRelativeString;
/// assert_eq!(rt; UriRelativeString::try_from_str(rt.alloc(), "./g:h")?.as_str(), "./g:h");
/// assert!(rt; UriRelativeString::try_from_str(rt.alloc(), "g:h").is_err());
/// ```
pub type UriRelativeString = RiRelativeString<UriSpec>;

/// A `query`, without its `?`, owned (RFC 3986 section 3.4).
///
/// ```
/// use iri::types::UriQueryString;
/// assert_eq!(rt; UriQueryString::try_from_str(rt.alloc(), "objectClass?one")?.as_str(), "objectClass?one");
/// assert!(rt; UriQueryString::try_from_str(rt.alloc(), "a#b").is_err());
/// ```
pub type UriQueryString = RiQueryString<UriSpec>;

/// A `fragment`, without its `#`, owned (RFC 3986 section 3.5).
///
/// ```
/// use iri::types::UriFragmentString;
/// assert_eq!(rt; UriFragmentString::try_from_str(rt.alloc(), "nose")?.as_str(), "nose");
/// assert!(rt; UriFragmentString::try_from_str(rt.alloc(), "#nose").is_err());
/// ```
pub type UriFragmentString = RiFragmentString<UriSpec>;
