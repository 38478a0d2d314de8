//! Views: borrowed texts of a kind.
ghost use Rattle.std.specs.Prelude.{◌≡◌, ◌==◌, length, IfOk, None, Some};
ghost use Rattle.iri_grammar.specs.Fault.{Answers, bytes_fault};

use crate::kind::{Absolute, Fragment, Iri, Kind, Query, Reference, Relative};
use crate::utf8::text_of;
use iri_grammar::error::{Error, ErrorKind};
use iri_grammar::spec::{IriSpec, Spec, UriSpec};
use iri_text::{FormatSink, Show, Stop, TextSink};
use std::alloc::AllocError;
use std::fmt;
use std::marker::PhantomData;

/// A text of the kind `K` in the grammar `S`, borrowed. It is as small as a `&str`, and its slices outlive it. Views
/// are equal, ordered and hashed as their texts.
///
/// ```
/// use iri::types::UriStr;
/// let link = UriStr::new("foo://example.com:8042/over/there?name=ferret#nose")?;
/// assert_eq!(rt; link.scheme_str(), "foo");
/// assert_eq!(rt; link.authority_str(), Some("example.com:8042"));
/// assert_eq!(rt; link.path_str(), "/over/there");
/// ```
#[derive_where(PartialEq, Eq, PartialOrd, Ord, Hash, Debug)]
pub struct View<'a, S: Spec, K: Kind> {
    text: &'a str,
    #[derive_where(skip(Debug))]
    spec: PhantomData<S>,
    #[derive_where(skip(Debug))]
    kind: PhantomData<K>,
    pub ghost valid: { ∥ K.fault S.tests text.now ≡ None ∥₁ },
}

impl<S: Spec, K: Kind> Clone for View<'_, S, K> {
    ghost is_clone = { λ v w. w ≡ v };

    ghost is_infallible = { λ _. Unit {0} };

    fn clone(&self) -> Result<Self, AllocError> {
        Ok(*self)
    }
}

impl<S: Spec, K: Kind> Copy for View<'_, S, K> {}

impl<'a, S: Spec, K: Kind> View<'a, S, K> {
    ghost use Rattle.iri_types.specs.Texts.{text};

    /// The view of a text that is in its production.
    ///
    /// # Errors
    ///
    /// Exactly where the text isn't: the first fault from the left.
    ///
    /// ```
    /// use iri::types::UriStr;
    /// use iri::validate::ErrorKind;
    /// assert!(rt; UriStr::new("mailto:John.Doe@example.com").is_ok());
    /// let error = UriStr::new("http://[::1").err().ok_or("a fault")?;
    /// assert_eq!(rt; error.kind(), ErrorKind::InvalidHost);
    /// ```
    pub fn new(s: &'a str) -> Result<Self, Error>
        ensures fault { Answers result (K.fault S.tests s.now) }
        ensures text { IfOk result (λ v. text v ≡ s.now) }
    {
        match K::validate::<S>(s) {
            Ok(()) => Ok(View {
                text: s,
                spec: PhantomData,
                kind: PhantomData,
            }),
            Err(error) => Err(error),
        }
    }

    /// The view of bytes that are the UTF-8 of a text in its production.
    ///
    /// # Errors
    ///
    /// - `InvalidUtf8` where the bytes aren't UTF-8, which is tested first.
    /// - Otherwise the first fault of the text, exactly where it isn't in its production.
    ///
    /// ```
    /// use iri::types::IriStr;
    /// use iri::validate::ErrorKind;
    /// assert!(rt; IriStr::try_from_bytes(b"http://example.org/ros\xc3\xa9").is_ok());
    /// let error = IriStr::try_from_bytes(b"http://example.org/ros\xe9").err().ok_or("a fault")?;
    /// assert_eq!(rt; error.kind(), ErrorKind::InvalidUtf8);
    /// ```
    pub fn try_from_bytes(b: &'a [u8]) -> Result<Self, Error>
        ensures fault { Answers result (bytes_fault (K.fault S.tests) b.now) }
        ensures text { IfOk result (λ v. text v ≡ b.now) }
    {
        match text_of(b) {
            Some(s) => View::new(s),
            None => Err(Error::new(ErrorKind::InvalidUtf8)),
        }
    }

    /// The view of a text that is in its production, without a test. It has a condition: `new` tests it.
    pub fn from_valid(s: &'a str) -> Self
        requires { K.fault S.tests s.now ≡ None }
        ensures { text result ≡ s.now }
    {
        View {
            text: s,
            spec: PhantomData,
            kind: PhantomData,
        }
    }

    /// The text.
    ///
    /// ```
    /// use iri::types::UriStr;
    /// assert_eq!(rt; UriStr::new("tel:+1-816-555-1212")?.as_str(), "tel:+1-816-555-1212");
    /// ```
    pub fn as_str(self) -> &'a str
        ensures text { result.now ≡ text self.entry }
        ensures valid { K.fault S.tests result.now ≡ None }
    {
        self.text
    }

    /// The length of the text in bytes.
    pub fn len(self) -> usize
        ensures { result ≡ length (text self.entry) }
    {
        self.text.len()
    }

    /// Whether the text is empty, as a relative reference, a query or a fragment may be.
    pub fn is_empty(self) -> bool
        ensures { result ≡ (length (text self.entry) == 0) }
    {
        self.text.is_empty()
    }
}

impl<S: Spec, K: Kind> Show for View<'_, S, K> {
    ghost use Rattle.iri_types.specs.Texts.{text};

    ghost text = { λ v. text v };

    fn show<W: TextSink>(&self, sink: &mut W) -> Result<(), Stop> {
        sink.put(self.text)
    }
}

impl<S: Spec, K: Kind> fmt::Display for View<'_, S, K> {
    ghost use Rattle.iri_types.specs.Texts.{text};

    ghost output = { λ v. Some (text v) };

    ghost styled_output = { λ v _. Some (text v) };

    fn fmt<W: fmt::Write>(&self, f: &mut fmt::Formatter<W>) -> fmt::Result {
        FormatSink::new(f).display(self)
    }
}

/// A `URI-reference` of `S` (RFC 3986 section 4.1).
///
/// ```
/// use iri::spec::{IriSpec, UriSpec};
/// use iri::types::RiReferenceStr;
/// assert!(rt; RiReferenceStr::<IriSpec>::new("../rosé").is_ok());
/// assert!(rt; RiReferenceStr::<UriSpec>::new("../rosé").is_err());
/// ```
pub type RiReferenceStr<'a, S> = View<'a, S, Reference>;

/// A `URI` of `S`, with a scheme (RFC 3986 section 3).
///
/// ```
/// use iri::spec::{IriSpec, UriSpec};
/// use iri::types::RiStr;
/// assert!(rt; RiStr::<IriSpec>::new("urn:rosé").is_ok());
/// assert!(rt; RiStr::<UriSpec>::new("urn:rosé").is_err());
/// ```
pub type RiStr<'a, S> = View<'a, S, Iri>;

/// An `absolute-URI` of `S`, with a scheme and without a fragment (RFC 3986 section 4.3).
///
/// ```
/// use iri::spec::{IriSpec, UriSpec};
/// use iri::types::RiAbsoluteStr;
/// assert!(rt; RiAbsoluteStr::<IriSpec>::new("urn:rosé?q").is_ok());
/// assert!(rt; RiAbsoluteStr::<UriSpec>::new("urn:rosé?q").is_err());
/// ```
pub type RiAbsoluteStr<'a, S> = View<'a, S, Absolute>;

/// A `relative-ref` of `S`, without a scheme (RFC 3986 section 4.2).
///
/// ```
/// use iri::spec::{IriSpec, UriSpec};
/// use iri::types::RiRelativeStr;
/// assert!(rt; RiRelativeStr::<IriSpec>::new("/rosé").is_ok());
/// assert!(rt; RiRelativeStr::<UriSpec>::new("/rosé").is_err());
/// ```
pub type RiRelativeStr<'a, S> = View<'a, S, Relative>;

/// A `query` of `S`, without its `?` (RFC 3986 section 3.4).
///
/// ```
/// use iri::spec::{IriSpec, UriSpec};
/// use iri::types::RiQueryStr;
/// assert!(rt; RiQueryStr::<IriSpec>::new("q=rosé").is_ok());
/// assert!(rt; RiQueryStr::<UriSpec>::new("q=rosé").is_err());
/// ```
pub type RiQueryStr<'a, S> = View<'a, S, Query>;

/// A `fragment` of `S`, without its `#` (RFC 3986 section 3.5).
///
/// ```
/// use iri::spec::{IriSpec, UriSpec};
/// use iri::types::RiFragmentStr;
/// assert!(rt; RiFragmentStr::<IriSpec>::new("rosé").is_ok());
/// assert!(rt; RiFragmentStr::<UriSpec>::new("rosé").is_err());
/// ```
pub type RiFragmentStr<'a, S> = View<'a, S, Fragment>;

/// An `IRI-reference`: an IRI or a relative reference (RFC 3987 section 2.2).
///
/// ```
/// use iri::types::IriReferenceStr;
/// assert!(rt; IriReferenceStr::new("../rosé#rouge").is_ok());
/// ```
pub type IriReferenceStr<'a> = RiReferenceStr<'a, IriSpec>;

/// An `IRI` (RFC 3987 section 2.2).
///
/// ```
/// use iri::types::IriStr;
/// let link = IriStr::new("http://www.example.org/red%09rosé#red")?;
/// assert_eq!(rt; link.path_str(), "/red%09rosé");
/// ```
pub type IriStr<'a> = RiStr<'a, IriSpec>;

/// An `absolute-IRI`: an IRI without a fragment, as a base is (RFC 3987 section 2.2).
///
/// ```
/// use iri::types::IriAbsoluteStr;
/// assert!(rt; IriAbsoluteStr::new("http://a/rosé").is_ok());
/// assert!(rt; IriAbsoluteStr::new("http://a/#rosé").is_err());
/// ```
pub type IriAbsoluteStr<'a> = RiAbsoluteStr<'a, IriSpec>;

/// An `irelative-ref`: a reference without a scheme (RFC 3987 section 2.2).
///
/// ```
/// use iri::types::IriRelativeStr;
/// assert!(rt; IriRelativeStr::new("/rosé").is_ok());
/// assert!(rt; IriRelativeStr::new("a:rosé").is_err());
/// ```
pub type IriRelativeStr<'a> = RiRelativeStr<'a, IriSpec>;

/// An `iquery`, without its `?` (RFC 3987 section 2.2).
///
/// ```
/// use iri::types::IriQueryStr;
/// assert!(rt; IriQueryStr::new("q=rosé").is_ok());
/// assert!(rt; IriQueryStr::new("a#b").is_err());
/// ```
pub type IriQueryStr<'a> = RiQueryStr<'a, IriSpec>;

/// An `ifragment`, without its `#` (RFC 3987 section 2.2).
///
/// ```
/// use iri::types::IriFragmentStr;
/// assert!(rt; IriFragmentStr::new("rosé").is_ok());
/// assert!(rt; IriFragmentStr::new("a#b").is_err());
/// ```
pub type IriFragmentStr<'a> = RiFragmentStr<'a, IriSpec>;

/// A `URI-reference`: a URI or a relative reference, as a page has it (RFC 3986 section 4.1).
///
/// ```
/// use iri::types::UriReferenceStr;
/// let link = UriReferenceStr::new("../g?y#s")?;
/// assert_eq!(rt; link.scheme_str(), None);
/// assert_eq!(rt; link.query_str(), Some("y"));
/// ```
pub type UriReferenceStr<'a> = RiReferenceStr<'a, UriSpec>;

/// A `URI` (RFC 3986 section 3).
///
/// ```
/// use iri::types::UriStr;
/// assert!(rt; UriStr::new("urn:oasis:names:specification:docbook:dtd:xml:4.1.2").is_ok());
/// assert!(rt; UriStr::new("//example.com/").is_err());
/// ```
pub type UriStr<'a> = RiStr<'a, UriSpec>;

/// An `absolute-URI`: a URI without a fragment, as a base is (RFC 3986 section 4.3).
///
/// ```
/// use iri::types::UriAbsoluteStr;
/// use iri::validate::ErrorKind;
/// assert!(rt; UriAbsoluteStr::new("http://a/b/c/d;p?q").is_ok());
/// let error = UriAbsoluteStr::new("http://a/b#c").err().ok_or("a fault")?;
/// assert_eq!(rt; error.kind(), ErrorKind::UnexpectedFragment);
/// ```
pub type UriAbsoluteStr<'a> = RiAbsoluteStr<'a, UriSpec>;

/// A `relative-ref`: a reference without a scheme (RFC 3986 section 4.2).
///
/// ```
/// use iri::types::UriRelativeStr;
/// assert!(rt; UriRelativeStr::new("./g:h").is_ok());
/// assert!(rt; UriRelativeStr::new("g:h").is_err());
/// ```
pub type UriRelativeStr<'a> = RiRelativeStr<'a, UriSpec>;

/// A `query`, without its `?` (RFC 3986 section 3.4).
///
/// ```
/// use iri::types::UriQueryStr;
/// assert!(rt; UriQueryStr::new("objectClass?one").is_ok());
/// ```
pub type UriQueryStr<'a> = RiQueryStr<'a, UriSpec>;

/// A `fragment`, without its `#` (RFC 3986 section 3.5).
///
/// ```
/// use iri::types::UriFragmentStr;
/// assert!(rt; UriFragmentStr::new("nose").is_ok());
/// assert!(rt; UriFragmentStr::new("#nose").is_err());
/// ```
pub type UriFragmentStr<'a> = RiFragmentStr<'a, UriSpec>;
