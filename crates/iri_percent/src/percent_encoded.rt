// Raw values, percent-encoded.
ghost use Rattle.std.specs.Prelude.{◌≡◌, Some};
ghost use Rattle.iri_percent.specs.Encoding.{keeps, encoded};
ghost use Rattle.iri_percent.specs.declared.context.Context.TheVariants.{RegName, UserOrPassword, PathSegment, Path};
ghost use Rattle.iri_percent.specs.declared.context.Context.TheVariants.{Query, Fragment, Unreserved, Any};

use crate::context::Context;
use crate::encoder::show_encoded;
use crate::encoder_sink::Encoder;
use iri_grammar::spec::{IriSpec, Spec, UriSpec};
use iri_text::{FormatSink, Show, Stop, TextSink};
use std::fmt;
use std::marker::PhantomData;

/// A raw value whose text is percent-encoded as it is shown (RFC 3986 sections 2.1 and 2.4): each character that may be in
/// its place of a reference of `S` stays, and every other one, `%` among them, becomes the percent-encoded octets of its
/// UTF-8, with capital hex digits. So what is decoded again is the raw text.
///
/// It allocates nothing, and the value may put its text in any pieces.
///
/// ```
/// use iri::format::ToStringFallible;
/// use iri::percent_encode::{PercentEncodedForIri, PercentEncodedForUri};
/// let uri = PercentEncodedForUri::from_path_segment("rosé/100%").try_to_string(rt.alloc())?;
/// assert_eq!(rt; uri.as_str(), "ros%C3%A9%2F100%25");
/// let iri = PercentEncodedForIri::from_path_segment("rosé/100%").try_to_string(rt.alloc())?;
/// assert_eq!(rt; iri.as_str(), "rosé%2F100%25");
/// ```
#[derive(Clone, Copy, Drop)]
pub struct PercentEncoded<T, S> {
    raw: T,
    context: Context,
    spec: PhantomData<S>,
}

/// A raw value that is encoded for a URI.
///
/// ```
/// use iri::format::ToStringFallible;
/// use iri::percent_encode::PercentEncodedForUri;
/// let value = PercentEncodedForUri::unreserve("50% off/é");
/// assert_eq!(rt; value.try_to_string(rt.alloc())?.as_str(), "50%25%20off%2F%C3%A9");
/// ```
pub type PercentEncodedForUri<T> = PercentEncoded<T, UriSpec>;

/// A raw value that is encoded for an IRI.
///
/// ```
/// use iri::format::ToStringFallible;
/// use iri::percent_encode::PercentEncodedForIri;
/// let value = PercentEncodedForIri::unreserve("50% off/é");
/// assert_eq!(rt; value.try_to_string(rt.alloc())?.as_str(), "50%25%20off%2Fé");
/// ```
pub type PercentEncodedForIri<T> = PercentEncoded<T, IriSpec>;

impl<T: Show, S: Spec> PercentEncoded<T, S> {
    fn new(raw: T, context: Context) -> Self
        ensures raw { result.raw ≡ raw }
        ensures context { result.context ≡ context }
    {
        PercentEncoded {
            raw,
            context,
            spec: PhantomData,
        }
    }

    /// Encodes for a registered name: the characters of a `reg-name` are kept (RFC 3986 section 3.2.2).
    ///
    /// ```
    /// use iri::format::ToStringFallible;
    /// use iri::percent_encode::PercentEncodedForUri;
    /// let host = PercentEncodedForUri::from_reg_name("a:b").try_to_string(rt.alloc())?;
    /// assert_eq!(rt; host.as_str(), "a%3Ab");
    /// ```
    pub fn from_reg_name(raw: T) -> Self
        ensures raw { result.raw ≡ raw }
        ensures context { result.context ≡ RegName }
    {
        PercentEncoded::new(raw, Context::RegName)
    }

    /// Encodes for the user in a `userinfo`: the characters of a `userinfo` but the `:` are kept (RFC 3986 section
    /// 3.2.1).
    ///
    /// ```
    /// use iri::format::ToStringFallible;
    /// use iri::percent_encode::PercentEncodedForUri;
    /// let user = PercentEncodedForUri::from_user("a:b@c").try_to_string(rt.alloc())?;
    /// assert_eq!(rt; user.as_str(), "a%3Ab%40c");
    /// ```
    pub fn from_user(raw: T) -> Self
        ensures raw { result.raw ≡ raw }
        ensures context { result.context ≡ UserOrPassword }
    {
        PercentEncoded::new(raw, Context::UserOrPassword)
    }

    /// Encodes for the password in a `userinfo`: the characters of a `userinfo` but the `:` are kept (RFC 3986 section
    /// 3.2.1).
    ///
    /// ```
    /// use iri::format::ToStringFallible;
    /// use iri::percent_encode::PercentEncodedForUri;
    /// let password = PercentEncodedForUri::from_password("p:w@");
    /// assert_eq!(rt; password.try_to_string(rt.alloc())?.as_str(), "p%3Aw%40");
    /// ```
    pub fn from_password(raw: T) -> Self
        ensures raw { result.raw ≡ raw }
        ensures context { result.context ≡ UserOrPassword }
    {
        PercentEncoded::new(raw, Context::UserOrPassword)
    }

    /// Encodes for one segment of a path: `pchar` is kept, and so each `/` is encoded (RFC 3986 section 3.3).
    ///
    /// ```
    /// use iri::format::ToStringFallible;
    /// use iri::percent_encode::PercentEncodedForUri;
    /// let segment = PercentEncodedForUri::from_path_segment("a/b c;d");
    /// assert_eq!(rt; segment.try_to_string(rt.alloc())?.as_str(), "a%2Fb%20c;d");
    /// ```
    pub fn from_path_segment(raw: T) -> Self
        ensures raw { result.raw ≡ raw }
        ensures context { result.context ≡ PathSegment }
    {
        PercentEncoded::new(raw, Context::PathSegment)
    }

    /// Encodes for a path: `pchar` and `/` are kept (RFC 3986 section 3.3).
    ///
    /// ```
    /// use iri::format::ToStringFallible;
    /// use iri::percent_encode::PercentEncodedForUri;
    /// let path = PercentEncodedForUri::from_path("/a b/c?d").try_to_string(rt.alloc())?;
    /// assert_eq!(rt; path.as_str(), "/a%20b/c%3Fd");
    /// ```
    pub fn from_path(raw: T) -> Self
        ensures raw { result.raw ≡ raw }
        ensures context { result.context ≡ Path }
    {
        PercentEncoded::new(raw, Context::Path)
    }

    /// Encodes for a query: the characters of a `query` are kept (RFC 3986 section 3.4), in an IRI those for private
    /// use too (RFC 3987 section 2.2). `&`, `=` and `+` are kept.
    ///
    /// ```
    /// use iri::format::ToStringFallible;
    /// use iri::percent_encode::PercentEncodedForUri;
    /// let query = PercentEncodedForUri::from_query("a=b c&d#e").try_to_string(rt.alloc())?;
    /// assert_eq!(rt; query.as_str(), "a=b%20c&d%23e");
    /// ```
    pub fn from_query(raw: T) -> Self
        ensures raw { result.raw ≡ raw }
        ensures context { result.context ≡ Query }
    {
        PercentEncoded::new(raw, Context::Query)
    }

    /// Encodes for a fragment: the characters of a `fragment` are kept (RFC 3986 section 3.5).
    ///
    /// ```
    /// use iri::format::ToStringFallible;
    /// use iri::percent_encode::PercentEncodedForUri;
    /// let fragment = PercentEncodedForUri::from_fragment("a/b?c#d").try_to_string(rt.alloc())?;
    /// assert_eq!(rt; fragment.as_str(), "a/b?c%23d");
    /// ```
    pub fn from_fragment(raw: T) -> Self
        ensures raw { result.raw ≡ raw }
        ensures context { result.context ≡ Fragment }
    {
        PercentEncoded::new(raw, Context::Fragment)
    }

    /// Encodes for any place: only `unreserved` characters are kept (RFC 3986 section 2.3), so the value can't be read
    /// as a delimiter.
    ///
    /// ```
    /// use iri::format::ToStringFallible;
    /// use iri::percent_encode::PercentEncodedForUri;
    /// let value = PercentEncodedForUri::unreserve("a&b=50%~").try_to_string(rt.alloc())?;
    /// assert_eq!(rt; value.as_str(), "a%26b%3D50%25~");
    /// ```
    pub fn unreserve(raw: T) -> Self
        ensures raw { result.raw ≡ raw }
        ensures context { result.context ≡ Unreserved }
    {
        PercentEncoded::new(raw, Context::Unreserved)
    }

    /// Encodes what may be nowhere in a reference: `unreserved` and `reserved` characters are kept (RFC 3986 section 2.2),
    /// in an IRI those for private use too.
    ///
    /// ```
    /// use iri::format::ToStringFallible;
    /// use iri::percent_encode::PercentEncodedForUri;
    /// let text = PercentEncodedForUri::characters("http://a/b c#d").try_to_string(rt.alloc())?;
    /// assert_eq!(rt; text.as_str(), "http://a/b%20c#d");
    /// ```
    pub fn characters(raw: T) -> Self
        ensures raw { result.raw ≡ raw }
        ensures context { result.context ≡ Any }
    {
        PercentEncoded::new(raw, Context::Any)
    }
}

impl<T: Show, S: Spec> Show for PercentEncoded<T, S> {
    ghost text = { λ e. encoded (keeps S.tests e.context) (T.text e.raw) };

    fn show<W: TextSink>(&self, sink: &mut W) -> Result<(), Stop> {
        let mut encoder = Encoder::<S, W>::new(sink, self.context);
        show_encoded(&mut encoder, &self.raw)
    }
}

impl<T: Show, S: Spec> fmt::Display for PercentEncoded<T, S> {
    ghost output = { λ e. Some (encoded (keeps S.tests e.context) (T.text e.raw)) };

    ghost styled_output = { λ e _. Some (encoded (keeps S.tests e.context) (T.text e.raw)) };

    fn fmt<W: fmt::Write>(&self, f: &mut fmt::Formatter<W>) -> fmt::Result {
        FormatSink::new(f).display(self)
    }
}
