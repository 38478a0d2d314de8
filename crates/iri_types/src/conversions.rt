//! Conversions between kinds: they keep the text, or cut it at the fragment.
ghost use Rattle.std.specs.Prelude.{◌≡◌, ◌++◌, IfErr, IsNone, IsSome, MatchOption, MatchResult, codes};
ghost use Rattle.iri_grammar.specs.Cut.{before, delimited};
ghost use Rattle.iri_grammar.specs.Fault.{query_fault, fragment_fault};
ghost use Rattle.iri_grammar.specs.Split.{split_of};
ghost use Rattle.iri_types.specs.Prefixed.{IsUndelimited};
ghost use Rattle.iri_types.specs.Texts.{text, text_of};
ghost use Rattle.iri_grammar.specs.Characters.{number_sign};

use crate::kind::{Absolute, Fragment, Iri, Kind, Query, Reference};
use crate::view::{RiAbsoluteStr, RiFragmentStr, RiRelativeStr, RiStr, View};
use iri_grammar::cutting::cut;
use iri_grammar::error::{Error, ErrorKind};
use iri_grammar::spec::{IriSpec, Spec, UriSpec};

impl<'a, S: Spec> View<'a, S, Reference> {
    /// The text as an IRI of its grammar, which has a scheme.
    ///
    /// # Errors
    ///
    /// The same text as a relative reference, exactly where it has no scheme.
    ///
    /// ```
    /// use iri::types::UriReferenceStr;
    /// assert!(rt; UriReferenceStr::new("g:h")?.to_iri().is_ok());
    /// let relative = UriReferenceStr::new("g")?.to_iri().err().ok_or("no scheme")?;
    /// assert_eq!(rt; relative.as_str(), "g");
    /// ```
    pub fn to_iri(self) -> Result<RiStr<'a, S>, RiRelativeStr<'a, S>>
        ensures text { MatchResult result (λ iri. text iri ≡ text self.entry)
            (λ relative. text relative ≡ text self.entry) }
        ensures scheme { MatchResult result (λ _. IsSome (split_of (text self.entry)).scheme)
            (λ _. IsNone (split_of (text self.entry)).scheme) }
    {
        let text = self.as_str();
        match self.scheme_str() {
            Some(_) => Ok(View::from_valid(text)),
            None => Err(View::from_valid(text)),
        }
    }

    /// The text as a relative reference, which has no scheme.
    ///
    /// # Errors
    ///
    /// The same text as an IRI of its grammar, exactly where it has a scheme.
    pub fn to_relative_iri(self) -> Result<RiRelativeStr<'a, S>, RiStr<'a, S>>
        ensures text { MatchResult result (λ relative. text relative ≡ text self.entry)
            (λ iri. text iri ≡ text self.entry) }
        ensures scheme { MatchResult result (λ _. IsNone (split_of (text self.entry)).scheme)
            (λ _. IsSome (split_of (text self.entry)).scheme) }
    {
        match self.to_iri() {
            Ok(iri) => Err(iri),
            Err(relative) => Ok(relative),
        }
    }
}

impl<'a, S: Spec> View<'a, S, Iri> {
    /// The text before the `#`, or all of it where there is none (RFC 3986 section 4.3).
    ///
    /// ```
    /// use iri::types::UriStr;
    /// let link = UriStr::new("http://a/b/c/d;p?q#s")?;
    /// assert_eq!(rt; link.to_absolute().as_str(), "http://a/b/c/d;p?q");
    /// ```
    pub fn to_absolute(self) -> RiAbsoluteStr<'a, S>
        ensures { text result ≡ before number_sign (text self.entry) }
    {
        View::from_valid(cut(self.as_str(), b'#').0)
    }

    /// The text before the `#`, or all of it, and the fragment, where there is one.
    ///
    /// ```
    /// use iri::types::UriStr;
    /// let (absolute, fragment) = UriStr::new("http://a/b#s")?.to_absolute_and_fragment();
    /// assert_eq!(rt; absolute.as_str(), "http://a/b");
    /// assert_eq!(rt; fragment.ok_or("a fragment")?.as_str(), "s");
    /// ```
    pub fn to_absolute_and_fragment(self) -> (RiAbsoluteStr<'a, S>, Option<RiFragmentStr<'a, S>>)
        ensures absolute { text result.0 ≡ before number_sign (text self.entry) }
        ensures fragment { text_of result.1 ≡ (split_of (text self.entry)).fragment }
        ensures joined { text result.0 ++ delimited number_sign (text_of result.1) ≡ text self.entry }
    {
        (self.to_absolute(), self.fragment())
    }
}

impl<'a, S: Spec> View<'a, S, Absolute> {
    /// The text as an IRI of its grammar, which may have a fragment.
    pub fn as_iri(self) -> RiStr<'a, S>
        ensures { text result ≡ text self.entry }
    {
        View::from_valid(self.as_str())
    }
}

impl<'a, K: Kind> View<'a, UriSpec, K> {
    /// The text of URIs as one of IRIs: each URI is an IRI (RFC 3987 section 3).
    ///
    /// ```
    /// use iri::types::{IriStr, UriStr};
    /// let link: IriStr<'_> = UriStr::new("http://example.com/")?.to_iri_spec();
    /// assert_eq!(rt; link.as_str(), "http://example.com/");
    /// ```
    pub fn to_iri_spec(self) -> View<'a, IriSpec, K>
        ensures { text result ≡ text self.entry }
    {
        View::from_valid(self.as_str())
    }
}

// The view of what comes after the delimiter.
fn after_delimiter<'a, S: Spec, K: Kind>(s: &'a str, delimiter: &str) -> Option<View<'a, S, K>>
    ensures { MatchOption result (IsUndelimited delimiter.now (K.fault S.tests) s.now) (λ v. s.now ≡ delimiter.now ++ text v) }
{
    match s.strip_prefix(delimiter) {
        Some(rest) => match View::new(rest) {
            Ok(view) => Some(view),
            Err(_) => None,
        },
        None => None,
    }
}

impl<'a, S: Spec> View<'a, S, Query> {
    /// The query after the `?` that begins the text.
    ///
    /// # Errors
    ///
    /// `InvalidQuery` exactly where the text doesn't begin with `?`, or where what follows is no query.
    ///
    /// ```
    /// use iri::types::UriQueryStr;
    /// assert_eq!(rt; UriQueryStr::from_prefixed("?y")?.as_str(), "y");
    /// assert!(rt; UriQueryStr::from_prefixed("y").is_err());
    /// ```
    pub fn from_prefixed(s: &'a str) -> Result<Self, Error>
        ensures query { MatchResult result (λ v. s.now ≡ codes "?" ++ text v)
            (λ _. IsUndelimited (codes "?") (query_fault S.tests) s.now) }
        ensures error { IfErr result (λ e. e.kind ≡ ErrorKind.InvalidQuery) }
    {
        match after_delimiter(s, "?") {
            Some(query) => Ok(query),
            None => Err(Error::new(ErrorKind::InvalidQuery)),
        }
    }
}

impl<'a, S: Spec> View<'a, S, Fragment> {
    /// The fragment after the `#` that begins the text.
    ///
    /// # Errors
    ///
    /// `InvalidFragment` exactly where the text doesn't begin with `#`, or where what follows is no fragment.
    ///
    /// ```
    /// use iri::types::UriFragmentStr;
    /// assert_eq!(rt; UriFragmentStr::from_prefixed("#s")?.as_str(), "s");
    /// assert!(rt; UriFragmentStr::from_prefixed("s").is_err());
    /// ```
    pub fn from_prefixed(s: &'a str) -> Result<Self, Error>
        ensures fragment { MatchResult result (λ v. s.now ≡ codes "#" ++ text v)
            (λ _. IsUndelimited (codes "#") (fragment_fault S.tests) s.now) }
        ensures error { IfErr result (λ e. e.kind ≡ ErrorKind.InvalidFragment) }
    {
        match after_delimiter(s, "#") {
            Some(fragment) => Ok(fragment),
            None => Err(Error::new(ErrorKind::InvalidFragment)),
        }
    }
}
