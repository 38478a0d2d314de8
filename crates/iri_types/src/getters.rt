//! The five parts of whole texts (RFC 3986 section 3), as slices that have the lifetime of the text.
ghost use Rattle.std.specs.Prelude.{◌≡◌, MatchOption, None, Some};
ghost use Rattle.iri_grammar.specs.Parts.{Fits};
ghost use Rattle.iri_grammar.specs.Split.{split_of};
ghost use Rattle.iri_grammar.specs.Splitters.{parts};
ghost use Rattle.iri_grammar.specs.OptionalSlices.{now_of};
ghost use Rattle.iri_types.specs.Texts.{text, text_of};
ghost use Rattle.iri_types.specs.ComponentsText.{authority};

use crate::authority::AuthorityComponents;
use crate::kind::{FragmentKind, Reference, SchemeKind, WholeKind};
use crate::view::{RiFragmentStr, RiQueryStr, RiReferenceStr, View};
use iri_grammar::spec::Spec;
use iri_grammar::splitter::Splitter;

impl<'a, S: Spec, K: WholeKind> View<'a, S, K> {
    // The one split of the text.
    pub(crate) fn parts(self) -> Splitter<'a>
        ensures split { parts result ≡ split_of (text self.entry) }
        ensures fits { Fits S.tests (split_of (text self.entry)) }
    {
        Splitter::of::<S>(self.as_str())
    }

    /// The text as a reference.
    pub fn as_reference(self) -> RiReferenceStr<'a, S>
        ensures { text result ≡ text self.entry }
    {
        View::from_valid(self.as_str())
    }

    /// The authority, without the `//` before it; `None` exactly where no `//` begins one (RFC 3986 section 3.2).
    ///
    /// ```
    /// use iri::types::UriStr;
    /// assert_eq!(rt; UriStr::new("telnet://192.0.2.16:80/")?.authority_str(), Some("192.0.2.16:80"));
    /// assert_eq!(rt; UriStr::new("tel:+1-816-555-1212")?.authority_str(), None);
    /// ```
    pub fn authority_str(self) -> Option<&'a str>
        ensures { now_of result ≡ (split_of (text self.entry)).authority }
    {
        self.parts().authority()
    }

    /// The parts of the authority; `None` exactly where there is no authority (RFC 3986 section 3.2).
    ///
    /// ```
    /// use iri::types::UriStr;
    /// let link = UriStr::new("telnet://192.0.2.16:80/")?;
    /// let authority = link.authority_components().ok_or("an authority")?;
    /// assert_eq!(rt; authority.host(), "192.0.2.16");
    /// assert_eq!(rt; authority.port(), Some("80"));
    /// ```
    pub fn authority_components(self) -> Option<AuthorityComponents<'a>>
        ensures { MatchOption result ((split_of (text self.entry)).authority ≡ None)
            (λ a. (split_of (text self.entry)).authority ≡ Some (authority a)) }
    {
        AuthorityComponents::from_iri(self.as_reference())
    }

    /// The path, which may be empty (RFC 3986 section 3.3).
    ///
    /// ```
    /// use iri::types::UriStr;
    /// assert_eq!(rt; UriStr::new("ftp://ftp.is.co.za/rfc/rfc1808.txt")?.path_str(), "/rfc/rfc1808.txt");
    /// assert_eq!(rt; UriStr::new("http://example.com")?.path_str(), "");
    /// ```
    pub fn path_str(self) -> &'a str
        ensures { result.now ≡ (split_of (text self.entry)).path }
    {
        self.parts().path()
    }

    /// The query, without its `?`; `None` exactly where no `?` begins one (RFC 3986 section 3.4).
    ///
    /// ```
    /// use iri::types::UriStr;
    /// let link = UriStr::new("ldap://[2001:db8::7]/c=GB?objectClass?one")?;
    /// assert_eq!(rt; link.query_str(), Some("objectClass?one"));
    /// ```
    pub fn query_str(self) -> Option<&'a str>
        ensures { now_of result ≡ (split_of (text self.entry)).query }
    {
        self.parts().query()
    }

    /// The query as a view; `None` exactly where no `?` begins one (RFC 3986 section 3.4).
    pub fn query(self) -> Option<RiQueryStr<'a, S>>
        ensures { text_of result ≡ (split_of (text self.entry)).query }
    {
        match self.parts().query() {
            Some(query) => Some(View::from_valid(query)),
            None => None,
        }
    }
}

impl<'a, S: Spec, K: FragmentKind> View<'a, S, K> {
    /// The fragment, without its `#`; `None` exactly where there is no `#` (RFC 3986 section 3.5).
    ///
    /// ```
    /// use iri::types::UriReferenceStr;
    /// assert_eq!(rt; UriReferenceStr::new("#s")?.fragment_str(), Some("s"));
    /// assert_eq!(rt; UriReferenceStr::new("g?y/../x")?.fragment_str(), None);
    /// ```
    pub fn fragment_str(self) -> Option<&'a str>
        ensures { now_of result ≡ (split_of (text self.entry)).fragment }
    {
        self.parts().fragment()
    }

    /// The fragment as a view; `None` exactly where there is no `#` (RFC 3986 section 3.5).
    pub fn fragment(self) -> Option<RiFragmentStr<'a, S>>
        ensures { text_of result ≡ (split_of (text self.entry)).fragment }
    {
        match self.parts().fragment() {
            Some(fragment) => Some(View::from_valid(fragment)),
            None => None,
        }
    }
}

impl<'a, S: Spec, K: SchemeKind> View<'a, S, K> {
    /// The scheme, without its `:` (RFC 3986 section 3.1).
    ///
    /// ```
    /// use iri::types::UriStr;
    /// assert_eq!(rt; UriStr::new("mailto:John.Doe@example.com")?.scheme_str(), "mailto");
    /// ```
    pub fn scheme_str(self) -> &'a str
        ensures { Some result.now ≡ (split_of (text self.entry)).scheme }
    {
        self.parts().scheme().unwrap()
    }
}

impl<'a, S: Spec> View<'a, S, Reference> {
    /// The scheme, without its `:`; `None` exactly where there is no scheme (RFC 3986 section 3.1).
    ///
    /// ```
    /// use iri::types::UriReferenceStr;
    /// assert_eq!(rt; UriReferenceStr::new("g:h")?.scheme_str(), Some("g"));
    /// assert_eq!(rt; UriReferenceStr::new("./g:h")?.scheme_str(), None);
    /// ```
    pub fn scheme_str(self) -> Option<&'a str>
        ensures { now_of result ≡ (split_of (text self.entry)).scheme }
    {
        self.parts().scheme()
    }
}
