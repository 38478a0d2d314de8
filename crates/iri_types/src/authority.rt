//! The components of an authority (RFC 3986 section 3.2).
ghost use Rattle.std.specs.Prelude.{◌≡◌, MatchOption, None, Some, true};
ghost use Rattle.std.proofs.Props.{props};
ghost use Rattle.iri_grammar.specs.Authority.{authority_parts, is_authority};
ghost use Rattle.iri_grammar.specs.Spans.{span_parts};
ghost use Rattle.iri_grammar.specs.Split.{split_of};
ghost use Rattle.iri_grammar.specs.OptionalSlices.{now_of};
ghost use Rattle.iri_types.specs.Components.{is_named, reg_name_of};

use crate::view::RiReferenceStr;
use iri_grammar::authority::AuthoritySpan;
use iri_grammar::host::host_is_reg_name;
use iri_grammar::spec::Spec;
use std::alloc::AllocError;
use std::fmt;
use std::hash::{Hash, Hasher};

/// The parts of an authority, as slices of its text (RFC 3986 section 3.2). They are equal and hashed as that text.
///
/// ```
/// use iri::components::AuthorityComponents;
/// use iri::types::UriReferenceStr;
/// let link = UriReferenceStr::new("//user:password@www.example.com:8080/")?;
/// let authority = AuthorityComponents::from_iri(link).ok_or("an authority")?;
/// assert_eq!(rt; authority.userinfo(), Some("user:password"));
/// assert_eq!(rt; authority.host(), "www.example.com");
/// assert_eq!(rt; authority.port(), Some("8080"));
/// ```
pub struct AuthorityComponents<'a> {
    text: &'a str,
    span: AuthoritySpan<'a>,
    named: bool,
    pub ghost userinfo: { (span_parts span).userinfo ≡ (authority_parts text.now).userinfo } by { Prim.hlevel props },
    pub ghost host: { (span_parts span).host ≡ (authority_parts text.now).host },
    pub ghost port: { (span_parts span).port ≡ (authority_parts text.now).port } by { Prim.hlevel props },
    pub ghost judged: { named ≡ is_named (authority_parts text.now).host },
}

impl Clone for AuthorityComponents<'_> {
    ghost is_clone = { λ a b. b ≡ a };

    ghost is_infallible = { λ _. Unit {0} };

    fn clone(&self) -> Result<Self, AllocError> {
        Ok(*self)
    }
}

impl Copy for AuthorityComponents<'_> {}

impl fmt::Debug for AuthorityComponents<'_> {
    fn fmt<W: fmt::Write>(&self, f: &mut fmt::Formatter<W>) -> fmt::Result {
        f.debug_struct("AuthorityComponents")
            .field("userinfo", &self.userinfo())
            .field("host", &self.host())
            .field("port", &self.port())
            .finish()
    }
}

impl PartialEq for AuthorityComponents<'_> {
    ghost use Rattle.std.specs.Prelude.{nat_eq};
    ghost use Rattle.std.specs.Ordering.{on};
    ghost use Rattle.std.specs.Cmp.{partial_equiv_from_equiv};
    ghost use Rattle.std.specs.Cmp.Lexicographic.{pointwise, on_texts_equal};
    ghost use Rattle.iri_types.specs.ComponentsText.{authority};

    ghost eq = { on authority (pointwise nat_eq) };

    ghost laws = { partial_equiv_from_equiv (on_texts_equal authority) };

    fn eq(&self, other: &Self) -> bool {
        self.text == other.text
    }
}

impl Eq for AuthorityComponents<'_> {
    ghost use Rattle.std.specs.Cmp.Lexicographic.{on_texts_equal};
    ghost use Rattle.iri_types.specs.ComponentsText.{authority};

    ghost laws = { on_texts_equal authority };
}

impl Hash for AuthorityComponents<'_> {
    ghost use Rattle.std.specs.Hash as fed;
    ghost use Rattle.std.specs.Cmp.Rules.{hashing};
    ghost use Rattle.std.proofs.Common.{rules};
    ghost use Rattle.iri_types.specs.ComponentsText.{authority};

    ghost hash_input = { λ a. fed.str (authority a) };

    ghost respects_eq = { Prim.search (hashing, rules) };

    fn hash<H: Hasher>(&self, state: &mut H) {
        self.text.hash(state);
    }
}

impl<'a> AuthorityComponents<'a> {
    ghost use Rattle.iri_types.specs.ComponentsText.{authority};
    ghost use Rattle.iri_types.specs.Texts.{text};

    /// The parts of a reference's authority; `None` exactly where it has no authority.
    pub fn from_iri<S: Spec>(iri: RiReferenceStr<'a, S>) -> Option<Self>
        ensures { MatchOption result ((split_of (text iri.entry)).authority ≡ None)
            (λ a. (split_of (text iri.entry)).authority ≡ Some (authority a)) }
    {
        match iri.parts().authority() {
            Some(text) => Some(AuthorityComponents::of::<S>(text)),
            None => None,
        }
    }

    // The components of an authority of `S`.
    fn of<S: Spec>(text: &'a str) -> Self
        requires { is_authority S.tests text.now ≡ true }
        ensures { authority result ≡ text.now }
    {
        let span = AuthoritySpan::of::<S>(text);
        let named = host_is_reg_name::<S>(span.host());
        AuthorityComponents { text, span, named }
    }

    /// The userinfo, without the `@` after it; `None` exactly where there is no `@` (RFC 3986 section 3.2.1).
    pub fn userinfo(&self) -> Option<&'a str>
        ensures { now_of result ≡ (authority_parts (authority self.now)).userinfo }
    {
        self.span.userinfo()
    }

    /// The host, with the brackets of an IP literal; it may be empty (RFC 3986 section 3.2.2).
    ///
    /// ```
    /// use iri::types::UriStr;
    /// let link = UriStr::new("ldap://[2001:db8::7]/c=GB?objectClass?one")?;
    /// assert_eq!(rt; link.authority_components().ok_or("an authority")?.host(), "[2001:db8::7]");
    /// ```
    pub fn host(&self) -> &'a str
        ensures { result.now ≡ (authority_parts (authority self.now)).host }
    {
        self.span.host()
    }

    /// The host, where it is a registered name; `None` exactly where it is an IP literal or an IPv4 address (RFC 3986
    /// section 3.2.2).
    ///
    /// ```
    /// use iri::types::UriStr;
    /// let named = UriStr::new("http://example.com/")?.authority_components().ok_or("an authority")?;
    /// assert_eq!(rt; named.reg_name(), Some("example.com"));
    /// let address = UriStr::new("telnet://192.0.2.16:80/")?.authority_components().ok_or("an authority")?;
    /// assert_eq!(rt; address.reg_name(), None);
    /// ```
    pub fn reg_name(&self) -> Option<&'a str>
        ensures { now_of result ≡ reg_name_of (authority_parts (authority self.now)).host }
    {
        if self.named { Some(self.host()) } else { None }
    }

    /// The port, without the `:` before it; a `:` without digits gives the empty text, and `None` comes exactly where
    /// no `:` follows the host, as in `[::1]` (RFC 3986 section 3.2.3).
    pub fn port(&self) -> Option<&'a str>
        ensures { now_of result ≡ (authority_parts (authority self.now)).port }
    {
        self.span.port()
    }
}
