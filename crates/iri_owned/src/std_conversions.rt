//! std's conversion traits: an owned text of a string, its string and its view, and the owned texts of other kinds that
//! each text of its kind is in. None takes memory; what takes it is a call with an allocator, as `try_from_str`.
ghost use Rattle.std.specs.Prelude.{◌≡◌, MatchResult, None, Some};
ghost use Rattle.std.specs.String.{string_bytes};
ghost use Rattle.iri_grammar.specs.WholeFault.{absolute_fault};
ghost use Rattle.iri_owned.specs.OwnedText.{owned_text};

use crate::error::CreationError;
use crate::owned::Owned;
use iri_grammar::spec::{IriSpec, Spec, UriSpec};
use iri_types::kind::{Absolute, Iri, Kind, Reference, Relative, WholeKind};
use iri_types::view::View;
use std::convert::{AsStr, TryFrom};

/// The text, for a bound `AsStr`, which stands for Rust's `AsRef<str>`.
impl<S: Spec, K: Kind> AsStr for Owned<S, K> {
    ghost text = { λ t. t.text };

    fn as_str(&self) -> &str {
        Owned::as_str(self)
    }
}

/// As [`try_from_string`](Owned::try_from_string).
///
/// # Errors
///
/// Exactly where the text isn't in its production: its first fault, with the string handed back.
///
/// ```
/// use iri::types::UriString;
/// use std::convert::TryFrom;
/// let text = String::from_str(rt.alloc(), "http://example.com/")?;
/// let link = UriString::try_from(text)?;
/// assert_eq!(rt; link.as_str(), "http://example.com/");
/// ```
impl<S: Spec, K: Kind> TryFrom<String> for Owned<S, K> {
    type Error = CreationError<String>;

    ghost try_from_gives = { λ s r. MatchResult r (λ t. t ≡ owned_text s)
        (λ e. (e.source ≡ s) × (K.fault S.tests (string_bytes s) ≡ Some e.error.kind)) };

    fn try_from(s: String) -> Result<Self, CreationError<String>> {
        Owned::try_from_string(s)
    }
}

/// The text of a reference that is of the kind, as [`try_from_reference`](Owned::try_from_reference) gives it.
///
/// # Errors
///
/// Exactly where it isn't: its first fault, with the reference handed back.
impl<S: Spec, K: WholeKind> TryFrom<Owned<S, Reference>> for Owned<S, K> {
    type Error = CreationError<Owned<S, Reference>>;

    ghost try_from_gives = { λ s r. MatchResult r (λ t. t ≡ s)
        (λ e. (e.source ≡ s) × (K.fault S.tests s.text ≡ Some e.error.kind)) };

    fn try_from(s: Owned<S, Reference>) -> Result<Self, CreationError<Owned<S, Reference>>> {
        Owned::try_from_reference(s)
    }
}

/// The text of an IRI that has no fragment, as [`try_from_iri`](Owned::try_from_iri) gives it.
///
/// # Errors
///
/// Exactly where it has one: `UnexpectedFragment`, with the IRI handed back.
impl<S: Spec> TryFrom<Owned<S, Iri>> for Owned<S, Absolute> {
    type Error = CreationError<Owned<S, Iri>>;

    ghost try_from_gives = { λ s r. MatchResult r (λ t. t ≡ s)
        (λ e. (e.source ≡ s) × (absolute_fault S.tests s.text ≡ Some e.error.kind)) };

    fn try_from(s: Owned<S, Iri>) -> Result<Self, CreationError<Owned<S, Iri>>> {
        Owned::try_from_iri(s)
    }
}

/// The text as a string, as [`into_string`](Owned::into_string) gives it.
///
/// ```
/// use iri::types::UriString;
/// let link = UriString::try_from_str(rt.alloc(), "http://example.com/")?;
/// assert_eq!(rt; String::from(link).as_str(), "http://example.com/");
/// ```
impl<S: Spec, K: Kind> From<Owned<S, K>> for String {
    ghost from_gives = { λ t s. (owned_text s ≡ t) × (K.fault S.tests (string_bytes s) ≡ None) };

    fn from(text: Owned<S, K>) -> String {
        text.into_string()
    }
}

/// The view of the text, as [`as_slice`](Owned::as_slice) gives it.
impl<'a, S: Spec, K: Kind> From<&'a Owned<S, K>> for View<'a, S, K> {
    ghost use Rattle.iri_types.specs.Texts.{text};

    ghost from_gives = { λ t v. text v ≡ t.now.text };

    fn from(text: &'a Owned<S, K>) -> Self {
        text.as_slice()
    }
}

/// The text as a reference, as [`into_reference`](Owned::into_reference) gives it.
///
/// ```
/// use iri::types::{UriReferenceString, UriString};
/// let link = UriString::try_from_str(rt.alloc(), "http://example.com/")?;
/// assert_eq!(rt; UriReferenceString::from(link).as_str(), "http://example.com/");
/// ```
impl<S: Spec> From<Owned<S, Iri>> for Owned<S, Reference> {
    ghost from_gives = { λ t u. u ≡ t };

    fn from(text: Owned<S, Iri>) -> Self {
        text.into_reference()
    }
}

/// The text as a reference.
impl<S: Spec> From<Owned<S, Absolute>> for Owned<S, Reference> {
    ghost from_gives = { λ t u. u ≡ t };

    fn from(text: Owned<S, Absolute>) -> Self {
        text.into_reference()
    }
}

/// The text as a reference.
impl<S: Spec> From<Owned<S, Relative>> for Owned<S, Reference> {
    ghost from_gives = { λ t u. u ≡ t };

    fn from(text: Owned<S, Relative>) -> Self {
        text.into_reference()
    }
}

/// The text as an IRI of its grammar, as [`into_iri`](Owned::into_iri) gives it.
impl<S: Spec> From<Owned<S, Absolute>> for Owned<S, Iri> {
    ghost from_gives = { λ t u. u ≡ t };

    fn from(text: Owned<S, Absolute>) -> Self {
        text.into_iri()
    }
}

/// The text of URIs as one of IRIs, as [`into_iri_spec`](Owned::into_iri_spec) gives it.
impl<K: Kind> From<Owned<UriSpec, K>> for Owned<IriSpec, K> {
    ghost from_gives = { λ t u. u ≡ t };

    fn from(text: Owned<UriSpec, K>) -> Self {
        text.into_iri_spec()
    }
}
