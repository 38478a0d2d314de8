//! std's conversion traits: a view of a text or of bytes, its text, and the views of other kinds that each text of its
//! kind is in.
ghost use Rattle.std.specs.Prelude.{◌≡◌, IfOk};
ghost use Rattle.iri_grammar.specs.Fault.{Answers, bytes_fault};
ghost use Rattle.iri_grammar.specs.WholeFault.{absolute_fault};

use crate::kind::{Absolute, Iri, Kind, Reference, Relative, WholeKind};
use crate::view::View;
use iri_grammar::error::Error;
use iri_grammar::spec::{IriSpec, Spec, UriSpec};
use std::convert::{AsStr, TryFrom};

/// The text, for a bound `AsStr`, which stands for Rust's `AsRef<str>`.
///
/// ```
/// use iri::types::UriStr;
/// use std::convert::AsStr;
/// fn is_secure<T: AsStr>(link: &T) -> bool {
///     link.as_str().starts_with("https:")
/// }
/// assert!(rt; is_secure(&UriStr::new("https://example.com/")?));
/// ```
impl<S: Spec, K: Kind> AsStr for View<'_, S, K> {
    ghost use Rattle.iri_types.specs.Texts.{text as text_of_view};

    ghost text = { λ v. text_of_view v };

    fn as_str(&self) -> &str {
        View::as_str(*self)
    }
}

/// As [`new`](View::new).
///
/// # Errors
///
/// Exactly where the text isn't in its production: the first fault from the left.
///
/// ```
/// use iri::types::UriStr;
/// use std::convert::TryFrom;
/// let link = UriStr::try_from("http://example.com/")?;
/// assert_eq!(rt; link, UriStr::new("http://example.com/")?);
/// ```
impl<'a, S: Spec, K: Kind> TryFrom<&'a str> for View<'a, S, K> {
    ghost use Rattle.iri_types.specs.Texts.{text};

    type Error = Error;

    ghost try_from_gives = { λ s r. Answers r (K.fault S.tests s.now) × IfOk r (λ v. text v ≡ s.now) };

    fn try_from(s: &'a str) -> Result<Self, Error> {
        View::new(s)
    }
}

/// As [`try_from_bytes`](View::try_from_bytes).
///
/// # Errors
///
/// - `InvalidUtf8` where the bytes aren't UTF-8, which is tested first.
/// - Otherwise the first fault of the text, exactly where it isn't in its production.
impl<'a, S: Spec, K: Kind> TryFrom<&'a [u8]> for View<'a, S, K> {
    ghost use Rattle.iri_types.specs.Texts.{text};

    type Error = Error;

    ghost try_from_gives = { λ b r. Answers r (bytes_fault (K.fault S.tests) b.now) × IfOk r (λ v. text v ≡ b.now) };

    fn try_from(b: &'a [u8]) -> Result<Self, Error> {
        View::try_from_bytes(b)
    }
}

/// The text of a reference that is of the kind.
///
/// # Errors
///
/// Exactly where it isn't: its first fault, as [`new`](View::new) has it.
impl<'a, S: Spec, K: WholeKind> TryFrom<View<'a, S, Reference>> for View<'a, S, K> {
    ghost use Rattle.iri_types.specs.Texts.{text};

    type Error = Error;

    ghost try_from_gives = { λ v r. Answers r (K.fault S.tests (text v)) × IfOk r (λ w. text w ≡ text v) };

    fn try_from(view: View<'a, S, Reference>) -> Result<Self, Error> {
        View::new(view.as_str())
    }
}

/// The text of an IRI that has no fragment.
///
/// # Errors
///
/// Exactly where it has one: `UnexpectedFragment`.
impl<'a, S: Spec> TryFrom<View<'a, S, Iri>> for View<'a, S, Absolute> {
    ghost use Rattle.iri_types.specs.Texts.{text};

    type Error = Error;

    ghost try_from_gives = { λ v r. Answers r (absolute_fault S.tests (text v)) × IfOk r (λ w. text w ≡ text v) };

    fn try_from(view: View<'a, S, Iri>) -> Result<Self, Error> {
        View::new(view.as_str())
    }
}

/// The text, as [`as_str`](View::as_str) gives it.
impl<'a, S: Spec, K: Kind> From<View<'a, S, K>> for &'a str {
    ghost use Rattle.iri_types.specs.Texts.{text};

    ghost from_gives = { λ v s. s.now ≡ text v };

    fn from(view: View<'a, S, K>) -> &'a str {
        view.as_str()
    }
}

/// The text as a reference, as [`as_reference`](View::as_reference) gives it.
///
/// ```
/// use iri::types::{UriReferenceStr, UriStr};
/// let link: UriReferenceStr<'_> = UriStr::new("http://example.com/")?.into();
/// assert_eq!(rt; link.as_str(), "http://example.com/");
/// ```
impl<'a, S: Spec> From<View<'a, S, Iri>> for View<'a, S, Reference> {
    ghost use Rattle.iri_types.specs.Texts.{text};

    ghost from_gives = { λ v w. text w ≡ text v };

    fn from(view: View<'a, S, Iri>) -> Self {
        view.as_reference()
    }
}

/// The text as a reference.
impl<'a, S: Spec> From<View<'a, S, Absolute>> for View<'a, S, Reference> {
    ghost use Rattle.iri_types.specs.Texts.{text};

    ghost from_gives = { λ v w. text w ≡ text v };

    fn from(view: View<'a, S, Absolute>) -> Self {
        view.as_reference()
    }
}

/// The text as a reference.
impl<'a, S: Spec> From<View<'a, S, Relative>> for View<'a, S, Reference> {
    ghost use Rattle.iri_types.specs.Texts.{text};

    ghost from_gives = { λ v w. text w ≡ text v };

    fn from(view: View<'a, S, Relative>) -> Self {
        view.as_reference()
    }
}

/// The text as an IRI of its grammar, as [`as_iri`](View::as_iri) gives it.
impl<'a, S: Spec> From<View<'a, S, Absolute>> for View<'a, S, Iri> {
    ghost use Rattle.iri_types.specs.Texts.{text};

    ghost from_gives = { λ v w. text w ≡ text v };

    fn from(view: View<'a, S, Absolute>) -> Self {
        view.as_iri()
    }
}

/// The text of URIs as one of IRIs, as [`to_iri_spec`](View::to_iri_spec) gives it.
impl<'a, K: Kind> From<View<'a, UriSpec, K>> for View<'a, IriSpec, K> {
    ghost use Rattle.iri_types.specs.Texts.{text};

    ghost from_gives = { λ v w. text w ≡ text v };

    fn from(view: View<'a, UriSpec, K>) -> Self {
        view.to_iri_spec()
    }
}
