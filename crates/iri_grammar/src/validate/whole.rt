// The validators of whole texts (RFC 3986 section 4).
ghost use Rattle.std.specs.Prelude.{◌≡◌, IfOk, Ok, Option, Some, false, true};
ghost use Rattle.iri_grammar.specs.Classes.{Tests};
ghost use Rattle.iri_grammar.specs.Components.{if_there};
ghost use Rattle.iri_grammar.specs.Fault.{Answers, unless, authority_fault, bytes_fault, first, fragment_fault, part_fault};
ghost use Rattle.iri_grammar.specs.OptionalSlices.{now_of};
ghost use Rattle.iri_grammar.specs.Parts.{Parts};
ghost use Rattle.iri_grammar.specs.Seen.{is_plain_authority};
ghost use Rattle.iri_grammar.specs.Split.{split_of};
ghost use Rattle.iri_grammar.specs.WholeFault.{parts_fault, missing_scheme_fault};
ghost use Rattle.iri_grammar.specs.WholeFault.{reference_fault, iri_fault, absolute_fault, relative_fault};
ghost use Rattle.iri_grammar.specs.Splitters.{parts};
ghost use Rattle.iri_grammar.specs.declared.error.ErrorKind.TheVariants.{UnexpectedFragment};
ghost use Rattle.iri_grammar.specs.inside.Scans.{absolute_kind};

use crate::cutting::{cut_before, lacks};
use crate::error::{Error, ErrorKind};
use crate::spec::Spec;
use crate::splitter::Splitter;
use crate::validate::component::{authority, scheme};
use std::str;

// The authority, where there is one.
fn authority_in_place<S: Spec>(name: Option<&str>) -> Result<(), Error>
    ensures { Answers result (part_fault (authority_fault S.tests) (now_of name.entry)) }
{
    match name {
        Some(name) => authority::<S>(name),
        None => Ok(()),
    }
}

// The first segment without a colon where it has to be.
#[inline(always)]
fn colon_in_place(allowed: bool) -> Result<(), Error>
    ensures { Answers result (unless allowed ErrorKind.InvalidPath) }
{
    if allowed {
        Ok(())
    } else {
        Err(Error::new(ErrorKind::InvalidPath))
    }
}

// The authority, which is plain unless it is `other`, and the first segment without a colon where it has to be.
#[inline(always)]
pub(crate) fn authority_and_colon<S: Spec>(
    name: Option<&str>,
    other: bool,
    colon_allowed: bool,
) -> Result<(), Error>
    requires { other ≡ false → if_there is_plain_authority (now_of name) ≡ true }
    ensures { Answers result (first (part_fault (authority_fault S.tests) (now_of name.entry))
        (unless colon_allowed ErrorKind.InvalidPath)) }
{
    if !other {
        return colon_in_place(colon_allowed);
    }
    authority_in_place::<S>(name)?;
    colon_in_place(colon_allowed)
}

// The first fault of a text in which a scan left something over: `judged` is what comes before its last part.
#[inline(never)]
pub(crate) fn stopped(rest: &[u8], judged: Result<(), Error>, last: ErrorKind) -> Error
    ensures { (f : Option ErrorKind) → Answers judged f
        → Some result.kind ≡ bytes_fault (λ _. first f (Some last)) rest.now }
{
    match str::from_utf8(rest) {
        Ok(_) => match judged {
            Ok(()) => Error::new(last),
            Err(error) => error,
        },
        Err(_) => Error::new(ErrorKind::InvalidUtf8),
    }
}

// The fault where no fragment may stand.
fn absolute_kind(kind: ErrorKind) -> ErrorKind
    ensures { result ≡ absolute_kind kind }
{
    match kind {
        ErrorKind::InvalidFragment => ErrorKind::UnexpectedFragment,
        other => other,
    }
}

// A fragment is one too many, whatever it holds.
pub(crate) fn without_fragment(cut: Result<Splitter<'_>, Error>) -> Result<Splitter<'_>, Error>
    ensures fault { (s : Tests) (p : Parts) → Answers cut.entry (parts_fault s (fragment_fault s) p)
        → IfOk cut.entry (λ c. parts c ≡ p) → Answers result (parts_fault s (λ _. Some UnexpectedFragment) p) }
    ensures same { IfOk result (λ c. cut.entry ≡ Ok c) }
{
    match cut {
        Ok(p) => match p.fragment() {
            Some(_) => Err(Error::new(ErrorKind::UnexpectedFragment)),
            None => Ok(p),
        },
        Err(fault) => Err(Error::new(absolute_kind(fault.kind()))),
    }
}

// The scheme and its colon.
fn leading_scheme(s: &str) -> Result<(), Error>
    ensures { Answers result (missing_scheme_fault s.now) }
{
    if lacks(s, b':') {
        return Err(Error::new(ErrorKind::UnexpectedRelative));
    }
    scheme(cut_before(s, b':').0)
}

// The scheme and its colon, where no cut of the text has found them.
pub(crate) fn scheme_in_place<S: Spec>(
    cut: &Result<Splitter<'_>, Error>,
    s: &str,
) -> Result<(), Error>
    requires fault { Answers cut.now (reference_fault S.tests s.now) }
    requires value { IfOk cut.now (λ p. parts p ≡ split_of s.now) }
    ensures { Answers result (missing_scheme_fault s.now) }
{
    if let Ok(p) = cut {
        if p.scheme().is_some() {
            return Ok(());
        }
    }
    leading_scheme(s)
}

/// Whether the text is a `URI-reference` (RFC 3986 section 4.1; of IRIs RFC 3987 section 2.2).
///
/// # Errors
///
/// Exactly where it is none: the first fault from the left.
///
/// ```
/// use iri::spec::UriSpec;
/// use iri::validate;
/// assert!(rt; validate::iri_reference::<UriSpec>("../../g").is_ok());
/// assert!(rt; validate::iri_reference::<UriSpec>("1:2").is_err());
/// ```
pub fn iri_reference<S: Spec>(s: &str) -> Result<(), Error>
    ensures { Answers result (reference_fault S.tests s.now) }
{
    match Splitter::new::<S>(s) {
        Ok(_) => Ok(()),
        Err(error) => Err(error),
    }
}

/// Whether the text is a `URI`, with a scheme (RFC 3986 section 3; of IRIs RFC 3987 section 2.2).
///
/// # Errors
///
/// Exactly where it is none: `UnexpectedRelative` where it has no `:`, and otherwise the first fault from the left.
///
/// ```
/// use iri::spec::UriSpec;
/// use iri::validate::{self, ErrorKind};
/// assert!(rt; validate::iri::<UriSpec>("tel:+1-816-555-1212").is_ok());
/// let error = validate::iri::<UriSpec>("//example.com/").err().ok_or("a fault")?;
/// assert_eq!(rt; error.kind(), ErrorKind::UnexpectedRelative);
/// ```
pub fn iri<S: Spec>(s: &str) -> Result<(), Error>
    ensures { Answers result (iri_fault S.tests s.now) }
{
    leading_scheme(s)?;
    iri_reference::<S>(s)
}

/// Whether the text is an `absolute-URI`, with a scheme and without a fragment (RFC 3986 section 4.3).
///
/// # Errors
///
/// Exactly where it is none: `UnexpectedRelative` where it has no `:`, and otherwise the first fault from the left, a
/// fragment among them (`UnexpectedFragment`).
///
/// ```
/// use iri::spec::UriSpec;
/// use iri::validate::{self, ErrorKind};
/// assert!(rt; validate::absolute_iri::<UriSpec>("http://a/b/c/d;p?q").is_ok());
/// let error = validate::absolute_iri::<UriSpec>("http://a/b#c").err().ok_or("a fault")?;
/// assert_eq!(rt; error.kind(), ErrorKind::UnexpectedFragment);
/// ```
pub fn absolute_iri<S: Spec>(s: &str) -> Result<(), Error>
    ensures { Answers result (absolute_fault S.tests s.now) }
{
    Splitter::absolute::<S>(s)?;
    Ok(())
}

/// Whether the text is a `relative-ref`, without a scheme (RFC 3986 section 4.2).
///
/// # Errors
///
/// Exactly where it is none: the first fault from the left. A scheme is one: its `:` is in the first segment of a path,
/// so `InvalidPath`.
///
/// ```
/// use iri::spec::UriSpec;
/// use iri::validate::{self, ErrorKind};
/// assert!(rt; validate::relative_ref::<UriSpec>("./g:h").is_ok());
/// let error = validate::relative_ref::<UriSpec>("g:h").err().ok_or("a fault")?;
/// assert_eq!(rt; error.kind(), ErrorKind::InvalidPath);
/// ```
pub fn relative_ref<S: Spec>(s: &str) -> Result<(), Error>
    ensures { Answers result (relative_fault S.tests s.now) }
{
    Splitter::relative::<S>(s)?;
    Ok(())
}
