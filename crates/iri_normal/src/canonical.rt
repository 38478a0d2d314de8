//! Canonical texts (RFC 3986 sections 5.2, 6.2.2 and 6.2.3, RFC 3987 section 5.3.2).
ghost use Rattle.std.specs.Prelude.{◌≡◌, None, IfOk, MatchResult};
ghost use Rattle.iri_grammar.specs.Fault.{bytes_fault};
ghost use Rattle.iri_grammar.specs.WholeFault.{absolute_fault, reference_fault};
ghost use Rattle.iri_text.specs.Shown.{Shows};
ghost use Rattle.iri_types.specs.SplitText.{split_text};
ghost use Rattle.iri_percent.specs.declared.canon_mode.CanonMode.TheVariants.{Default};
ghost use Rattle.iri_normal.specs.Canonicalized.{CausedBy, IsCanonicalTextIn};
ghost use Rattle.iri_normal.specs.NormalForm.{canonical, canonical_in};
ghost use Rattle.iri_normal.specs.Resolver.{base_text};

use crate::mode::CanonMode;
use crate::resolver::FixedBaseResolver;
use crate::unchanged::{cut_lowered, lacks_triplets, show_after, show_after_apart, show_lowered};
use iri_grammar::error::Error as GrammarError;
use iri_grammar::spec::Spec;
use iri_owned::owned::RiString;
use iri_text::{Show, Stop, TextSink, ToDedicatedString};
use iri_types::kind::{Absolute, Reference};
use iri_types::split::SplitView;
use std::alloc::Global;
use thiserror::Error;

/// Why there is no canonical text.
///
/// ```
/// use iri::normalize::{CanonError, canonicalize};
/// use iri::spec::UriSpec;
/// assert!(rt; matches!(canonicalize::<UriSpec>(rt.alloc(), b"a/b", b"c"), Err(CanonError::BadBase(_))));
/// assert!(rt; matches!(canonicalize::<UriSpec>(rt.alloc(), b"http://a/", b"%"), Err(CanonError::BadReference(_))));
/// ```
#[derive(Debug, Drop, Error)]
pub enum CanonError {
    /// The base isn't UTF-8 or no absolute URI: its first fault.
    #[error("bad base: {0}")]
    BadBase(GrammarError),
    /// The base is valid; the reference isn't UTF-8 or no reference: its first fault.
    #[error("bad reference: {0}")]
    BadReference(GrammarError),
    /// Allocation failed. Both were found valid.
    #[error("out of memory")]
    Memory,
}

// The canonical text by the parts of the target. The compiler clears a target's memory where the call that has it begins: as a call of
// its own this costs a reference that goes a quicker way nothing, otherwise 24 instructions (2026-12-01).
#[inline(always)]
fn show_resolved<'a, S: Spec, W: TextSink>(
    sink: &mut W,
    mode: CanonMode,
    resolver: &FixedBaseResolver<'a, S>,
    reference: &SplitView<'a, S, Reference>,
) -> Result<(), Stop>
    ensures { Shows W.puts W.halts W.stops sink.old
        (canonical_in S.tests mode (base_text resolver.now) (split_text reference.now)) sink.new result }
{
    resolver
        .resolve_split(reference)
        .and_normalize_in(mode)
        .show(sink)
}

// The same of a reference that goes no quicker way, or is asked last for one since few references have an authority and no scheme.
#[inline(always)]
fn show_rarer<'a, S: Spec, W: TextSink>(
    sink: &mut W,
    resolver: &FixedBaseResolver<'a, S>,
    reference: &SplitView<'a, S, Reference>,
) -> Result<(), Stop>
    ensures { Shows W.puts W.halts W.stops sink.old
        (canonical S.tests (base_text resolver.now) (split_text reference.now)) sink.new result }
{
    if let Some(before) = resolver.before_authority(reference) {
        let bare = lacks_triplets(reference.parts());
        let text = reference.view().as_str();
        return show_after_apart::<S, W>(sink, before, text, bare);
    }
    show_resolved::<S, W>(sink, CanonMode::Default, resolver, reference)
}

/// Shows the canonical text of a reference against a resolver's base to a sink: the reference resolved (RFC 3986
/// section 5.2) and put into normal form (section 6.2.2). Allocates nothing.
///
/// # Errors
///
/// Only where the sink's count of stops rises; the sink has stopped within the text then.
///
/// ```
/// use iri::format::SliceSink;
/// use iri::normalize::show_canonical;
/// use iri::resolve::FixedBaseResolver;
/// use iri::types::{SplitView, UriAbsoluteStr};
/// let page = FixedBaseResolver::new(UriAbsoluteStr::new("http://a/b/c/d;p?q")?);
/// let mut buffer = [0; 32];
/// let mut sink = SliceSink::new(&mut buffer);
/// assert!(rt; show_canonical(&mut sink, &page, &SplitView::new("../%67")?).is_ok());
/// assert_eq!(rt; sink.as_str(), "http://a/b/g");
/// ```
#[inline(always)]
pub fn show_canonical<'a, S: Spec, W: TextSink>(
    sink: &mut W,
    resolver: &FixedBaseResolver<'a, S>,
    reference: &SplitView<'a, S, Reference>,
) -> Result<(), Stop>
    ensures { Shows W.puts W.halts W.stops sink.old
        (canonical S.tests (base_text resolver.now) (split_text reference.now)) sink.new result }
{
    if let Some(before) = resolver.before_unchanged(reference) {
        let bare = lacks_triplets(reference.parts());
        return show_after::<S, W>(sink, before, reference.view().as_str(), bare);
    }
    if let Some((prefix, rest)) = cut_lowered(reference) {
        let bare = lacks_triplets(reference.parts());
        return show_lowered::<S, W>(sink, prefix, rest, bare);
    }
    show_rarer(sink, resolver, reference)
}

/// Shows the canonical text of a reference against a resolver's base to a sink, by the rules of a mode. Allocates
/// nothing.
///
/// # Errors
///
/// As [`show_canonical`]: only where the sink's count of stops rises.
///
/// ```
/// use iri::format::SliceSink;
/// use iri::normalize::{CanonMode, show_canonical_in};
/// use iri::resolve::FixedBaseResolver;
/// use iri::types::{SplitView, UriAbsoluteStr};
/// let page = FixedBaseResolver::new(UriAbsoluteStr::new("http://a/b")?);
/// let mut buffer = [0; 32];
/// let mut sink = SliceSink::new(&mut buffer);
/// assert!(rt; show_canonical_in(&mut sink, CanonMode::Scheme, &page, &SplitView::new("//h:80")?).is_ok());
/// assert_eq!(rt; sink.as_str(), "http://h/");
/// ```
#[inline(always)]
pub fn show_canonical_in<'a, S: Spec, W: TextSink>(
    sink: &mut W,
    mode: CanonMode,
    resolver: &FixedBaseResolver<'a, S>,
    reference: &SplitView<'a, S, Reference>,
) -> Result<(), Stop>
    ensures { Shows W.puts W.halts W.stops sink.old
        (canonical_in S.tests mode (base_text resolver.now) (split_text reference.now)) sink.new result }
{
    if resolver.is_alike(mode, reference) {
        return show_canonical(sink, resolver, reference);
    }
    show_resolved::<S, W>(sink, mode, resolver, reference)
}

// The canonical text of bytes against a base.
fn canonicalize_against<S: Spec>(
    alloc: Global,
    mode: CanonMode,
    base: SplitView<'_, S, Absolute>,
    reference: &[u8],
) -> Result<RiString<S>, CanonError>
    ensures { MatchResult result (λ t. (bytes_fault (reference_fault S.tests) reference.now ≡ None)
        × (t.text ≡ canonical_in S.tests mode (split_text base.entry) reference.now))
        (λ e. CausedBy e None (bytes_fault (reference_fault S.tests) reference.now)) }
{
    match SplitView::<S, Reference>::try_from_bytes(reference) {
        Ok(reference) => {
            let target = FixedBaseResolver::of_split(base).resolve_split(&reference);
            match target.and_normalize_in(mode).try_to_dedicated_string(alloc) {
                Ok(text) => Ok(text),
                Err(_) => Err(CanonError::Memory),
            }
        }
        Err(error) => Err(CanonError::BadReference(error)),
    }
}

/// The canonical text of a reference against a base, both as bytes: the reference resolved (RFC 3986 section 5.2) and
/// put into normal form (section 6.2.2).
///
/// # Errors
///
/// - `BadBase` exactly where the base isn't UTF-8 or no absolute URI: its first fault.
/// - `BadReference` exactly where the base is valid and the reference isn't UTF-8 or no reference: its first fault.
/// - `Memory` where allocation fails; both are valid then.
///
/// ```
/// use iri::normalize::{CanonError, canonicalize};
/// use iri::spec::UriSpec;
/// let link = canonicalize::<UriSpec>(rt.alloc(), b"http://a/b/c/d;p?q", b"../%67")?;
/// assert_eq!(rt; link.as_str(), "http://a/b/g");
/// let error = canonicalize::<UriSpec>(rt.alloc(), b"b", b"a b").err().ok_or("a fault")?;
/// assert!(rt; matches!(error, CanonError::BadBase(_)));
/// ```
pub fn canonicalize<S: Spec>(
    alloc: Global,
    base: &[u8],
    reference: &[u8],
) -> Result<RiString<S>, CanonError>
    ensures causes { MatchResult result (λ _. (bytes_fault (absolute_fault S.tests) base.now ≡ None)
        × (bytes_fault (reference_fault S.tests) reference.now ≡ None))
        (λ e. CausedBy e (bytes_fault (absolute_fault S.tests) base.now)
        (bytes_fault (reference_fault S.tests) reference.now)) }
    ensures text { IfOk result (λ t. IsCanonicalTextIn S.tests Default base.now reference.now t.text) }
{
    canonicalize_in::<S>(alloc, CanonMode::Default, base, reference)
}

/// The canonical text of a reference against a base, both as bytes, by the rules of a mode.
///
/// # Errors
///
/// `BadBase`, `BadReference` and `Memory` exactly as [`canonicalize`].
///
/// ```
/// use iri::normalize::{CanonMode, canonicalize_in};
/// use iri::spec::UriSpec;
/// let link = canonicalize_in::<UriSpec>(rt.alloc(), CanonMode::Scheme, b"http://example.com:80", b"")?;
/// assert_eq!(rt; link.as_str(), "http://example.com/");
/// ```
pub fn canonicalize_in<S: Spec>(
    alloc: Global,
    mode: CanonMode,
    base: &[u8],
    reference: &[u8],
) -> Result<RiString<S>, CanonError>
    ensures causes { MatchResult result (λ _. (bytes_fault (absolute_fault S.tests) base.now ≡ None)
        × (bytes_fault (reference_fault S.tests) reference.now ≡ None))
        (λ e. CausedBy e (bytes_fault (absolute_fault S.tests) base.now)
        (bytes_fault (reference_fault S.tests) reference.now)) }
    ensures text { IfOk result (λ t. IsCanonicalTextIn S.tests mode base.now reference.now t.text) }
{
    match SplitView::<S, Absolute>::absolute_from_bytes(base) {
        Ok(base) => canonicalize_against(alloc, mode, base, reference),
        Err(error) => Err(CanonError::BadBase(error)),
    }
}
