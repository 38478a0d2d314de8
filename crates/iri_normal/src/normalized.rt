//! Texts that show themselves resolved (RFC 3986 section 5.2) or in normal form (section 6.2.2). They allocate nothing.
ghost use Rattle.std.specs.Prelude.{◌≡◌, ◌↔◌, true, None, Some, IsErr};
ghost use Rattle.std.proofs.Props.{props};
ghost use Rattle.iri_grammar.specs.OptionalSlices.{now_of};
ghost use Rattle.iri_normal.specs.Normalized.{AreSound, Written, written_text, has_no_normal_form};
ghost use Rattle.iri_normal.specs.Modes.{is_by_scheme, mode_of};
ghost use Rattle.iri_normal.specs.Prefix.{IsPrefix};
ghost use Rattle.iri_normal.specs.Slices.{slices};
ghost use Rattle.iri_normal.specs.declared.mode.Mode.TheVariants.{ByScheme, Normal, Preserving};

use crate::form::{show_after, show_form};
use crate::mode::{CanonMode, Mode, is_by_scheme, mode_of};
use crate::normal_kind::NormalKind;
use crate::path_writer::is_unresolvable;
use crate::target::TargetSlices;
use crate::unresolvable::Unresolvable;
use iri_grammar::spec::Spec;
use iri_owned::owned::Owned;
use iri_text::{FormatSink, Show, Stop, TextSink, ToDedicatedString, ToStringFallible};
use iri_types::kind::{Absolute, Iri};
use std::alloc::{AllocError, Global};
use std::fmt;
use std::marker::PhantomData;

/// Parts, borrowed, that show themselves as one text of the kind `K` in a mode: without dot segments alone, or in a
/// normal form. Allocates nothing until it is made a string.
///
/// ```
/// use iri::normalize::NormalizedText;
/// use iri::prelude::{Normalize, ToDedicatedString};
/// use iri::spec::UriSpec;
/// use iri::types::UriStr;
/// use iri::types::kind::Iri;
/// let text: NormalizedText<'_, UriSpec, Iri> = UriStr::new("eXAMPLE://a/./b/../b/%63/%7bfoo%7d")?.normalize();
/// assert_eq!(rt; text.try_to_dedicated_string(rt.alloc())?.as_str(), "example://a/b/c/%7Bfoo%7D");
/// ```
#[derive_where(Debug)]
pub struct NormalizedText<'a, S: Spec, K: NormalKind> {
    prefix: Option<&'a str>,
    target: TargetSlices<'a>,
    whole: bool,
    mode: Mode,
    #[derive_where(skip(Debug))]
    spec: PhantomData<S>,
    #[derive_where(skip(Debug))]
    kind: PhantomData<K>,
    pub ghost sound: { ∥ AreSound S.tests K.fault target ∥₁ },
    pub ghost prefixed: { IsPrefix S.tests (slices target) (now_of prefix) } by { Prim.hlevel props },
}

/// A text that is written in a mode, as a `URI` of `S`.
///
/// ```
/// use iri::prelude::{ResolveAgainst, ToDedicatedString};
/// use iri::types::{UriAbsoluteStr, UriReferenceStr};
/// let base = UriAbsoluteStr::new("HTTP://a/b")?;
/// let target = UriReferenceStr::new("%7eg")?.resolve_against(base);
/// assert_eq!(rt; target.try_to_dedicated_string(rt.alloc())?.as_str(), "HTTP://a/%7eg");
/// assert_eq!(rt; target.and_normalize().try_to_dedicated_string(rt.alloc())?.as_str(), "http://a/~g");
/// ```
pub type Normalized<'a, S> = NormalizedText<'a, S, Iri>;

/// A text that is written in a mode, as an `absolute-URI` of `S`.
///
/// ```
/// use iri::prelude::{Normalize, ToDedicatedString};
/// use iri::types::UriAbsoluteStr;
/// let base = UriAbsoluteStr::new("HTTP://A/%7e")?.normalize();
/// assert_eq!(rt; base.try_to_dedicated_string(rt.alloc())?.as_str(), "http://a/~");
/// ```
pub type NormalizedAbsolute<'a, S> = NormalizedText<'a, S, Absolute>;

impl<S: Spec, K: NormalKind> Clone for NormalizedText<'_, S, K> {
    ghost is_clone = { λ a b. b ≡ a };

    ghost is_infallible = { λ _. Unit {0} };

    fn clone(&self) -> Result<Self, AllocError> {
        Ok(*self)
    }
}

impl<S: Spec, K: NormalKind> Copy for NormalizedText<'_, S, K> {}

impl<'a, S: Spec, K: NormalKind> NormalizedText<'a, S, K> {
    ghost use Rattle.iri_normal.specs.NormalizedText.{written};

    // Slices in a mode, and their prefix, where that is in normal form as it is.
    pub(crate) fn after(
        prefix: Option<&'a str>,
        target: TargetSlices<'a>,
        whole: bool,
        mode: Mode,
    ) -> Self
        requires sound { ∥ AreSound S.tests K.fault target ∥₁ }
        requires prefix { IsPrefix S.tests (slices target) (now_of prefix) }
        ensures { written result ≡ record { parts = slices target.entry; whole = whole; mode = mode } }
    {
        NormalizedText {
            prefix,
            target,
            whole,
            mode,
            spec: PhantomData,
            kind: PhantomData,
        }
    }

    /// From now on the text is in normal form (RFC 3986 section 6.2.2).
    pub fn enable_normalization(&mut self)
        ensures { written self.new ≡ record (written self.old) { mode = Normal } }
    {
        self.mode = Mode::Normal;
    }

    /// From now on the text is in normal form, but a path without authority that doesn't begin with a slash keeps its dot segments.
    pub fn enable_normalization_preserving_authorityless_relative_path(&mut self)
        ensures { written self.new ≡ record (written self.old) { mode = Preserving } }
    {
        self.mode = Mode::Preserving;
    }

    /// From now on the text is in normal form by scheme rules too (RFC 3986 section 6.2.3): the scheme's default port goes, and an
    /// empty path beside an authority becomes `/`, for `http`, `https`, `ws`, `wss` and `ftp`.
    pub fn enable_scheme_normalization(&mut self)
        ensures { written self.new ≡ record (written self.old) { mode = ByScheme } }
    {
        self.mode = Mode::ByScheme;
    }

    /// These parts in normal form (RFC 3986 section 6.2.2).
    ///
    /// ```
    /// use iri::prelude::{ResolveAgainst, ToStringFallible};
    /// use iri::types::{UriAbsoluteStr, UriReferenceStr};
    /// let base = UriAbsoluteStr::new("HTTP://a/b")?;
    /// let target = UriReferenceStr::new("%7eg")?.resolve_against(base).and_normalize();
    /// assert_eq!(rt; target.try_to_string(rt.alloc())?.as_str(), "http://a/~g");
    /// ```
    pub fn and_normalize(self) -> Self
        ensures { written result ≡ record (written self.entry) { mode = Normal } }
    {
        NormalizedText::after(self.prefix, self.target, self.whole, Mode::Normal)
    }

    /// These parts in normal form, but a path without authority that doesn't begin with a slash keeps its dot segments.
    pub fn and_normalize_but_preserve_authorityless_relative_path(self) -> Self
        ensures { written result ≡ record (written self.entry) { mode = Preserving } }
    {
        NormalizedText::after(self.prefix, self.target, self.whole, Mode::Preserving)
    }

    /// These parts in normal form by scheme rules too (RFC 3986 section 6.2.3).
    ///
    /// ```
    /// use iri::prelude::{Normalize, ToStringFallible};
    /// use iri::types::UriStr;
    /// let link = UriStr::new("http://example.com:80")?.normalize().and_normalize_by_scheme();
    /// assert_eq!(rt; link.try_to_string(rt.alloc())?.as_str(), "http://example.com/");
    /// ```
    pub fn and_normalize_by_scheme(self) -> Self
        ensures { written result ≡ record (written self.entry) { mode = ByScheme } }
    {
        NormalizedText::after(self.prefix, self.target, self.whole, Mode::ByScheme)
    }

    // The same parts in either normal form.
    pub(crate) fn and_normalize_in(self, mode: CanonMode) -> Self
        ensures { written result ≡ record (written self.entry) { mode = mode_of mode } }
    {
        NormalizedText::after(self.prefix, self.target, self.whole, mode_of(mode))
    }

    // The prefix, where it can be used in the mode.
    fn usable_prefix(&self) -> Option<&'a str>
        ensures { (IsPrefix S.tests (slices self.now.target) (now_of result)) × ((is_by_scheme self.now.mode ≡ true) → (result ≡ None)) }
    {
        if is_by_scheme(self.mode) {
            None
        } else {
            self.prefix
        }
    }

    /// Whether RFC 3986 alone has a normal form of the parts, without the `/.` before a path that would be read as an
    /// authority. Allocates nothing.
    ///
    /// # Errors
    ///
    /// Exactly where there is no authority, the path isn't the base's, taken whole, and without its dot segments it
    /// begins with two slashes.
    pub fn ensure_rfc3986_normalizable(&self) -> Result<(), Unresolvable>
        ensures { IsErr result ↔ (has_no_normal_form (written self.now) ≡ true) }
    {
        if is_unresolvable::<S>(&self.target, self.whole) {
            Err(Unresolvable)
        } else {
            Ok(())
        }
    }
}

impl<S: Spec, K: NormalKind> Show for NormalizedText<'_, S, K> {
    ghost use Rattle.iri_normal.specs.NormalizedText.{written};

    ghost text = { λ n. written_text S.tests (written n) };

    fn show<W: TextSink>(&self, sink: &mut W) -> Result<(), Stop> {
        match self.usable_prefix() {
            Some(prefix) => {
                show_after::<S, W>(sink, prefix, &self.target, self.mode, self.whole)
            }
            None => show_form::<S, W>(sink, &self.target, self.mode, self.whole),
        }
    }
}

impl<S: Spec, K: NormalKind> fmt::Display for NormalizedText<'_, S, K> {
    ghost use Rattle.iri_normal.specs.NormalizedText.{written};

    ghost output = { λ n. Some (written_text S.tests (written n)) };

    ghost styled_output = { λ n _. Some (written_text S.tests (written n)) };

    fn fmt<W: fmt::Write>(&self, f: &mut fmt::Formatter<W>) -> fmt::Result {
        FormatSink::new(f).display(self)
    }
}

impl<S: Spec, K: NormalKind> ToDedicatedString for NormalizedText<'_, S, K> {
    type Target = Owned<S, K>;

    ///
    /// # Errors
    ///
    /// Where allocation fails.
    fn try_to_dedicated_string(&self, alloc: Global) -> Result<Owned<S, K>, AllocError> {
        let text = self.try_to_string(alloc)?;
        K::forms_are_valid();
        Ok(Owned::from_valid(text))
    }
}
