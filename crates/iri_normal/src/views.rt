//! Views in normal form, and references resolved against a base.
ghost use Rattle.std.specs.Prelude.{◌≡◌, false, true, IsErr, ◌↔◌, refl};
ghost use Rattle.iri_grammar.specs.Classes.{Tests};
ghost use Rattle.iri_grammar.specs.Split.{split_of};
ghost use Rattle.iri_types.specs.Texts.{text};
ghost use Rattle.iri_normal.specs.NormalForm.{is_unresolvable};
ghost use Rattle.iri_normal.specs.Normalized.{Written, written_text};
ghost use Rattle.iri_normal.specs.NormalizedText.{written};
ghost use Rattle.iri_normal.specs.Slices.{slices};
ghost use Rattle.iri_normal.specs.Target.{target, takes_base_path};
ghost use Rattle.iri_normal.specs.declared.mode.Mode.TheVariants.{Normal, Plain, Preserving};

use crate::mode::Mode;
use crate::normal_kind::NormalKind;
use crate::normalized::{Normalized, NormalizedText};
use crate::prefix::kept_prefix;
use crate::resolver::FixedBaseResolver;
use crate::target::TargetSlices;
use crate::unresolvable::Unresolvable;
use iri_grammar::spec::Spec;
use iri_text::Show;
use iri_types::kind::{Reference, Relative};
use iri_types::split::SplitView;
use iri_types::view::{RiAbsoluteStr, View};

/// Texts with a scheme, which have a normal form (RFC 3986 section 6.2.2). Nothing here takes memory.
pub trait Normalize: Show + Sized {
    /// What shows the text in a mode.
    type Text: Show;

    /// The classes of its characters.
    ghost tests: { Tests };

    /// What is shown.
    ghost shown: { Self.Text → Written };

    /// The text in normal form.
    ///
    /// ```
    /// use iri::prelude::{Normalize, ToStringFallible};
    /// use iri::types::UriStr;
    /// let link = UriStr::new("eXAMPLE://a/./b/../b/%63/%7bfoo%7d")?;
    /// assert_eq!(rt; link.normalize().try_to_string(rt.alloc())?.as_str(), "example://a/b/c/%7Bfoo%7D");
    /// ```
    fn normalize(self) -> Self::Text
        ensures { shown result ≡ record { parts = split_of (Self.text self); whole = false; mode = Normal } };

    /// The text in normal form, but a path without authority that doesn't begin with a slash keeps its dot segments.
    ///
    /// ```
    /// use iri::prelude::{Normalize, ToStringFallible};
    /// use iri::types::UriStr;
    /// let link = UriStr::new("URN:a/../%7e")?.normalize_but_preserve_authorityless_relative_path();
    /// assert_eq!(rt; link.try_to_string(rt.alloc())?.as_str(), "urn:a/../~");
    /// ```
    fn normalize_but_preserve_authorityless_relative_path(self) -> Self::Text
        ensures { shown result ≡ record { parts = split_of (Self.text self); whole = false; mode = Preserving } };

    /// Whether RFC 3986 alone has a normal form of the text, without the `/.` before a path that would be read as an
    /// authority.
    ///
    /// # Errors
    ///
    /// Exactly where there is no authority and the path without its dot segments begins with two slashes.
    ///
    /// ```
    /// use iri::prelude::Normalize;
    /// use iri::types::UriStr;
    /// assert!(rt; UriStr::new("http://a/.//b")?.ensure_rfc3986_normalizable().is_ok());
    /// assert!(rt; UriStr::new("web+demo:/.//not-a-host/")?.ensure_rfc3986_normalizable().is_err());
    /// ```
    fn ensure_rfc3986_normalizable(self) -> Result<(), Unresolvable>
        ensures { IsErr result ↔ (is_unresolvable false (split_of (Self.text self)) ≡ true) };

    /// Its text is that of what is shown.
    ghost shows: { (x : Self.Text) → Self.Text.text x ≡ written_text tests (shown x) };
}

/// References, which are resolved against a base (RFC 3986 section 5.2). Nothing here takes memory. For many references
/// of one base, `FixedBaseResolver` prepares the base once.
pub trait ResolveAgainst: Show + Sized {
    /// A base.
    type Base: Show;

    /// What shows a text resolved.
    type Text: Show;

    /// The classes of its characters.
    ghost tests: { Tests };

    /// What is shown.
    ghost shown: { Self.Text → Written };

    /// The text resolved against the base: its dot segments are removed, but the base's path stays as it is where its
    /// own is empty. Where the path would be read as an authority, `/.` comes before it.
    ///
    /// ```
    /// use iri::prelude::{ResolveAgainst, ToStringFallible};
    /// use iri::types::{UriAbsoluteStr, UriReferenceStr};
    /// let base = UriAbsoluteStr::new("http://a/b/c/d;p?q")?;
    /// let target = UriReferenceStr::new("../../../g")?.resolve_against(base);
    /// assert_eq!(rt; target.try_to_string(rt.alloc())?.as_str(), "http://a/g");
    /// ```
    fn resolve_against(self, base: Self::Base) -> Self::Text
        ensures { shown result ≡ record {
          parts = target (split_of (Self.Base.text base)) (split_of (Self.text self));
          whole = takes_base_path (split_of (Self.text self));
          mode = Plain;
        } };

    /// Its text is that of what is shown.
    ghost shows: { (x : Self.Text) → Self.Text.text x ≡ written_text tests (shown x) };
}

// The slices of a view's parts, in a mode.
fn in_mode<'a, S: Spec, K: NormalKind>(view: View<'a, S, K>, mode: Mode) -> NormalizedText<'a, S, K>
    ensures { written result ≡ record { parts = split_of (text view.entry); whole = false; mode = mode } }
{
    let split = SplitView::of(view);
    let target = TargetSlices::of(split.parts());
    NormalizedText::after(kept_prefix(&split), target, false, mode)
}

impl<'a, S: Spec, K: NormalKind> Normalize for View<'a, S, K> {
    type Text = NormalizedText<'a, S, K>;

    ghost tests = { S.tests };

    ghost shown = { λ n. written n };

    ghost shows = { λ _. refl };

    fn normalize(self) -> NormalizedText<'a, S, K> {
        in_mode(self, Mode::Normal)
    }

    fn normalize_but_preserve_authorityless_relative_path(self) -> NormalizedText<'a, S, K> {
        in_mode(self, Mode::Preserving)
    }

    fn ensure_rfc3986_normalizable(self) -> Result<(), Unresolvable> {
        in_mode(self, Mode::Normal).ensure_rfc3986_normalizable()
    }
}

impl<'a, S: Spec> ResolveAgainst for View<'a, S, Reference> {
    type Base = RiAbsoluteStr<'a, S>;

    type Text = Normalized<'a, S>;

    ghost tests = { S.tests };

    ghost shown = { λ n. written n };

    ghost shows = { λ _. refl };

    fn resolve_against(self, base: RiAbsoluteStr<'a, S>) -> Normalized<'a, S> {
        FixedBaseResolver::new(base).resolve(self)
    }
}

impl<'a, S: Spec> ResolveAgainst for View<'a, S, Relative> {
    type Base = RiAbsoluteStr<'a, S>;

    type Text = Normalized<'a, S>;

    ghost tests = { S.tests };

    ghost shown = { λ n. written n };

    ghost shows = { λ _. refl };

    fn resolve_against(self, base: RiAbsoluteStr<'a, S>) -> Normalized<'a, S> {
        FixedBaseResolver::new(base).resolve(self.as_reference())
    }
}
