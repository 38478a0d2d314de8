//! Tests of being in normal form (RFC 3986 section 6.2.2).
ghost use Rattle.std.specs.Prelude.{◌≡◌, ◌↔◌, false, true};
ghost use Rattle.iri_grammar.specs.Classes.{Tests};
ghost use Rattle.iri_grammar.specs.Split.{split_of};
ghost use Rattle.iri_types.specs.Texts.{text};
ghost use Rattle.iri_normal.specs.NormalForm.{IsInMode};
ghost use Rattle.iri_normal.specs.NormalForm.{is_unresolvable};
ghost use Rattle.iri_normal.specs.Normalized.{written_text};
ghost use Rattle.iri_normal.specs.NormalizedText.{written};
ghost use Rattle.iri_normal.specs.declared.mode.Mode.TheVariants.{Normal, Preserving};

use crate::comparison::is_text;
use crate::normal_kind::NormalKind;
use crate::normalized::NormalizedText;
use crate::views::Normalize;
use iri_grammar::spec::Spec;
use iri_text::Show;
use iri_types::view::View;

/// Texts that may be in normal form (RFC 3986 section 6.2.2). Nothing here takes memory.
pub trait IsNormalized: Show + Sized {
    /// The classes of its characters.
    ghost tests: { Tests };

    /// Whether the text is its own normal form.
    ///
    /// ```
    /// use iri::prelude::IsNormalized;
    /// use iri::types::UriStr;
    /// assert!(rt; UriStr::new("example://a/b/c/%7Bfoo%7D")?.is_normalized());
    /// assert!(rt; !UriStr::new("example://a/b/c/%7bfoo%7d")?.is_normalized());
    /// ```
    fn is_normalized(self) -> bool
        ensures { (result ≡ true) ↔ IsInMode tests Normal (Self.text self) };

    /// Whether it is, and RFC 3986 alone has a normal form of it: without an authority, its path doesn't begin with
    /// `//` once its dot segments are removed.
    ///
    /// ```
    /// use iri::prelude::IsNormalized;
    /// use iri::types::UriStr;
    /// let link = UriStr::new("web+demo:/.//not-a-host/")?;
    /// assert!(rt; link.is_normalized());
    /// assert!(rt; !link.is_normalized_rfc3986());
    /// ```
    fn is_normalized_rfc3986(self) -> bool
        ensures { (result ≡ true) ↔ (IsInMode tests Normal (Self.text self)
            × (is_unresolvable false (split_of (Self.text self)) ≡ false)) };

    /// Whether the text is its own normal form where a path without authority that doesn't begin with a slash keeps its dot
    /// segments.
    fn is_normalized_but_authorityless_relative_path_preserved(self) -> bool
        ensures { (result ≡ true) ↔ IsInMode tests Preserving (Self.text self) };
}

// Whether what is shown of a view is its text.
pub(crate) fn is_same<S: Spec, K: NormalKind>(
    view: View<'_, S, K>,
    shown: NormalizedText<'_, S, K>,
) -> bool
    ensures { (result ≡ true) ↔ (written_text S.tests (written shown.entry) ≡ text view.entry) }
{
    is_text(&shown, view.as_str())
}

impl<'a, S: Spec, K: NormalKind> IsNormalized for View<'a, S, K> {
    ghost tests = { S.tests };

    fn is_normalized(self) -> bool {
        is_same(self, self.normalize())
    }

    fn is_normalized_rfc3986(self) -> bool {
        match self.ensure_rfc3986_normalizable() {
            Ok(()) => is_same(self, self.normalize()),
            Err(_) => false,
        }
    }

    fn is_normalized_but_authorityless_relative_path_preserved(self) -> bool {
        is_same(
            self,
            self.normalize_but_preserve_authorityless_relative_path(),
        )
    }
}
