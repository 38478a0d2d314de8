//! Tests of being in the normal form of a mode (RFC 3986 sections 6.2.2 and 6.2.3).
ghost use Rattle.std.specs.Prelude.{◌≡◌, ◌↔◌, true};
ghost use Rattle.iri_types.specs.Texts.{text};
ghost use Rattle.iri_normal.specs.NormalForm.{IsInMode};
ghost use Rattle.iri_normal.specs.Modes.{mode_of};

use crate::is_normalized::is_same;
use crate::mode::CanonMode;
use crate::normal_kind::NormalKind;
use crate::views::Normalize;
use iri_grammar::spec::Spec;
use iri_types::view::View;

/// Whether a text is its own normal form by the rules of a mode. Allocates nothing.
///
/// ```
/// use iri::normalize::{CanonMode, is_normalized_in};
/// use iri::types::UriStr;
/// let link = UriStr::new("http://example.com:80/")?;
/// assert!(rt; is_normalized_in(link, CanonMode::Default));
/// assert!(rt; !is_normalized_in(link, CanonMode::Scheme));
/// ```
pub fn is_normalized_in<S: Spec, K: NormalKind>(view: View<'_, S, K>, mode: CanonMode) -> bool
    ensures { (result ≡ true) ↔ IsInMode S.tests (mode_of mode) (text view.entry) }
{
    is_same(view, view.normalize().and_normalize_in(mode))
}
