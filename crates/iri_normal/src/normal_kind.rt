//! The kinds of texts that have a normal form.
ghost use Rattle.std.specs.Prelude.{◌≡◌, ℕ, Bool, List, None};
ghost use Rattle.iri_grammar.specs.Classes.{Tests, IsSpec};
ghost use Rattle.iri_grammar.specs.Parts.{Parts, Fits, recompose};
ghost use Rattle.iri_normal.specs.NormalForm.{form};
ghost use Rattle.iri_normal.specs.declared.mode.Mode.{Mode};

use iri_types::kind::{Absolute, Iri, SchemeKind};

/// A kind whose texts have a scheme, and stay texts of the kind in every mode.
///
/// ```
/// use iri::normalize::NormalKind;
/// use iri::prelude::{Normalize, ToStringFallible};
/// use iri::spec::UriSpec;
/// use iri::types::{UriAbsoluteStr, View};
/// use std::alloc::{AllocError, Global};
/// fn normal<K: NormalKind>(alloc: Global, link: View<'_, UriSpec, K>) -> Result<String, AllocError> {
///     link.normalize().try_to_string(alloc)
/// }
/// let link = UriAbsoluteStr::new("eXAMPLE://a/./b/../b/%63/%7bfoo%7d")?;
/// assert_eq!(rt; normal(rt.alloc(), link)?.as_str(), "example://a/b/c/%7Bfoo%7D");
/// ```
pub trait NormalKind: SchemeKind {
    /// A law, which does nothing when it is called: where parts recompose to a text of the kind, so do they in every mode.
    fn forms_are_valid()
        ensures { (s : Tests) → IsSpec s → (mode : Mode) (whole : Bool) (t : Parts) → Fits s t
            → Self.fault s (recompose t) ≡ None → Self.fault s (recompose (form s mode whole t)) ≡ None };
}

impl NormalKind for Iri {
    fn forms_are_valid() {}
}

impl NormalKind for Absolute {
    fn forms_are_valid() {}
}
