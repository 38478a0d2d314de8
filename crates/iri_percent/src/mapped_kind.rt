// The kinds of texts that are mapped.
ghost use Rattle.std.specs.Prelude.{◌≡◌, ℕ, List, None};
ghost use Rattle.iri_grammar.specs.Classes.{Tests, IsSpec, uri_tests};
ghost use Rattle.iri_percent.specs.Mapping.{mapped};

use iri_types::kind::{Absolute, Fragment, Iri, Kind, Query, Reference, Relative};

/// A kind whose texts of every grammar, mapped, are texts of the same kind of URIs.
///
/// ```
/// use iri::convert::MappedKind;
/// use iri::prelude::{ToStringFallible, ToUri};
/// use iri::spec::IriSpec;
/// use iri::types::{IriReferenceStr, View};
/// use std::alloc::{AllocError, Global};
/// fn uri_of<K: MappedKind>(alloc: Global, iri: View<'_, IriSpec, K>) -> Result<String, AllocError> {
///     iri.encode_to_uri().try_to_string(alloc)
/// }
/// assert_eq!(rt; uri_of(rt.alloc(), IriReferenceStr::new("red%09rosé#red")?)?.as_str(), "red%09ros%C3%A9#red");
/// ```
pub trait MappedKind: Kind {
    /// A law, which does nothing when it is called: what is in the production is, mapped, in that of URIs.
    fn mapped_is_valid()
        ensures { (s : Tests) → IsSpec s → (t : List ℕ) → Self.fault s t ≡ None
            → Self.fault uri_tests (mapped t) ≡ None };
}

impl MappedKind for Reference {
    #[tactic(auto, using(crate::proofs::mapping::Productions::reference_maps))]
    fn mapped_is_valid() {}
}

impl MappedKind for Iri {
    #[tactic(auto, using(crate::proofs::mapping::Productions::iri_maps))]
    fn mapped_is_valid() {}
}

impl MappedKind for Absolute {
    #[tactic(auto, using(crate::proofs::mapping::Productions::absolute_maps))]
    fn mapped_is_valid() {}
}

impl MappedKind for Relative {
    #[tactic(auto, using(crate::proofs::mapping::Productions::relative_maps))]
    fn mapped_is_valid() {}
}

impl MappedKind for Query {
    #[tactic(auto, using(crate::proofs::mapping::Productions::query_maps))]
    fn mapped_is_valid() {}
}

impl MappedKind for Fragment {
    #[tactic(auto, using(crate::proofs::mapping::Productions::fragment_maps))]
    fn mapped_is_valid() {}
}
