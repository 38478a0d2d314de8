//! Normal forms and canonical texts (RFC 3986 section 6.2).

pub use iri_normal::canonical::{
    CanonError, canonicalize, canonicalize_in, show_canonical, show_canonical_in,
};
pub use iri_normal::is_normalized::IsNormalized;
pub use iri_normal::mode::CanonMode;
pub use iri_normal::normal_kind::NormalKind;
pub use iri_normal::normalized::{Normalized, NormalizedAbsolute, NormalizedText};
pub use iri_normal::normalized_in::is_normalized_in;
pub use iri_normal::to_uri::canonicalize_to_uri;
pub use iri_normal::unresolvable::Unresolvable;
pub use iri_normal::views::Normalize;
pub use iri_percent::{NormalizedAuthority, NormalizedHost, PctCaseNormalized};
