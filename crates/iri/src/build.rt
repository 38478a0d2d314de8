//! A text from its parts (RFC 3986 section 5.3).

pub use iri_edit::build_kind::BuildKind;
pub use iri_edit::builder::{BuildError, Builder};
