//! IRIs mapped to URIs (RFC 3987 section 3.1).

pub use iri_percent::{IntoUri, MappedKind, MappedToUri, ToUri, show_mapped_to_uri};
