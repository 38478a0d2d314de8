//! Values percent-encoded for their place in a reference (RFC 3986 section 2.1).

pub mod decode;

pub use iri_percent::{PercentEncoded, PercentEncodedForIri, PercentEncodedForUri};
