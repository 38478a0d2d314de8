//! URI templates and their expansion (RFC 6570).

pub mod context;
pub mod simple_context;

pub use iri_template::creation::{CreateTemplateError, CreationError};
pub use iri_template::error::{Error, ErrorKind};
pub use iri_template::expanded::{Expanded, ExpandedError};
pub use iri_template::owned::UriTemplateString;
pub use iri_template::template::UriTemplateStr;
pub use iri_template::variables::UriTemplateVariables;
