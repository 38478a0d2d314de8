//! The traits whose methods views, owned texts and shown values have.

pub use iri_edit::fragment::SetFragment;
pub use iri_edit::host::ReplaceHost;
pub use iri_edit::password::MaskPassword;
pub use iri_edit::removal::RemovePassword;
pub use iri_normal::is_normalized::IsNormalized;
pub use iri_normal::views::{Normalize, ResolveAgainst};
pub use iri_percent::{IntoUri, ToUri};
pub use iri_text::{Show, ToDedicatedString, ToStringFallible};
