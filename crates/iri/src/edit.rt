//! One part of a text changed (RFC 3986 sections 3.2, 3.5 and 7.5).

pub use iri_edit::fragment::SetFragment;
pub use iri_edit::host::ReplaceHost;
pub use iri_edit::password::{MaskPassword, PasswordMasked, PasswordReplaced};
pub use iri_edit::removal::RemovePassword;
pub use iri_edit::shown_host::{WithHost, with_host, with_host_reg_name};
pub use iri_edit::shown_removal::{WithoutPassword, without_password};
