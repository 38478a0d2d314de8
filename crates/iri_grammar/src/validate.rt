//! Validators: each answers Ok exactly on its production, and otherwise its first fault.
mod component;
mod whole;

pub use crate::error::{Error, ErrorKind};
pub use component::{
    authority, fragment, host, path, path_segment, port, query, reg_name, scheme, userinfo,
};
pub(crate) use whole::{authority_and_colon, scheme_in_place, stopped, without_fragment};
pub use whole::{absolute_iri, iri, iri_reference, relative_ref};
