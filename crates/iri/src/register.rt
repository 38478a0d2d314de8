//! A register that keeps each link once.

pub use iri_register::added::Added;
pub use iri_register::error::RegisterError;
pub use iri_register::register::Register;
