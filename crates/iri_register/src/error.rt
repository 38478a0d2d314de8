//! Why a register refuses a reference.

use iri_grammar::error::Error as GrammarError;
use thiserror::Error;

/// Why a register refused a reference. It is then unchanged.
///
/// ```
/// use iri::register::{Register, RegisterError};
/// use iri::types::UriAbsoluteString;
/// let base = UriAbsoluteString::try_from_str(rt.alloc(), "http://a/")?;
/// let mut links = Register::new(rt.alloc(), base);
/// assert!(rt; matches!(links.add(b"%", 2), Err(RegisterError::Bad(_))));
/// assert_eq!(rt; links.len(), 0);
/// ```
#[derive(Debug, Drop, Error)]
pub enum RegisterError {
    /// The reference isn't UTF-8 or no reference: its first fault.
    #[error(transparent)]
    Bad(GrammarError),
    /// Allocation failed. The reference was found valid.
    #[error("out of memory")]
    Memory,
}
