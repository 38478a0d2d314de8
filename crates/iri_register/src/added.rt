//! What a line did to a register.

/// The place, from 1, of the entry that a line was put into.
///
/// ```
/// use iri::register::{Added, Register};
/// use iri::types::UriAbsoluteString;
/// let base = UriAbsoluteString::try_from_str(rt.alloc(), "http://a/")?;
/// let mut links = Register::new(rt.alloc(), base);
/// assert!(rt; matches!(links.add(b"x/../b", 2)?, Added::New(1)));
/// assert!(rt; matches!(links.add(b"/%62", 3)?, Added::Old(1)));
/// ```
#[derive(Clone, Copy, Debug, PartialEq, Eq)]
pub enum Added {
    /// No entry had the target: this one is new, and the last.
    New(usize),
    /// This entry had the target.
    Old(usize),
}
