//! Why no owned text was made.
ghost use Rattle.std.specs.Prelude.{◌≡◌, ◌++◌, Some, codes};
ghost use Rattle.iri_grammar.specs.ErrorTexts.{description};

use iri_grammar::error::Error;
use std::alloc::AllocError;
use std::fmt;
use thiserror::Error;

/// Why no owned text was made of a borrowed one.
///
/// ```
/// use iri::types::{CreateError, UriString};
/// assert!(rt; matches!(UriString::try_from_str(rt.alloc(), "a/b"), Err(CreateError::Invalid(_))));
/// ```
#[derive(Debug, Drop, Error)]
pub enum CreateError {
    /// The text isn't in its production.
    #[error(transparent)]
    Invalid(Error),
    /// Allocation failed.
    #[error(transparent)]
    Memory(AllocError),
}

/// Why no owned text was made of another, which it hands back.
///
/// ```
/// use iri::types::UriString;
/// use iri::validate::ErrorKind;
/// let text = String::from_str(rt.alloc(), "http://example.com/%4")?;
/// let error = UriString::try_from_string(text).err().ok_or("a fault")?;
/// assert_eq!(rt; error.validation_error().kind(), ErrorKind::InvalidPath);
/// assert_eq!(rt; error.into_source().as_str(), "http://example.com/%4");
/// ```
#[derive(Debug, Drop)]
pub struct CreationError<T> {
    pub(crate) source: T,
    pub(crate) error: Error,
}

impl<T> CreationError<T> {
    /// What was given.
    pub fn into_source(self) -> T
        ensures { result ≡ self.source }
    {
        self.source
    }

    /// What is wrong with its text.
    pub fn validation_error(&self) -> Error
        ensures { result ≡ self.now.error }
    {
        self.error
    }
}

impl<T> fmt::Display for CreationError<T> {
    ghost output = { λ e. Some (codes "invalid IRI: " ++ description e.error.kind) };

    fn fmt<W: fmt::Write>(&self, f: &mut fmt::Formatter<W>) -> fmt::Result {
        let error = self.error;
        write!(f, "{error}")
    }
}

impl<T: fmt::Debug + Drop> std::error::Error for CreationError<T> {}
