//! Why no owned template was made.
ghost use Rattle.std.specs.Prelude.{◌≡◌, Some};
ghost use Rattle.iri_template.specs.ErrorTexts.{displayed};

use crate::error::Error;
use std::alloc::AllocError;
use std::fmt;
use thiserror::Error as ThisError;

/// Why no owned template was made of a borrowed text.
///
/// ```
/// use iri::template::{CreateTemplateError, UriTemplateString};
/// assert!(rt; matches!(UriTemplateString::try_from_str(rt.alloc(), "/{q"), Err(CreateTemplateError::Invalid(_))));
/// ```
#[derive(Debug, Drop, ThisError)]
pub enum CreateTemplateError {
    /// The text is no template.
    #[error(transparent)]
    Invalid(Error),
    /// Allocation failed.
    #[error(transparent)]
    Memory(AllocError),
}

/// Why no owned template was made of another text, which it hands back.
///
/// ```
/// use iri::template::UriTemplateString;
/// let text = String::from_str(rt.alloc(), "/{q")?;
/// let error = UriTemplateString::try_from_string(text).err().ok_or("a fault")?;
/// assert_eq!(rt; error.validation_error().location(), 1);
/// assert_eq!(rt; error.into_source().as_str(), "/{q");
/// ```
#[derive(Debug, Drop)]
pub struct CreationError<T> {
    pub(crate) source: T,
    pub(crate) error: Error,
}

impl<T> CreationError<T> {
    /// What was given.
    pub fn into_source(self) -> T
        ensures { result ≡ self.source }
    {
        self.source
    }

    /// What is wrong with its text, and where.
    pub fn validation_error(&self) -> Error
        ensures { result ≡ self.now.error }
    {
        self.error
    }
}

impl<T> fmt::Display for CreationError<T> {
    ghost output = { λ e. Some (displayed e.error) };

    fn fmt<W: fmt::Write>(&self, f: &mut fmt::Formatter<W>) -> fmt::Result {
        write!(f, "{}", self.error)
    }
}

impl<T: fmt::Debug + Drop> std::error::Error for CreationError<T> {}
