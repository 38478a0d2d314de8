//! What is wrong with a template.
ghost use Rattle.std.specs.Prelude.{◌≡◌, Some};
ghost use Rattle.iri_template.specs.ErrorTexts.{description, displayed};
ghost use Rattle.iri_template.specs.inside.InMemory.{in_memory};

use std::fmt;

/// What is wrong with a template, or with its expansion.
///
/// ```
/// use iri::template::ErrorKind;
/// assert_eq!(rt; ErrorKind::ExpressionNotClosed.description(), "expression not closed");
/// ```
#[derive(Clone, Copy, Debug, PartialEq, Eq)]
pub enum ErrorKind {
    /// The sink that an expansion is written to stopped.
    WriteFailed,
    /// An expression without a closing brace (RFC 6570 section 2.2).
    ExpressionNotClosed,
    /// A character that can't stand outside expressions (section 2.1).
    InvalidCharacter,
    /// No variable's name, or no modifier after it (sections 2.3 and 2.4).
    InvalidExpression,
    /// A percent sign without two hex digits after it (section 2.1).
    InvalidPercentEncoding,
    /// Bytes that are no UTF-8.
    InvalidUtf8,
    /// A prefix on a list or an associative array that isn't empty (section 2.4.1).
    UnexpectedValueType,
    /// An operator that is reserved for later (section 2.2).
    UnsupportedOperator,
    /// Allocation failed.
    Memory,
}

impl ErrorKind {
    /// The kind in words, as they stand in `Error`'s `Display`.
    pub fn description(self) -> &'static str
        ensures { result.now ≡ description self }
    {
        match self {
            ErrorKind::WriteFailed => "failed to write to the backend writer",
            ErrorKind::ExpressionNotClosed => "expression not closed",
            ErrorKind::InvalidCharacter => "invalid character",
            ErrorKind::InvalidExpression => "invalid expression",
            ErrorKind::InvalidPercentEncoding => "invalid percent-encoded triplets",
            ErrorKind::InvalidUtf8 => "invalid utf-8 byte sequence",
            ErrorKind::UnexpectedValueType => "unexpected value type for the variable",
            ErrorKind::UnsupportedOperator => "unsupported operator",
            ErrorKind::Memory => "out of memory",
        }
    }
}

/// Why a template is refused, and where: the first fault, read from the left.
///
/// ```
/// use iri::template::{ErrorKind, UriTemplateStr};
/// let error = UriTemplateStr::new("/search{?q").err().ok_or("a fault")?;
/// assert_eq!(rt; error.kind(), ErrorKind::ExpressionNotClosed);
/// assert_eq!(rt; error.location(), 7);
/// ```
#[derive(Clone, Copy, Debug, PartialEq, Eq)]
pub struct Error {
    pub(crate) kind: ErrorKind,
    pub(crate) location: usize,
}

impl Error {
    pub(crate) fn new(kind: ErrorKind, location: usize) -> Self
        ensures { result ≡ record { kind = kind; location = location } }
    {
        Error { kind, location }
    }

    // The error of an expansion into a string, which stops on allocation failure alone.
    pub(crate) fn in_memory(self) -> Self
        ensures { result ≡ record { kind = in_memory self.kind; location = self.location } }
    {
        match self.kind {
            ErrorKind::WriteFailed => Error::new(ErrorKind::Memory, self.location),
            _ => self,
        }
    }

    /// What is wrong.
    pub fn kind(&self) -> ErrorKind
        ensures { result ≡ self.now.kind }
    {
        self.kind
    }

    /// Where: how many bytes stand before the fault.
    pub fn location(&self) -> usize
        ensures { result ≡ self.now.location }
    {
        self.location
    }
}

impl fmt::Display for Error {
    ghost output = { λ e. Some (displayed e) };

    fn fmt<W: fmt::Write>(&self, f: &mut fmt::Formatter<W>) -> fmt::Result {
        let (description, location) = (self.kind.description(), self.location);
        write!(
            f,
            "invalid URI template: {description} (at {location}-th byte)"
        )
    }
}

impl std::error::Error for Error {}
