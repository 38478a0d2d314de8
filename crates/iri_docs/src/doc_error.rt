//! Why a line is no document.
ghost use Rattle.std.specs.Prelude.{◌≡◌, Some};
ghost use Rattle.iri_docs.specs.ErrorTexts.{description};

use iri_text::{FormatSink, Show, Stop, TextSink};
use std::alloc::AllocError;
use std::fmt;

/// Why a line is no document, in the order in which the faults are looked for. It is displayed in the words that answer
/// the line.
///
/// ```
/// use iri::docs::{DocError, read_document};
/// let read = read_document(rt.alloc(), b"{\"template\":\"/{q}\",\"vars\":{\"q\":1.5}}");
/// assert!(rt; matches!(read, Err(DocError::Float)));
/// ```
#[derive(Clone, Copy, Debug, PartialEq, Eq)]
pub enum DocError {
    /// The line isn't UTF-8, or `serde_json` has no reading of it.
    Json,
    /// The value isn't an object with a string as its member `template`, maybe an object as its member `vars`, and no
    /// other member.
    Shape,
    /// The key of a member of `vars` isn't the name of a variable (RFC 6570 section 2.3).
    Name,
    /// A value is a truth value, or has one in it.
    Truth,
    /// A value is a float, or has one in it.
    Float,
    /// An array or an object has a null, an array or an object in it.
    Nested,
    /// Allocation failed.
    Memory,
}

impl DocError {
    /// The words that answer the line. There is no answer to a line where allocation failed.
    pub fn description(self) -> &'static str
        ensures { result.now ≡ description self }
    {
        match self {
            DocError::Json => "bad json",
            DocError::Shape => "bad document",
            DocError::Name => "bad variable name",
            DocError::Truth => "bad variable truth value",
            DocError::Float => "bad variable float",
            DocError::Nested => "bad variable nested",
            DocError::Memory => "out of memory",
        }
    }
}

impl From<AllocError> for DocError {
    ghost use Rattle.iri_docs.specs.declared.doc_error.DocError.TheVariants.{Memory};

    ghost from_gives = { λ _ e. e ≡ Memory };

    fn from(_refused: AllocError) -> DocError {
        DocError::Memory
    }
}

impl Show for DocError {
    ghost text = { description };

    fn show<W: TextSink>(&self, sink: &mut W) -> Result<(), Stop> {
        sink.put(self.description())
    }
}

impl fmt::Display for DocError {
    ghost output = { λ e. Some (description e) };

    ghost styled_output = { λ e _. Some (description e) };

    fn fmt<W: fmt::Write>(&self, f: &mut fmt::Formatter<W>) -> fmt::Result {
        FormatSink::new(f).display(self)
    }
}

impl std::error::Error for DocError {}
