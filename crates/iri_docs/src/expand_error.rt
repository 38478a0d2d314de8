//! Why a document has no canonical text.
ghost use Rattle.std.specs.Prelude.{◌≡◌, ◌++◌, Some, codes, decimal};
ghost use Rattle.iri_grammar.specs.ErrorTexts as grammar;
ghost use Rattle.iri_template.specs.ErrorTexts as template;
ghost use Rattle.iri_text.specs.Shown.{Shows};
ghost use Rattle.iri_docs.specs.ErrorTexts.{expand_description};

use iri_grammar::error::Error as GrammarError;
use iri_template::error::Error as TemplateError;
use iri_text::{FormatSink, Show, Stop, TextSink, show_four, show_two};
use std::fmt;

/// Why a document has no canonical text, in the order in which the faults are looked for. It is displayed in the words
/// that answer the document's line.
///
/// ```
/// use iri::docs::{DocExpandError, expand_document, read_document};
/// use iri::types::UriAbsoluteStr;
/// let page = UriAbsoluteStr::new("http://a/")?;
/// let document = read_document(rt.alloc(), b"{\"template\":\"//[::1\"}")?;
/// let expanded = expand_document(rt.alloc(), page, &document);
/// assert!(rt; matches!(expanded, Err(DocExpandError::Invalid(_))));
/// ```
#[derive(Clone, Copy, Debug, PartialEq, Eq)]
pub enum DocExpandError {
    /// The template's first fault (RFC 6570 section 2), or the first varspec with a length whose value is a list or an
    /// associative array that isn't empty (section 2.4.1).
    Template(TemplateError),
    /// The expansion has more bytes than [`EXPANSION_LIMIT`](crate::expand::EXPANSION_LIMIT).
    TooLong,
    /// The expansion is no reference: its first fault (RFC 3986 section 4.1, RFC 3987 section 2.2).
    Invalid(GrammarError),
    /// Allocation failed.
    Memory,
}

// Shows a template's fault with its place.
fn show_template<W: TextSink>(sink: &mut W, error: TemplateError) -> Result<(), Stop>
    ensures { Shows W.puts W.halts W.stops sink.old
        (codes "template " ++ (template.description error.kind ++ (codes " at " ++ decimal error.location)))
        sink.new result }
{
    show_four(
        sink,
        &"template ",
        &error.kind().description(),
        &" at ",
        &error.location(),
    )
}

// Shows a reference's fault.
fn show_invalid<W: TextSink>(sink: &mut W, error: GrammarError) -> Result<(), Stop>
    ensures { Shows W.puts W.halts W.stops sink.old (codes "bad " ++ grammar.description error.kind) sink.new result }
{
    show_two(sink, &"bad ", &error.kind().description())
}

impl Show for DocExpandError {
    ghost text = { expand_description };

    fn show<W: TextSink>(&self, sink: &mut W) -> Result<(), Stop> {
        match self {
            DocExpandError::Template(error) => show_template(sink, *error),
            DocExpandError::TooLong => sink.put("bad expansion too long"),
            DocExpandError::Invalid(error) => show_invalid(sink, *error),
            DocExpandError::Memory => sink.put("out of memory"),
        }
    }
}

impl fmt::Display for DocExpandError {
    ghost output = { λ e. Some (expand_description e) };

    ghost styled_output = { λ e _. Some (expand_description e) };

    fn fmt<W: fmt::Write>(&self, f: &mut fmt::Formatter<W>) -> fmt::Result {
        FormatSink::new(f).display(self)
    }
}

impl std::error::Error for DocExpandError {}
