// Why the value of a `Link` field is refused.
ghost use Rattle.std.specs.Prelude.{Some};

use iri_grammar::error::Error as TargetError;
use iri_text::{FormatSink, Show, Stop, TextSink, show_three, show_two};
use std::fmt;

/// What is wrong with the value of a `Link` field.
///
/// ```
/// use iri::link::{LinkKind, check_field};
/// use iri::spec::UriSpec;
/// assert!(rt; matches!(check_field::<UriSpec>(b"<a>, <b"), Err((LinkKind::OpenTarget, 5))));
/// ```
#[derive(Clone, Copy, Debug, PartialEq, Eq)]
pub enum LinkKind {
    /// Bytes that are no UTF-8. Their place is the length of the longest prefix that is.
    NotUtf8,
    /// A link-value that doesn't begin with `<`; its place is its first byte.
    NoTarget,
    /// A target without `>`; its place is its `<`.
    OpenTarget,
    /// A target that is no URI-reference (RFC 3986 section 4.1), with its first fault; its place is after its `<`.
    BadTarget(TargetError),
    /// After a target or a parameter and blanks, a byte that is neither `;` nor `,`; or after a `;` and blanks, one
    /// that begins no token either. Its place is that byte.
    NoParam,
    /// Neither a token nor a quoted string after a `=` and blanks, which is its place.
    NoValue,
    /// A quoted string that doesn't end; its place is its first `"`.
    OpenString,
}

impl Show for LinkKind {
    ghost use Rattle.iri_link.specs.ErrorTexts.{words};

    ghost text = { words };

    fn show<W: TextSink>(&self, sink: &mut W) -> Result<(), Stop> {
        match self {
            LinkKind::NotUtf8 => sink.put("invalid utf-8 bytes"),
            LinkKind::NoTarget => sink.put("expected target"),
            LinkKind::OpenTarget => sink.put("unclosed target"),
            LinkKind::BadTarget(error) => show_two(sink, &"target ", &error.kind().description()),
            LinkKind::NoParam => sink.put("expected parameter"),
            LinkKind::NoValue => sink.put("parameter value"),
            LinkKind::OpenString => sink.put("unclosed string"),
        }
    }
}

impl fmt::Display for LinkKind {
    ghost use Rattle.iri_link.specs.ErrorTexts.{words};

    ghost output = { λ k. Some (words k) };

    ghost styled_output = { λ k _. Some (words k) };

    fn fmt<W: fmt::Write>(&self, f: &mut fmt::Formatter<W>) -> fmt::Result {
        FormatSink::new(f).display(self)
    }
}

/// Why the value of a `Link` field is refused.
///
/// ```
/// use iri::link::{LinkError, LinkKind, read_links};
/// use iri::types::UriAbsoluteStr;
/// let page = UriAbsoluteStr::new("http://a/")?;
/// let read = read_links(rt.alloc(), page, b"<a> b");
/// assert!(rt; matches!(read, Err(LinkError::Fault(LinkKind::NoParam, 4))));
/// ```
#[derive(Clone, Copy, Debug, PartialEq, Eq)]
pub enum LinkError {
    /// The first fault from the left, and how many bytes stand before it.
    Fault(LinkKind, usize),
    /// Allocation failed.
    Memory,
}

impl Show for LinkError {
    ghost use Rattle.iri_link.specs.ErrorTexts.{displayed};

    ghost text = { displayed };

    fn show<W: TextSink>(&self, sink: &mut W) -> Result<(), Stop> {
        match self {
            LinkError::Fault(kind, place) => show_three(sink, kind, &" at ", place),
            LinkError::Memory => sink.put("out of memory"),
        }
    }
}

impl fmt::Display for LinkError {
    ghost use Rattle.iri_link.specs.ErrorTexts.{displayed};

    ghost output = { λ e. Some (displayed e) };

    ghost styled_output = { λ e _. Some (displayed e) };

    fn fmt<W: fmt::Write>(&self, f: &mut fmt::Formatter<W>) -> fmt::Result {
        FormatSink::new(f).display(self)
    }
}

impl std::error::Error for LinkError {}
