//! What is wrong with a text: the kind of its first fault, and the error that tells it.
ghost use Rattle.std.specs.Prelude.{◌≡◌, ◌++◌, Some, codes};

use std::fmt;

/// What is wrong with a text: the first part, from left to right, that is outside its production.
///
/// ```
/// use iri::spec::UriSpec;
/// use iri::validate::{self, ErrorKind};
/// let error = validate::iri::<UriSpec>("http://[::1/a b").err().ok_or("a fault")?;
/// assert_eq!(rt; error.kind(), ErrorKind::InvalidHost);
/// ```
#[derive(Clone, Copy, Debug, PartialEq, Eq)]
pub enum ErrorKind {
    /// No `scheme` (RFC 3986, section 3.1).
    InvalidScheme,
    /// No `userinfo` (section 3.2.1).
    InvalidUserInfo,
    /// No `host` (section 3.2.2).
    InvalidHost,
    /// No `reg-name`, or an IPv4 address (section 3.2.2).
    InvalidRegName,
    /// No `port` (section 3.2.3).
    InvalidPort,
    /// No `path`, or one that isn't allowed in its place (section 3.3).
    InvalidPath,
    /// No `query` (section 3.4).
    InvalidQuery,
    /// No `fragment` (section 3.5).
    InvalidFragment,
    /// A fragment where none is allowed (`absolute-URI`, section 4.3).
    UnexpectedFragment,
    /// No scheme where one is wanted (section 4.3).
    UnexpectedRelative,
    /// Bytes that are no UTF-8.
    InvalidUtf8,
}

impl ErrorKind {
    ghost use Rattle.iri_grammar.specs.ErrorTexts.{description};

    /// The kind in words, as in `Error`'s `Display`.
    pub fn description(self) -> &'static str
        ensures { result.now ≡ description self }
    {
        match self {
            ErrorKind::InvalidScheme => "invalid scheme",
            ErrorKind::InvalidUserInfo => "invalid userinfo",
            ErrorKind::InvalidHost => "invalid host",
            ErrorKind::InvalidRegName => "invalid reg-name",
            ErrorKind::InvalidPort => "invalid port",
            ErrorKind::InvalidPath => "invalid path",
            ErrorKind::InvalidQuery => "invalid query",
            ErrorKind::InvalidFragment => "invalid fragment",
            ErrorKind::UnexpectedFragment => "unexpected fragment",
            ErrorKind::UnexpectedRelative => "expected an absolute IRI but got a relative IRI",
            ErrorKind::InvalidUtf8 => "invalid utf-8 bytes",
        }
    }
}

/// Why a text is refused: the first fault of the text.
///
/// ```
/// use iri::spec::UriSpec;
/// use iri::validate;
/// let error = validate::iri_reference::<UriSpec>("/a b").err().ok_or("a fault")?;
/// assert_eq!(rt; error.kind().description(), "invalid path");
/// ```
#[derive(Clone, Copy, Debug, PartialEq, Eq)]
pub struct Error {
    pub(crate) kind: ErrorKind,
}

impl Error {
    /// The error of this kind.
    pub fn new(kind: ErrorKind) -> Self
        ensures { result.kind ≡ kind }
    {
        Error { kind }
    }

    /// What is wrong.
    pub fn kind(&self) -> ErrorKind
        ensures { result ≡ self.now.kind }
    {
        self.kind
    }
}

impl fmt::Display for Error {
    ghost use Rattle.iri_grammar.specs.ErrorTexts.{description};

    ghost output = { λ e. Some (codes "invalid IRI: " ++ description e.kind) };

    fn fmt<W: fmt::Write>(&self, f: &mut fmt::Formatter<W>) -> fmt::Result {
        let description = self.kind.description();
        write!(f, "invalid IRI: {description}")
    }
}

impl std::error::Error for Error {}
