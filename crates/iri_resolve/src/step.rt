//! Steps that change parts towards their normal form.

/// A part that may hold percent-encoded octets.
///
/// ```
/// use iri::steps::{Part, Step};
/// assert_eq!(rt; format!(in rt.alloc(); "{}", Step::Decode(Part::Query, 3))?.as_str(), "decode query 3");
/// ```
#[derive(Clone, Copy, Debug, PartialEq, Eq)]
pub enum Part {
    /// The userinfo, host and port.
    Authority,
    /// The path.
    Path,
    /// What follows the question mark.
    Query,
    /// What follows the number sign.
    Fragment,
}

/// A step. Positions count the bytes of the part's text.
///
/// ```
/// use iri::steps::{Part, Step};
/// assert_eq!(rt; format!(in rt.alloc(); "{}", Step::Decode(Part::Path, 1))?.as_str(), "decode path 1");
/// ```
#[derive(Clone, Copy, Debug, PartialEq, Eq)]
pub enum Step {
    /// The capital at this place of the scheme becomes small.
    SchemeLetter(usize),
    /// The capital at this place of the authority, outside percent-encoded octets and in an ASCII host, becomes small.
    HostLetter(usize),
    /// The small hex digit at this place, inside a percent-encoded octet of the part, becomes a capital.
    HexDigit(Part, usize),
    /// The unreserved character that the percent-encoded octets from this place on spell becomes itself.
    Decode(Part, usize),
    /// The empty port goes with its colon.
    EmptyPort,
    /// The dot segments of the path are removed, and the guard is put where it is needed.
    Dots,
    /// By scheme rules (RFC 3986 section 6.2.3): the port that is the scheme's default port goes with its colon.
    DefaultPort,
    /// By scheme rules: the empty path beside an authority becomes `/`, where the scheme has a default port.
    SlashPath,
}
