//! What RFC 3986 has no normal form of.
ghost use Rattle.std.specs.Prelude.{Some, codes};

use std::fmt;

/// There is no authority, and the path without its dot segments begins with two slashes, so that one would be read from
/// it (RFC 3986 section 3.3). A normal form there is has `/.` before the path. A base's path that is taken whole is
/// never refused so, since none of its dot segments is removed.
///
/// ```
/// use iri::prelude::Normalize;
/// use iri::types::UriStr;
/// let link = UriStr::new("web+demo:/.//not-a-host/")?;
/// let error = link.ensure_rfc3986_normalizable().err().ok_or("a fault")?;
/// assert_eq!(rt; format!(in rt.alloc(); "{error}")?.as_str(), "unresolvable IRI");
/// ```
#[derive(Clone, Debug, Drop)]
pub struct Unresolvable;

impl fmt::Display for Unresolvable {
    ghost output = { λ _. Some (codes "unresolvable IRI") };

    ghost styled_output = { λ _ _. Some (codes "unresolvable IRI") };

    fn fmt<W: fmt::Write>(&self, f: &mut fmt::Formatter<W>) -> fmt::Result {
        f.write_str("unresolvable IRI")
    }
}

impl std::error::Error for Unresolvable {}
