//! Which rules a normal form follows.
ghost use Rattle.std.specs.Prelude.{◌≡◌, ◌||◌, codes};
ghost use Rattle.std.specs.Str.{str_eq_ignore_ascii_case};
ghost use Rattle.iri_grammar.specs.OptionalSlices.{now_of};
ghost use Rattle.iri_percent.specs.SchemeRules.{default_port, dropped_port, is_either};

/// Which rules a normal form follows (RFC 3986 section 6.2).
///
/// ```
/// use iri::normalize::{CanonMode, canonicalize_in};
/// use iri::spec::UriSpec;
/// let link = canonicalize_in::<UriSpec>(rt.alloc(), CanonMode::Scheme, b"http:", b"http://example.com:80")?;
/// assert_eq!(rt; link.as_str(), "http://example.com/");
/// ```
#[derive(Clone, Copy, PartialEq, Eq, Debug)]
pub enum CanonMode {
    /// The rules of every scheme (RFC 3986 section 6.2.2): a default port stays. An empty port goes (section 6.2.3).
    Default,
    /// The rules of five schemes as well (section 6.2.3): the default port goes, and beside an authority an empty path becomes `/`.
    Scheme,
}

// Whether the scheme is one of two, in any case of its letters.
fn is_either(scheme: &str, one: &str, other: &str) -> bool
    ensures { result ≡ is_either scheme.now one.now other.now }
{
    scheme.eq_ignore_ascii_case(one) || scheme.eq_ignore_ascii_case(other)
}

/// The default port of a scheme, in any case of its letters: `80` for `http` and `ws`, `443` for `https` and `wss`,
/// `21` for `ftp`, and none for another.
#[tactic(auto, unfolding(crate::specs::SchemeRules::default_port))]
pub fn default_port(scheme: &str) -> Option<&'static str>
    ensures { now_of result ≡ default_port scheme.now }
{
    if is_either(scheme, "http", "ws") {
        return Some("80");
    }
    if is_either(scheme, "https", "wss") {
        return Some("443");
    }
    if scheme.eq_ignore_ascii_case("ftp") {
        return Some("21");
    }
    None
}

impl CanonMode {
    /// The port that goes from an authority beside this scheme: by scheme rules its default port, otherwise none.
    ///
    /// ```
    /// use iri::normalize::CanonMode;
    /// assert_eq!(rt; CanonMode::Scheme.dropped_port(Some("HTTP")), Some("80"));
    /// assert_eq!(rt; CanonMode::Default.dropped_port(Some("http")), None);
    /// ```
    pub fn dropped_port(self, scheme: Option<&str>) -> Option<&'static str>
        ensures { now_of result ≡ dropped_port self (now_of scheme.entry) }
    {
        match (self, scheme) {
            (CanonMode::Scheme, Some(scheme)) => default_port(scheme),
            _ => None,
        }
    }
}
