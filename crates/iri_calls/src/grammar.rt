// The numbers of grammars and modes.
ghost use Rattle.std.specs.Prelude.{◌≡◌};
ghost use Rattle.iri_calls.specs.Numbers.{mode_numbered};

use iri_normal::mode::CanonMode;

/// The grammar of URIs (RFC 3986).
pub const URI: u32 = 100;

/// The grammar of IRIs (RFC 3987).
pub const IRI: u32 = 101;

/// The normal form of RFC 3986 section 6.2.2, with an empty port removed (section 6.2.3).
pub const NORMAL: u32 = 200;

/// The normal form by scheme rules too (section 6.2.3): without the scheme's default port, and with `/` for an empty path beside
/// an authority.
pub const BY_SCHEME: u32 = 201;

/// The normal form in which a path without authority that doesn't begin with a slash keeps its dot segments. It is a form of
/// one text alone, and no mode of canonical texts.
pub const PRESERVING: u32 = 202;

/// The mode of this number.
pub(crate) fn mode_of(mode: u32) -> Option<CanonMode>
    ensures { result ≡ mode_numbered mode }
{
    match mode {
        NORMAL => Some(CanonMode::Default),
        BY_SCHEME => Some(CanonMode::Scheme),
        _ => None,
    }
}
