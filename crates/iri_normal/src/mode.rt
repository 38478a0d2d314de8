//! The modes in which parts are written.
ghost use Rattle.std.specs.Prelude.{◌≡◌};
ghost use Rattle.iri_grammar.specs.OptionalSlices.{now_of};
ghost use Rattle.iri_normal.specs.Modes.{dropped_in, is_by_scheme, is_normalizing, mode_of};

pub use iri_percent::CanonMode;

/// How the parts of a reference are written.
#[derive(Clone, Copy, Debug)]
pub enum Mode {
    /// As they stand, and the path without its dot segments (RFC 3986 section 5.2.4), with `/.` before it where it would be read as an
    /// authority. A base's path that is taken whole stays as it is.
    Plain,
    /// In normal form (section 6.2.2).
    Normal,
    /// In normal form, but a path without authority that doesn't begin with a slash keeps its dot segments.
    Preserving,
    /// In normal form by scheme rules (section 6.2.3): without the scheme's default port, and with `/` for an empty path beside an
    /// authority, where the scheme has a default port.
    ByScheme,
}

/// The mode of a normal form.
pub fn mode_of(mode: CanonMode) -> Mode
    ensures { result ≡ mode_of mode }
{
    match mode {
        CanonMode::Default => Mode::Normal,
        CanonMode::Scheme => Mode::ByScheme,
    }
}

// Whether more than the path is put into normal form.
pub(crate) fn is_normalizing(mode: Mode) -> bool
    ensures { result ≡ is_normalizing mode }
{
    match mode {
        Mode::Plain => false,
        Mode::Normal | Mode::Preserving | Mode::ByScheme => true,
    }
}

// Whether scheme rules are followed.
pub(crate) fn is_by_scheme(mode: Mode) -> bool
    ensures { result ≡ is_by_scheme mode }
{
    match mode {
        Mode::Plain | Mode::Normal | Mode::Preserving => false,
        Mode::ByScheme => true,
    }
}

// The port that goes from an authority beside this scheme.
#[inline(always)]
pub(crate) fn dropped_in(mode: Mode, scheme: Option<&str>) -> Option<&'static str>
    ensures { now_of result ≡ dropped_in mode (now_of scheme.entry) }
{
    match mode {
        Mode::Plain | Mode::Normal | Mode::Preserving => None,
        Mode::ByScheme => CanonMode::Scheme.dropped_port(scheme),
    }
}
