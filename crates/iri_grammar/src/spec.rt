//! The two grammars: URIs (RFC 3986) and IRIs (RFC 3987).
ghost use Rattle.std.specs.Prelude.{◌≡◌, ℕ, ◌<◌, Bool, true, refl};
ghost use Rattle.iri_grammar.specs.Classes.{Tests, IsSpec, HasFirstUcschars, uri_tests, iri_tests, is_ucschar_plane};
ghost use Rattle.iri_grammar.specs.inside.Laws.{uri_is_spec, iri_is_spec};

/// A grammar's choice of characters past ASCII (RFC 3987 section 2.2).
///
/// ```
/// use iri::spec::{IriSpec, Spec, UriSpec};
/// assert!(rt; IriSpec::is_nonascii_char_unreserved('é'));
/// assert!(rt; !UriSpec::is_nonascii_char_unreserved('é'));
/// assert!(rt; IriSpec::is_nonascii_char_private('\u{e000}'));
/// ```
pub trait Spec: Copy {
    /// Which characters pass the two tests.
    ghost tests: { Tests };

    /// Whether the character is unreserved, beside those of ASCII.
    fn is_nonascii_char_unreserved(c: char) -> bool
        ensures { result ≡ tests.ucs c };

    /// Whether the character is for private use, which may be in a query.
    fn is_nonascii_char_private(c: char) -> bool
        ensures { result ≡ tests.priv c };

    /// Where this is true, all characters from U+00A0 to U+D7FF, the first range of `ucschar`, are unreserved (RFC 3987 section 2.2).
    /// False, the default, says nothing.
    fn has_first_ucschars() -> bool
        ensures { result ≡ true → HasFirstUcschars tests }
    {
        false
    }

    /// Both tests fail below 128, and no character passes both.
    ghost lawful: { IsSpec tests };
}

/// The grammar of URIs: no character past ASCII (RFC 3986).
///
/// ```
/// use iri::spec::UriSpec;
/// use iri::validate;
/// assert!(rt; validate::iri_reference::<UriSpec>("ros%C3%A9").is_ok());
/// assert!(rt; validate::iri_reference::<UriSpec>("rosé").is_err());
/// ```
#[derive(Clone, Copy)]
pub enum UriSpec {}

/// The grammar of IRIs: `ucschar`, and `iprivate` in a query (RFC 3987 section 2.2).
///
/// ```
/// use iri::spec::IriSpec;
/// use iri::validate;
/// assert!(rt; validate::iri_reference::<IriSpec>("rosé").is_ok());
/// assert!(rt; validate::query::<IriSpec>("\u{e000}").is_ok());
/// assert!(rt; validate::fragment::<IriSpec>("\u{e000}").is_err());
/// ```
#[derive(Clone, Copy)]
pub enum IriSpec {}

impl Spec for UriSpec {
    ghost tests = { uri_tests };

    ghost lawful = { uri_is_spec };

    fn is_nonascii_char_unreserved(_c: char) -> bool {
        false
    }

    fn is_nonascii_char_private(_c: char) -> bool {
        false
    }
}

impl Spec for IriSpec {
    ghost tests = { iri_tests };

    ghost lawful = { iri_is_spec };

    #[tactic(auto, using(std::proofs::lemmas::Bool::Decides::nat_tests), unfolding(crate::specs::Classes::is_ucschar))]
    fn is_nonascii_char_unreserved(c: char) -> bool {
        matches!(c, '\u{A0}'..='\u{D7FF}' | '\u{F900}'..='\u{FDCF}' | '\u{FDF0}'..='\u{FFEF}')
            || is_ucschar_plane(c)
    }

    #[tactic(auto, using(std::proofs::lemmas::Bool::Decides::nat_tests), unfolding(crate::specs::Classes::is_iprivate))]
    fn is_nonascii_char_private(c: char) -> bool {
        matches!(c, '\u{E000}'..='\u{F8FF}' | '\u{F0000}'..='\u{FFFFD}' | '\u{100000}'..='\u{10FFFD}')
    }

    #[tactic(auto, using(std::proofs::lemmas::Bool::Decides::nat_tests), unfolding(crate::specs::Classes::is_ucschar))]
    fn has_first_ucschars() -> bool {
        true
    }
}

// Whether the character is a `ucschar` past the first plane: there the last two of each are none.
#[tactic(auto, using(std::proofs::lemmas::Bool::Decides::nat_tests), unfolding(crate::specs::Classes::is_ucschar_plane))]
fn is_ucschar_plane(c: char) -> bool
    ensures { result ≡ is_ucschar_plane c }
{
    let code = u32::from(c);
    (0x1_0000 <= code && code <= 0xD_FFFF && code % 0x1_0000 < 0xFFFE)
        || (0xE_1000 <= code && code <= 0xE_FFFD)
}
