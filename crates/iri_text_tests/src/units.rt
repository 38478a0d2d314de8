ghost use Rattle.iri_grammar.specs.Classes.{iri_tests};
ghost use Rattle.iri_grammar.specs.inside.Laws.{iri_is_spec};

use crate::same::same_at;
use iri_grammar::class::Class;
use iri_grammar::over::is_over;
use iri_grammar::spec::{IriSpec, Spec, UriSpec};
use iri_grammar::splitter::Splitter;

// The grammar of IRIs by its two tests alone.
#[derive(Clone, Copy)]
enum TestsAlone {}

impl Spec for TestsAlone {
    ghost tests = { iri_tests };

    ghost lawful = { iri_is_spec };

    fn is_nonascii_char_unreserved(c: char) -> bool {
        IriSpec::is_nonascii_char_unreserved(c)
    }

    fn is_nonascii_char_private(c: char) -> bool {
        IriSpec::is_nonascii_char_private(c)
    }
}

const NOTHING: [bool; 6] = [false; 6];

// The notes of a reference, in the order of the fields: triplets of path, query and fragment, dots, capitals, another
// authority.
fn notes<S: Spec>(text: &str) -> Option<[bool; 6]> {
    match Splitter::new::<S>(text) {
        Ok(parts) => {
            let seen = parts.seen();
            Some([
                seen.path_triplets,
                seen.query_triplets,
                seen.fragment_triplets,
                seen.dots,
                seen.capitals,
                seen.other_authority,
            ])
        }
        Err(_) => None,
    }
}

// At the borders of what the first byte tells of a character, and of `ucschar`.
#[test]
fn characters_by_their_first_bytes(rt: HostRuntime) {
    for &(c, want) in &[
        ('\u{9F}', false),
        ('\u{A0}', true),
        ('\u{BF}', true),
        ('\u{C0}', true),
        ('\u{7FF}', true),
        ('\u{800}', true),
        ('\u{CFFF}', true),
        ('\u{D000}', true),
        ('\u{D7FF}', true),
        ('\u{E000}', false),
        ('\u{F8FF}', false),
        ('\u{F900}', true),
        ('\u{FFEF}', true),
        ('\u{FFF0}', false),
        ('\u{10000}', true),
        ('\u{1FFFE}', false),
    ] {
        let mut buf = [0u8; 4];
        let s: &str = c.encode_utf8(&mut buf);
        same_at(&rt, c, is_over::<IriSpec>(Class::Path, s), want);
        same_at(&rt, c, is_over::<TestsAlone>(Class::Path, s), want);
        same_at(&rt, c, is_over::<UriSpec>(Class::Path, s), false);
        let taken = if want { Some(NOTHING) } else { None };
        same_at(&rt, c, notes::<IriSpec>(s), taken);
        same_at(&rt, c, notes::<TestsAlone>(s), taken);
    }
}
