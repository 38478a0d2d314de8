// Path, query and fragment (RFC 3986 sections 3.3 to 3.5).
ghost use Rattle.std.specs.Prelude.{◌≡◌, ◌∷◌, ◌++◌, ◌<◌, false, true, MatchOption};
ghost use Rattle.std.specs.Str.{IsUtf8};
ghost use Rattle.iri_grammar.specs.Characters.{percent_sign};
ghost use Rattle.iri_grammar.specs.ClassTests.{class_test};
ghost use Rattle.iri_grammar.specs.Components.{if_there};
ghost use Rattle.iri_grammar.specs.Cut.{begins, lacks, delimited};
ghost use Rattle.iri_grammar.specs.OptionalSlices.{now_of};
ghost use Rattle.iri_grammar.specs.Over.{text_over};
ghost use Rattle.iri_grammar.specs.inside.Scans.{part_left};
ghost use Rattle.iri_grammar.specs.inside.Tails.{PartStops, ScansTail, KeepsNotes};

use crate::class::Class;
use crate::error::ErrorKind;
use crate::spec::Spec;
use crate::unit::cut_units;

// Path, query and fragment, as slices of a text, what is left over, and which of the parts may have percent-encoded octets.
#[derive(Clone, Copy)]
pub(crate) struct Tail<'a> {
    pub path: &'a str,
    pub query: Option<&'a str>,
    pub fragment: Option<&'a str>,
    pub rest: &'a [u8],
    pub path_triplets: bool,
    pub query_triplets: bool,
    pub fragment_triplets: bool,
}

// What follows this byte at the start.
#[inline(always)]
fn after_first(s: &[u8], delimiter: u8) -> Option<&[u8]>
    ensures { MatchOption result (begins delimiter s.now ≡ false) (λ r. s.now ≡ delimiter ∷ r.now) }
{
    match s {
        [b, rest @ ..] if *b == delimiter => Some(rest),
        _ => None,
    }
}

// The characters of a part after its delimiter, the rest, and whether no percent-encoded octet was found.
#[derive(Clone, Copy)]
struct PartCut<'a> {
    part: Option<&'a str>,
    rest: &'a [u8],
    bare: bool,
}

// Bytes cut after a part that a delimiter begins, where it stands.
#[inline(always)]
fn cut_part<S: Spec>(delimiter: u8, class: Class, s: &[u8]) -> PartCut<'_>
    ensures whole { s.now ≡ delimited delimiter (now_of result.part) ++ result.rest.now }
    ensures over { if_there (text_over (class_test S.tests class)) (now_of result.part) ≡ true }
    ensures stops { delimiter < 128 → IsUtf8 s.now
        → PartStops (class_test S.tests class) delimiter (now_of result.part) result.rest.now }
    ensures bare { result.bare ≡ true → if_there (lacks percent_sign) (now_of result.part) ≡ true }
{
    match after_first(s, delimiter) {
        Some(s) => {
            let cut = cut_units::<S>(class, s);
            PartCut {
                part: Some(cut.units),
                rest: cut.rest,
                bare: cut.bare,
            }
        }
        None => PartCut {
            part: None,
            rest: s,
            bare: true,
        },
    }
}

impl<'a> Tail<'a> {
    // The parts of bytes up to where one leaves its production. They are looked at once.
    #[inline(always)]
    pub(crate) fn scan<S: Spec>(s: &'a [u8]) -> Tail<'a>
        ensures scan { ScansTail S.tests s.now result }
        ensures notes { KeepsNotes result }
    {
        let path = cut_units::<S>(Class::Path, s);
        let query = cut_part::<S>(b'?', Class::Query, path.rest);
        let fragment = cut_part::<S>(b'#', Class::Fragment, query.rest);
        Tail {
            path: path.units,
            query: query.part,
            fragment: fragment.part,
            rest: fragment.rest,
            path_triplets: !path.bare,
            query_triplets: !query.bare,
            fragment_triplets: !fragment.bare,
        }
    }

    // The part that a scan was in when it stopped.
    pub(crate) fn part_left(&self) -> ErrorKind
        ensures { result ≡ part_left (now_of self.now.query) (now_of self.now.fragment) }
    {
        if self.fragment.is_some() {
            ErrorKind::InvalidFragment
        } else if self.query.is_some() {
            ErrorKind::InvalidQuery
        } else {
            ErrorKind::InvalidPath
        }
    }
}
