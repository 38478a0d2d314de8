//! Texts over a class: characters of the class and percent-encoded octets (RFC 3986 section 2.1).
ghost use Rattle.std.specs.Prelude.{◌≡◌, ◌≤◌, ◌+◌, ◌&&◌, ◌++◌, drop, length, false, true, MatchOption};
ghost use Rattle.std.specs.List.{list_all};
ghost use Rattle.std.specs.Str.{chars, IsUtf8};
ghost use Rattle.iri_grammar.specs.ClassTests.{class_test, ascii_test};
ghost use Rattle.iri_grammar.specs.Over.{over, text_over};
ghost use Rattle.iri_grammar.specs.Runs.{run_of};

use crate::class::Class;
use crate::run::run_len;
use crate::spec::Spec;
use crate::unit::cut_units;

/// What follows the ASCII characters of the class at the start.
pub fn past_run(class: Class, s: &str) -> &str
    ensures { result.now ≡ drop (run_of (ascii_test class) s.now) s.now }
{
    &s[run_len(class, s.as_bytes())..]
}

// Whether the text is made of ASCII characters of the class alone.
#[tactic(auto, using(crate::proofs::splits::PartEnds::run_of_all))]
pub(crate) fn is_run(class: Class, s: &str) -> bool
    ensures { result ≡ list_all (ascii_test class) s.now }
{
    run_len(class, s.as_bytes()) == s.len()
}

/// Whether the text is made of characters of the class and of percent-encoded octets.
pub fn is_over<S: Spec>(class: Class, s: &str) -> bool
    ensures { result ≡ text_over (class_test S.tests class) s.now }
{
    let rest = cut_units::<S>(class, s.as_bytes()).rest;
    rest.is_empty()
}
