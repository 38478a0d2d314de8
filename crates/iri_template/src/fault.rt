//! The first fault of a text as a template (RFC 6570 section 2).
ghost use Rattle.std.specs.Prelude.{◌≡◌, ◌<◌, ◌+◌, ◌^◌, length, MatchResult, Some};
ghost use Rattle.iri_grammar.specs.Characters.{left_brace, percent_sign};
ghost use Rattle.iri_grammar.specs.Pieces.{pieces};
ghost use Rattle.iri_template.specs.Fault.{Answers, moved, is_reserved_operator, varspecs_fault, body_fault, triplet_fault};
ghost use Rattle.iri_template.specs.Fault.{piece_fault, text_fault};
ghost use Rattle.iri_template.specs.Reading.{first_of};
ghost use Rattle.iri_template.specs.inside.Parts.{IsPast};

use crate::error::{Error, ErrorKind};
use crate::part::{cut_body, cut_operator, past_literals, read_triplet};
use crate::varspec::check_varspec;
use iri_grammar::cutting::cut;

// Whether varspecs parted by commas are some. `at` is their place, and a brace stands after them.
fn check_varspecs(varspecs: &str, at: usize) -> Result<(), Error>
    requires { at + length varspecs.now + 1 < 2 ^ 64 }
    ensures { Answers result (varspecs_fault at (pieces 44 varspecs.now)) }
{
    let mut rest = varspecs;
    'varspecs: loop {
        let (first, others) = cut(rest, b',');
        match check_varspec(first, at + (varspecs.len() - rest.len())) {
            Ok(()) => match others {
                Some(more) => rest = more,
                None => return Ok(()),
            },
            Err(error) => return Err(error),
        }
    }
}

// Whether the byte is an operator that is reserved for later.
#[tactic(auto, using(std::proofs::lemmas::Bool::Decides::nat_tests), unfolding(crate::specs::Fault::is_reserved_operator))]
fn is_reserved_operator(b: u8) -> bool
    ensures { result ≡ is_reserved_operator b }
{
    b == b'=' || b == b',' || b == b'!' || b == b'@' || b == b'|'
}

// Whether a text stands between braces. `at` is its place.
fn check_body(body: &str, at: usize) -> Result<(), Error>
    requires { at + length body.now + 1 < 2 ^ 64 }
    ensures { Answers result (moved at (body_fault body.now)) }
{
    if body.is_empty() {
        return Err(Error::new(ErrorKind::InvalidExpression, at));
    }
    if is_reserved_operator(body.as_bytes()[0]) {
        return Err(Error::new(ErrorKind::UnsupportedOperator, at));
    }
    let (_, varspecs) = cut_operator(body);
    check_varspecs(varspecs, at + (body.len() - varspecs.len()))
}

// What follows the expression at the start. `at` is its place.
fn past_expression(s: &str, at: usize) -> Result<&str, Error>
    requires brace { first_of s.now ≡ left_brace }
    requires fits { at + length s.now < 2 ^ 64 }
    ensures { MatchResult result (λ r. IsPast at s.now r.now) (λ e. moved at (piece_fault s.now) ≡ Some e) }
{
    let (body, more) = cut_body(s);
    match more {
        Some(rest) => match check_body(body, at + 1) {
            Ok(()) => Ok(rest),
            Err(error) => Err(error),
        },
        None => Err(Error::new(ErrorKind::ExpressionNotClosed, at)),
    }
}

// Whether a percent-encoded octet is at the start. `at` is its place.
fn check_triplet(s: &str, at: usize) -> Result<(), Error>
    requires { at + length s.now < 2 ^ 64 }
    ensures { Answers result (moved at (triplet_fault s.now)) }
{
    match s.as_bytes() {
        [_, a, b, ..] => {
            if !a.is_ascii_hexdigit() {
                Err(Error::new(ErrorKind::InvalidPercentEncoding, at + 1))
            } else if !b.is_ascii_hexdigit() {
                Err(Error::new(ErrorKind::InvalidPercentEncoding, at + 2))
            } else {
                Ok(())
            }
        }
        _ => Err(Error::new(ErrorKind::InvalidPercentEncoding, at)),
    }
}

// What follows the percent-encoded octet at the start. `at` is its place.
fn past_triplet(s: &str, at: usize) -> Result<&str, Error>
    requires percent { first_of s.now ≡ percent_sign }
    requires fits { at + length s.now < 2 ^ 64 }
    ensures { MatchResult result (λ r. IsPast at s.now r.now) (λ e. moved at (piece_fault s.now) ≡ Some e) }
{
    match check_triplet(s, at) {
        Ok(()) => Ok(read_triplet(s).1),
        Err(error) => Err(error),
    }
}

// What follows literals, a percent-encoded octet or an expression at the start. `at` is its place.
fn past_part(s: &str, at: usize) -> Result<&str, Error>
    requires some { 0 < length s.now }
    requires fits { at + length s.now < 2 ^ 64 }
    ensures { MatchResult result (λ r. IsPast at s.now r.now) (λ e. moved at (piece_fault s.now) ≡ Some e) }
{
    match s.as_bytes()[0] {
        b'{' => past_expression(s, at),
        b'%' => past_triplet(s, at),
        _ => {
            let rest = past_literals(s);
            if rest.len() < s.len() {
                Ok(rest)
            } else {
                Err(Error::new(ErrorKind::InvalidCharacter, at))
            }
        }
    }
}

// Whether a text is a template.
pub(crate) fn check_template(template: &str) -> Result<(), Error>
    ensures { Answers result (text_fault template.now) }
{
    let mut rest = template;
    'parts: while !rest.is_empty() {
        match past_part(rest, template.len() - rest.len()) {
            Ok(next) => rest = next,
            Err(error) => return Err(error),
        }
    }
    Ok(())
}
