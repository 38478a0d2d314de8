//! Parts of a template, and how they are read where they have no fault (RFC 6570 section 2).
ghost use Rattle.std.specs.Prelude.{◌≡◌, ◌<◌, ◌+◌, ◌^◌, ◌++◌, length, take, drop, None};
ghost use Rattle.iri_grammar.specs.Characters.{left_brace, percent_sign, right_brace};
ghost use Rattle.iri_grammar.specs.Cut.{after, tail};
ghost use Rattle.iri_grammar.specs.OptionalSlices.{now_of};
ghost use Rattle.iri_template.specs.Fault.{piece_fault, triplet_fault};
ghost use Rattle.iri_template.specs.Reading.{first_of, body_of, operator_of, after_operator};
ghost use Rattle.iri_template.specs.inside.Parts.{IsPastLiterals, IsPart, HasVarSpecs, Follows};

use crate::operator::Operator;
use crate::varspecs::VarSpecs;
use iri_grammar::class::{Class, is_any_char};
use iri_grammar::cutting::cut;
use iri_grammar::over::past_run;
use iri_grammar::spec::IriSpec;

// A part of a template.
#[derive(Debug, Drop)]
pub(crate) enum Part<'a> {
    // Literals without percent-encoded octets.
    Literals(&'a str),
    // A literal percent-encoded octet.
    Triplet(&'a str),
    // An expression: what stands in braces.
    Expression(Operator, VarSpecs<'a>),
}

impl<'a> Part<'a> {
    // Its varspecs, where it is an expression.
    pub(crate) fn varspecs(self) -> VarSpecs<'a>
        ensures { HasVarSpecs self.entry result }
    {
        match self {
            Part::Expression(_, varspecs) => return varspecs,
            Part::Literals(_) => return VarSpecs::none(),
            Part::Triplet(_) => return VarSpecs::none(),
        }
    }
}

// What follows the first character, where that is a literal, or the text as it is.
#[tactic(auto, using(crate::proofs::Prefixes::one_passed, crate::proofs::Prefixes::nothing_passed))]
fn past_literal(s: &str) -> &str
    ensures { IsPastLiterals s.now result.now }
{
    let mut chars = s.chars();
    match chars.next() {
        Some(c) if is_any_char::<IriSpec>(c) => chars.as_str(),
        _ => s,
    }
}

// What follows literals at the start, as many as were found at once, or the text as it is where none stands
// there.
#[tactic(auto, using(crate::proofs::Prefixes::run_passed))]
pub(crate) fn past_literals(s: &str) -> &str
    ensures { IsPastLiterals s.now result.now }
{
    let tail = past_run(Class::Any, s);
    if tail.len() < s.len() {
        tail
    } else {
        past_literal(s)
    }
}

// The body of the expression at the start, and what follows it; none where no `}` follows.
pub(crate) fn cut_body(s: &str) -> (&str, Option<&str>)
    requires { first_of s.now ≡ left_brace }
    ensures body { result.0.now ≡ body_of s.now }
    ensures rest { now_of result.1 ≡ after right_brace (tail s.now) }
{
    cut(&s[1..], b'}')
}

// The operator of a body, and its varspecs.
pub(crate) fn cut_operator(body: &str) -> (Operator, &str)
    ensures operator { result.0 ≡ operator_of body.now }
    ensures varspecs { result.1.now ≡ after_operator body.now }
{
    if body.is_empty() {
        return (Operator::Simple, body);
    }
    match Operator::at(body.as_bytes()[0]) {
        Operator::Simple => (Operator::Simple, body),
        operator => (operator, &body[1..]),
    }
}

// What follows, where it does.
fn or_empty(more: Option<&str>) -> &str
    ensures { Follows more.entry result.now }
{
    match more {
        Some(rest) => rest,
        None => "",
    }
}

// The expression at the start, and what follows it. `at` is its place.
fn read_expression(s: &str, at: usize) -> (Part<'_>, &str)
    requires brace { first_of s.now ≡ left_brace }
    requires fine { piece_fault s.now ≡ None }
    requires fits { at + length s.now < 2 ^ 64 }
    ensures { IsPart result.0 at s.now result.1.now }
{
    let (body, more) = cut_body(s);
    let (operator, text) = cut_operator(body);
    let varspecs = VarSpecs {
        text: Some(text),
        end: at + 1 + body.len(),
    };
    (Part::Expression(operator, varspecs), or_empty(more))
}

// The percent-encoded octet at the start, and what follows it.
pub(crate) fn read_triplet(s: &str) -> (&str, &str)
    requires { triplet_fault s.now ≡ None }
    ensures triplet { result.0.now ≡ take 3 s.now }
    ensures rest { result.1.now ≡ drop 3 s.now }
{
    (&s[..3], &s[3..])
}

// The part at the start, and what follows it. `at` is its place in the template.
pub(crate) fn read_part(s: &str, at: usize) -> (Part<'_>, &str)
    requires some { 0 < length s.now }
    requires fine { piece_fault s.now ≡ None }
    requires fits { at + length s.now < 2 ^ 64 }
    ensures { IsPart result.0 at s.now result.1.now }
{
    match s.as_bytes()[0] {
        b'{' => read_expression(s, at),
        b'%' => {
            let (triplet, rest) = read_triplet(s);
            (Part::Triplet(triplet), rest)
        }
        _ => {
            let rest = past_literals(s);
            (Part::Literals(&s[..s.len() - rest.len()]), rest)
        }
    }
}
