// The first fault of a text (RFC 8288 section 3): its kind, and what is left of the text from its place on. It allocates nothing.
ghost use Rattle.std.specs.Prelude.{◌≡◌, ◌∷◌, None, false, true, MatchOption, MatchResult};
ghost use Rattle.iri_grammar.specs.Classes.{Tests};
ghost use Rattle.iri_grammar.specs.Blanks.{is_blank};
ghost use Rattle.iri_grammar.specs.inside.Runs.{first_passes};
ghost use Rattle.iri_link.specs.Characters.{less_than_sign};
ghost use Rattle.iri_link.specs.Fault.{fault_from};
ghost use Rattle.iri_link.specs.Phases.{after_equals, after_semicolon, before_link, after_param, in_name};
ghost use Rattle.iri_link.specs.inside.Faults.{GoesOn, IsFault, Passes, phase_at};

use crate::error::LinkKind;
use crate::param::past_equals;
use crate::plain::past_plain;
use crate::quoted::past_quoted;
use crate::runs::{Run, begins_token, cut_run, past};
use iri_grammar::cutting::cut;
use iri_grammar::spec::Spec;
use iri_grammar::splitter::Splitter;

// What follows a target, of which `inner` comes after its `<`.
fn past_target<'a, S: Spec>(s: &'a str, inner: &'a str) -> Result<&'a str, (LinkKind, &'a str)>
    requires { s.now ≡ less_than_sign ∷ inner.now }
    ensures { MatchResult result (λ r. Passes S.tests before_link s.now true r.now)
        (λ e. IsFault e (fault_from S.tests before_link s.now)) }
{
    let (target, rest) = cut(inner, b'>');
    let Some(after) = rest else {
        return Err((LinkKind::OpenTarget, s));
    };
    match Splitter::new::<S>(target) {
        Ok(_) => Ok(after),
        Err(error) => Err((LinkKind::BadTarget(error), inner)),
    }
}

// What follows the next target or comma before a link-value, and whether it was a target; `None` at the end.
fn past_outside<'a, S: Spec>(s: &'a str) -> Result<Option<(bool, &'a str)>, (LinkKind, &'a str)>
    ensures { MatchResult result (λ o. MatchOption o (fault_from S.tests before_link s.now ≡ None)
        (λ r. Passes S.tests before_link s.now r.0 r.1.now))
        (λ e. IsFault e (fault_from S.tests before_link s.now)) }
{
    let (_, next) = cut_run(Run::Blank, s);
    if let Some(after) = past(next, b',') {
        return Ok(Some((false, after)));
    }
    if next.is_empty() {
        return Ok(None);
    }
    let Some(inner) = past(next, b'<') else {
        return Err((LinkKind::NoTarget, next));
    };
    match past_target::<S>(next, inner) {
        Ok(rest) => Ok(Some((true, rest))),
        Err(fault) => Err(fault),
    }
}

// What follows a value, after a `=` and blanks.
fn past_value<'a>(s: &'a str) -> Result<&'a str, (LinkKind, &'a str)>
    requires { first_passes is_blank s.now ≡ false }
    ensures { MatchResult result (λ r. (t : Tests) → GoesOn t after_equals s.now after_param r.now)
        (λ e. (t : Tests) → IsFault e (fault_from t after_equals s.now)) }
{
    if let Some(inner) = past(s, b'"') {
        return match past_quoted(inner) {
            Some(rest) => Ok(rest),
            None => Err((LinkKind::OpenString, s)),
        };
    }
    if !begins_token(s) {
        return Err((LinkKind::NoValue, s));
    }
    let (_, rest) = cut_run(Run::Token, s);
    Ok(rest)
}

// What follows a parameter.
fn past_param<'a>(s: &'a str) -> Result<&'a str, (LinkKind, &'a str)>
    ensures { MatchResult result (λ r. (t : Tests) → GoesOn t in_name s.now after_param r.now)
        (λ e. (t : Tests) → IsFault e (fault_from t in_name s.now)) }
{
    let (_, rest) = cut_run(Run::Token, s);
    match past_equals(rest) {
        Some(start) => match past_value(start) {
            Ok(after) => Ok(after),
            Err(fault) => Err(fault),
        },
        None => Ok(rest),
    }
}

// What follows a `;` and a parameter, where one stands after it; `following` comes after the `;`.
fn past_semicolon<'a>(following: &'a str) -> Result<&'a str, (LinkKind, &'a str)>
    ensures { MatchResult result (λ r. (t : Tests) → GoesOn t after_semicolon following.now after_param r.now)
        (λ e. (t : Tests) → IsFault e (fault_from t after_semicolon following.now)) }
{
    let (_, next) = cut_run(Run::Blank, following);
    if !begins_token(next) {
        return Ok(next);
    }
    match past_param(next) {
        Ok(rest) => Ok(rest),
        Err(fault) => Err(fault),
    }
}

// What follows the next `;`, with its parameter, or comma after a target or a parameter, and whether it was a `;`; `None` at
// the end.
fn past_inside<'a>(s: &'a str) -> Result<Option<(bool, &'a str)>, (LinkKind, &'a str)>
    ensures { MatchResult result (λ o. (t : Tests) → MatchOption o (fault_from t after_param s.now ≡ None)
        (λ r. Passes t after_param s.now r.0 r.1.now))
        (λ e. (t : Tests) → IsFault e (fault_from t after_param s.now)) }
{
    let (_, next) = cut_run(Run::Blank, s);
    if let Some(following) = past(next, b';') {
        return match past_semicolon(following) {
            Ok(rest) => Ok(Some((true, rest))),
            Err(fault) => Err(fault),
        };
    }
    if let Some(after) = past(next, b',') {
        return Ok(Some((false, after)));
    }
    if next.is_empty() {
        return Ok(None);
    }
    Err((LinkKind::NoParam, next))
}

// The same where `inside` says that the text stands after a target or a parameter, and not before a link-value.
fn past_next<'a, S: Spec>(
    inside: bool,
    s: &'a str,
) -> Result<Option<(bool, &'a str)>, (LinkKind, &'a str)>
    ensures { MatchResult result (λ o. MatchOption o (fault_from S.tests (phase_at inside) s.now ≡ None)
        (λ r. Passes S.tests (phase_at inside) s.now r.0 r.1.now))
        (λ e. IsFault e (fault_from S.tests (phase_at inside) s.now)) }
{
    if inside {
        past_inside(s)
    } else {
        past_outside::<S>(s)
    }
}

// Looks for the first fault of a text.
pub(crate) fn check_text<'a, S: Spec>(text: &'a str) -> Result<(), (LinkKind, &'a str)>
    ensures { MatchResult result (λ _. fault_from S.tests before_link text.now ≡ None)
        (λ e. IsFault e (fault_from S.tests before_link text.now)) }
{
    let mut inside = false;
    let mut rest = text;
    'pieces: loop {
        if rest.is_empty() {
            return Ok(());
        }
        match past_next::<S>(inside, rest) {
            Ok(Some((then, after))) => {
                inside = then;
                rest = past_plain(then, after);
            }
            Ok(None) => return Ok(()),
            Err(fault) => return Err(fault),
        }
    }
}
