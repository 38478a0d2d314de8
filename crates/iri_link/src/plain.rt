// Parameters that stand in their written form (RFC 8288 section 3). Most do, and both readings take them alike, so that they are
// passed, and shown, as one text: a line of `links` takes 2,339 instructions by bench/commands, and 4,137 without it (2026-12-01).
ghost use Rattle.std.specs.Prelude.{ℕ, List, ⊤, true, MatchOption};
ghost use Rattle.iri_link.specs.inside.PlainParams.{ArePlain, IsPlainParam};

use crate::runs::{Run, cut_run, past};

// What follows a parameter in its written form, where one comes first.
fn past_param(s: &str) -> Option<&str>
    ensures { MatchOption result ⊤ (λ r. IsPlainParam s.now r.now) }
{
    let Some(following) = past(s, b';') else {
        return None;
    };
    let Some(start) = past(following, b' ') else {
        return None;
    };
    let (name, next) = cut_run(Run::Lower, start);
    if name.is_empty() {
        return None;
    }
    let Some(value) = past(next, b'=') else {
        return None;
    };
    let Some(inner) = past(value, b'"') else {
        return None;
    };
    let (_, rest) = cut_run(Run::Plain, inner);
    match past(rest, b'"') {
        Some(after) => Some(after),
        None => None,
    }
}

// What follows parameters in their written form.
fn past_params(s: &str) -> &str
    ensures { (w : List ℕ) × ArePlain true s.now w result.now }
{
    let mut rest = s;
    'params: loop {
        match past_param(rest) {
            Some(next) => rest = next,
            None => return rest,
        }
    }
}

// What follows them, where the walk stands after a target or a parameter.
pub(crate) fn past_plain(inside: bool, s: &str) -> &str
    ensures { (w : List ℕ) × ArePlain inside s.now w result.now }
{
    if inside { past_params(s) } else { s }
}

// They, and what follows them.
pub(crate) fn cut_plain(inside: bool, s: &str) -> (&str, &str)
    ensures { ArePlain inside s.now result.0.now result.1.now }
{
    let rest = past_plain(inside, s);
    s.split_at(s.len() - rest.len())
}
