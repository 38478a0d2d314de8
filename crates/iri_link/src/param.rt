// Parameters of link-values (RFC 8288 section 3).
ghost use Rattle.std.specs.Prelude.{◌≡◌, option_map, string_bytes, IfOk, MatchOption};
ghost use Rattle.iri_grammar.specs.OptionalSlices.{now_of};
ghost use Rattle.iri_link.specs.Stored.{param_of, value_of};
ghost use Rattle.iri_link.specs.inside.ReadParams.{LacksEquals, ReadsEquals};
ghost use Rattle.iri_link.specs.inside.ReadQuoted.{said};
ghost use Rattle.iri_link.specs.inside.Pieces.{param_said};

use crate::param_text::ParamText;
use crate::quoted::unquote;
use crate::runs::{Run, cut_run, past};
use std::alloc::{AllocError, Global};

// A parameter: its name in lower case, and its value where it has one.
#[derive(Debug, Drop)]
pub(crate) struct Param {
    pub(crate) name: String,
    pub(crate) value: Option<String>,
}

// What follows a `=` and the blanks round it, where it comes after a name.
pub(crate) fn past_equals(s: &str) -> Option<&str>
    ensures { MatchOption result (LacksEquals s.now) (λ r. ReadsEquals s.now r.now) }
{
    let (_, next) = cut_run(Run::Blank, s);
    match past(next, b'=') {
        Some(following) => {
            let (_, value) = cut_run(Run::Blank, following);
            Some(value)
        }
        None => None,
    }
}

// A value, in which a `\` before a character goes or stays.
fn keep_text(alloc: Global, raw: &str, escapes: bool) -> Result<String, AllocError>
    ensures { IfOk result (λ v. string_bytes v ≡ said escapes raw.now) }
{
    if escapes {
        unquote(alloc, raw)
    } else {
        String::from_str(alloc, raw)
    }
}

// The value of a parameter, where it has one.
fn keep_value(
    alloc: Global,
    value: Option<&str>,
    escapes: bool,
) -> Result<Option<String>, AllocError>
    ensures { IfOk result (λ v. value_of v ≡ option_map (said escapes) (now_of value.entry)) }
{
    match value {
        Some(value) => Ok(Some(keep_text(alloc, value, escapes)?)),
        None => Ok(None),
    }
}

// A parameter, owned.
pub(crate) fn keep_param(alloc: Global, param: ParamText<'_>) -> Result<Param, AllocError>
    ensures { IfOk result (λ p. param_of p ≡ param_said param.entry) }
{
    let name = param.name.to_ascii_lowercase(alloc)?;
    let value = keep_value(alloc, param.value, param.escapes)?;
    Ok(Param { name, value })
}
