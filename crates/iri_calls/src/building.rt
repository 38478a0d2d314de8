// Texts built from parts (RFC 3986 section 5.3).
ghost use Rattle.std.specs.Prelude.{◌≡◌};
ghost use Rattle.std.specs.List.{list_all};
ghost use Rattle.iri_edit.specs.Builders.{given};
ghost use Rattle.iri_calls.specs.Building.{built_by, built_in, built_outcome, given_by, is_part, is_text, set};
ghost use Rattle.iri_calls.specs.Outcome.{Answered};
ghost use Rattle.iri_calls.specs.Outcomes.{in_grammar};

use crate::buffer::answer_text;
use crate::fault::{answer, answer_fault};
use crate::grammar::{IRI, URI};
use crate::status::{BAD_PART, UNKNOWN};
use crate::validation::{ABSOLUTE, REFERENCE, RELATIVE, WITH_SCHEME};
use crate::variables::{Text, as_str, is_utf8};
use iri_edit::build_kind::BuildKind;
use iri_edit::builder::Builder;
use iri_grammar::error::ErrorKind;
use iri_grammar::spec::{IriSpec, Spec, UriSpec};
use iri_types::kind::{Absolute, Iri, Reference, Relative};

/// A part of a text that is to be built: its number, and its text without delimiters.
#[repr(C)]
#[derive(Clone, Copy)]
pub struct Part<'a> {
    pub part: usize,
    pub text: Text<'a>,
}

pub const SCHEME: usize = 800;

pub const USERINFO: usize = 801;

pub const HOST: usize = 802;

pub const PORT: usize = 803;

pub const PATH: usize = 804;

pub const QUERY: usize = 805;

pub const FRAGMENT: usize = 806;

// Gives a builder a part.
#[tactic(auto, unfolding(crate::specs::Building::set))]
fn set_part<'a>(builder: &mut Builder<'a>, part: &Part<'a>)
    ensures { given builder.new ≡ set (given builder.old) part.now }
{
    let text = as_str(part.text.bytes);
    match part.part {
        SCHEME => builder.scheme(text),
        USERINFO => builder.userinfo(text),
        HOST => builder.host(text),
        PORT => builder.port(text),
        PATH => builder.path(text),
        QUERY => builder.query(text),
        FRAGMENT => builder.fragment(text),
        _ => (),
    }
}

// A builder that was given parts, one after the other.
fn builder_of<'a>(parts: &[Part<'a>]) -> Builder<'a>
    ensures { given result ≡ given_by parts.now }
{
    let mut builder = Builder::new();
    for part in parts {
        set_part(&mut builder, part);
    }
    builder
}

// Whether a number stands for a part.
fn is_part(part: &Part<'_>) -> bool
    ensures { result ≡ is_part part.now }
{
    SCHEME <= part.part && part.part <= FRAGMENT
}

// Whether each number stands for a part.
fn are_parts(parts: &[Part<'_>]) -> bool
    ensures { result ≡ list_all is_part parts.now }
{
    parts.iter().all(|part| is_part(part))
}

// Whether each text is UTF-8.
fn are_texts(parts: &[Part<'_>]) -> bool
    ensures { result ≡ list_all is_text parts.now }
{
    parts.iter().all(|part| is_utf8(part.text.bytes))
}

// The text of a kind that a builder makes.
fn build_as<S: Spec, K: BuildKind>(builder: &Builder<'_>, out: &mut [u8], detail: &mut usize) -> u8
    ensures { Answered (built_by S.tests K.refusal (given builder.now)) out.old out.new detail.new result }
{
    match builder.validate::<S, K>() {
        Ok(()) => answer_text(out, builder, detail),
        Err(error) => answer_fault(BAD_PART, error.kind(), detail),
    }
}

// The text of the kind of this number that a builder makes.
fn build_in<S: Spec>(kind: u32, builder: &Builder<'_>, out: &mut [u8], detail: &mut usize) -> u8
    ensures { Answered (built_in kind (given builder.now) S.tests) out.old out.new detail.new result }
{
    match kind {
        REFERENCE => build_as::<S, Reference>(builder, out, detail),
        WITH_SCHEME => build_as::<S, Iri>(builder, out, detail),
        ABSOLUTE => build_as::<S, Absolute>(builder, out, detail),
        RELATIVE => build_as::<S, Relative>(builder, out, detail),
        _ => answer(UNKNOWN, detail),
    }
}

// The text that parts make.
fn build_text(grammar: u32, kind: u32, parts: &[Part<'_>], out: &mut [u8], detail: &mut usize) -> u8
    ensures { Answered (in_grammar grammar (built_in kind (given_by parts.now))) out.old out.new detail.new result }
{
    let builder = builder_of(parts);
    match grammar {
        URI => build_in::<UriSpec>(kind, &builder, out, detail),
        IRI => build_in::<IriSpec>(kind, &builder, out, detail),
        _ => answer(UNKNOWN, detail),
    }
}

/// A text built from its parts.
pub fn irikit_build(
    grammar: u32,
    kind: u32,
    parts: &[Part<'_>],
    out: &mut [u8],
    detail: &mut usize,
) -> u8
    ensures { Answered (built_outcome grammar kind parts.now) out.old out.new detail.new result }
{
    if !are_parts(parts) {
        return answer(UNKNOWN, detail);
    }
    if !are_texts(parts) {
        return answer_fault(BAD_PART, ErrorKind::InvalidUtf8, detail);
    }
    build_text(grammar, kind, parts, out, detail)
}
