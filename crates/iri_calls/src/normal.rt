// Normal forms, and tests of being in one (RFC 3986 sections 6.2.2 and 6.2.3).
ghost use Rattle.std.specs.Prelude.{◌≡◌, ◌↔◌, true, option_map};
ghost use Rattle.iri_normal.specs.NormalForm.{IsInMode};
ghost use Rattle.iri_types.specs.Texts.{text};
ghost use Rattle.iri_calls.specs.inside.Forms.{form_mode};
ghost use Rattle.iri_calls.specs.Numbers.{form_numbered};
ghost use Rattle.iri_calls.specs.Outcome.{Answered};
ghost use Rattle.iri_calls.specs.Outcomes.{NormalJudged, NormalJudgedIn};
ghost use Rattle.iri_calls.specs.Resolutions.{normalized_as, normalized_outcome};

use crate::buffer::answer_text;
use crate::fault::{answer, answer_fault};
use crate::grammar::{BY_SCHEME, IRI, NORMAL, PRESERVING, URI};
use crate::status::{BAD_TEXT, NOT_NORMAL, OK, UNKNOWN};
use iri_grammar::spec::{IriSpec, Spec, UriSpec};
use iri_normal::is_normalized::IsNormalized;
use iri_normal::mode::CanonMode;
use iri_normal::normalized_in::is_normalized_in;
use iri_normal::views::Normalize;
use iri_types::view::RiStr;

// A normal form of one text.
#[derive(Clone, Copy)]
pub(crate) enum Form {
    Normal,
    ByScheme,
    Preserving,
}

// The form of this number.
fn form_of(form: u32) -> Option<Form>
    ensures { option_map form_mode result ≡ form_numbered form }
{
    match form {
        NORMAL => Some(Form::Normal),
        BY_SCHEME => Some(Form::ByScheme),
        PRESERVING => Some(Form::Preserving),
        _ => None,
    }
}

// Whether a text is in a form.
fn is_in_form<S: Spec>(form: Form, view: RiStr<'_, S>) -> bool
    ensures { (result ≡ true) ↔ IsInMode S.tests (form_mode form) (text view.entry) }
{
    match form {
        Form::Normal => view.is_normalized(),
        Form::ByScheme => is_normalized_in(view, CanonMode::Scheme),
        Form::Preserving => view.is_normalized_but_authorityless_relative_path_preserved(),
    }
}

// Whether bytes are a `URI` of one grammar in a form.
fn is_normalized_as<S: Spec>(form: Form, text: &[u8], detail: &mut usize) -> u8
    ensures { NormalJudgedIn S.tests (form_mode form) text.now detail.new result }
{
    match RiStr::<S>::try_from_bytes(text) {
        Ok(view) => {
            if is_in_form(form, view) {
                answer(OK, detail)
            } else {
                answer(NOT_NORMAL, detail)
            }
        }
        Err(error) => answer_fault(BAD_TEXT, error.kind(), detail),
    }
}

/// Whether a text with a scheme is its own normal form.
pub fn irikit_is_normalized(grammar: u32, form: u32, text: &[u8], detail: &mut usize) -> u8
    ensures { NormalJudged grammar form text.now detail.new result }
{
    match (grammar, form_of(form)) {
        (URI, Some(form)) => is_normalized_as::<UriSpec>(form, text, detail),
        (IRI, Some(form)) => is_normalized_as::<IriSpec>(form, text, detail),
        _ => answer(UNKNOWN, detail),
    }
}

// The normal form in one grammar.
fn normalize_as<S: Spec>(form: Form, text: &[u8], out: &mut [u8], detail: &mut usize) -> u8
    ensures { Answered (normalized_as (form_mode form) text.now S.tests) out.old out.new detail.new result }
{
    match RiStr::<S>::try_from_bytes(text) {
        Ok(view) => match form {
            Form::Normal => answer_text(out, &view.normalize(), detail),
            Form::ByScheme => answer_text(out, &view.normalize().and_normalize_by_scheme(), detail),
            Form::Preserving => answer_text(
                out,
                &view.normalize_but_preserve_authorityless_relative_path(),
                detail,
            ),
        },
        Err(error) => answer_fault(BAD_TEXT, error.kind(), detail),
    }
}

/// The normal form of a text with a scheme.
pub fn irikit_normalize(
    grammar: u32,
    form: u32,
    text: &[u8],
    out: &mut [u8],
    detail: &mut usize,
) -> u8
    ensures { Answered (normalized_outcome grammar form text.now) out.old out.new detail.new result }
{
    match (grammar, form_of(form)) {
        (URI, Some(form)) => normalize_as::<UriSpec>(form, text, out, detail),
        (IRI, Some(form)) => normalize_as::<IriSpec>(form, text, out, detail),
        _ => answer(UNKNOWN, detail),
    }
}
