// Templates, expanded (RFC 6570).
ghost use Rattle.std.specs.Prelude.{◌≡◌};
ghost use Rattle.iri_calls.specs.Outcome.{Answered};
ghost use Rattle.iri_calls.specs.Templates.{Expanded, ExpandedIn, Refused, template_fault_number, template_fault_numbered, template_fault_words};

use crate::buffer::answer_text;
use crate::fault::answer;
use crate::grammar::{IRI, URI};
use crate::status::{BAD_TEXT, BAD_VARIABLE, UNKNOWN};
use crate::variables::{Variable, Variables, find_unsound};
use iri_grammar::spec::{IriSpec, Spec, UriSpec};
use iri_template::error::{Error, ErrorKind};
use iri_template::template::UriTemplateStr;

// The numbers of the kinds of faults of templates.
pub const EXPRESSION_NOT_CLOSED: usize = 700;

pub const INVALID_CHARACTER: usize = 701;

pub const INVALID_EXPRESSION: usize = 702;

pub const INVALID_PERCENT_ENCODING: usize = 703;

pub const INVALID_UTF8: usize = 704;

pub const UNEXPECTED_VALUE_TYPE: usize = 705;

pub const UNSUPPORTED_OPERATOR: usize = 706;

// Two kinds that no call for C returns, since none writes to a sink that stops, or allocates.
pub const WRITE_FAILED: usize = 707;

pub const MEMORY: usize = 708;

// The number of a kind of fault of a template.
fn number_of(kind: ErrorKind) -> usize
    ensures { result ≡ template_fault_number kind }
{
    match kind {
        ErrorKind::ExpressionNotClosed => EXPRESSION_NOT_CLOSED,
        ErrorKind::InvalidCharacter => INVALID_CHARACTER,
        ErrorKind::InvalidExpression => INVALID_EXPRESSION,
        ErrorKind::InvalidPercentEncoding => INVALID_PERCENT_ENCODING,
        ErrorKind::InvalidUtf8 => INVALID_UTF8,
        ErrorKind::UnexpectedValueType => UNEXPECTED_VALUE_TYPE,
        ErrorKind::UnsupportedOperator => UNSUPPORTED_OPERATOR,
        ErrorKind::WriteFailed => WRITE_FAILED,
        ErrorKind::Memory => MEMORY,
    }
}

// Tells why a template is refused, and where.
pub(crate) fn refuse(error: &Error, detail: &mut usize, place: &mut usize) -> u8
    ensures { Refused error.now detail.new place.new result }
{
    *detail = number_of(error.kind());
    *place = error.location();
    BAD_TEXT
}

// The expansion of a template whose variables are sound.
fn expand_with<S: Spec>(
    template: &[u8],
    variables: &[Variable<'_>],
    out: &mut [u8],
    detail: &mut usize,
    place: &mut usize,
) -> u8
    ensures { ExpandedIn S.tests template.now variables.now out.old out.new detail.new place.new result }
{
    let template = match UriTemplateStr::try_from_bytes(template) {
        Ok(template) => template,
        Err(error) => return refuse(&error, detail, place),
    };
    let context = Variables { variables };
    match template.expand::<S, Variables<'_>>(&context) {
        Ok(expanded) => {
            *place = 0;
            answer_text(out, &expanded, detail)
        }
        Err(error) => refuse(&error, detail, place),
    }
}

/// The expansion of a template with the values of variables.
pub fn irikit_expand(
    grammar: u32,
    template: &[u8],
    variables: &[Variable<'_>],
    out: &mut [u8],
    detail: &mut usize,
    place: &mut usize,
) -> u8
    ensures { Expanded grammar template.now variables.now out.old out.new detail.new place.new result }
{
    if let Some(unsound) = find_unsound(variables) {
        *detail = 0;
        *place = unsound;
        return BAD_VARIABLE;
    }
    match grammar {
        URI => expand_with::<UriSpec>(template, variables, out, detail, place),
        IRI => expand_with::<IriSpec>(template, variables, out, detail, place),
        _ => {
            *place = 0;
            answer(UNKNOWN, detail)
        }
    }
}

// The kind of this number.
fn kind_of(number: usize) -> Option<ErrorKind>
    ensures { result ≡ template_fault_numbered number }
{
    match number {
        EXPRESSION_NOT_CLOSED => Some(ErrorKind::ExpressionNotClosed),
        INVALID_CHARACTER => Some(ErrorKind::InvalidCharacter),
        INVALID_EXPRESSION => Some(ErrorKind::InvalidExpression),
        INVALID_PERCENT_ENCODING => Some(ErrorKind::InvalidPercentEncoding),
        INVALID_UTF8 => Some(ErrorKind::InvalidUtf8),
        UNEXPECTED_VALUE_TYPE => Some(ErrorKind::UnexpectedValueType),
        UNSUPPORTED_OPERATOR => Some(ErrorKind::UnsupportedOperator),
        _ => None,
    }
}

/// The words for a kind of fault of a template.
pub fn irikit_template_fault_words(fault: usize, out: &mut [u8], detail: &mut usize) -> u8
    ensures { Answered (template_fault_words fault) out.old out.new detail.new result }
{
    match kind_of(fault) {
        Some(kind) => answer_text(out, &kind.description(), detail),
        None => answer(UNKNOWN, detail),
    }
}
