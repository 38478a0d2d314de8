// Tests of whole texts (RFC 3986 section 4).
ghost use Rattle.iri_grammar.specs.Fault.{bytes_fault};
ghost use Rattle.iri_calls.specs.Outcome.{Returned};
ghost use Rattle.iri_calls.specs.Outcomes.{in_grammar, validated, validated_in};

use crate::fault::{answer, answer_fault};
use crate::grammar::{IRI, URI};
use crate::status::{BAD_TEXT, OK, UNKNOWN};
use iri_grammar::spec::{IriSpec, Spec, UriSpec};
use iri_types::kind::{Absolute, Iri, Kind, Reference, Relative};
use iri_types::view::View;

/// `URI-reference` (RFC 3986 section 4.1).
pub const REFERENCE: u32 = 300;

/// `URI`, with a scheme (section 3).
pub const WITH_SCHEME: u32 = 301;

/// `absolute-URI`, with a scheme and without a fragment (section 4.3).
pub const ABSOLUTE: u32 = 302;

/// `relative-ref`, without a scheme (section 4.2).
pub const RELATIVE: u32 = 303;

// Whether a text is of a kind.
fn validate_as<S: Spec, K: Kind>(text: &[u8], detail: &mut usize) -> u8
    ensures { Returned (validated (bytes_fault (K.fault S.tests) text.now)) detail.new result }
{
    match View::<S, K>::try_from_bytes(text) {
        Ok(_) => answer(OK, detail),
        Err(error) => answer_fault(BAD_TEXT, error.kind(), detail),
    }
}

// Whether a text of one grammar is of the kind of this number.
fn validate_in<S: Spec>(kind: u32, text: &[u8], detail: &mut usize) -> u8
    ensures { Returned (validated_in kind text.now S.tests) detail.new result }
{
    match kind {
        REFERENCE => validate_as::<S, Reference>(text, detail),
        WITH_SCHEME => validate_as::<S, Iri>(text, detail),
        ABSOLUTE => validate_as::<S, Absolute>(text, detail),
        RELATIVE => validate_as::<S, Relative>(text, detail),
        _ => answer(UNKNOWN, detail),
    }
}

/// Whether a whole text is of a kind.
pub fn irikit_validate(grammar: u32, kind: u32, text: &[u8], detail: &mut usize) -> u8
    ensures { Returned (in_grammar grammar (validated_in kind text.now)) detail.new result }
{
    match grammar {
        URI => validate_in::<UriSpec>(kind, text, detail),
        IRI => validate_in::<IriSpec>(kind, text, detail),
        _ => answer(UNKNOWN, detail),
    }
}
