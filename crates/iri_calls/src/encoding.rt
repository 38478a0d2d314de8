// Raw texts percent-encoded for their place in a reference (RFC 3986 sections 2.1 and 2.4).
ghost use Rattle.iri_calls.specs.Encodings.{encoded_as, encoded_outcome};
ghost use Rattle.iri_calls.specs.Outcome.{Answered};
ghost use Rattle.iri_calls.specs.Outcomes.{in_grammar};

use crate::buffer::answer_text;
use crate::fault::{answer, answer_fault};
use crate::grammar::{IRI, URI};
use crate::status::{BAD_TEXT, UNKNOWN};
use iri_grammar::error::ErrorKind;
use iri_grammar::spec::{IriSpec, Spec, UriSpec};
use iri_percent::PercentEncoded;

/// A registered name (section 3.2.2).
pub const REG_NAME: u32 = 400;

/// The user or the password of a userinfo (section 3.2.1).
pub const USER: u32 = 401;

/// One segment of a path (section 3.3).
pub const SEGMENT: u32 = 402;

/// A path, whose slashes stay (section 3.3).
pub const PATH: u32 = 403;

/// A query (section 3.4).
pub const QUERY: u32 = 404;

/// A fragment (section 3.5).
pub const FRAGMENT: u32 = 405;

/// Any place: `unreserved` alone stays (section 2.3).
pub const UNRESERVED: u32 = 406;

/// A whole reference: `unreserved` and `reserved` stay (section 2.2).
pub const WHOLE: u32 = 407;

// A text encoded in one grammar for the place of this number.
fn encode_in<S: Spec>(place: u32, raw: &str, out: &mut [u8], detail: &mut usize) -> u8
    ensures { Answered (encoded_as place raw.now S.tests) out.old out.new detail.new result }
{
    let encoded = match place {
        REG_NAME => PercentEncoded::<&str, S>::from_reg_name(raw),
        USER => PercentEncoded::<&str, S>::from_user(raw),
        SEGMENT => PercentEncoded::<&str, S>::from_path_segment(raw),
        PATH => PercentEncoded::<&str, S>::from_path(raw),
        QUERY => PercentEncoded::<&str, S>::from_query(raw),
        FRAGMENT => PercentEncoded::<&str, S>::from_fragment(raw),
        UNRESERVED => PercentEncoded::<&str, S>::unreserve(raw),
        WHOLE => PercentEncoded::<&str, S>::characters(raw),
        _ => return answer(UNKNOWN, detail),
    };
    answer_text(out, &encoded, detail)
}

// A text encoded by these numbers.
fn encode_text(grammar: u32, place: u32, raw: &str, out: &mut [u8], detail: &mut usize) -> u8
    ensures { Answered (in_grammar grammar (encoded_as place raw.now)) out.old out.new detail.new result }
{
    match grammar {
        URI => encode_in::<UriSpec>(place, raw, out, detail),
        IRI => encode_in::<IriSpec>(place, raw, out, detail),
        _ => answer(UNKNOWN, detail),
    }
}

/// A raw text, percent-encoded for its place in a reference.
pub fn irikit_encode(grammar: u32, place: u32, raw: &[u8], out: &mut [u8], detail: &mut usize) -> u8
    ensures { Answered (encoded_outcome grammar place raw.now) out.old out.new detail.new result }
{
    match str::from_utf8(raw) {
        Ok(text) => encode_text(grammar, place, text, out, detail),
        Err(_) => answer_fault(BAD_TEXT, ErrorKind::InvalidUtf8, detail),
    }
}
