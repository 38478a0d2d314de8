// Kinds of faults as numbers, and in words.
ghost use Rattle.std.specs.Prelude.{◌≡◌};
ghost use Rattle.iri_calls.specs.Numbers.{fault_number, fault_numbered};
ghost use Rattle.iri_calls.specs.Outcome.{Answered};
ghost use Rattle.iri_calls.specs.Outcomes.{fault_words};

use crate::buffer::answer_text;
use crate::status::UNKNOWN;
use iri_grammar::error::ErrorKind;

// The numbers of the kinds of faults.
pub const INVALID_SCHEME: usize = 500;

pub const INVALID_USERINFO: usize = 501;

pub const INVALID_HOST: usize = 502;

pub const INVALID_REG_NAME: usize = 503;

pub const INVALID_PORT: usize = 504;

pub const INVALID_PATH: usize = 505;

pub const INVALID_QUERY: usize = 506;

pub const INVALID_FRAGMENT: usize = 507;

pub const UNEXPECTED_FRAGMENT: usize = 508;

pub const UNEXPECTED_RELATIVE: usize = 509;

pub const INVALID_UTF8: usize = 510;

/// The number of a kind of fault.
fn number_of(kind: ErrorKind) -> usize
    ensures { result ≡ fault_number kind }
{
    match kind {
        ErrorKind::InvalidScheme => INVALID_SCHEME,
        ErrorKind::InvalidUserInfo => INVALID_USERINFO,
        ErrorKind::InvalidHost => INVALID_HOST,
        ErrorKind::InvalidRegName => INVALID_REG_NAME,
        ErrorKind::InvalidPort => INVALID_PORT,
        ErrorKind::InvalidPath => INVALID_PATH,
        ErrorKind::InvalidQuery => INVALID_QUERY,
        ErrorKind::InvalidFragment => INVALID_FRAGMENT,
        ErrorKind::UnexpectedFragment => UNEXPECTED_FRAGMENT,
        ErrorKind::UnexpectedRelative => UNEXPECTED_RELATIVE,
        ErrorKind::InvalidUtf8 => INVALID_UTF8,
    }
}

/// Writes the number of a kind of fault, and returns the status.
pub(crate) fn answer_fault(status: u8, kind: ErrorKind, detail: &mut usize) -> u8
    ensures detail { detail.new ≡ fault_number kind }
    ensures status { result ≡ status }
{
    *detail = number_of(kind);
    status
}

/// Writes 0, and returns the status.
pub fn answer(status: u8, detail: &mut usize) -> u8
    ensures detail { detail.new ≡ 0 }
    ensures status { result ≡ status }
{
    *detail = 0;
    status
}

// The kind of this number.
pub(crate) fn kind_of(number: usize) -> Option<ErrorKind>
    ensures { result ≡ fault_numbered number }
{
    match number {
        INVALID_SCHEME => Some(ErrorKind::InvalidScheme),
        INVALID_USERINFO => Some(ErrorKind::InvalidUserInfo),
        INVALID_HOST => Some(ErrorKind::InvalidHost),
        INVALID_REG_NAME => Some(ErrorKind::InvalidRegName),
        INVALID_PORT => Some(ErrorKind::InvalidPort),
        INVALID_PATH => Some(ErrorKind::InvalidPath),
        INVALID_QUERY => Some(ErrorKind::InvalidQuery),
        INVALID_FRAGMENT => Some(ErrorKind::InvalidFragment),
        UNEXPECTED_FRAGMENT => Some(ErrorKind::UnexpectedFragment),
        UNEXPECTED_RELATIVE => Some(ErrorKind::UnexpectedRelative),
        INVALID_UTF8 => Some(ErrorKind::InvalidUtf8),
        _ => None,
    }
}

/// The words for a kind of fault, as they stand in the answers of `irikit canon`.
pub fn irikit_fault_words(fault: usize, out: &mut [u8], detail: &mut usize) -> u8
    ensures { Answered (fault_words fault) out.old out.new detail.new result }
{
    match kind_of(fault) {
        Some(kind) => answer_text(out, &kind.description(), detail),
        None => answer(UNKNOWN, detail),
    }
}
