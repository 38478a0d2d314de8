// References with another host (RFC 3986 section 3.2.2).
ghost use Rattle.std.specs.Prelude.{◌≡◌, MatchResult, None, Some, false, true};
ghost use Rattle.iri_edit.specs.ShownHost.{HostShown};
ghost use Rattle.iri_grammar.specs.Fault.{bytes_fault, host_fault};
ghost use Rattle.iri_types.specs.Texts.{text};
ghost use Rattle.iri_calls.specs.Edits.{host_in};
ghost use Rattle.iri_calls.specs.Outcome.{Answered};
ghost use Rattle.iri_calls.specs.Outcomes.{in_grammar};

use crate::buffer::answer_text;
use crate::fault::{answer, answer_fault};
use crate::grammar::{IRI, URI};
use crate::status::{BAD_PART, BAD_TEXT, NO_HOST, UNKNOWN};
use iri_edit::shown_host::{WithHost, with_host, with_host_reg_name};
use iri_grammar::error::ErrorKind;
use iri_grammar::spec::{IriSpec, Spec, UriSpec};
use iri_grammar::validate;
use iri_types::view::RiReferenceStr;

// The host of bytes, or what is wrong with them.
fn read_host<S: Spec>(bytes: &[u8]) -> Result<&str, ErrorKind>
    ensures { MatchResult result (λ h. (h.now ≡ bytes.now) × (bytes_fault (host_fault S.tests) bytes.now ≡ None))
        (λ k. bytes_fault (host_fault S.tests) bytes.now ≡ Some k) }
{
    let Ok(host) = str::from_utf8(bytes) else {
        return Err(ErrorKind::InvalidUtf8);
    };
    match validate::host::<S>(host) {
        Ok(()) => Ok(host),
        Err(error) => Err(error.kind()),
    }
}

// The text with another host, where it may be replaced.
fn replaced<'a, S: Spec>(
    names_only: bool,
    view: RiReferenceStr<'a, S>,
    host: &'a str,
) -> Option<WithHost<'a>>
    ensures { HostShown S.tests names_only (text view.entry) host.now result }
{
    if names_only {
        with_host_reg_name(view, host)
    } else {
        with_host(view, host)
    }
}

// The text with another host in one grammar.
fn replace_host_in<S: Spec>(
    names_only: bool,
    text: &[u8],
    host: &[u8],
    out: &mut [u8],
    detail: &mut usize,
) -> u8
    ensures { Answered (host_in names_only text.now host.now S.tests) out.old out.new detail.new result }
{
    let view = match RiReferenceStr::<S>::try_from_bytes(text) {
        Ok(view) => view,
        Err(error) => return answer_fault(BAD_TEXT, error.kind(), detail),
    };
    let host = match read_host::<S>(host) {
        Ok(host) => host,
        Err(kind) => return answer_fault(BAD_PART, kind, detail),
    };
    match replaced(names_only, view, host) {
        Some(shown) => answer_text(out, &shown, detail),
        None => answer(NO_HOST, detail),
    }
}

/// A reference with another host in place of its own.
pub fn irikit_replace_host(
    grammar: u32,
    text: &[u8],
    host: &[u8],
    out: &mut [u8],
    detail: &mut usize,
) -> u8
    ensures { Answered (in_grammar grammar (host_in false text.now host.now)) out.old out.new detail.new result }
{
    match grammar {
        URI => replace_host_in::<UriSpec>(false, text, host, out, detail),
        IRI => replace_host_in::<IriSpec>(false, text, host, out, detail),
        _ => answer(UNKNOWN, detail),
    }
}

/// A reference with another host in place of a registered name.
pub fn irikit_replace_reg_name(
    grammar: u32,
    text: &[u8],
    host: &[u8],
    out: &mut [u8],
    detail: &mut usize,
) -> u8
    ensures { Answered (in_grammar grammar (host_in true text.now host.now)) out.old out.new detail.new result }
{
    match grammar {
        URI => replace_host_in::<UriSpec>(true, text, host, out, detail),
        IRI => replace_host_in::<IriSpec>(true, text, host, out, detail),
        _ => answer(UNKNOWN, detail),
    }
}
