// The part of a text that has its first fault.
ghost use Rattle.std.specs.Prelude.{◌≡◌, false, ◌∷◌, MatchOption, ◌≤◌, ◌<◌, ◌+◌, ◌-◌, ◌^◌, length};
ghost use Rattle.iri_grammar.specs.Characters.{slash};
ghost use Rattle.iri_grammar.specs.OptionalSlices.{now_of};
ghost use Rattle.iri_grammar.specs.Parts.{starts_with_slashes};
ghost use Rattle.iri_grammar.specs.Split.{scheme_of, after_scheme, authority_of, path_of, parts_of};
ghost use Rattle.iri_grammar.specs.Split.{split_of, relative_split_of};
ghost use Rattle.iri_calls.specs.FaultParts.{PartFound, before_colon, faulty_slot, named_slot};
ghost use Rattle.iri_calls.specs.Slots.{place, slots_of, width};

use crate::fault::{answer, kind_of};
use crate::parts::{NOWHERE, Slot, Slots, slots_of};
use crate::status::{OK, UNKNOWN};
use crate::validation::{ABSOLUTE, REFERENCE, RELATIVE, WITH_SCHEME};
use iri_grammar::cutting::{cut, cut_before, lacks};
use iri_grammar::error::ErrorKind;
use iri_grammar::validate;
use std::str;

// What stands before the first colon, where that is a scheme, and what follows it.
fn cut_scheme(text: &str) -> (Option<&str>, &str)
    ensures scheme { now_of result.0 ≡ scheme_of text.now }
    ensures rest { result.1.now ≡ after_scheme text.now }
{
    match cut(text, b':') {
        (scheme, Some(rest)) => {
            if validate::scheme(scheme).is_ok() {
                (Some(scheme), rest)
            } else {
                (None, text)
            }
        }
        (_, None) => (None, text),
    }
}

// What follows two slashes at the start.
fn past_slashes(hier: &str) -> Option<&str>
    ensures { MatchOption result (starts_with_slashes hier.now ≡ false) (λ r. hier.now ≡ slash ∷ slash ∷ r.now) }
{
    hier.strip_prefix("//")
}

// The authority, where two slashes begin it, and the path.
fn cut_hier(hier: &str) -> (Option<&str>, &str)
    ensures authority { now_of result.0 ≡ authority_of hier.now }
    ensures path { result.1.now ≡ path_of hier.now }
{
    match past_slashes(hier) {
        Some(rest) => {
            let (authority, path) = cut_before(rest, b'/');
            (Some(authority), path)
        }
        None => (None, hier),
    }
}

// Where the parts stand of a text that is a scheme and this rest, whatever stands in them.
fn slots_after(scheme: Option<&str>, rest: &str) -> Slots
    requires { width 1 (now_of scheme) + length rest.now < 2 ^ 64 }
    ensures { result ≡ slots_of (parts_of (now_of scheme.entry) rest.now) }
{
    let (before_fragment, fragment) = cut(rest, b'#');
    let (hier, query) = cut(before_fragment, b'?');
    let (authority, path) = cut_hier(hier);
    slots_of(scheme, authority, path, query, fragment)
}

// Where what comes before the first colon stands, where there is one.
fn slot_before_colon(text: &str) -> Slot
    ensures { result ≡ place 0 0 (before_colon text.now) }
{
    if lacks(text, b':') {
        return NOWHERE;
    }
    let (before, _) = cut_before(text, b':');
    Slot {
        offset: 0,
        len: before.len(),
    }
}

// Where the part stands that a kind of fault names.
fn named_slot(kind: ErrorKind, text: &str, slots: &Slots) -> Slot
    ensures { result ≡ named_slot kind text.now slots.now }
{
    match kind {
        ErrorKind::InvalidScheme => slot_before_colon(text),
        ErrorKind::InvalidUserInfo => slots.within.userinfo,
        ErrorKind::InvalidHost => slots.within.host,
        ErrorKind::InvalidRegName => slots.within.host,
        ErrorKind::InvalidPort => slots.within.port,
        ErrorKind::InvalidPath => slots.path,
        ErrorKind::InvalidQuery => slots.query,
        ErrorKind::InvalidFragment => slots.fragment,
        ErrorKind::UnexpectedFragment => slots.fragment,
        ErrorKind::UnexpectedRelative => Slot { offset: 0, len: 0 },
        ErrorKind::InvalidUtf8 => NOWHERE,
    }
}

// All of a text from a place on.
fn slot_from(text: &[u8], offset: usize) -> Slot
    requires { offset ≤ length text.now }
    ensures { result ≡ record { offset = offset; len = length text.now - offset } }
{
    Slot {
        offset,
        len: text.len() - offset,
    }
}

// Where the part stands that has this kind of fault, in a text that is read as a reference.
fn slot_in_reference(kind: ErrorKind, text: &[u8]) -> Slot
    ensures { result ≡ faulty_slot kind text.now (split_of text.now) }
{
    match str::from_utf8(text) {
        Ok(text) => {
            let (scheme, rest) = cut_scheme(text);
            named_slot(kind, text, &slots_after(scheme, rest))
        }
        Err(error) => slot_from(text, error.valid_up_to()),
    }
}

// Where the part stands that has this kind of fault, in a text that is read as a relative reference.
fn slot_in_relative(kind: ErrorKind, text: &[u8]) -> Slot
    ensures { result ≡ faulty_slot kind text.now (relative_split_of text.now) }
{
    match str::from_utf8(text) {
        Ok(text) => named_slot(kind, text, &slots_after(None, text)),
        Err(error) => slot_from(text, error.valid_up_to()),
    }
}

/// Where the part of a text stands that has a kind of fault.
pub fn irikit_fault_part(
    kind: u32,
    fault: usize,
    text: &[u8],
    part: &mut Slot,
    detail: &mut usize,
) -> u8
    ensures { PartFound kind fault text.now part.old part.new detail.new result }
{
    let Some(fault) = kind_of(fault) else {
        return answer(UNKNOWN, detail);
    };
    match kind {
        REFERENCE | WITH_SCHEME | ABSOLUTE => *part = slot_in_reference(fault, text),
        RELATIVE => *part = slot_in_relative(fault, text),
        _ => return answer(UNKNOWN, detail),
    }
    answer(OK, detail)
}
