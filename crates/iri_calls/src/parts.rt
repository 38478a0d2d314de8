// The split of a reference, by offsets (RFC 3986 sections 3 and 3.2).
ghost use Rattle.std.specs.Prelude.{◌≡◌, ◌<◌, ◌+◌, ◌^◌};
ghost use Rattle.iri_grammar.specs.Authority.{authority_parts};
ghost use Rattle.iri_grammar.specs.OptionalSlices.{now_of};
ghost use Rattle.iri_calls.specs.Slots.{SplitWritten, SplitWrittenIn, place, width};
ghost use Rattle.iri_calls.specs.Slots.{authority_slots, slots_of, within_authority};
ghost use Rattle.iri_calls.specs.inside.Five.{authority_total, five, total};

use crate::fault::{answer, answer_fault};
use crate::grammar::{IRI, URI};
use crate::status::{BAD_TEXT, OK, UNKNOWN};
use iri_grammar::authority::AuthoritySpan;
use iri_grammar::spec::{IriSpec, Spec, UriSpec};
use iri_types::kind::Reference;
use iri_types::split::SplitView;

/// Where a part stands in its text, in bytes. A part that doesn't stand has the offset 2^64 - 1 and the length 0.
#[repr(C)]
#[derive(Clone, Copy)]
pub struct Slot {
    pub offset: usize,
    pub len: usize,
}

/// Where the parts of an authority stand.
#[repr(C)]
#[derive(Clone, Copy)]
pub struct AuthoritySlots {
    pub userinfo: Slot,
    pub host: Slot,
    pub port: Slot,
}

/// Where the parts of a reference stand, and those of its authority.
#[repr(C)]
#[derive(Clone, Copy)]
pub struct Slots {
    pub scheme: Slot,
    pub authority: Slot,
    pub path: Slot,
    pub query: Slot,
    pub fragment: Slot,
    pub within: AuthoritySlots,
}

// Where no part stands.
pub const NOWHERE: Slot = Slot {
    offset: usize::MAX,
    len: 0,
};

// Where no authority stands.
const NO_AUTHORITY: AuthoritySlots = AuthoritySlots {
    userinfo: NOWHERE,
    host: NOWHERE,
    port: NOWHERE,
};

// How many bytes a part has together with so many bytes of delimiters.
fn width(delimiters: usize, part: Option<&str>) -> usize
    requires { width delimiters (now_of part) < 2 ^ 64 }
    ensures { result ≡ width delimiters (now_of part.entry) }
{
    match part {
        Some(part) => part.len() + delimiters,
        None => 0,
    }
}

// Where a part stands that begins so many bytes of delimiters after this offset.
fn place(offset: usize, delimiters: usize, part: Option<&str>) -> Slot
    requires { offset + width delimiters (now_of part) < 2 ^ 64 }
    ensures { result ≡ place offset delimiters (now_of part.entry) }
{
    match part {
        Some(part) => Slot {
            offset: offset + delimiters,
            len: part.len(),
        },
        None => NOWHERE,
    }
}

// Where the parts of an authority stand that begins at this offset.
fn authority_slots(offset: usize, authority: &str) -> AuthoritySlots
    requires { offset + authority_total (authority_parts authority.now) < 2 ^ 64 }
    ensures { result ≡ authority_slots offset (authority_parts authority.now) }
{
    let parts = AuthoritySpan::cut(authority);
    let host_at = offset + width(1, parts.userinfo());
    AuthoritySlots {
        userinfo: place(offset, 0, parts.userinfo()),
        host: place(host_at, 0, Some(parts.host())),
        port: place(host_at + parts.host().len(), 1, parts.port()),
    }
}

// Where the parts of the authority stand whose slashes begin at this offset.
fn within_authority(offset: usize, authority: Option<&str>) -> AuthoritySlots
    requires { offset + width 2 (now_of authority) < 2 ^ 64 }
    ensures { result ≡ within_authority offset (now_of authority.entry) }
{
    match authority {
        Some(authority) => authority_slots(offset + 2, authority),
        None => NO_AUTHORITY,
    }
}

// Where these parts of a text stand.
pub(crate) fn slots_of(
    scheme: Option<&str>,
    authority: Option<&str>,
    path: &str,
    query: Option<&str>,
    fragment: Option<&str>,
) -> Slots
    requires { total (five scheme authority path query fragment) < 2 ^ 64 }
    ensures { result ≡ slots_of (five scheme.entry authority.entry path.entry query.entry fragment.entry) }
{
    let scheme_end = width(1, scheme);
    let path_at = scheme_end + width(2, authority);
    let path_end = path_at + path.len();
    let query_end = path_end + width(1, query);
    Slots {
        scheme: place(0, 0, scheme),
        authority: place(scheme_end, 2, authority),
        path: place(path_at, 0, Some(path)),
        query: place(path_end, 1, query),
        fragment: place(query_end, 1, fragment),
        within: within_authority(scheme_end, authority),
    }
}

// The split in one grammar.
fn split_in<S: Spec>(text: &[u8], parts: &mut Slots, detail: &mut usize) -> u8
    ensures { SplitWrittenIn text.now parts.old parts.new detail.new result S.tests }
{
    match SplitView::<S, Reference>::try_from_bytes(text) {
        Ok(view) => {
            // The proof takes from this that the length of a slice fits a `usize`.
            let _len = text.len();
            let p = view.parts();
            *parts = slots_of(p.scheme(), p.authority(), p.path(), p.query(), p.fragment());
            answer(OK, detail)
        }
        Err(error) => answer_fault(BAD_TEXT, error.kind(), detail),
    }
}

/// The split of a reference.
pub fn irikit_split(grammar: u32, text: &[u8], parts: &mut Slots, detail: &mut usize) -> u8
    ensures { SplitWritten grammar text.now parts.old parts.new detail.new result }
{
    match grammar {
        URI => split_in::<UriSpec>(text, parts, detail),
        IRI => split_in::<IriSpec>(text, parts, detail),
        _ => answer(UNKNOWN, detail),
    }
}
