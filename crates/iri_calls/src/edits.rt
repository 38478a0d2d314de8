// References with one part changed (RFC 3986 sections 3.2.1, 3.5 and 7.5).
ghost use Rattle.std.specs.Prelude.{◌≡◌};
ghost use Rattle.iri_calls.specs.Edits.{cut_in, fragment_in, masked_in, password_in, removed_in};
ghost use Rattle.iri_calls.specs.Outcome.{Answered};
ghost use Rattle.iri_calls.specs.Outcomes.{in_grammar};
ghost use Rattle.iri_grammar.specs.Cut.{before};
ghost use Rattle.iri_types.specs.Texts.{text};

use crate::buffer::answer_text;
use crate::fault::{answer, answer_fault};
use crate::grammar::{IRI, URI};
use crate::status::{BAD_PART, BAD_TEXT, UNKNOWN};
use iri_edit::password::MaskPassword;
use iri_edit::shown_removal::without_password;
use iri_grammar::cutting::cut_before;
use iri_grammar::error::ErrorKind;
use iri_grammar::spec::{IriSpec, Spec, UriSpec};
use iri_text::{Show, Stop, TextSink, show_three};
use iri_types::view::{RiFragmentStr, RiReferenceStr};

// The masked text in one grammar.
fn mask_in<S: Spec>(text: &[u8], out: &mut [u8], detail: &mut usize) -> u8
    ensures { Answered (masked_in text.now S.tests) out.old out.new detail.new result }
{
    match RiReferenceStr::<S>::try_from_bytes(text) {
        Ok(view) => answer_text(out, &view.mask_password(), detail),
        Err(error) => answer_fault(BAD_TEXT, error.kind(), detail),
    }
}

/// A reference without its password.
pub fn irikit_mask_password(grammar: u32, text: &[u8], out: &mut [u8], detail: &mut usize) -> u8
    ensures { Answered (in_grammar grammar (masked_in text.now)) out.old out.new detail.new result }
{
    match grammar {
        URI => mask_in::<UriSpec>(text, out, detail),
        IRI => mask_in::<IriSpec>(text, out, detail),
        _ => answer(UNKNOWN, detail),
    }
}

// The text without its password and the colon before it in one grammar.
fn remove_password_in<S: Spec>(text: &[u8], out: &mut [u8], detail: &mut usize) -> u8
    ensures { Answered (removed_in text.now S.tests) out.old out.new detail.new result }
{
    match RiReferenceStr::<S>::try_from_bytes(text) {
        Ok(view) => answer_text(out, &without_password(view), detail),
        Err(error) => answer_fault(BAD_TEXT, error.kind(), detail),
    }
}

/// A reference without its password and the colon before it.
pub fn irikit_remove_password(grammar: u32, text: &[u8], out: &mut [u8], detail: &mut usize) -> u8
    ensures { Answered (in_grammar grammar (removed_in text.now)) out.old out.new detail.new result }
{
    match grammar {
        URI => remove_password_in::<UriSpec>(text, out, detail),
        IRI => remove_password_in::<IriSpec>(text, out, detail),
        _ => answer(UNKNOWN, detail),
    }
}

// The text with another password in one grammar.
fn replace_password_in<S: Spec>(
    text: &[u8],
    password: &[u8],
    out: &mut [u8],
    detail: &mut usize,
) -> u8
    ensures { Answered (password_in text.now password.now S.tests) out.old out.new detail.new result }
{
    let view = match RiReferenceStr::<S>::try_from_bytes(text) {
        Ok(view) => view,
        Err(error) => return answer_fault(BAD_TEXT, error.kind(), detail),
    };
    match str::from_utf8(password) {
        Ok(password) => answer_text(
            out,
            &view.mask_password().replace_password(password),
            detail,
        ),
        Err(_) => answer_fault(BAD_PART, ErrorKind::InvalidUtf8, detail),
    }
}

/// A reference with another text in place of its password.
pub fn irikit_replace_password(
    grammar: u32,
    text: &[u8],
    password: &[u8],
    out: &mut [u8],
    detail: &mut usize,
) -> u8
    ensures { Answered (in_grammar grammar (password_in text.now password.now)) out.old out.new detail.new result }
{
    match grammar {
        URI => replace_password_in::<UriSpec>(text, password, out, detail),
        IRI => replace_password_in::<IriSpec>(text, password, out, detail),
        _ => answer(UNKNOWN, detail),
    }
}

// What stands before the fragment.
fn before_fragment<S: Spec>(view: RiReferenceStr<'_, S>) -> &str
    ensures { result.now ≡ before 35 (text view.entry) }
{
    cut_before(view.as_str(), b'#').0
}

// The text without its fragment in one grammar.
fn remove_fragment_in<S: Spec>(text: &[u8], out: &mut [u8], detail: &mut usize) -> u8
    ensures { Answered (cut_in text.now S.tests) out.old out.new detail.new result }
{
    match RiReferenceStr::<S>::try_from_bytes(text) {
        Ok(view) => answer_text(out, &before_fragment(view), detail),
        Err(error) => answer_fault(BAD_TEXT, error.kind(), detail),
    }
}

/// A reference without its fragment.
pub fn irikit_remove_fragment(grammar: u32, text: &[u8], out: &mut [u8], detail: &mut usize) -> u8
    ensures { Answered (in_grammar grammar (cut_in text.now)) out.old out.new detail.new result }
{
    match grammar {
        URI => remove_fragment_in::<UriSpec>(text, out, detail),
        IRI => remove_fragment_in::<IriSpec>(text, out, detail),
        _ => answer(UNKNOWN, detail),
    }
}

// A text and the fragment after it.
#[derive(Drop)]
struct Fragmented<'a> {
    prefix: &'a str,
    fragment: &'a str,
}

impl Show for Fragmented<'_> {
    ghost use Rattle.std.specs.Prelude.{◌++◌, ◌∷◌};

    ghost text = { λ f. f.prefix.now ++ 35 ∷ f.fragment.now };

    fn show<W: TextSink>(&self, sink: &mut W) -> Result<(), Stop> {
        show_three(sink, &self.prefix, &"#", &self.fragment)
    }
}

// The text with another fragment in one grammar.
fn set_fragment_in<S: Spec>(text: &[u8], fragment: &[u8], out: &mut [u8], detail: &mut usize) -> u8
    ensures { Answered (fragment_in text.now fragment.now S.tests) out.old out.new detail.new result }
{
    let view = match RiReferenceStr::<S>::try_from_bytes(text) {
        Ok(view) => view,
        Err(error) => return answer_fault(BAD_TEXT, error.kind(), detail),
    };
    match RiFragmentStr::<S>::try_from_bytes(fragment) {
        Ok(fragment) => {
            let prefix = before_fragment(view);
            let fragment = fragment.as_str();
            answer_text(out, &Fragmented { prefix, fragment }, detail)
        }
        Err(error) => answer_fault(BAD_PART, error.kind(), detail),
    }
}

/// A reference with a fragment in place of its own, or after one that has none.
pub fn irikit_set_fragment(
    grammar: u32,
    text: &[u8],
    fragment: &[u8],
    out: &mut [u8],
    detail: &mut usize,
) -> u8
    ensures { Answered (in_grammar grammar (fragment_in text.now fragment.now)) out.old out.new detail.new result }
{
    match grammar {
        URI => set_fragment_in::<UriSpec>(text, fragment, out, detail),
        IRI => set_fragment_in::<IriSpec>(text, fragment, out, detail),
        _ => answer(UNKNOWN, detail),
    }
}
