// Many references in one call.
ghost use Rattle.std.specs.Prelude.{◌≡◌, ◌+◌, ◌∷◌, [], length, MatchOption};
ghost use Rattle.std.specs.List.{flat_map};
ghost use Rattle.iri_text.specs.Lines.{ended};
ghost use Rattle.iri_calls.specs.Buffers.{over};
ghost use Rattle.iri_calls.specs.Outcome.{Returned};
ghost use Rattle.iri_calls.specs.Outcome.Outcome.{plain};
ghost use Rattle.iri_calls.specs.Lines.{Batched, BatchedIn, IsBatch, PairsBatched, answer_against, batch, pair_answer};

use crate::answering::{Bases, Held, put_answer};
use crate::buffer::BufferSink;
use crate::fault::{answer, answer_fault};
use crate::grammar::{IRI, URI, mode_of};
use crate::status::{BAD_BASE, OK, SHORT, UNKNOWN};
use iri_grammar::spec::{IriSpec, Spec, UriSpec};
use iri_normal::mode::CanonMode;
use iri_normal::resolver::FixedBaseResolver;
use iri_types::kind::Absolute;
use iri_types::split::SplitView;
use memchr::memchr;

/// What was done of a batch: how many bytes of lines were answered, LFs among them, how many bytes these answers have, and whether all
/// lines were.
#[derive(Clone, Copy)]
pub(crate) struct Batch {
    consumed: usize,
    written: usize,
    status: u8,
}

// The first line that an LF ends, and what follows the LF.
fn cut_line(text: &[u8]) -> Option<(&[u8], &[u8])>
    ensures { MatchOption result (ended text.now ≡ [])
        (λ r. (ended text.now ≡ r.0.now ∷ ended r.1.now) × (length text.now ≡ length r.0.now + 1 + length r.1.now)) }
{
    match memchr(b'\n', text) {
        Some(i) => Some((&text[..i], &text[i + 1..])),
        None => None,
    }
}

// Answers lines into a sink that has nothing yet.
fn answer_lines<'i, S: Spec>(
    mode: CanonMode,
    bases: &mut Bases<FixedBaseResolver<'i, S>, Held<'i, S>>,
    input: &'i [u8],
    room: usize,
    sink: &mut BufferSink<'_>,
) -> Batch
    requires room { length sink.old.buf.now ≡ room }
    requires empty { sink.old.len ≡ 0 }
    ensures same { sink.new.buf.ghost_name ≡ sink.old.buf.ghost_name }
    ensures batch { result ≡ batch (answer_against S.tests mode bases.old) room (ended input.now) }
    ensures bytes { sink.new.buf.now
        ≡ over (flat_map (answer_against S.tests mode bases.old) (ended input.now)) sink.old.buf.now }
{
    let mut rest = input;
    let mut written = 0;
    'lines: loop {
        let consumed = input.len() - rest.len();
        let Some((raw, after)) = cut_line(rest) else {
            return Batch {
                consumed,
                written,
                status: OK,
            };
        };
        let short = Batch {
            consumed,
            written,
            status: SHORT,
        };
        match put_answer(mode, bases, raw, sink) {
            Ok(()) => (),
            Err(_) => return short,
        }
        let count = sink.count();
        if count > room {
            return short;
        }
        written = count;
        rest = after;
    }
}

// Answers lines over the start of a buffer, as far as there is room.
fn answer_all<'i, S: Spec>(
    mode: CanonMode,
    bases: &mut Bases<FixedBaseResolver<'i, S>, Held<'i, S>>,
    input: &'i [u8],
    out: &mut [u8],
) -> Batch
    ensures batch { result ≡ batch (answer_against S.tests mode bases.old) (length out.old) (ended input.now) }
    ensures bytes { out.new
        ≡ over (flat_map (answer_against S.tests mode bases.old) (ended input.now)) out.old }
{
    let room = out.len();
    let mut sink = BufferSink::new(out);
    answer_lines(mode, bases, input, room, &mut sink)
}

// Answers lines over the start of a buffer, and tells how far.
fn answer_batch<'i, S: Spec>(
    mode: CanonMode,
    mut bases: Bases<FixedBaseResolver<'i, S>, Held<'i, S>>,
    input: &'i [u8],
    out: &mut [u8],
    consumed: &mut usize,
    detail: &mut usize,
) -> u8
    ensures { IsBatch (answer_against S.tests mode bases.entry) input.now out.old out.new consumed.new detail.new result }
{
    let done = answer_all(mode, &mut bases, input, out);
    *consumed = done.consumed;
    *detail = done.written;
    done.status
}

// Answers nothing, since a number stands for nothing.
fn answer_unknown(consumed: &mut usize, detail: &mut usize) -> u8
    ensures consumed { consumed.new ≡ 0 }
    ensures unknown { Returned (plain UNKNOWN) detail.new result }
{
    *consumed = 0;
    answer(UNKNOWN, detail)
}

// The answers to lines in one grammar.
fn batch_in<S: Spec>(
    mode: CanonMode,
    base: &[u8],
    input: &[u8],
    out: &mut [u8],
    consumed: &mut usize,
    detail: &mut usize,
) -> u8
    ensures { BatchedIn S.tests mode base.now input.now out.old out.new consumed.new detail.new result }
{
    match SplitView::<S, Absolute>::absolute_from_bytes(base) {
        Ok(base) => {
            let bases = Bases::One(FixedBaseResolver::of_split(base));
            answer_batch(mode, bases, input, out, consumed, detail)
        }
        Err(error) => {
            *consumed = 0;
            answer_fault(BAD_BASE, error.kind(), detail)
        }
    }
}

/// The answers to the lines of a text, as `irikit canon` writes them.
pub fn irikit_canonical_lines(
    grammar: u32,
    mode: u32,
    base: &[u8],
    lines: &[u8],
    out: &mut [u8],
    consumed: &mut usize,
    detail: &mut usize,
) -> u8
    ensures { Batched grammar mode base.now lines.now out.old out.new consumed.new detail.new result }
{
    match (grammar, mode_of(mode)) {
        (URI, Some(mode)) => batch_in::<UriSpec>(mode, base, lines, out, consumed, detail),
        (IRI, Some(mode)) => batch_in::<IriSpec>(mode, base, lines, out, consumed, detail),
        _ => answer_unknown(consumed, detail),
    }
}

// The answers to pages and links in one grammar.
fn pairs_in<S: Spec>(
    mode: CanonMode,
    input: &[u8],
    out: &mut [u8],
    consumed: &mut usize,
    detail: &mut usize,
) -> u8
    ensures { IsBatch (pair_answer S.tests mode) input.now out.old out.new consumed.new detail.new result }
{
    let bases = Bases::Pages(Held::<S> { page: None });
    answer_batch(mode, bases, input, out, consumed, detail)
}

/// The answers to the lines of a text, each a page, a tab and a link on it, as `irikit pairs` writes them.
pub fn irikit_canonical_pairs(
    grammar: u32,
    mode: u32,
    lines: &[u8],
    out: &mut [u8],
    consumed: &mut usize,
    detail: &mut usize,
) -> u8
    ensures { PairsBatched grammar mode lines.now out.old out.new consumed.new detail.new result }
{
    match (grammar, mode_of(mode)) {
        (URI, Some(mode)) => pairs_in::<UriSpec>(mode, lines, out, consumed, detail),
        (IRI, Some(mode)) => pairs_in::<IriSpec>(mode, lines, out, consumed, detail),
        _ => answer_unknown(consumed, detail),
    }
}
