// Triplet normal form, written run by run.
ghost use Rattle.std.specs.Prelude.{◌≡◌, ◌<◌, ◌≤◌, true, false, not, MatchOption, length, slice_index, take};
ghost use Rattle.std.specs.Bool.{OnTrue};
ghost use Rattle.std.specs.Str.{IsUtf8};
ghost use Rattle.iri_text.specs.Shown.{Shows};
ghost use Rattle.iri_percent.specs.Units.{whole_triplets};
ghost use Rattle.iri_percent.specs.Triplets.{normal};
ghost use Rattle.iri_percent.specs.inside.Pieces.{case_of, stays, NoCandidate, CandidateAt, FirstCandidate, Becomes};

use crate::change::{Run, write_change};
use iri_grammar::spec::Spec;
use iri_text::{Stop, TextSink};
use memchr::memchr;

// Whether a change may begin with this byte.
fn is_candidate(b: u8, lower: bool) -> bool
    ensures { stays lower b ≡ not result }
{
    b == b'%' || (lower && b.is_ascii_uppercase())
}

fn find_in_short(text: &[u8], lower: bool) -> Option<usize>
    ensures { MatchOption result (NoCandidate lower text.now (length text.now)) (λ i. CandidateAt lower text.now i) }
{
    for (i, b) in text.iter().enumerate() {
        if is_candidate(*b, lower) {
            return Some(i);
        }
    }
    None
}

// The parts of a reference are mostly short, and then a search by blocks isn't worth its call.
fn find_percent(text: &[u8]) -> Option<usize>
    ensures { MatchOption result (NoCandidate false text.now (length text.now)) (λ i. CandidateAt false text.now i) }
{
    if text.len() < 32 {
        find_in_short(text, false)
    } else {
        memchr(b'%', text)
    }
}

fn find_candidate(text: &[u8], lower: bool) -> Option<usize>
    ensures { MatchOption result (NoCandidate lower text.now (length text.now)) (λ i. CandidateAt lower text.now i) }
{
    if lower {
        find_in_short(text, true)
    } else {
        find_percent(text)
    }
}

// Where a change may begin, where one may. What comes before it stays.
#[tactic(auto, using(crate::proofs::forms::Changes::first_candidate))]
fn next_candidate<S: Spec>(text: &[u8], lower: bool) -> Option<usize>
    requires { whole_triplets text.now ≡ true }
    ensures { MatchOption result (normal S.tests (case_of lower) text.now ≡ text.now) (λ i. FirstCandidate S.tests lower text.now i) }
{
    find_candidate(text, lower)
}

// Whether one more change is written: the buffer has room for it, and a change may begin there.
#[inline(always)]
fn has_next(text: &[u8], at: usize, lower: bool, written: usize) -> bool
    ensures { OnTrue result ((written ≤ 60) × (at < length text.now) × (stays lower (slice_index text.now at) ≡ false)) }
{
    written <= 60 && at < text.len() && is_candidate(text[at], lower)
}

// Gathers what is written from the first change on, up to a byte that stays or a full buffer: percent-encoded octets that
// are in normal form too.
#[inline(always)]
fn gather_in<S: Spec>(text: &[u8], at: usize, lower: bool, buf: &mut [u8; 64]) -> Run
    requires { (whole_triplets text.now ≡ true) × FirstCandidate S.tests lower text.now at }
    ensures becomes { Becomes S.tests lower text.now at result.read (take result.written buf.new) }
    ensures utf8 { IsUtf8 (take result.written buf.new) }
    ensures room { result.written ≤ 64 }
{
    let mut run = Run {
        read: 0,
        written: 0,
    };
    'changes: loop {
        let change = write_change::<S>(&text[at + run.read..], lower, buf, run.written);
        run = Run {
            read: run.read + change.read,
            written: change.written,
        };
        if !has_next(text, at + run.read, lower, run.written) {
            return run;
        }
    }
}

// The loop is compiled for each case of its own.
#[inline(always)]
fn gather<S: Spec>(text: &[u8], at: usize, lower: bool, buf: &mut [u8; 64]) -> Run
    requires { (whole_triplets text.now ≡ true) × FirstCandidate S.tests lower text.now at }
    ensures becomes { Becomes S.tests lower text.now at result.read (take result.written buf.new) }
    ensures utf8 { IsUtf8 (take result.written buf.new) }
    ensures room { result.written ≤ 64 }
{
    if lower {
        gather_in::<S>(text, at, true, buf)
    } else {
        gather_in::<S>(text, at, false, buf)
    }
}

// Puts a run, which may be empty.
fn put_run<W: TextSink>(sink: &mut W, run: &str) -> Result<(), Stop>
    ensures { Shows W.puts W.halts W.stops sink.old run.now sink.new result }
{
    if run.is_empty() {
        return Ok(());
    }
    sink.put(run)
}

// Writes a text in triplet normal form, and where it is asked for, its letters outside percent-encoded octets in lower case.
#[inline(always)]
pub(crate) fn show_normal<S: Spec, W: TextSink>(
    text: &str,
    lower: bool,
    sink: &mut W,
) -> Result<(), Stop>
    requires { whole_triplets text.now ≡ true }
    ensures { Shows W.puts W.halts W.stops sink.old (normal S.tests (case_of lower) text.now) sink.new result }
{
    let mut rest = text;
    while let Some(at) = next_candidate::<S>(rest.as_bytes(), lower) {
        put_run(sink, &rest[..at])?;
        let mut buf = [0u8; 64];
        let run = gather::<S>(rest.as_bytes(), at, lower, &mut buf);
        sink.put(unsafe { str::from_utf8_unchecked(&buf[..run.written]) })?;
        rest = &rest[at + run.read..];
    }
    put_run(sink, rest)
}
