// Lines of a source.
ghost use Rattle.std.specs.Prelude.{◌≡◌, ◌↔◌, ◌≤◌, ◌<◌, ◌+◌, ◌-◌, ◌^◌, [], ◌++◌, true, false, length, take};
ghost use Rattle.std.specs.Prelude.{slice_range, slice_index, IfOk, OnErr};
ghost use Rattle.memchr.specs.Find.{IsFirstByte, is_byte};
ghost use Rattle.std.specs.Vec.{vec_capacity};
ghost use Rattle.iri_text.specs.Lines.{NoLf, no_cr};
ghost use Rattle.iri_text.specs.inside.Layout.{IsFirstLf};
ghost use Rattle.iri_text.specs.LineEnds.{line_feed};
ghost use Rattle.iri_text.specs.Limits.{largest_line_limit};
ghost use Rattle.iri_text.specs.Source.{Consumes, IsAtEnd};
ghost use Rattle.iri_text.specs.Count.{Rose};
ghost use Rattle.iri_text.specs.Reader.{Advances, is_final, done_by};
ghost use Rattle.iri_text.specs.inside.LfSearch.{Looks};
ghost use Rattle.iri_text.specs.Takings.{TakesAsNeeded};

use crate::{Failed, Source};
use memchr::memchr;
use std::alloc::{AllocError, Global};
use std::marker::Model;
use std::simd::prelude::*;

const BLOCK: usize = 65536;

/// The largest limit of a line's bytes that a [`LineReader`] may have.
pub const LARGEST_LINE_LIMIT: usize = 1_048_576;

/// Why there is no next line.
///
/// ```
/// use iri::streams::{LineFault, LineReader, PlainSource};
/// let mut lines = LineReader::new(rt.alloc(), 2, 1000)?;
/// assert!(rt; matches!(lines.advance(&mut PlainSource::new(b"abc\n")), Err(LineFault::LineTooLong)));
/// let mut lines = LineReader::new(rt.alloc(), 1000, 2)?;
/// assert!(rt; matches!(lines.advance(&mut PlainSource::new(b"abc\n")), Err(LineFault::InputTooLong)));
/// ```
#[derive(Clone, Copy, Debug, PartialEq, Eq)]
pub enum LineFault {
    /// The source failed. What it gave before is within both limits, and there is no LF in what is held.
    Source,
    /// The line has more bytes before its LF, or before the end, than its limit. A CR counts.
    LineTooLong,
    /// The source gave more bytes than the limit of the input. On one and the same byte this comes before `LineTooLong`.
    InputTooLong,
}

/// Turns a source into lines. An LF ends a line; what follows the last LF is a line where it has at least one byte. One
/// CR directly before the LF, or before the end of the last line, isn't part of the line.
///
/// ```
/// use iri::streams::{LineReader, PlainSource};
/// let mut source = PlainSource::new(b"http://a/\r\n../g");
/// let mut reader = LineReader::new(rt.alloc(), 100, 1000)?;
/// assert!(rt; matches!(reader.advance(&mut source), Ok(true)));
/// assert_eq!(rt; reader.line(), b"http://a/".as_slice());
/// assert!(rt; matches!(reader.advance(&mut source), Ok(true)));
/// assert_eq!(rt; reader.line(), b"../g".as_slice());
/// assert!(rt; matches!(reader.advance(&mut source), Ok(false)));
/// ```
#[derive(Drop)]
#[derive_where(Debug)]
pub struct LineReader {
    // What is held lies from `start` to `end`. Its first LF is the byte `lf`, counted from `start`, or `lf` is its length.
    // The buffer grows by blocks within the capacity that it begins with, so memory is touched only where lines need it.
    #[derive_where(skip(Debug))]
    buf: Vec<u8>,
    start: usize,
    end: usize,
    lf: usize,
    line_start: usize,
    line_end: usize,
    taken: u64,
    // The last line had no LF.
    ended: bool,
    // The last call gave no line.
    done: bool,
    line_limit: usize,
    input_limit: u64,
}

impl Model for LineReader {
    ghost use Rattle.iri_text.specs.Line.{LineState};

    ghost Value = { LineState };

    ghost use Rattle.iri_text.specs.View.{line_state};
    ghost use Rattle.iri_text.specs.inside.Layout.{IsSound};

    ghost view = { line_state };

    ghost invariant = { IsSound };
}

// What is at the start of the bytes that are held.
enum Look {
    // A line of so many bytes, and its LF.
    Line(usize),
    TooLong,
    Over,
    // No LF.
    More,
}

// Where the first LF is among the 16 bytes from a place on, counted from there.
#[inline(always)]
fn lf_in_block(held: &[u8], i: usize) -> Option<usize>
    requires { i + 16 ≤ length held.now }
    ensures { IsFirstByte (is_byte line_feed) (slice_range held.now i (i + 16)) result }
{
    let delimiters = u8x16::from_slice(&held[i..])
        .simd_eq(u8x16::splat(b'\n'))
        .to_bitmask();
    if delimiters == 0 {
        None
    } else {
        Some(delimiters.trailing_zeros() as usize)
    }
}

// Where the first LF is, or the length where there is none. There is none before `from`. Most lines are short: by `memchr` alone each
// takes 20 instructions more.
#[inline(always)]
fn find_lf(held: &[u8], from: usize) -> usize
    requires from { from ≤ length held.now }
    requires no_lf { NoLf (take from held.now) }
    ensures { IsFirstLf held.now result }
{
    let mut i = from;
    'passed: while i + 16 <= held.len() {
        if let Some(k) = lf_in_block(held, i) {
            return i + k;
        }
        i += 16;
    }
    match memchr(b'\n', &held[i..]) {
        Some(k) => i + k,
        None => held.len(),
    }
}

// What is there, by the first LF. From `usable` on nothing counts.
fn look_at(held: &[u8], lf: usize, usable: usize, limit: usize) -> Look
    requires usable { usable ≤ length held.now }
    requires first { IsFirstLf held.now lf }
    ensures { Looks held.now usable limit result }
{
    if lf.min(usable) > limit {
        Look::TooLong
    } else if lf < usable {
        Look::Line(lf)
    } else if usable < held.len() {
        Look::Over
    } else {
        Look::More
    }
}

// How many of the bytes that are held count.
fn usable_len(len: usize, taken: u64, input_limit: u64) -> usize
    requires { (taken ≤ input_limit + 1) × (input_limit < taken → 0 < len) }
    ensures { result + (taken - input_limit) ≡ len }
{
    if taken > input_limit { len - 1 } else { len }
}

// The length of a line without a CR.
fn line_len(raw: &[u8]) -> usize
    ensures within { result ≤ length raw.now }
    ensures line { take result raw.now ≡ no_cr raw.now }
{
    match raw.strip_suffix(b"\r") {
        Some(line) => line.len(),
        None => raw.len(),
    }
}

// No call may follow this answer.
fn is_last(answer: &Result<bool, LineFault>) -> bool
    ensures { result ≡ is_final answer.now }
{
    match answer {
        Ok(found) => !*found,
        Err(_) => true,
    }
}

// Lengthens a buffer by a block, within its capacity.
fn grow(buf: &mut Vec<u8>)
    requires { length buf.old.items + 65536 ≤ vec_capacity buf.old }
    ensures capacity { vec_capacity buf.old ≤ vec_capacity buf.new }
    ensures len { length buf.new.items ≡ length buf.old.items + 65536 }
    ensures prefix { take (length buf.old.items) buf.new.items ≡ buf.old.items }
{
    match buf.resize(buf.len() + BLOCK, 0) {
        Ok(()) => {}
        Err(_) => unreachable!(),
    }
}

// Makes room after a part that lies at the end: it moves to the start, or the buffer grows. Says where the part begins. This and `fill`
// stand apart, so that `advance` is inlined where a line is held.
#[cold]
#[inline(never)]
fn make_room(buf: &mut Vec<u8>, start: usize, end: usize) -> usize
    requires part { (start ≤ end) × (end ≤ length buf.old.items) }
    requires capacity { end - start + 65536 ≤ vec_capacity buf.old }
    ensures capacity { vec_capacity buf.old ≤ vec_capacity buf.new }
    ensures len { length buf.old.items ≤ length buf.new.items }
    ensures room { result + (end - start) < length buf.new.items }
    ensures part { slice_range buf.new.items result (result + (end - start)) ≡ slice_range buf.old.items start end }
{
    if end < buf.len() {
        return start;
    }
    if start == 0 {
        grow(buf);
    } else {
        buf.copy_within(start..end, 0);
    }
    0
}

// Takes bytes after a part.
#[cold]
#[inline(never)]
fn fill<I: Source>(
    buf: &mut Vec<u8>,
    end: usize,
    most: usize,
    source: &mut I,
) -> Result<usize, Failed>
    requires { (end < length buf.old.items) × (0 < most) }
    ensures capacity { vec_capacity buf.new ≡ vec_capacity buf.old }
    ensures len { length buf.new.items ≡ length buf.old.items }
    ensures prefix { take end buf.new.items ≡ take end buf.old.items }
    ensures within { IfOk result (λ n. (end + n ≤ length buf.old.items) × (n ≤ most)) }
    ensures bytes { IfOk result (λ n. Consumes (I.left source.old) (I.left source.new)
        (slice_range buf.new.items end (end + n))) }
    ensures ends { IfOk result (λ n. n ≡ 0 → IsAtEnd (I.left source.old)) }
    ensures later { I.faults source.old ≤ I.faults source.new }
    ensures cause { OnErr result (Rose (I.faults source.old) (I.faults source.new)) }
    ensures nothing { OnErr result (Consumes (I.left source.old) (I.left source.new) []) }
    ensures call { I.call source.old source.new }
{
    let to = end + most.min(buf.len() - end);
    source.take(&mut buf[end..to])
}

impl LineReader {
    ghost use Rattle.std.specs.Prelude.{⊤};
    ghost use Rattle.std.specs.Borrow.{sem, follows_so};
    ghost use mathlib.Core.Option.{none};
    ghost use Rattle.iri_text.specs.contracts.streams.reader.LineReader.{the_row};
    ghost use Rattle.iri_text.specs.Reader.{NextLine};

    /// A reader that takes all of the memory that it will need: `line_limit` and 65,536 bytes. It has conditions: both
    /// limits are counts of bytes, for a line at least 1 and at most [`LARGEST_LINE_LIMIT`], for the input less than 2^63.
    ///
    /// # Errors
    ///
    /// Where allocation fails.
    pub fn new(alloc: Global, line_limit: usize, input_limit: u64) -> Result<LineReader, AllocError>
        requires { (0 < line_limit) × (line_limit ≤ largest_line_limit) × (input_limit < 2 ^ 63) }
        ensures { IfOk result (λ r. (r.held ≡ []) × (r.taken ≡ 0) × (r.ended ≡ false) × (r.line_limit ≡ line_limit)
            × (r.input_limit ≡ input_limit) × (r.done ≡ false)) }
    {
        Ok(LineReader {
            buf: Vec::with_capacity(alloc, line_limit + BLOCK)?,
            start: 0,
            end: 0,
            lf: 0,
            line_start: 0,
            line_end: 0,
            taken: 0,
            ended: false,
            done: false,
            line_limit,
            input_limit,
        })
    }

    /// The line, where the last call of `advance` answered `true`.
    pub fn line(&self) -> &[u8]
        ensures { result.now ≡ self.now.line }
    {
        &self.buf[self.line_start..self.line_end]
    }

    /// Goes to the next line, and says whether there is one: `line` gives it. Bytes are taken only while those that are
    /// held have no LF. It has a condition: no earlier call answered `false` or a fault, which `is_done` tests.
    ///
    /// # Errors
    ///
    /// - `Source` only where the source's count of faults rose; what is held passes no limit and has no LF then.
    /// - `LineTooLong` and `InputTooLong` exactly at the byte past the limit, the first of both in the order of bytes,
    ///   and `InputTooLong` on one byte. What was taken is held.
    ///
    /// ```
    /// use iri::streams::{LineFault, LineReader, PlainSource};
    /// let mut source = PlainSource::new(b"abcd\n");
    /// let mut reader = LineReader::new(rt.alloc(), 3, 1000)?;
    /// assert!(rt; matches!(reader.advance(&mut source), Err(LineFault::LineTooLong)));
    /// assert!(rt; reader.is_done());
    /// ```
    #[inline(always)]
    pub fn advance<I: Source>(&mut self, source: &mut I) -> Result<bool, LineFault>
        requires { self.old.done ≡ false }
        ensures needed { TakesAsNeeded I.call I.left self.old.held source.old source.new }
        ensures advances { Advances self.old self.new (I.left source.old) (I.left source.new) (I.faults source.old)
            (I.faults source.new) result }
    {
        let answer = self.find_line(source);
        self.done = is_last(&answer);
        answer
    }

    // The same, but for `done`.
    #[inline(always)]
    fn find_line<I: Source>(&mut self, source: &mut I) -> Result<bool, LineFault>
        ensures needed { TakesAsNeeded I.call I.left self.old.held source.old source.new }
        ensures advances { Advances self.old (done_by result self.new) (I.left source.old) (I.left source.new)
            (I.faults source.old) (I.faults source.new) result }
    {
        if self.ended {
            return Ok(false);
        }
        loop {
            let held = &self.buf[self.start..self.end];
            let usable = usable_len(held.len(), self.taken, self.input_limit);
            match look_at(held, self.lf, usable, self.line_limit) {
                Look::Line(i) => {
                    self.line_start = self.start;
                    self.line_end = self.start + line_len(&held[..i]);
                    self.start += i + 1;
                    self.lf = find_lf(&self.buf[self.start..self.end], 0);
                    return Ok(true);
                }
                Look::TooLong => return Err(LineFault::LineTooLong),
                Look::Over => return Err(LineFault::InputTooLong),
                Look::More => {}
            }
            let len = self.end - self.start;
            self.start = make_room(&mut self.buf, self.start, self.end);
            self.end = self.start + len;
            let most = (self.input_limit - self.taken) as usize + 1;
            match fill(&mut self.buf, self.end, most, source) {
                Ok(0) if len == 0 => return Ok(false),
                Ok(0) => {
                    self.line_start = self.start;
                    self.line_end = self.start + line_len(&self.buf[self.start..self.end]);
                    self.start = self.end;
                    self.lf = 0;
                    self.ended = true;
                    return Ok(true);
                }
                Ok(n) => {
                    self.end += n;
                    self.taken += n as u64;
                    self.lf = find_lf(&self.buf[self.start..self.end], len);
                }
                Err(Failed) => return Err(LineFault::Source),
            }
        }
    }

    /// Whether there is an LF in the bytes that are held. The next call of `advance` or `next_line` takes no bytes then.
    pub fn holds_lf(&self) -> bool
        ensures { NoLf self.now.held ↔ (result ≡ false) }
    {
        self.lf < self.end - self.start
    }

    /// Whether a call answered that there is no line, or a fault: the test of the condition of `advance` and
    /// `next_line`.
    pub fn is_done(&self) -> bool
        ensures { result ≡ self.now.done }
    {
        self.done
    }

    /// The next line, or `None` at the end. It has a condition: no earlier call answered `None` or a fault, which
    /// `is_done` tests.
    ///
    /// # Errors
    ///
    /// Those of `advance`.
    ///
    /// ```
    /// use iri::streams::{LineReader, PlainSource};
    /// let mut source = PlainSource::new(b"../g\n");
    /// let mut reader = LineReader::new(rt.alloc(), 100, 1000)?;
    /// let line = reader.next_line(&mut source).ok().ok_or("no fault")?;
    /// assert_eq!(rt; line.ok_or("a line")?, b"../g".as_slice());
    /// ```
    pub fn next_line<I: Source>(&mut self, source: &mut I) -> Result<Option<&[u8]>, LineFault>
        requires { self.old.done ≡ false }
        ensures needed { TakesAsNeeded I.call I.left self.old.held source.old source.new }

        // `after` is the reader once the line is let go.
        ensures* next { sem 𝓛 (follows_so the_row the_row self.entry.ghost_name none (λ _ _. ⊤)
            (λ after. NextLine self.old after (I.left source.old) (I.left source.new) (I.faults source.old)
            (I.faults source.new) result)) }
    {
        match self.advance(source) {
            Ok(true) => Ok(Some(self.line())),
            Ok(false) => Ok(None),
            Err(fault) => Err(fault),
        }
    }
}
