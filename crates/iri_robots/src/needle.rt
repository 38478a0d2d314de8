// What of a pattern is searched for in an escaped text, in which it stands as it is.
ghost use Rattle.std.specs.Prelude.{◌≡◌, ◌≢◌, ◌↔◌, ◌⊎◌, ◌+◌, ◌<◌, ◌≤◌, ◌^◌, ℕ, [], true, false, MatchOption, length, take, drop};
ghost use Rattle.iri_robots.specs.inside.Fits.{FitsNot};
ghost use Rattle.iri_robots.specs.inside.Plain.{Keeps, StandsNot};
ghost use Rattle.iri_robots.specs.inside.Escaped.{IsNeedle, IsWhole, Left, NotWhole, Stands, StopsAt, left_of};

use crate::escaped::{Escaped, read, skip};
use crate::pattern::{Reached, escaped_special, reach_star};
use crate::periods::{Shift, periods_of, shift_of};

// Whether a `$` of the text is read as `%24`: in the pattern no `$` stands before its first `%24` or `*`. Either answer
// is right; with this one the needle is longer.
fn reads_dollars(pattern: &[u8]) -> bool {
    for (i, byte) in pattern.iter().enumerate() {
        if *byte == b'$' {
            return false;
        }
        if *byte == b'*' || escaped_special(&pattern[i..]) == Some(b'$') {
            return true;
        }
    }
    true
}

// How many bytes the first part of a pattern has, where it stands as it is in an escaped text, and none elsewhere.
fn part_len(pattern: &[u8], dollars: bool) -> usize
    ensures within { result ≤ length pattern.now }
    ensures part { (n : ℕ) → IsNeedle dollars (drop result pattern.now) n → IsNeedle dollars pattern.now (result + n) }
{
    if pattern.is_empty() || pattern[0] == b'*' {
        return 0;
    }
    if let Some(special) = escaped_special(pattern) {
        if dollars || special == b'*' {
            return 3;
        }
        return 0;
    }
    if dollars && pattern[0] == b'$' {
        return 0;
    }
    1
}

// How many bytes of a pattern, from its start on, stand as they are in an escaped text, but for those past three times so
// many.
fn needle_len(pattern: &[u8], dollars: bool, most: usize) -> usize
    ensures within { result ≤ length pattern.now }
    ensures needle { IsNeedle dollars pattern.now result }
{
    let mut len = 0;
    while len / 3 <= most {
        let part = part_len(&pattern[len..], dollars);
        if part == 0 {
            return len;
        }
        len += part;
    }
    len
}

// So many bytes of a needle stand at a place, and what is left after them.
#[derive(Clone, Copy)]
struct Filled<'a> {
    bytes: usize,
    left: Escaped<'a>,
}

// As much more of the needle as stands there.
fn fill_on<'a>(needle: &[u8], filled: Filled<'a>, dollars: bool) -> Filled<'a>
    requires { filled.bytes ≤ length needle.now }
    ensures more { (l : Left) → Stands dollars needle.now l filled.entry.bytes (left_of filled.entry.left)
        → Stands dollars needle.now l result.bytes (left_of result.left) }
    ensures stops { result.bytes ≡ length needle.now
        ⊎ (result.bytes < length needle.now) × StopsAt dollars needle.now result.bytes (left_of result.left) }
{
    let mut filled = filled;
    while filled.bytes < needle.len() {
        match read(filled.left, dollars) {
            Some((byte, left)) => {
                if byte != needle[filled.bytes] {
                    return filled;
                }
                filled = Filled {
                    bytes: filled.bytes + 1,
                    left,
                };
            }
            None => return filled,
        }
    }
    filled
}

// The needle stands there as a whole, from a byte of the text to one.
fn is_whole(len: usize, start: Escaped<'_>, filled: Filled<'_>) -> bool
    ensures { (result ≡ true) ↔ IsWhole len (left_of start.entry) filled.entry.bytes (left_of filled.entry.left) }
{
    filled.bytes == len && start.begun.is_empty() && filled.left.begun.is_empty()
}

// The pattern may fit there, up to its first `*`.
fn may_fit(pattern: &[u8], text: &[u8]) -> bool
    ensures { result ≡ false → FitsNot false pattern.now text.now }
{
    match reach_star(pattern, text, false) {
        Reached::Nowhere => false,
        Reached::End | Reached::Star(_, _) => true,
    }
}

// The needle stands there as a whole, and what follows it in the pattern may fit after it.
fn stands(pattern: &[u8], len: usize, start: Escaped<'_>, filled: Filled<'_>) -> bool
    requires { len ≤ length pattern.now }
    ensures { result ≡ false → NotWhole len (left_of start.entry) filled.entry.bytes (left_of filled.entry.left)
        ⊎ FitsNot false (drop len pattern.now) (left_of filled.entry.left).rest }
{
    if !is_whole(len, start, filled) {
        return false;
    }
    may_fit(&pattern[len..], filled.left.rest)
}

// The text ends there.
fn is_over(left: Escaped<'_>) -> bool
    ensures { (result ≡ true) ↔ ((left_of left.entry).begun ≡ []) × ((left_of left.entry).rest ≡ []) }
{
    left.begun.is_empty() && left.rest.is_empty()
}

// What of the needle stands at the next place where it can.
fn shifted<'a>(shift: Shift, start: Escaped<'a>, left: Escaped<'a>) -> Filled<'a>
    ensures bytes { result.bytes ≡ shift.kept }
    ensures anew { shift.kept ≡ 0 → left_of result.left ≡ left_of start.entry }
    ensures on { shift.kept ≢ 0 → left_of result.left ≡ left_of left.entry }
{
    if shift.kept == 0 {
        return Filled {
            bytes: 0,
            left: start,
        };
    }
    Filled {
        bytes: shift.kept,
        left,
    }
}

// The text from the leftmost place on where so many bytes of the pattern stand, and the rest up to a `*` after them.
fn search<'a>(pattern: &[u8], len: usize, text: &'a [u8], dollars: bool) -> Option<&'a [u8]>
    requires { (len ≤ length pattern.now) × IsNeedle dollars pattern.now len }
    ensures { MatchOption result (StandsNot pattern.now text.now) (λ rest. Keeps pattern.now text.now rest.now) }
{
    let needle = &pattern[..len];
    let known = periods_of(needle);
    let mut start = Escaped {
        begun: b"",
        rest: text,
    };
    let mut filled = Filled {
        bytes: 0,
        left: start,
    };
    loop {
        filled = fill_on(needle, filled, dollars);
        if stands(pattern, len, start, filled) {
            return Some(start.rest);
        }
        if is_over(filled.left) {
            return None;
        }
        let shift = shift_of(&known, filled.bytes);
        start = skip(start, shift.by, dollars);
        filled = shifted(shift, start, filled.left);
    }
}

// The text from the leftmost place on where so much of the pattern stands as stands in an escaped text as it is.
pub(crate) fn from_needle<'a>(pattern: &[u8], text: &'a [u8]) -> Option<&'a [u8]>
    ensures { MatchOption result (StandsNot pattern.now text.now) (λ rest. Keeps pattern.now text.now rest.now) }
{
    let dollars = reads_dollars(pattern);
    search(
        pattern,
        needle_len(pattern, dollars, text.len()),
        text,
        dollars,
    )
}
