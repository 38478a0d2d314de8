// Quoted strings (RFC 9110 section 5.6.4).
ghost use Rattle.std.specs.Prelude.{◌≡◌, ◌&&◌, ◌==◌, not, false, MatchOption, IfOk, string_bytes};
ghost use Rattle.iri_link.specs.Fault.{closes_from};
ghost use Rattle.iri_link.specs.Token.{is_pair_char, is_plain_char};
ghost use Rattle.iri_grammar.specs.OptionalSlices.{now_of};
ghost use Rattle.iri_link.specs.inside.CutDelimiters.{IsChunk};
ghost use Rattle.iri_link.specs.inside.ReadQuoted.{quoted_len, unquoted, IsCutOpen, IsPastQuoted};

use crate::runs::{Run, cut_run, is_all, past};
use iri_grammar::cutting::cut;
use std::alloc::{AllocError, Global};

// A tab, a space, a printable ASCII character, or a byte of one past ASCII.
pub(crate) fn is_pair_char(b: u8) -> bool
    ensures { result ≡ is_pair_char b }
{
    b == b'\t' || (32..=126).contains(&b) || b > 127
}

// One of them but `"` and `\`.
pub(crate) fn is_plain_char(b: u8) -> bool
    ensures { result ≡ is_plain_char b }
{
    if b > b'\\' {
        b != 127
    } else {
        (b' '..b'\\').contains(&b) && b != b'"' || b == b'\t'
    }
}

// Whether the byte is the delimiter, and no `\` comes before it.
fn stands_free(escaped: bool, b: u8, delimiter: u8) -> bool
    ensures { result ≡ (not escaped && b == delimiter) }
{
    !escaped && b == delimiter
}

// How many bytes stand before the `"` that ends a quoted string, or all where none does.
fn quoted_len(bytes: &[u8]) -> usize
    ensures { result ≡ quoted_len false bytes.now }
{
    let mut escaped = false;
    for (i, b) in bytes.iter().enumerate() {
        if stands_free(escaped, *b, b'"') {
            return i;
        }
        escaped = stands_free(escaped, *b, b'\\');
    }
    bytes.len()
}

// What is in a quoted string, after its first `"`, and what follows it: nothing where it isn't closed.
pub(crate) fn cut_open(s: &str) -> (&str, &str)
    ensures { IsCutOpen s.now result.0.now result.1.now }
{
    let n = quoted_len(s.as_bytes());
    if n < s.len() {
        (&s[..n], &s[n + 1..])
    } else {
        (s, "")
    }
}

// What follows a quoted string, after its first `"`, where it is closed and has no character that it may not. Most have no `\`, and are
// passed as one run: without that a line with 37 such characters takes 5,723 instructions, and with it 5,164 (2026-12-01).
pub(crate) fn past_quoted(s: &str) -> Option<&str>
    ensures { MatchOption result (closes_from false s.now ≡ false) (λ r. IsPastQuoted s.now r.now) }
{
    let (_, next) = cut_run(Run::Plain, s);
    if let Some(after) = past(next, b'"') {
        return Some(after);
    }
    let (raw, rest) = cut_open(s);
    if raw.len() == s.len() {
        return None;
    }
    if is_all(Run::Pair, raw.as_bytes()) {
        Some(rest)
    } else {
        None
    }
}

// The value of a quoted string, from what is between its two `"`.
pub(crate) fn unquote(alloc: Global, raw: &str) -> Result<String, AllocError>
    ensures { IfOk result (λ v. string_bytes v ≡ unquoted raw.now) }
{
    let mut value = String::new(alloc);
    let mut rest = raw;
    'chunks: loop {
        let (chunk, after) = cut(rest, b'\\');
        value.push_str(chunk)?;
        let Some(after) = after else {
            return Ok(value);
        };
        match past(after, b'\\') {
            Some(next) => {
                value.push_str("\\")?;
                rest = next;
            }
            None => rest = after,
        }
    }
}

// What stands before the first `\`, the `\` that it stands for where another follows, as it is written, and what is left
// then; `None` at the end.
pub(crate) fn cut_chunk(raw: &str) -> (&str, &str, Option<&str>)
    ensures { IsChunk raw.now result.0.now result.1.now (now_of result.2) }
{
    let (chunk, rest) = cut(raw, b'\\');
    match rest {
        Some(after) => match past(after, b'\\') {
            Some(next) => (chunk, "\\\\", Some(next)),
            None => (chunk, "", Some(after)),
        },
        None => (chunk, "", None),
    }
}
