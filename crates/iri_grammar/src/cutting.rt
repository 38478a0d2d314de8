//! A text cut at a delimiter: an ASCII character that parts a text from what follows, as `?` or `#`.
ghost use Rattle.std.specs.Prelude.{◌≡◌, ◌<◌, ◌≤◌, length, MatchOption};
ghost use Rattle.iri_grammar.specs.Cut.{before, after, from, lacks, CutAt, NoCut};
ghost use Rattle.iri_grammar.specs.OptionalSlices.{now_of};
ghost use Rattle.iri_grammar.specs.Runs.{IsRunBy};

use memchr::memchr;

/// Where the byte first is; `None` exactly where it is nowhere.
pub fn find_byte(bytes: &[u8], byte: u8) -> Option<usize>
    ensures { MatchOption result (NoCut byte bytes.now) (λ k. CutAt byte bytes.now k) }
{
    memchr(byte, bytes)
}

/// Where the delimiter first is, in bytes; `None` exactly where it is nowhere.
pub fn find(s: &str, delimiter: u8) -> Option<usize>
    ensures { MatchOption result (NoCut delimiter s.now) (λ k. CutAt delimiter s.now k) }
{
    find_byte(s.as_bytes(), delimiter)
}

/// What comes before the first delimiter, or all, and what comes after it, `None` exactly where it is nowhere. It has a
/// condition: the delimiter is ASCII (`u8::is_ascii`).
pub fn cut(s: &str, delimiter: u8) -> (&str, Option<&str>)
    requires { delimiter < 128 }
    ensures before { result.0.now ≡ before delimiter s.now }
    ensures after { now_of result.1 ≡ after delimiter s.now }
{
    match find(s, delimiter) {
        Some(i) => (&s[..i], Some(&s[i + 1..])),
        None => (s, None),
    }
}

/// What comes before the first delimiter, or all, and the rest from it on. It has a condition: the delimiter is ASCII
/// (`u8::is_ascii`).
pub fn cut_before(s: &str, delimiter: u8) -> (&str, &str)
    requires { delimiter < 128 }
    ensures before { result.0.now ≡ before delimiter s.now }
    ensures from { result.1.now ≡ from delimiter s.now }
{
    match find(s, delimiter) {
        Some(i) => (&s[..i], &s[i..]),
        None => (s, ""),
    }
}

/// Whether the delimiter is nowhere in the text.
pub fn lacks(s: &str, delimiter: u8) -> bool
    ensures { result ≡ lacks delimiter s.now }
{
    find(s, delimiter).is_none()
}

/// How many bytes at the start pass the test. It has a condition: the test may be called with any byte.
#[inline(always)]
pub fn run_len<F: Fn(u8) -> bool>(bytes: &[u8], passes: F) -> usize
    requires { F.IsAlwaysCallable passes }
    ensures run { IsRunBy (F.post passes) bytes.now result }
    ensures within { result ≤ length bytes.now }
{
    for (i, b) in bytes.iter().enumerate() {
        if !passes(*b) {
            return i;
        }
    }
    bytes.len()
}
