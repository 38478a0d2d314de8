// A long path cut between its segments, and how many of them later ones take away.
ghost use Rattle.std.specs.Prelude.{◌≡◌, ◌<◌, ◌≤◌, ◌+◌, ◌-◌, ◌^◌, ◌++◌, ◌∷◌, ℕ, [], MatchOption, None, Some, cond, false, true, length, slice_index, count_by, take};
ghost use Rattle.memchr.specs.Find.{IsLastByte, is_byte};
ghost use Rattle.iri_grammar.specs.Characters.{slash};
ghost use Rattle.iri_grammar.specs.Components.{is_path};
ghost use Rattle.iri_grammar.specs.Cut.{after, before, lacks};
ghost use Rattle.iri_grammar.specs.Pieces.{pieces};
ghost use Rattle.iri_normal.specs.Dots.{is_dot_segment};
ghost use Rattle.iri_normal.specs.inside.Kept.{taken};
ghost use Rattle.iri_normal.specs.Target.{ends_at_slash};
ghost use Rattle.iri_normal.specs.inside.NextDots.{IsCut};
ghost use Rattle.iri_normal.specs.inside.Written.{popped, popped_times, written};

use crate::dots::{is_dot_segment, next_dots};
use iri_grammar::cutting::{cut, find};
use iri_grammar::spec::Spec;
use memchr::{memchr, memrchr};

// How many slashes are in a text.
fn count_slashes(text: &[u8]) -> usize
    ensures { result ≡ count_by (is_byte 47) text.now }
{
    text.iter().filter(|b| **b == b'/').count()
}

// How many segments are taken away before segments, and how many of these stay, after a dot segment more.
fn counts_after(gone: usize, stay: usize, two: bool) -> (usize, usize)
    requires { gone + stay + 1 < 2 ^ 64 }
    ensures counts { (n : ℕ) → result.0 + (n - result.1) ≡ gone + (cond two (n + 1) n - stay) }
    ensures room { result.0 + result.1 ≤ gone + stay + 1 }
{
    if !two {
        (gone, stay)
    } else if stay == 0 {
        (gone + 1, 0)
    } else {
        (gone, stay - 1)
    }
}

// How many segments a path takes away before it, where `count` are taken away after it.
pub(crate) fn taken(text: &str, count: usize) -> usize
    requires room { count + length text.now < 2 ^ 64 }
    ensures count { result ≡ taken (pieces slash text.now) count }
    ensures room { result ≤ count + length text.now }
{
    let mut rest = text.as_bytes();
    let mut gone = 0;
    let mut stay = 0;
    'dots: while let Some(next) = next_dots(rest) {
        (gone, stay) = counts_after(gone, stay + count_slashes(next.run), next.two);
        rest = next.rest;
    }
    gone + count.saturating_sub(stay + count_slashes(rest))
}

// A path without the dot segments at its start.
pub(crate) fn without_first_dots<S: Spec>(text: &str) -> &str
    requires path { is_path S.tests text.now ≡ true }
    ensures ends { ends_at_slash text.now ≡ true → ends_at_slash result.now ≡ true }
    ensures path { is_path S.tests result.now ≡ true }
    ensures plain { is_dot_segment (before slash result.now) ≡ false }
    ensures same { written [] result.now ≡ written [] text.now }
{
    let mut rest = text;
    'dots: loop {
        let (segment, more) = cut(rest, b'/');
        if !is_dot_segment(segment) {
            return rest;
        }
        match more {
            Some(next) => rest = next,
            None => return "",
        }
    }
}

// A path up to and with its first slash, and what follows it. `None` where it has none.
pub(crate) fn cut_first(text: &str) -> Option<(&str, &str)>
    ensures { MatchOption result (after slash text.now ≡ None)
        (λ parts. (after slash text.now ≡ Some parts.1.now) × (parts.0.now ≡ before slash text.now ++ slash ∷ [])) }
{
    match find(text, b'/') {
        Some(i) => Some((&text[..i + 1], &text[i + 1..])),
        None => None,
    }
}

// Where the last slash before the last byte is.
fn slash_before_last(path: &[u8]) -> Option<usize>
    requires { 1 ≤ length path.now }
    ensures { IsLastByte (is_byte 47) (take (length path.now - 1) path.now) result }
{
    memrchr(b'/', &path[..path.len() - 1])
}

// A directory without its last segment. Of the first one the slash stays.
fn popped(directory: &str) -> &str
    requires some { 1 ≤ length directory.now }
    requires ends { ends_at_slash directory.now ≡ true }
    ensures { result.now ≡ popped directory.now }
{
    match slash_before_last(directory.as_bytes()) {
        Some(i) => &directory[..i + 1],
        None => "/",
    }
}

// So many times.
pub(crate) fn popped_times(directory: &str, count: usize) -> &str
    requires ends { ends_at_slash directory.now ≡ true }
    ensures { result.now ≡ popped_times count directory.now }
{
    let mut rest = directory;
    let mut left = count;
    'pops: while left > 0 && rest.len() > 1 {
        rest = popped(rest);
        left -= 1;
    }
    rest
}

// Where the last slash of the first seven eighths is, or the first one before the end.
fn slash_to_cut(text: &[u8]) -> Option<usize>
    requires { 8 ≤ length text.now }
    ensures { MatchOption result (lacks slash (take (length text.now - 1) text.now) ≡ true)
        (λ i. (i + 1 < length text.now) × (slice_index text.now i ≡ 47)) }
{
    match memrchr(b'/', &text[..text.len() / 8 * 7]) {
        Some(i) => Some(i),
        None => memchr(b'/', &text[..text.len() - 1]),
    }
}

// A path cut after a segment, about an eighth of it after the cut where that can be. `None` where it is one segment.
//
// What is after a cut is counted before it is shown, and each part is cut again until it is short. By halves all counts together would
// go four and a half times through a path of 64 KiB, nine calls deep; by eighths twice, 47 calls deep. Any share is right.
pub(crate) fn cut_eighth(text: &str) -> Option<(&str, &str)>
    requires { 8 ≤ length text.now }
    ensures { MatchOption result (lacks slash (take (length text.now - 1) text.now) ≡ true)
        (λ parts. IsCut text.now parts.0.now parts.1.now) }
{
    match slash_to_cut(text.as_bytes()) {
        Some(i) => Some((&text[..i + 1], &text[i + 1..])),
        None => None,
    }
}
