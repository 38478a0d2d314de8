// Patterns of rules. What stands between two `*` is found at its leftmost place: plain bytes by `memmem`, and what has
// an escape by a search of its own. What a `$` anchors is compared from the end.
ghost use Rattle.std.specs.Prelude.{◌≡◌, ◌≢◌, ◌↔◌, ◌<◌, ◌≤◌, ◌∷◌, true, MatchOption, length, drop, slice_index};
ghost use Rattle.iri_grammar.specs.Characters.{asterisk};
ghost use Rattle.iri_robots.specs.Patterns.{Matches};
ghost use Rattle.iri_robots.specs.inside.Reaching.{HasReached};
ghost use Rattle.iri_robots.specs.inside.Fits.{EscapeOf, NoEscape, Fits, FitsNot, Sticks, Takes};
ghost use Rattle.iri_robots.specs.inside.Plain.{HasPlainPrefix, Keeps, StandsNot};
ghost use Rattle.iri_robots.specs.inside.Ends.{EndsWith, HasLastEscape, HasNoStar};

use crate::needle::from_needle;
use memchr::{memchr, memmem};

// So much of the pattern is filled by so much of the text.
#[derive(Clone, Copy)]
struct Part {
    pattern: usize,
    text: usize,
}

// How far a pattern fits up to its first `*`.
pub(crate) enum Reached<'a> {
    // To its end.
    End,
    // Up to a `*`, after which this pattern and this text are left.
    Star(&'a [u8], &'a [u8]),
    // It doesn't fit.
    Nowhere,
}

// The character that an escape at the start of the pattern stands for.
pub(crate) fn escaped_special(pattern: &[u8]) -> Option<u8>
    ensures { MatchOption result (NoEscape pattern.now) (λ m. EscapeOf pattern.now m) }
{
    if pattern.len() < 3 || pattern[0] != b'%' || pattern[1] != b'2' {
        return None;
    }
    match pattern[2] {
        b'A' => Some(b'*'),
        b'4' => Some(b'$'),
        _ => None,
    }
}

// `%2A` or `*` fills `%2A`, `%24` or `$` fills `%24`.
fn take_escape(pattern: &[u8], text: &[u8], special: u8) -> Option<Part>
    requires { EscapeOf pattern.now special }
    ensures { MatchOption result (Sticks pattern.now text.now) (λ p. Takes pattern.now text.now p.pattern p.text) }
{
    if text.is_empty() {
        return None;
    }
    if text[0] == special {
        return Some(Part {
            pattern: 3,
            text: 1,
        });
    }
    if text.len() < 3 || text[0] != b'%' || text[1] != b'2' || text[2] != pattern[2] {
        return None;
    }
    Some(Part {
        pattern: 3,
        text: 3,
    })
}

// The first part of a pattern that doesn't begin with a `*`.
fn take_part(pattern: &[u8], text: &[u8]) -> Option<Part>
    requires { (0 < length pattern.now) × (slice_index pattern.now 0 ≢ asterisk) }
    ensures { MatchOption result (Sticks pattern.now text.now) (λ p. Takes pattern.now text.now p.pattern p.text) }
{
    if let Some(special) = escaped_special(pattern) {
        return take_escape(pattern, text, special);
    }
    if text.is_empty() || text[0] != pattern[0] {
        return None;
    }
    Some(Part {
        pattern: 1,
        text: 1,
    })
}

// The pattern up to its first `*`.
pub(crate) fn reach_star<'a>(pattern: &'a [u8], text: &'a [u8], anchored: bool) -> Reached<'a>
    ensures { HasReached anchored pattern.now text.now result }
{
    let mut pattern = pattern;
    let mut text = text;
    while !pattern.is_empty() {
        if pattern[0] == b'*' {
            return Reached::Star(&pattern[1..], text);
        }
        match take_part(pattern, text) {
            Some(part) => {
                pattern = &pattern[part.pattern..];
                text = &text[part.text..];
            }
            None => return Reached::Nowhere,
        }
    }
    if anchored && !text.is_empty() {
        Reached::Nowhere
    } else {
        Reached::End
    }
}

// How many bytes of the pattern, from its start on, are no `*` and begin no escape, but for those past one more than so
// many.
fn plain_len(pattern: &[u8], most: usize) -> usize
    ensures { HasPlainPrefix pattern.now result }
{
    let mut len = 0;
    while len <= most && len < pattern.len() {
        if pattern[len] == b'*' || escaped_special(&pattern[len..]).is_some() {
            return len;
        }
        len += 1;
    }
    len
}

// The text from the leftmost place on where so many plain bytes stand that the pattern begins with.
fn from_plain<'a>(pattern: &[u8], plain: usize, text: &'a [u8]) -> Option<&'a [u8]>
    requires { HasPlainPrefix pattern.now plain }
    ensures { MatchOption result (StandsNot pattern.now text.now) (λ rest. Keeps pattern.now text.now rest.now) }
{
    match memmem::find(text, &pattern[..plain]) {
        Some(place) => Some(&text[place..]),
        None => None,
    }
}

// The text from the leftmost place on where the pattern up to its first `*` may stand.
fn from_prefix<'a>(pattern: &[u8], text: &'a [u8]) -> Option<&'a [u8]>
    ensures { MatchOption result (StandsNot pattern.now text.now) (λ rest. Keeps pattern.now text.now rest.now) }
{
    // More than the text has can't stand in it: a short link doesn't pay for a long pattern.
    let plain = plain_len(pattern, text.len());
    match escaped_special(&pattern[plain..]) {
        Some(_) => from_needle(pattern, text),
        None => from_plain(pattern, plain, text),
    }
}

// The pattern ends with the escape of this special character.
fn has_last_escape(pattern: &[u8], special: u8) -> bool
    ensures { (result ≡ true) ↔ HasLastEscape pattern.now special }
{
    if pattern.len() < 3 {
        return false;
    }
    match escaped_special(&pattern[pattern.len() - 3..]) {
        Some(last) => last == special,
        None => false,
    }
}

// What of a pattern without `*` the last byte of the text fills, where the pattern ends with it.
fn take_last(pattern: &[u8], text: &[u8]) -> Option<usize>
    requires { (0 < length pattern.now) × HasNoStar pattern.now }
    ensures { MatchOption result (FitsNot true (asterisk ∷ pattern.now) text.now) (λ n. EndsWith pattern.now text.now n) }
{
    let Some((byte, _)) = text.split_last() else {
        return None;
    };
    if has_last_escape(pattern, *byte) {
        return Some(3);
    }
    if *byte != pattern[pattern.len() - 1] {
        return None;
    }
    Some(1)
}

// A pattern without `*` is filled at the end of the text.
fn fits_at_end(pattern: &[u8], text: &[u8]) -> bool
    requires { HasNoStar pattern.now }
    ensures { (result ≡ true) ↔ Fits true (asterisk ∷ pattern.now) text.now }
{
    let mut pattern = pattern;
    let mut text = text;
    while !pattern.is_empty() {
        match take_last(pattern, text) {
            Some(taken) => {
                pattern = &pattern[..pattern.len() - taken];
                text = &text[..text.len() - 1];
            }
            None => return false,
        }
    }
    true
}

// The pattern is anchored and has no `*`.
fn is_last(pattern: &[u8], anchored: bool) -> bool
    ensures { result ≡ true → (anchored ≡ true) × HasNoStar pattern.now }
{
    if !anchored {
        return false;
    }
    memchr(b'*', pattern).is_none()
}

// What follows a `*`: it stands somewhere in the text.
fn fits_after_star(pattern: &[u8], text: &[u8], anchored: bool) -> bool
    ensures { (result ≡ true) ↔ Fits anchored (asterisk ∷ pattern.now) text.now }
{
    let mut pattern = pattern;
    let mut text = text;
    loop {
        if is_last(pattern, anchored) {
            return fits_at_end(pattern, text);
        }
        let Some(found) = from_prefix(pattern, text) else {
            return false;
        };
        match reach_star(pattern, found, anchored) {
            Reached::End => return true,
            Reached::Star(rest, place) => {
                pattern = rest;
                text = place;
            }
            Reached::Nowhere => {
                if found.is_empty() {
                    return false;
                }
                text = &found[1..];
            }
        }
    }
}

// The text, or where the pattern isn't anchored a prefix of it, is a filling of the pattern.
fn fits(pattern: &[u8], text: &[u8], anchored: bool) -> bool
    ensures { (result ≡ true) ↔ Fits anchored pattern.now text.now }
{
    match reach_star(pattern, text, anchored) {
        Reached::End => true,
        Reached::Star(rest, place) => fits_after_star(rest, place, anchored),
        Reached::Nowhere => false,
    }
}

/// Whether the pattern matches the text (RFC 9309 sections 2.2.2 and 2.2.3): the text, or where no `$` ends the pattern
/// a prefix of it, is the pattern with some text for each `*`. `%2A` and `%24` match `*` and `$` too. An empty pattern
/// matches nothing. It allocates nothing.
///
/// ```
/// use iri::robots::matches;
/// assert!(rt; matches(b"/path/file-with-a-*.html", b"/path/file-with-a-%2A.html"));
/// assert!(rt; matches(b"*.gif$", b"/image.gif"));
/// assert!(rt; !matches(b"*.gif$", b"/image.gif?x"));
/// ```
pub fn matches(pattern: &[u8], text: &[u8]) -> bool
    ensures { (result ≡ true) ↔ Matches pattern.now text.now }
{
    match pattern.split_last() {
        None => false,
        Some((last, prefix)) => {
            if *last == b'$' {
                fits(prefix, text, true)
            } else {
                fits(pattern, text, false)
            }
        }
    }
}
