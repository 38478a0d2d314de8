// Dot segments.
ghost use Rattle.std.specs.Prelude.{◌≡◌, [], ◌<◌, ◌≤◌, ◌-◌, MatchOption, length, drop, false, true, unwrap_or};
ghost use Rattle.iri_grammar.specs.Characters.{slash};
ghost use Rattle.iri_grammar.specs.Cut.{before, after};
ghost use Rattle.iri_grammar.specs.OptionalSlices.{now_of};
ghost use Rattle.iri_grammar.specs.Parts.{is_empty};
ghost use Rattle.iri_normal.specs.Dots.{after_dot, is_dot_segment, has_dot_segment};
ghost use Rattle.iri_normal.specs.Dots.{is_two_dots};
ghost use Rattle.iri_normal.specs.inside.DotSearch.{slash_and_dots};
ghost use Rattle.iri_normal.specs.inside.NextDots.{IsBefore, IsNext};

use iri_grammar::dots::may_have_dots;

// What follows a dot at the start, in any spelling.
#[inline(always)]
pub(crate) fn after_dot(s: &[u8]) -> Option<&[u8]>
    ensures { now_of result ≡ after_dot s.now }
{
    match s {
        [b'.', rest @ ..] => Some(rest),
        [b'%', b'2', b'E' | b'e', rest @ ..] => Some(rest),
        _ => None,
    }
}

// What follows the slash at the start, or nothing where the segment is the last one; `None` where no segment ends there.
#[inline(always)]
fn after_end(s: &[u8]) -> Option<&[u8]>
    ensures { MatchOption result (is_empty (before slash s.now) ≡ false)
        (λ r. (is_empty (before slash s.now) ≡ true) × (r.now ≡ unwrap_or (after slash s.now) [])) }
{
    match s {
        [] => Some(s),
        [b'/', rest @ ..] => Some(rest),
        _ => None,
    }
}

// A dot segment at the start of a path.
#[derive(Clone, Copy)]
struct PrefixDots<'a> {
    two: bool,
    rest: &'a [u8],
}

#[inline(always)]
fn dots_before(path: &[u8]) -> Option<PrefixDots<'_>>
    ensures { MatchOption result (is_dot_segment (before slash path.now) ≡ false)
        (λ d. IsBefore path.now d.two d.rest.now) }
{
    let Some(after) = after_dot(path) else {
        return None;
    };
    if let Some(rest) = after_end(after) {
        return Some(PrefixDots { two: false, rest });
    }
    let Some(second) = after_dot(after) else {
        return None;
    };
    match after_end(second) {
        Some(end) => Some(PrefixDots {
            two: true,
            rest: end,
        }),
        None => None,
    }
}

// The dot segment at a place, where a slash comes before it.
#[inline(always)]
fn dots_at(path: &[u8], i: usize) -> Option<PrefixDots<'_>>
    requires { (1 ≤ i) × (i < length path.now) }
    ensures { MatchOption result (slash_and_dots (drop (i - 1) path.now) ≡ false)
        (λ d. (slash_and_dots (drop (i - 1) path.now) ≡ true) × IsBefore (drop i path.now) d.two d.rest.now) }
{
    if path[i - 1] == b'/' {
        dots_before(&path[i..])
    } else {
        None
    }
}

// A dot segment of a path: what comes before it, whether it is `..`, and what follows its slash.
#[derive(Clone, Copy)]
pub(crate) struct NextDots<'a> {
    pub(crate) run: &'a [u8],
    pub(crate) two: bool,
    pub(crate) rest: &'a [u8],
}

// The first dot segment of a path. A byte above `/` is no slash and begins no dot, so that the next place is passed with it.
#[inline(always)]
pub(crate) fn next_dots(path: &[u8]) -> Option<NextDots<'_>>
    ensures { MatchOption result (has_dot_segment path.now ≡ false)
        (λ n. IsNext path.now n.run.now n.two n.rest.now) }
{
    if let Some(dots) = dots_before(path) {
        return Some(NextDots {
            run: &path[..0],
            two: dots.two,
            rest: dots.rest,
        });
    }
    let mut i = 1;
    'places: while i < path.len() {
        let b = path[i];
        if b > b'/' {
            i += 2;
            continue;
        }
        if b == b'/' {
            i += 1;
            continue;
        }
        if let Some(dots) = dots_at(path, i) {
            return Some(NextDots {
                run: &path[..i],
                two: dots.two,
                rest: dots.rest,
            });
        }
        i += 2;
    }
    None
}

/// Whether the segment is `.` or `..`, in any spelling (RFC 3986 section 5.2.4).
#[tactic(auto, unfolding(crate::specs::Dots::is_dot_segment))]
pub fn is_dot_segment(segment: &str) -> bool
    ensures { result ≡ is_dot_segment segment.now }
{
    match after_dot(segment.as_bytes()) {
        None => false,
        Some([]) => true,
        Some(rest) => matches!(after_dot(rest), Some([])),
    }
}

/// Whether the segment is `..`, in any spelling.
pub fn is_two_dots(segment: &str) -> bool
    ensures { result ≡ is_two_dots segment.now }
{
    match after_dot(segment.as_bytes()) {
        None => false,
        Some(rest) => matches!(after_dot(rest), Some([])),
    }
}

/// Whether there is a dot segment in the path.
pub fn has_dot_segment(path: &str) -> bool
    ensures { result ≡ has_dot_segment path.now }
{
    let bytes = path.as_bytes();
    if !may_have_dots(bytes) {
        return false;
    }
    match next_dots(bytes) {
        Some(_) => true,
        None => false,
    }
}
