//! Where a path may have dot segments (RFC 3986 section 5.2.4).
ghost use Rattle.std.specs.Prelude.{◌≡◌, ◌<◌, ◌≤◌, ◌+◌, ◌-◌, ℕ, drop, length, false, true};
ghost use Rattle.iri_grammar.specs.Seen.{begins_dot, has_slash_and_dot, may_have_dots, slash_and_dot};

use std::simd::prelude::*;

// Whether a dot is at the start, in any spelling.
#[inline(always)]
fn begins_dot(path: &[u8]) -> bool
    ensures { result ≡ begins_dot path.now }
{
    matches!(path, [b'.', ..] | [b'%', b'2', b'E' | b'e', ..])
}

// Whether a slash is at the start, and a dot after it.
#[inline(always)]
fn begins_slash_and_dot(path: &[u8]) -> bool
    ensures { result ≡ slash_and_dot path.now }
{
    match path {
        [b'/', rest @ ..] => begins_dot(rest),
        _ => false,
    }
}

// How many of sixteen places, the one before `i` and fifteen more, come before the first slash that a `.` or `%` follows.
#[inline(always)]
fn plain_len(path: &[u8], i: usize) -> usize
    requires { (1 ≤ i) × (i + 16 ≤ length path.now) }
    ensures within { result ≤ 16 }
    ensures plain { (k : ℕ) → k < result → slash_and_dot (drop (i - 1 + k) path.now) ≡ false }
{
    let next = u8x16::from_slice(&path[i..]);
    let slashes = u8x16::from_slice(&path[i - 1..]).simd_eq(u8x16::splat(b'/'));
    let dots = next.simd_eq(u8x16::splat(b'.')) | next.simd_eq(u8x16::splat(b'%'));
    let places = (slashes & dots).to_bitmask();
    if places == 0 {
        16
    } else {
        places.trailing_zeros() as usize
    }
}

// Whether a dot comes after a slash, in any spelling: byte by byte.
#[inline(always)]
fn has_dots_in_short(path: &[u8]) -> bool
    ensures { result ≡ has_slash_and_dot path.now }
{
    let mut rest = path;
    'places: while let [_, next @ ..] = rest {
        if begins_slash_and_dot(rest) {
            return true;
        }
        rest = next;
    }
    false
}

// Whether a dot comes after a slash, in a path of 17 bytes and more, of which each place alone that may have one is looked at. The
// last places are looked at perhaps twice. Byte by byte, web's lines take 2 instructions a byte more.
#[inline(always)]
fn has_dots_in_long(path: &[u8]) -> bool
    requires { 17 ≤ length path.now }
    ensures { result ≡ false → (k : ℕ) → k + 1 < length path.now → slash_and_dot (drop k path.now) ≡ false }
{
    let last = path.len() - 16;
    let mut i = 1;
    'places: while i < last {
        let at = i - 1 + plain_len(path, i);
        if begins_slash_and_dot(&path[at..]) {
            return true;
        }
        i = at + 2;
    }
    let at = last - 1 + plain_len(path, last);
    has_dots_in_short(&path[at..])
}

/// Whether a segment of the path begins with a dot, in any spelling, and may be a dot segment. `false` is sure.
#[tactic(auto, using(crate::proofs::splits::DotPlaces::none_in_short, crate::proofs::splits::DotPlaces::none_in_long))]
#[inline(always)]
pub fn may_have_dots(path: &[u8]) -> bool
    ensures { result ≡ false → may_have_dots path.now ≡ false }
{
    if begins_dot(path) {
        return true;
    }
    if path.len() < 17 {
        return has_dots_in_short(path);
    }
    has_dots_in_long(path)
}
