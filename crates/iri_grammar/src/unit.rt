// Units of a class, its characters and percent-encoded octets (RFC 3986 section 2.1), at the start of a text.
ghost use Rattle.std.specs.Prelude.{◌≡◌, ◌≢◌, ◌<◌, ◌+◌, ◌*◌, ◌++◌, ℕ, Bool, false, true, take, drop, slice_index};
ghost use Rattle.std.specs.Int.{is_in_range};
ghost use Rattle.std.specs.Str.{IsUtf8};
ghost use Rattle.iri_grammar.specs.Characters.{percent_sign};
ghost use Rattle.iri_grammar.specs.ClassTests.{class_test, ascii_test};
ghost use Rattle.iri_grammar.specs.Cut.{lacks};
ghost use Rattle.iri_grammar.specs.Over.{text_over};
ghost use Rattle.iri_grammar.specs.inside.Runs.{begins_with_more, begins_with_triplet, AreUnits, BeginsWide, HasNoUnit, LacksNearUnit};

use crate::class::Class;
use crate::digits::are_hex_digits;
use crate::run::run_len;
use crate::spec::Spec;
use std::str;

// Whether the bytes begin with a percent-encoded octet.
#[inline(always)]
pub(crate) fn begins_with_triplet(bytes: &[u8]) -> bool
    ensures { result ≡ begins_with_triplet bytes.now }
{
    match bytes {
        [x, a, b, ..] => *x == b'%' && are_hex_digits(*a, *b),
        _ => false,
    }
}

// How many bytes at the start are percent-encoded octets.
#[inline(always)]
fn triplets_len(bytes: &[u8]) -> usize
    ensures units { (p : ℕ → Bool) → AreUnits p bytes.now result }
    ensures stops { begins_with_triplet (drop result bytes.now) ≡ false }
{
    let mut i = 0;
    'triplets: while begins_with_triplet(&bytes[i..]) {
        i += 3;
    }
    i
}

// Whether the first byte is past ASCII.
#[inline(always)]
fn begins_past_ascii(bytes: &[u8]) -> bool
    ensures { result ≡ false → slice_index bytes.now 0 < 128 }
{
    match bytes {
        [b, ..] => *b >= 128,
        [] => false,
    }
}

// The length of the first character, where it is in the class, otherwise 0.
#[tactic(auto, using(crate::proofs::units::UnitRuns::no_units))]
#[inline(always)]
fn char_len<S: Spec>(class: Class, s: &str) -> usize
    requires { begins_with_triplet s.now ≡ false }
    ensures units { AreUnits (class_test S.tests class) s.now result }
    ensures stops { result ≡ 0 → HasNoUnit (class_test S.tests class) s.now }
    ensures bare { lacks percent_sign (take result s.now) ≡ true }
{
    let mut chars = s.chars();
    match chars.next() {
        Some(c) => {
            if class.has::<S>(c) {
                s.len() - chars.as_str().len()
            } else {
                0
            }
        }
        None => 0,
    }
}

// Whether the byte goes on a character (RFC 3629 section 3).
#[inline(always)]
fn goes_on(b: u8) -> bool
    ensures { result ≡ is_in_range 128 191 b }
{
    0x80 <= b && b <= 0xBF
}

// Whether such a byte is at the start.
#[inline(always)]
fn begins_with_more(bytes: &[u8]) -> bool
    ensures { result ≡ begins_with_more bytes.now }
{
    match bytes {
        [b, ..] => goes_on(*b),
        [] => false,
    }
}

// Whether this first byte begins a character from U+00C0 to U+07FF, in two bytes.
#[inline(always)]
fn leads_two(b: u8) -> bool
    ensures { result ≡ is_in_range 195 223 b }
{
    0xC3 <= b && b <= 0xDF
}

// Whether these first two bytes begin one from U+0800 to U+D7FF, in three.
#[inline(always)]
fn leads_three(first: u8, second: u8) -> bool
    ensures { result ≡ is_in_range 57504 60831 (first * 256 + second) }
{
    let two = u16::from(first) * 256 + u16::from(second);
    0xE0A0 <= two && two <= 0xED9F
}

// The length of the first character, where it is one of these; 0 says nothing.
#[inline(always)]
fn wide_len(bytes: &[u8]) -> usize
    ensures { result ≢ 0 → BeginsWide bytes.now result }
{
    match bytes {
        [first, second, rest @ ..] => {
            if !goes_on(*second) {
                return 0;
            }
            if leads_two(*first) {
                return 2;
            }
            if leads_three(*first, *second) && begins_with_more(rest) {
                return 3;
            }
            0
        }
        _ => 0,
    }
}

// The length of the first character, where it is one of these and the grammar takes all of them; 0 says nothing.
#[tactic(auto, using(crate::proofs::units::UnitRuns::no_units))]
#[inline(always)]
fn allowed_wide_len<S: Spec>(class: Class, bytes: &[u8]) -> usize
    ensures units { AreUnits (class_test S.tests class) bytes.now result }
    ensures bare { lacks percent_sign (take result bytes.now) ≡ true }
{
    if S::has_first_ucschars() {
        wide_len(bytes)
    } else {
        0
    }
}

// How many bytes at the start are units, and whether none of them is a percent-encoded octet.
#[derive(Clone, Copy)]
struct UnitsLen {
    len: usize,
    bare: bool,
}

// Units of one kind: ASCII characters of the class, percent-encoded octets, or one character past ASCII that its first bytes tell.
// None where there is no unit but perhaps another character past ASCII.
#[inline(always)]
fn one_kind_in_bytes<S: Spec>(class: Class, bytes: &[u8]) -> UnitsLen
    ensures units { AreUnits (class_test S.tests class) bytes.now result.len }
    ensures stops { result.len ≡ 0 → LacksNearUnit (class_test S.tests class) bytes.now }
    ensures bare { result.bare ≡ true → lacks percent_sign (take result.len bytes.now) ≡ true }
{
    match bytes {
        [] => UnitsLen { len: 0, bare: true },
        [b, ..] => {
            if class.has_byte(*b) {
                return UnitsLen {
                    len: run_len(class, bytes),
                    bare: true,
                };
            }
            if *b == b'%' {
                return UnitsLen {
                    len: triplets_len(bytes),
                    bare: false,
                };
            }
            UnitsLen {
                len: allowed_wide_len::<S>(class, bytes),
                bare: true,
            }
        }
    }
}

// Units of one kind, or one other character.
#[inline(always)]
fn one_kind_in_text<S: Spec>(class: Class, s: &str) -> UnitsLen
    ensures units { AreUnits (class_test S.tests class) s.now result.len }
    ensures stops { result.len ≡ 0 → HasNoUnit (class_test S.tests class) s.now }
    ensures bare { result.bare ≡ true → lacks percent_sign (take result.len s.now) ≡ true }
{
    let near = one_kind_in_bytes::<S>(class, s.as_bytes());
    if near.len != 0 {
        return near;
    }
    UnitsLen {
        len: char_len::<S>(class, s),
        bare: true,
    }
}

// All units at the start of a text.
fn units_in_text<S: Spec>(class: Class, s: &str) -> UnitsLen
    ensures units { AreUnits (class_test S.tests class) s.now result.len }
    ensures stops { HasNoUnit (class_test S.tests class) (drop result.len s.now) }
    ensures bare { result.bare ≡ true → lacks percent_sign (take result.len s.now) ≡ true }
{
    let mut i = 0;
    let mut bare = true;
    'units: loop {
        let next = one_kind_in_text::<S>(class, &s[i..]);
        if next.len == 0 {
            return UnitsLen { len: i, bare };
        }
        bare &= next.bare;
        i += next.len;
    }
}

// All units at the start of bytes of which it is found whether they are a text.
#[tactic(auto, using(crate::proofs::units::UnitRuns::no_units))]
#[inline(never)]
fn units_in_decoded<S: Spec>(class: Class, bytes: &[u8]) -> UnitsLen
    ensures units { AreUnits (class_test S.tests class) bytes.now result.len }
    ensures stops { IsUtf8 bytes.now → HasNoUnit (class_test S.tests class) (drop result.len bytes.now) }
    ensures bare { result.bare ≡ true → lacks percent_sign (take result.len bytes.now) ≡ true }
{
    match str::from_utf8(bytes) {
        Ok(s) => units_in_text::<S>(class, s),
        Err(_) => UnitsLen { len: 0, bare: true },
    }
}

// All units at the start of bytes that begin with no unit of one kind that their first bytes tell: only past ASCII one can be there.
#[tactic(auto, using(crate::proofs::units::UnitRuns::no_units, crate::proofs::units::UnitRuns::near_stops))]
#[inline(always)]
fn units_past_ascii<S: Spec>(class: Class, bytes: &[u8]) -> UnitsLen
    requires { LacksNearUnit (class_test S.tests class) bytes.now }
    ensures units { AreUnits (class_test S.tests class) bytes.now result.len }
    ensures stops { IsUtf8 bytes.now → HasNoUnit (class_test S.tests class) (drop result.len bytes.now) }
    ensures bare { result.bare ≡ true → lacks percent_sign (take result.len bytes.now) ≡ true }
{
    if !begins_past_ascii(bytes) {
        return UnitsLen { len: 0, bare: true };
    }
    units_in_decoded::<S>(class, bytes)
}

// All units at the start of any bytes. So a text is decoded from its first character on that no first byte tells.
#[inline(always)]
fn units_in_bytes<S: Spec>(class: Class, bytes: &[u8]) -> UnitsLen
    ensures units { AreUnits (class_test S.tests class) bytes.now result.len }
    ensures stops { IsUtf8 bytes.now → HasNoUnit (class_test S.tests class) (drop result.len bytes.now) }
    ensures bare { result.bare ≡ true → lacks percent_sign (take result.len bytes.now) ≡ true }
{
    let mut i = 0;
    let mut bare = true;
    'units: loop {
        let next = one_kind_in_bytes::<S>(class, &bytes[i..]);
        if next.len == 0 {
            let rest = units_past_ascii::<S>(class, &bytes[i..]);
            return UnitsLen {
                len: i + rest.len,
                bare: bare & rest.bare,
            };
        }
        bare &= next.bare;
        i += next.len;
    }
}

// The longest start of whole units, which is a text, what follows it, and whether no percent-encoded octet is in the first.
#[derive(Clone, Copy)]
pub(crate) struct UnitsCut<'a> {
    pub units: &'a str,
    pub rest: &'a [u8],
    pub bare: bool,
}

// Bytes cut after the units of the class at their start.
#[tactic(auto, using(crate::proofs::units::UnitRuns::units_text))]
#[inline(always)]
pub(crate) fn cut_units<S: Spec>(class: Class, bytes: &[u8]) -> UnitsCut<'_>
    ensures whole { bytes.now ≡ result.units.now ++ result.rest.now }
    ensures over { text_over (class_test S.tests class) result.units.now ≡ true }
    ensures stops { IsUtf8 bytes.now → HasNoUnit (class_test S.tests class) result.rest.now }
    ensures bare { result.bare ≡ true → lacks percent_sign result.units.now ≡ true }
{
    let UnitsLen { len, bare } = units_in_bytes::<S>(class, bytes);
    let units = unsafe { str::from_utf8_unchecked(&bytes[..len]) };
    UnitsCut {
        units,
        rest: &bytes[len..],
        bare,
    }
}
