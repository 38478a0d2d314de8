// What a change of a text writes: a letter in lower case, a decoded character, or a percent-encoded octet with capital
// digits.
ghost use Rattle.std.specs.Prelude.{◌≡◌, ◌<◌, ◌≤◌, ◌+◌, ◌∷◌, ◌++◌, ◌&&◌, ◌==◌, not, [], true, false, cond, drop, length, slice_index, take};
ghost use Rattle.std.specs.Char.{encode_utf8};
ghost use Rattle.std.specs.Str.{IsUtf8};
ghost use Rattle.iri_percent.specs.Units.{whole_triplets};
ghost use Rattle.iri_percent.specs.inside.Pieces.{case_of, octet_text, stays, Writes};
ghost use Rattle.iri_grammar.specs.Characters.{percent_sign};

use crate::character::char_past_ascii;
use crate::octets::octet_of_digits;
use crate::spelling::capital_digit;
use iri_grammar::class::Class;
use iri_grammar::spec::Spec;

// So many bytes were read, and the buffer is written up to here.
#[derive(Clone, Copy)]
pub(crate) struct Run {
    pub(crate) read: usize,
    pub(crate) written: usize,
}

fn in_case(b: u8, lower: bool) -> u8
    ensures { result ≡ case_of lower b }
{
    if lower { b.to_ascii_lowercase() } else { b }
}

fn put_two(buf: &mut [u8; 64], at: usize, x: u8, y: u8) -> usize
    requires { at ≤ 60 }
    ensures count { result ≡ at + 2 }
    ensures text { take result buf.new ≡ take at buf.old ++ (x ∷ y ∷ []) }
{
    buf[at] = x;
    buf[at + 1] = y;
    at + 2
}

fn put_three(buf: &mut [u8; 64], at: usize, x: u8, y: u8, z: u8) -> usize
    requires { at ≤ 60 }
    ensures count { result ≡ at + 3 }
    ensures text { take result buf.new ≡ take at buf.old ++ (x ∷ y ∷ z ∷ []) }
{
    buf[at] = x;
    buf[at + 1] = y;
    buf[at + 2] = z;
    at + 3
}

fn put_four(buf: &mut [u8; 64], at: usize, w: u8, x: u8, y: u8, z: u8) -> usize
    requires { at ≤ 60 }
    ensures count { result ≡ at + 4 }
    ensures text { take result buf.new ≡ take at buf.old ++ (w ∷ x ∷ y ∷ z ∷ []) }
{
    buf[at] = w;
    buf[at + 1] = x;
    buf[at + 2] = y;
    buf[at + 3] = z;
    at + 4
}

// Puts the UTF-8 of a character past ASCII.
fn put_bytes(buf: &mut [u8; 64], at: usize, bytes: &[u8]) -> usize
    requires { (at ≤ 60) × (2 ≤ length bytes.now) × (length bytes.now ≤ 4) }
    ensures within { result ≤ at + 4 }
    ensures text { take result buf.new ≡ take at buf.old ++ bytes.now }
{
    match bytes {
        [x, y] => put_two(buf, at, *x, *y),
        [x, y, z] => put_three(buf, at, *x, *y, *z),
        [w, x, y, z] => put_four(buf, at, *w, *x, *y, *z),
        _ => at,
    }
}

// Writes a character past ASCII.
#[tactic(auto, using(std::proofs::lemmas::Bool::Decides::nat_tests))]
#[inline(always)]
fn write_char(c: char, buf: &mut [u8; 64], at: usize) -> usize
    requires { (at ≤ 60) × (128 ≤ c) }
    ensures within { result ≤ at + 4 }
    ensures text { take result buf.new ≡ take at buf.old ++ encode_utf8 c }
{
    let mut room = [0; 4];
    put_bytes(buf, at, c.encode_utf8(&mut room).as_bytes())
}

fn lead_of(decodes: bool, octet: u8) -> u8
    ensures { result ≡ cond decodes octet percent_sign }
{
    if decodes { octet } else { b'%' }
}

fn len_of(decodes: bool) -> usize
    ensures { result ≡ cond decodes 1 3 }
{
    if decodes { 1 } else { 3 }
}

// An octet alone: three bytes are written in either case, and counted where the percent-encoded octet stays. So no branch
// depends on the octet.
#[inline(always)]
fn write_octet(octet: u8, lower: bool, buf: &mut [u8; 64], at: usize) -> usize
    requires { at ≤ 60 }
    ensures within { result ≤ at + 3 }
    ensures text { take result buf.new ≡ take at buf.old ++ octet_text lower octet }
{
    let decodes = Class::Unreserved.has_byte(octet);
    buf[at] = lead_of(decodes, in_case(octet, lower));
    buf[at + 1] = capital_digit(octet / 16);
    buf[at + 2] = capital_digit(octet % 16);
    at + len_of(decodes)
}

fn after_triplet(text: &[u8]) -> &[u8]
    requires { 3 ≤ length text.now }
    ensures { result.now ≡ drop 3 text.now }
{
    &text[3..]
}

#[inline(always)]
fn write_triplet<S: Spec>(text: &[u8], lower: bool, buf: &mut [u8; 64], at: usize) -> Run
    requires { (whole_triplets text.now ≡ true) × (0 < length text.now) × (slice_index text.now 0 ≡ percent_sign) × (at ≤ 60) }
    ensures writes { Writes S.tests lower text.now buf.old buf.new at result.read result.written }
    ensures within { result.written ≤ at + 4 }
{
    let octet = octet_of_digits(text[1], text[2]);
    if octet >= 0xC0 {
        if let Some(c) = char_past_ascii::<S>(octet, after_triplet(text)) {
            return Run {
                read: 3 * c.len_utf8(),
                written: write_char(c, buf, at),
            };
        }
    }
    Run {
        read: 3,
        written: write_octet(octet, lower, buf, at),
    }
}

// Whether the byte of a change is a letter and no `%`.
fn is_letter(candidate: u8, lower: bool) -> bool
    ensures { result ≡ (lower && not (candidate == percent_sign)) }
{
    lower && candidate != b'%'
}

fn write_letter(letter: u8, buf: &mut [u8; 64], at: usize) -> Run
    requires { at ≤ 60 }
    ensures read { result.read ≡ 1 }
    ensures within { result.written ≤ at + 4 }
    ensures text { take result.written buf.new ≡ take at buf.old ++ (case_of true letter ∷ []) }
{
    buf[at] = letter.to_ascii_lowercase();
    Run {
        read: 1,
        written: at + 1,
    }
}

// Writes the change at the first byte, a `%` or a letter that is lowered, to the buffer from a place on.
#[inline(always)]
pub(crate) fn write_change<S: Spec>(text: &[u8], lower: bool, buf: &mut [u8; 64], at: usize) -> Run
    requires { (whole_triplets text.now ≡ true) × (0 < length text.now)
        × (stays lower (slice_index text.now 0) ≡ false) × (at ≤ 60) }
    ensures writes { Writes S.tests lower text.now buf.old buf.new at result.read result.written }
    ensures within { result.written ≤ at + 4 }
{
    if is_letter(text[0], lower) {
        return write_letter(text[0], buf, at);
    }
    write_triplet::<S>(text, lower, buf, at)
}
