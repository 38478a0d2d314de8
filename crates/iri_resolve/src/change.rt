// Changes of a text at one place, in place: each looks at the bytes there alone, and answers whether it is one.
ghost use Rattle.std.specs.Prelude.{◌≡◌, ◌<◌, ◌≤◌, ◌+◌, ◌-◌, ◌++◌, IfOk, drop, length, slice_index, slice_set};
ghost use Rattle.std.specs.Prelude.{string_bytes, true};
ghost use Rattle.std.specs.Char.{is_ascii_uppercase};
ghost use Rattle.iri_grammar.specs.Components.{if_there};
ghost use Rattle.iri_percent.specs.Triplets.{decoded};
ghost use Rattle.iri_percent.specs.Units.{octets, whole_triplets};
ghost use Rattle.iri_normal.specs.Resolver.{bytes_of};
ghost use Rattle.iri_resolve.specs.Changes.{is_in_triplet, is_small_digit, with_capital_digit, with_decoded};
ghost use Rattle.iri_resolve.specs.Changes.{with_small_host_letter, with_small_letter};
ghost use Rattle.iri_resolve.specs.inside.ChangeOf.{change_of};
ghost use Rattle.iri_resolve.specs.inside.LookBack.{percent_before};
ghost use Rattle.iri_resolve.specs.inside.Reached.{WentThere, went};

use iri_grammar::spec::Spec;
use iri_percent::character::decoded_char;
use std::alloc::AllocError;
use std::mem;

// A change of percent-encoded octets.
#[derive(Clone, Copy)]
pub(crate) enum Change {
    CapitalDigit,
    Decoded,
}

// An ASCII byte comes in the place of another.
fn put(text: &mut String, at: usize, b: u8)
    requires inside { at < length (string_bytes text.old) }
    requires ascii { slice_index (string_bytes text.old) at < 128 }
    requires byte { b < 128 }
    ensures { string_bytes text.new ≡ slice_set (string_bytes text.old) at b }
{
    let empty = String::new(*text.allocator());
    let mut bytes = mem::replace(text, empty).into_bytes();
    bytes[at] = b;
    *text = unsafe { String::from_utf8_unchecked(bytes) };
}

// Whether a `%` stands n bytes before i.
fn is_percent_before(text: &[u8], n: usize, i: usize) -> bool
    requires { (i ≤ length text.now) × (0 < n) }
    ensures { result ≡ percent_before n i text.now }
{
    i >= n && text[i - n] == b'%'
}

// Whether the byte at i stands inside a percent-encoded octet.
fn is_in_triplet(text: &[u8], i: usize) -> bool
    requires { (whole_triplets text.now ≡ true) × (i ≤ length text.now) }
    ensures { result ≡ is_in_triplet i text.now }
{
    if is_percent_before(text, 1, i) {
        return true;
    }
    is_percent_before(text, 2, i)
}

// Whether a capital stands at i.
fn is_capital_at(text: &[u8], i: usize) -> bool
    ensures { result ≡ is_ascii_uppercase (slice_index text.now i) }
{
    match text.get(i) {
        Some(b) => b.is_ascii_uppercase(),
        None => false,
    }
}

// Whether the byte is a small hex digit.
pub(crate) fn is_small_digit(b: u8) -> bool
    ensures { result ≡ is_small_digit b }
{
    b.is_ascii_hexdigit() && b.is_ascii_lowercase()
}

// Whether a small hex digit stands at i.
fn is_small_digit_at(text: &[u8], i: usize) -> bool
    ensures { result ≡ is_small_digit (slice_index text.now i) }
{
    match text.get(i) {
        Some(b) => is_small_digit(*b),
        None => false,
    }
}

// The capital at i becomes small.
pub(crate) fn small_letter(text: &mut String, i: usize) -> bool
    ensures { went result (string_bytes text.new) ≡ with_small_letter i (string_bytes text.old) }
{
    if !is_capital_at(text.as_bytes(), i) {
        return false;
    }
    let letter = text.as_bytes()[i].to_ascii_lowercase();
    put(text, i, letter);
    true
}

// The capital at i, outside percent-encoded octets, becomes small.
pub(crate) fn small_host_letter(text: &mut String, i: usize) -> bool
    requires { whole_triplets (string_bytes text.old) ≡ true }
    ensures { went result (string_bytes text.new) ≡ with_small_host_letter i (string_bytes text.old) }
{
    if !is_capital_at(text.as_bytes(), i) {
        return false;
    }
    if is_in_triplet(text.as_bytes(), i) {
        return false;
    }
    small_letter(text, i)
}

// The small hex digit at i, inside a percent-encoded octet, becomes a capital.
fn capital_digit(text: &mut String, i: usize) -> bool
    requires { whole_triplets (string_bytes text.old) ≡ true }
    ensures { went result (string_bytes text.new) ≡ with_capital_digit i (string_bytes text.old) }
{
    if !is_small_digit_at(text.as_bytes(), i) {
        return false;
    }
    if !is_in_triplet(text.as_bytes(), i) {
        return false;
    }
    let digit = text.as_bytes()[i].to_ascii_uppercase();
    put(text, i, digit);
    true
}

// The unreserved character that the percent-encoded octets from i on spell.
fn spelled_at<S: Spec>(text: &[u8], i: usize) -> Option<char>
    ensures { result ≡ decoded S.tests (octets (drop i text.now)) }
{
    if text.len() < i {
        return None;
    }
    decoded_char::<S>(&text[i..])
}

// The percent-encoded octets from i on that spell an unreserved character become that character.
fn decoded<S: Spec>(text: &mut String, i: usize) -> Result<bool, AllocError>
    ensures { IfOk result (λ b. went b (string_bytes text.new) ≡ with_decoded S.tests i (string_bytes text.old)) }
{
    match spelled_at::<S>(text.as_bytes(), i) {
        Some(c) => {
            let mut bytes = [0; 4];
            text.replace_range(i..i + 3 * c.len_utf8(), c.encode_utf8(&mut bytes))?;
            Ok(true)
        }
        None => Ok(false),
    }
}

// A change of percent-encoded octets at i.
pub(crate) fn changed<S: Spec>(
    text: &mut String,
    change: Change,
    i: usize,
) -> Result<bool, AllocError>
    requires { whole_triplets (string_bytes text.old) ≡ true }
    ensures { IfOk result (λ b. went b (string_bytes text.new) ≡ change_of S.tests change i (string_bytes text.old)) }
{
    match change {
        Change::CapitalDigit => Ok(capital_digit(text, i)),
        Change::Decoded => decoded::<S>(text, i),
    }
}

// The same in a text that may stand.
pub(crate) fn changed_there<S: Spec>(
    text: &mut Option<String>,
    change: Change,
    i: usize,
) -> Result<bool, AllocError>
    requires { if_there whole_triplets (bytes_of text.old) ≡ true }
    ensures { IfOk result (λ b. WentThere (change_of S.tests change i) b (bytes_of text.old) (bytes_of text.new)) }
{
    let Some(text) = text else {
        return Ok(false);
    };
    let went = changed::<S>(text, change, i)?;
    Ok(went)
}
