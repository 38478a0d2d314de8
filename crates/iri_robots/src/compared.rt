// The form in which patterns and subjects are compared.
ghost use Rattle.std.specs.Prelude.{◌≡◌, ◌<◌, ◌≤◌, ◌++◌, true, IfOk, OnOk, length, slice_index, string_bytes};
ghost use Rattle.std.specs.Char.{is_ascii_hexdigit};
ghost use Rattle.iri_grammar.specs.Characters.{percent_sign};
ghost use Rattle.iri_robots.specs.Compared.{compared};
ghost use Rattle.iri_grammar.specs.Runs.{run_of};
ghost use Rattle.iri_robots.specs.inside.Prefixes.{IsPrefix, HasAsciiDigits, stays, written_text};

use iri_grammar::cutting;
use iri_grammar::spec::UriSpec;
use iri_percent::capital_digit;
use iri_percent::character::decoded_char;
use std::alloc::{AllocError, Global};
use std::str;

// A run that stays, a character, or a percent-encoded octet of these digits.
#[derive(Clone, Copy)]
pub(crate) enum Written<'a> {
    Run(&'a str),
    Char(char),
    Triplet(u8, u8),
}

// What so many bytes at the start of a text are written as.
#[derive(Clone, Copy)]
pub(crate) struct Prefix<'a> {
    pub(crate) written: Written<'a>,
    pub(crate) taken: usize,
}

// An ASCII character but `%` stays as it is.
fn stays(b: u8) -> bool
    ensures { result ≡ stays b }
{
    b < 128 && b != b'%'
}

// How many bytes at the start stay.
fn run_len(text: &[u8]) -> usize
    ensures { result ≡ run_of stays text.now }
{
    cutting::run_len(text, |b| stays(b))
}

// The start of a text that begins with a byte that stays.
fn run_prefix(text: &[u8]) -> Prefix<'_>
    requires { (0 < length text.now) × (stays (slice_index text.now 0) ≡ true) }
    ensures { IsPrefix text.now result.written result.taken }
{
    let taken = run_len(text);
    let run = unsafe { str::from_utf8_unchecked(&text[..taken]) };
    Prefix {
        written: Written::Run(run),
        taken,
    }
}

// The start of a text that begins with a percent-encoded octet.
fn triplet_prefix(text: &[u8]) -> Prefix<'_>
    requires { (3 ≤ length text.now) × (slice_index text.now 0 ≡ percent_sign)
        × (is_ascii_hexdigit (slice_index text.now 1) ≡ true) × (is_ascii_hexdigit (slice_index text.now 2) ≡ true) }
    ensures { IsPrefix text.now result.written result.taken }
{
    match decoded_char::<UriSpec>(text) {
        Some(c) => Prefix {
            written: Written::Char(c),
            taken: 3,
        },
        None => Prefix {
            written: Written::Triplet(text[1].to_ascii_uppercase(), text[2].to_ascii_uppercase()),
            taken: 3,
        },
    }
}

// The start of a text that begins with a `%`.
fn percent_prefix(text: &[u8]) -> Prefix<'_>
    requires { (0 < length text.now) × (slice_index text.now 0 ≡ percent_sign) }
    ensures { IsPrefix text.now result.written result.taken }
{
    if text.len() < 3 || !text[1].is_ascii_hexdigit() || !text[2].is_ascii_hexdigit() {
        return Prefix {
            written: Written::Char('%'),
            taken: 1,
        };
    }
    triplet_prefix(text)
}

// What the start of a text is written as.
pub(crate) fn prefix_of(text: &[u8]) -> Prefix<'_>
    requires { 0 < length text.now }
    ensures { IsPrefix text.now result.written result.taken }
{
    let first = text[0];
    if first >= 128 {
        return Prefix {
            written: Written::Triplet(capital_digit(first / 16), capital_digit(first % 16)),
            taken: 1,
        };
    }
    if first == b'%' {
        return percent_prefix(text);
    }
    run_prefix(text)
}

fn append(form: &mut String, written: Written<'_>) -> Result<(), AllocError>
    requires { HasAsciiDigits written }
    ensures { OnOk result (string_bytes form.new ≡ string_bytes form.old ++ written_text written.entry) }
{
    match written {
        Written::Run(run) => form.push_str(run),
        Written::Char(c) => form.push(c),
        Written::Triplet(high, low) => {
            form.push('%')?;
            form.push(char::from(high))?;
            form.push(char::from(low))
        }
    }
}

// Writes a text in the form in which it is compared.
pub(crate) fn push_form(form: &mut String, text: &[u8]) -> Result<(), AllocError>
    ensures { OnOk result (string_bytes form.new ≡ string_bytes form.old ++ compared text.now) }
{
    let mut rest = text;
    while !rest.is_empty() {
        let prefix = prefix_of(rest);
        append(form, prefix.written)?;
        rest = &rest[prefix.taken..];
    }
    Ok(())
}

// A text in the form in which it is compared.
pub(crate) fn compared_form(alloc: Global, text: &[u8]) -> Result<String, AllocError>
    ensures { IfOk result (λ form. string_bytes form ≡ compared text.now) }
{
    let mut form = String::with_capacity(alloc, text.len())?;
    push_form(&mut form, text)?;
    Ok(form)
}
