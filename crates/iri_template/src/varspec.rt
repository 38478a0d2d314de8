//! Varspecs: a variable's name and a modifier (RFC 6570 sections 2.3 and 2.4).
ghost use Rattle.std.specs.Prelude.{◌≡◌, ◌≤◌, ◌<◌, ◌+◌, ◌^◌, true, length, slice_index, take, drop, MatchResult, IfOk};
ghost use Rattle.std.specs.Prelude.{None};
ghost use Rattle.iri_grammar.specs.Cut.{from_any};
ghost use Rattle.iri_template.specs.Reading.{ends_name, name_of, modifier_of, varspec_of};
ghost use Rattle.iri_template.specs.Fault.{Answers, moved, max_length_fault, modifier_fault, varspec_fault};
ghost use Rattle.iri_template.specs.VarSpecs.{number_of, held, placed_at, placed_of};
ghost use Rattle.iri_template.specs.Expansion.{explodes, prefix_of};

use crate::error::{Error, ErrorKind};
use crate::var_name::{VarName, is_varname};

// How much of a value is meant (RFC 6570 section 2.4).
#[derive(Clone, Copy, Debug, PartialEq, Eq)]
pub(crate) enum Modifier {
    // All of it.
    Whole,
    // Its members one by one.
    Explode,
    // Its first characters, at most so many.
    Prefix(u16),
}

impl Modifier {
    // Whether members are written one by one.
    pub(crate) fn explodes(self) -> bool
        ensures { result ≡ explodes self }
    {
        matches!(self, Modifier::Explode)
    }

    // How many characters or units of a string are meant, where a prefix stands.
    pub(crate) fn prefix(self) -> Option<u16>
        ensures { result ≡ prefix_of self }
    {
        match self {
            Modifier::Prefix(max_length) => Some(max_length),
            _ => None,
        }
    }
}

// A variable's name and a modifier.
#[derive(Clone, Copy, Debug)]
pub(crate) struct VarSpec<'a> {
    pub(crate) name: VarName<'a>,
    pub(crate) modifier: Modifier,
    // How many bytes of the template stand before it.
    pub(crate) location: usize,
}

// How many bytes stand before the first `:` or `*`.
fn name_len(bytes: &[u8]) -> usize
    ensures within { result ≤ length bytes.now }
    ensures name { take result bytes.now ≡ name_of bytes.now }
    ensures rest { drop result bytes.now ≡ from_any ends_name bytes.now }
    ensures ends { result < length bytes.now → ends_name (slice_index bytes.now result) ≡ true }
{
    for (i, b) in bytes.iter().enumerate() {
        if *b == b':' || *b == b'*' {
            return i;
        }
    }
    bytes.len()
}

// The length of a prefix: one to four digits without leading zero. `at` is the place of the colon.
fn read_max_length(digits: &[u8], at: usize) -> Result<u16, Error>
    requires { at + length digits.now + 2 < 2 ^ 64 }
    ensures fault { Answers result (moved at (max_length_fault digits.now)) }
    ensures value { IfOk result (λ n. n ≡ number_of digits.now) }
{
    if digits.is_empty() || digits.len() > 4 {
        return Err(Error::new(ErrorKind::InvalidExpression, at + 2));
    }
    let mut n = 0u16;
    for (i, b) in digits.iter().enumerate() {
        if !b.is_ascii_digit() {
            return Err(Error::new(ErrorKind::InvalidExpression, at + 2 + i));
        }
        n = n * 10 + u16::from(*b - b'0');
    }
    if digits[0] == b'0' {
        return Err(Error::new(ErrorKind::InvalidExpression, at + 2));
    }
    Ok(n)
}

// What follows a name: nothing, `*`, or `:` and a prefix. `at` is its place.
fn read_modifier(bytes: &[u8], at: usize) -> Result<Modifier, Error>
    requires { at + length bytes.now + 1 < 2 ^ 64 }
    ensures fault { Answers result (moved at (modifier_fault bytes.now)) }
    ensures value { IfOk result (λ m. m ≡ held (modifier_of bytes.now)) }
{
    match bytes.split_first() {
        None => Ok(Modifier::Whole),
        Some((b, rest)) => {
            if *b == b':' {
                Ok(Modifier::Prefix(read_max_length(rest, at)?))
            } else if rest.is_empty() {
                Ok(Modifier::Explode)
            } else {
                Err(Error::new(ErrorKind::InvalidExpression, at + 1))
            }
        }
    }
}

// What stands before the first `:` or `*`, or all, and the rest.
fn cut_name(s: &str) -> (&str, &str)
    ensures name { result.0.now ≡ name_of s.now }
    ensures modifier { result.1.now ≡ from_any ends_name s.now }
{
    let n = name_len(s.as_bytes());
    (&s[..n], &s[n..])
}

// Whether a text is a varspec. `at` is its place, and a comma or a brace stands after it.
pub(crate) fn check_varspec(s: &str, at: usize) -> Result<(), Error>
    requires { at + length s.now + 1 < 2 ^ 64 }
    ensures { Answers result (moved at (varspec_fault s.now)) }
{
    let (name, modifier) = cut_name(s);
    if !is_varname(name.as_bytes()) {
        return Err(Error::new(ErrorKind::InvalidExpression, at));
    }
    match read_modifier(modifier.as_bytes(), at + name.len()) {
        Ok(_) => Ok(()),
        Err(error) => Err(error),
    }
}

// The length of a prefix, which has no fault.
fn fine_max_length(digits: &[u8]) -> u16
    requires fine { max_length_fault digits.now ≡ None }
    requires fits { length digits.now + 2 < 2 ^ 64 }
    ensures { result ≡ number_of digits.now }
{
    match read_max_length(digits, 0) {
        Ok(n) => n,
        Err(_) => 0,
    }
}

// What follows a name, which has no fault.
fn fine_modifier(bytes: &[u8]) -> Modifier
    requires fine { modifier_fault bytes.now ≡ None }
    requires fits { length bytes.now + 1 < 2 ^ 64 }
    ensures { result ≡ held (modifier_of bytes.now) }
{
    match bytes.split_first() {
        None => Modifier::Whole,
        Some((b, rest)) => {
            if *b == b':' {
                Modifier::Prefix(fine_max_length(rest))
            } else {
                Modifier::Explode
            }
        }
    }
}

// The varspec with this text, which is one.
pub(crate) fn read_varspec(s: &str, location: usize) -> VarSpec<'_>
    requires fine { varspec_fault s.now ≡ None }
    requires fits { length s.now + 1 < 2 ^ 64 }
    ensures { placed_of result ≡ placed_at location (varspec_of s.now) }
{
    let (name, modifier) = cut_name(s);
    VarSpec {
        name: VarName::from_valid(name),
        modifier: fine_modifier(modifier.as_bytes()),
        location,
    }
}
