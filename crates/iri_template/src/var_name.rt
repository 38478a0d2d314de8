//! The names of variables (RFC 6570 section 2.3).
ghost use Rattle.std.specs.Prelude.{◌≡◌, ◌<◌, ◌==◌, true, length, IfOk, MatchOption};
ghost use Rattle.iri_grammar.specs.Over.{over};
ghost use Rattle.iri_template.specs.Names.{is_varname, is_name_char};
ghost use Rattle.iri_template.specs.inside.Triplet.{begins_triplet};
ghost use Rattle.iri_template.specs.Fault.{Answers, name_fault};

use crate::error::{Error, ErrorKind};
use std::alloc::AllocError;

/// The name of a variable (RFC 6570 section 2.3): letters, digits, `_`, percent-encoded octets and dots, of which no
/// dot is the first. Names are equal and hashed as their texts.
///
/// ```
/// use iri::template::context::VarName;
/// assert_eq!(rt; VarName::new("caf%C3%A9.x_1")?.as_str(), "caf%C3%A9.x_1");
/// assert!(rt; VarName::new("a-b").is_err());
/// ```
#[derive(Debug, PartialEq, Eq, Hash)]
pub struct VarName<'a> {
    text: &'a str,
    pub ghost valid: { ∥ is_varname text.now ≡ true ∥₁ },
}

impl Clone for VarName<'_> {
    ghost is_clone = { λ v w. w ≡ v };

    ghost is_infallible = { λ _. Unit {0} };

    fn clone(&self) -> Result<Self, AllocError> {
        Ok(*self)
    }
}

impl Copy for VarName<'_> {}

impl<'a> VarName<'a> {
    /// The name with this text.
    ///
    /// # Errors
    ///
    /// `InvalidExpression` at byte 0, exactly where the text is no name.
    ///
    /// ```
    /// use iri::template::context::VarName;
    /// assert_eq!(rt; VarName::new("a.b_c")?.as_str(), "a.b_c");
    /// assert!(rt; VarName::new(".a").is_err());
    /// ```
    pub fn new(s: &'a str) -> Result<Self, Error>
        ensures fault { Answers result (name_fault s.now) }
        ensures text { IfOk result (λ v. v.text.now ≡ s.now) }
    {
        if is_varname(s.as_bytes()) {
            Ok(VarName { text: s })
        } else {
            Err(Error::new(ErrorKind::InvalidExpression, 0))
        }
    }

    // The name with this text, which is one.
    pub(crate) fn from_valid(s: &'a str) -> Self
        requires { is_varname s.now ≡ true }
        ensures { result.text.now ≡ s.now }
    {
        VarName { text: s }
    }

    /// The text.
    pub fn as_str(self) -> &'a str
        ensures text { result.now ≡ self.entry.text.now }
        ensures valid { is_varname result.now ≡ true }
    {
        self.text
    }
}

#[tactic(auto, using(std::proofs::lemmas::Bool::Decides::nat_tests), unfolding(crate::specs::Names::is_name_char))]
fn is_name_byte(b: u8) -> bool
    ensures { result ≡ is_name_char b }
{
    b.is_ascii_alphanumeric() || b == b'_' || b == b'.'
}

fn begins_triplet(t: &[u8]) -> bool
    ensures { result ≡ begins_triplet t.now }
{
    match t {
        [b'%', a, b, ..] => a.is_ascii_hexdigit() && b.is_ascii_hexdigit(),
        _ => false,
    }
}

// What follows the character of names or the percent-encoded octet at the start; none where neither stands there.
fn past_unit(t: &[u8]) -> Option<&[u8]>
    ensures { MatchOption result (over is_name_char t.now ≡ (length t.now == 0))
        (λ r. (over is_name_char r.now ≡ over is_name_char t.now) × (length r.now < length t.now)) }
{
    if begins_triplet(t) {
        return Some(&t[3..]);
    }
    match t.split_first() {
        Some((b, rest)) => { if is_name_byte(*b) { Some(rest) } else { None } }
        None => None,
    }
}

// Whether the bytes are a name's characters and percent-encoded octets.
fn is_over_name(bytes: &[u8]) -> bool
    ensures { result ≡ over is_name_char bytes.now }
{
    let mut rest = bytes;
    'units: while let Some(next) = past_unit(rest) {
        rest = next;
    }
    rest.is_empty()
}

// Whether the bytes are a name.
#[tactic(auto, unfolding(crate::specs::Names::is_varname))]
pub(crate) fn is_varname(bytes: &[u8]) -> bool
    ensures { result ≡ is_varname bytes.now }
{
    !bytes.is_empty() && bytes[0] != b'.' && is_over_name(bytes)
}
