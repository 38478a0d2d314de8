//! Percent-encoded characters.
ghost use Rattle.std.specs.Prelude.{◌≡◌, ◌≤◌, ◌<◌, ◌∷◌};
ghost use Rattle.iri_percent.specs.Units.{octets, first_char};
ghost use Rattle.iri_percent.specs.Triplets.{decoded};
ghost use Rattle.iri_percent.specs.inside.Octets.{char_from};

use crate::octets::{split_bits, split_octet};
use iri_grammar::class::Class;
use iri_grammar::spec::Spec;

// The character of a code, unless it is below the least that so many octets spell.
fn char_from(code: u32, least: u32) -> Option<char>
    ensures { result ≡ char_from code least }
{
    if code < least {
        return None;
    }
    char::from_u32(code)
}

#[tactic(auto, using(crate::proofs::characters::Spellings::of_octets))]
#[inline(always)]
fn char_of_two(lead: u8, rest: &[u8]) -> Option<char>
    requires { (192 ≤ lead) × (lead < 224) }
    ensures { result ≡ first_char (lead ∷ octets rest.now) }
{
    let (a, _) = split_bits(rest)?;
    char_from(u32::from(lead - 0xC0) * 64 + a, 0x80)
}

#[tactic(auto, using(crate::proofs::characters::Spellings::of_octets))]
#[inline(always)]
fn char_of_three(lead: u8, rest: &[u8]) -> Option<char>
    requires { (224 ≤ lead) × (lead < 240) }
    ensures { result ≡ first_char (lead ∷ octets rest.now) }
{
    let (a, after) = split_bits(rest)?;
    let (b, _) = split_bits(after)?;
    char_from((u32::from(lead - 0xE0) * 64 + a) * 64 + b, 0x800)
}

#[tactic(auto, using(crate::proofs::characters::Spellings::of_octets))]
#[inline(always)]
fn char_of_four(lead: u8, rest: &[u8]) -> Option<char>
    requires { 240 ≤ lead }
    ensures { result ≡ first_char (lead ∷ octets rest.now) }
{
    let (a, second) = split_bits(rest)?;
    let (b, third) = split_bits(second)?;
    let (c, _) = split_bits(third)?;
    char_from(
        ((u32::from(lead - 0xF0) * 64 + a) * 64 + b) * 64 + c,
        0x1_0000,
    )
}

// The character with whose UTF-8 this octet and the percent-encoded ones after it begin (RFC 3629 section 3). It has no
// loop, so that the compiler leaves it out where a grammar takes no character past ASCII.
#[tactic(auto, using(crate::proofs::characters::Spellings::of_first_octet))]
#[inline(always)]
fn prefix_char(lead: u8, rest: &[u8]) -> Option<char>
    ensures { result ≡ first_char (lead ∷ octets rest.now) }
{
    match lead {
        0..=0x7F => Some(char::from(lead)),
        0x80..=0xBF => None,
        0xC0..=0xDF => char_of_two(lead, rest),
        0xE0..=0xEF => char_of_three(lead, rest),
        _ => char_of_four(lead, rest),
    }
}

/// The percent-encoded character with which the text begins; `None` exactly where it begins with none.
#[tactic(auto, using(crate::proofs::characters::Spellings::empty_none))]
pub fn triplets_char(text: &[u8]) -> Option<char>
    ensures { result ≡ first_char (octets text.now) }
{
    let (lead, rest) = split_octet(text)?;
    prefix_char(lead, rest)
}

#[inline(always)]
pub(crate) fn char_past_ascii<S: Spec>(lead: u8, rest: &[u8]) -> Option<char>
    requires { 192 ≤ lead }
    ensures { result ≡ decoded S.tests (lead ∷ octets rest.now) }
{
    let c = prefix_char(lead, rest)?;
    if S::is_nonascii_char_unreserved(c) {
        Some(c)
    } else {
        None
    }
}

/// The unreserved percent-encoded character with which the text begins; `None` exactly where it begins with none.
#[tactic(auto, using(crate::proofs::characters::Spellings::none_decoded))]
pub fn decoded_char<S: Spec>(text: &[u8]) -> Option<char>
    ensures { result ≡ decoded S.tests (octets text.now) }
{
    let (octet, rest) = split_octet(text)?;
    if octet >= 0xC0 {
        char_past_ascii::<S>(octet, rest)
    } else if Class::Unreserved.has_byte(octet) {
        Some(char::from(octet))
    } else {
        None
    }
}
