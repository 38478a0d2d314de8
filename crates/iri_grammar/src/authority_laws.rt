//! Laws of texts over a class, of IPv6 texts and of authorities: each function's contract is a law, and
//! its body is empty.
ghost use Rattle.std.specs.Prelude.{◌≡◌, ◌↔◌, ℕ, Bool, List, true, false};
ghost use Rattle.iri_grammar.specs.ClassTests.{class_test};
ghost use Rattle.iri_grammar.specs.Over.{over, IsOver};
ghost use Rattle.iri_grammar.specs.Ipv6.{IsIpv6};
ghost use Rattle.iri_grammar.specs.Ipv6Test.{is_ipv6};
ghost use Rattle.iri_grammar.specs.Authority.{AuthorityParts, ReadsAuthority, recompose_authority, authority_parts};
ghost use Rattle.iri_grammar.specs.Authority.{is_authority};
ghost use Rattle.iri_grammar.specs.Characters.{percent_sign};

use crate::class::Class;
use crate::spec::Spec;

/// Characters are over a class exactly where units of the class spell them; `%` is in no class.
pub fn over_is_units<S: Spec>()
    ensures units { (p : ℕ → Bool) (cs : List ℕ) → p percent_sign ≡ false → (over p cs ≡ true) ↔ IsOver p cs }
    ensures no_percent { (k : Class) → class_test S.tests k percent_sign ≡ false }
{}

/// The test for IPv6 texts passes exactly the lists of groups of RFC 3986 section 3.2.2.
#[tactic(auto, using(crate::proofs::hosts::Ipv6Laws::ipv6_law))]
pub fn ipv6_is_groups()
    ensures { (t : List ℕ) → (is_ipv6 t ≡ true) ↔ IsIpv6 t }
{}

/// An authority has one reading, and `authority_parts` is it; each text is recomposed from its
/// `authority_parts`.
pub fn one_reading<S: Spec>()
    ensures unique { (t : List ℕ) (a b : AuthorityParts) → ReadsAuthority S.tests t a
        → ReadsAuthority S.tests t b → a ≡ b }
    ensures value { (t : List ℕ) (a : AuthorityParts) → ReadsAuthority S.tests t a → authority_parts t ≡ a }
    ensures test { (t : List ℕ) → (is_authority S.tests t ≡ true)
        ↔ ((a : AuthorityParts) × ReadsAuthority S.tests t a) }
    ensures recomposed { (t : List ℕ) → recompose_authority (authority_parts t) ≡ t }
{}
