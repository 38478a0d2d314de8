//! Laws of views, as functions whose contracts say them.
ghost use Rattle.std.specs.Prelude.{◌≡◌, ◌↔◌, ℕ, IsTrue, List, None, fold, is_some, true};
ghost use Rattle.std.specs.Ordering.{nat_cmp};
ghost use Rattle.std.specs.Cmp.Lexicographic.{slice_cmp};
ghost use Rattle.std.specs.Hash as fed;
ghost use Rattle.iri_grammar.specs.Parts.{Parts, Fits, recompose};
ghost use Rattle.iri_grammar.specs.Split.{split_of};
ghost use Rattle.iri_types.specs.Texts.{text};

use crate::kind::{Kind, WholeKind};
use crate::view::View;
use iri_grammar::spec::Spec;
use std::cmp::Ordering;
use std::hash::{Hash, Hasher};

/// Views are equal exactly where their texts are.
pub fn equal_as_texts<S: Spec, K: Kind>(a: View<'_, S, K>, b: View<'_, S, K>) -> bool
    ensures { IsTrue result ↔ text a.entry ≡ text b.entry }
{
    a == b
}

/// Views are ordered as their texts, byte by byte.
pub fn ordered_as_texts<S: Spec, K: Kind>(a: View<'_, S, K>, b: View<'_, S, K>) -> Ordering
    ensures { result ≡ slice_cmp nat_cmp (text a.entry) (text b.entry) }
{
    a.cmp(&b)
}

/// Views are hashed as their texts.
pub fn hashed_as_texts<S: Spec, K: Kind, H: Hasher>(v: View<'_, S, K>, state: &mut H)
    ensures { state.new ≡ fold H.write state.old (fed.str (text v.entry)) }
{
    v.hash(state);
}

/// Parts that are each in their production, with a path that keeps the rules of its place, make a text of a kind that
/// allows what stands; and each text of the kind has such parts.
pub fn valid_parts_make_texts<S: Spec, K: WholeKind>()
    ensures made { (p : Parts) → Fits S.tests p → K.allows (is_some p.scheme) (is_some p.fragment) ≡ true
        → K.fault S.tests (recompose p) ≡ None }
    ensures parts { (t : List ℕ) → K.fault S.tests t ≡ None → Fits S.tests (split_of t) }
    ensures allowed { (t : List ℕ) → K.fault S.tests t ≡ None
        → K.allows (is_some (split_of t).scheme) (is_some (split_of t).fragment) ≡ true }
{}
