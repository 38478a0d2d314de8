//! The laws of targets, dot removal, normal forms and canonical texts. Where a law has a `CanonMode`, it holds of the
//! normal form by the rules of every scheme, and of that by scheme rules.
ghost use Rattle.std.specs.Prelude.{◌≡◌, ◌↔◌, ℕ, ◌+◌, ◌≤◌, Bool, List, IsSome, true, false, length};
ghost use Rattle.iri_grammar.specs.Classes.{uri_tests};
ghost use Rattle.iri_grammar.specs.Parts.{Parts, Fits, Splits, IsReference, IsIri, IsAbsolute, recompose};
ghost use Rattle.iri_grammar.specs.Split.{split_of};
ghost use Rattle.iri_percent.specs.Units.{whole_triplets};
ghost use Rattle.iri_percent.specs.Triplets.{pct};
ghost use Rattle.iri_normal.specs.Target.{target};
ghost use Rattle.iri_normal.specs.Dots.{has_dot_segment};
ghost use Rattle.iri_normal.specs.DotRemoval.{IsWithoutDots, dots};
ghost use Rattle.iri_normal.specs.DotRemoval.{guard};
ghost use Rattle.iri_percent.specs.Mapping.{mapped, mapped_parts};
ghost use Rattle.iri_normal.specs.NormalForm.{canonical_in, canonical_parts_in, form, normal_form_in};
ghost use Rattle.iri_normal.specs.Modes.{mode_of};
ghost use Rattle.iri_normal.specs.Normalized.{written_text};
ghost use Rattle.iri_normal.specs.declared.mode.Mode.TheVariants.{Preserving};

use crate::mode::{CanonMode, Mode};
use iri_grammar::spec::Spec;

/// The target of a reference against parts with a scheme fits and has a scheme.
pub fn target_fits<S: Spec>()
    ensures { (base reference : Parts) → Fits S.tests base → IsSome base.scheme → Fits S.tests reference
        → Fits S.tests (target base reference) × IsSome (target base reference).scheme }
{}

/// The target has at most one byte more than base and reference together.
pub fn target_is_short()
    ensures { (base reference : Parts)
        → length (recompose (target base reference)) ≤ length (recompose base) + length (recompose reference) + 1 }
{}

/// The steps of dot removal lead from each path to one result, and `dots` is that result.
#[tactic(auto, using(crate::proofs::removal::RfcSteps::one_result))]
pub fn dot_removal_has_one_result()
    ensures { (path result : List ℕ) → IsWithoutDots path result ↔ (dots path ≡ result) }
{}

/// Dot removal leaves no dot segment, and leaves a path without one as it is.
#[tactic(auto, using(crate::proofs::removal::Stability::no_dots_left, crate::proofs::removal::Stability::no_dots_same))]
pub fn dot_removal_leaves_no_dot_segment()
    ensures none { (path : List ℕ) → has_dot_segment (dots path) ≡ false }
    ensures same { (path : List ℕ) → has_dot_segment path ≡ false → dots path ≡ path }
{}

/// Dot removal doesn't change again what it and the guard gave.
#[tactic(auto, using(crate::proofs::removal::Stability::guarded_stable))]
pub fn dot_removal_is_stable()
    ensures { (path : List ℕ) → (authority_stands : Bool) → dots (guard (dots path) authority_stands) ≡ dots path }
{}

/// Dot removal and triplet normal form may be done in either order, where no `%` is stray.
pub fn dot_removal_commutes_with_triplets<S: Spec>()
    ensures { (path : List ℕ) → whole_triplets path ≡ true → dots (pct S.tests path) ≡ pct S.tests (dots path) }
{}

/// The normal form of parts that fit and have a scheme fits and has a scheme.
pub fn normal_form_fits<S: Spec>()
    ensures { (mode : CanonMode) (parts : Parts) → Fits S.tests parts → IsSome parts.scheme
        → Fits S.tests (normal_form_in S.tests mode parts) × IsSome (normal_form_in S.tests mode parts).scheme }
{}

/// The normal form of parts that fit is its own normal form.
pub fn normal_form_is_stable<S: Spec>()
    ensures { (mode : CanonMode) (parts : Parts) → Fits S.tests parts
        → normal_form_in S.tests mode (normal_form_in S.tests mode parts) ≡ normal_form_in S.tests mode parts }
{}

/// Parts that fit and have a scheme do so in every mode.
pub fn every_form_fits<S: Spec>()
    ensures { (mode : Mode) (whole : Bool) (parts : Parts) → Fits S.tests parts → IsSome parts.scheme
        → Fits S.tests (form S.tests mode whole parts) × IsSome (form S.tests mode whole parts).scheme }
{}

/// Parts that fit, written in any mode, have at most 2 bytes more than as they stand.
pub fn every_form_is_short<S: Spec>()
    ensures { (mode : Mode) (whole : Bool) (parts : Parts) → Fits S.tests parts
        → length (recompose (form S.tests mode whole parts)) ≤ length (recompose parts) + 2 }
{}

/// The preserving form of parts that fit is its own preserving form.
pub fn preserving_form_is_stable<S: Spec>()
    ensures { (whole again : Bool) (parts : Parts) → Fits S.tests parts
        → form S.tests Preserving again (form S.tests Preserving whole parts) ≡ form S.tests Preserving whole parts }
{}

/// The canonical text of a reference against an absolute base is a URI of the spec, and its split is the normal form of the target.
pub fn canonical_text_splits_into_normal_parts<S: Spec>()
    ensures uri { (mode : CanonMode) (base reference : List ℕ) → IsAbsolute S.tests base → IsReference S.tests reference
        → IsIri S.tests (canonical_in S.tests mode base reference) }
    ensures splits { (mode : CanonMode) (base reference : List ℕ) → IsAbsolute S.tests base → IsReference S.tests reference
        → Splits S.tests (canonical_in S.tests mode base reference) (canonical_parts_in S.tests mode base reference) }
    ensures split { (mode : CanonMode) (base reference : List ℕ) → IsAbsolute S.tests base → IsReference S.tests reference
        → split_of (canonical_in S.tests mode base reference) ≡ canonical_parts_in S.tests mode base reference }
{}

/// A target that is written in a normal form is written as the canonical text, also where its path is the base's, taken whole.
pub fn normal_targets_are_canonical_texts<S: Spec>()
    ensures { (mode : CanonMode) (whole : Bool) (base reference : List ℕ)
        → written_text S.tests (record { parts = target (split_of base) (split_of reference); whole = whole; mode = mode_of mode })
        ≡ canonical_in S.tests mode base reference }
{}

/// The canonical text is its own canonical form, against every base.
pub fn canonical_text_is_its_own<S: Spec>()
    ensures { (mode : CanonMode) (base reference other : List ℕ) → IsAbsolute S.tests base
        → IsReference S.tests reference → canonical_in S.tests mode other (canonical_in S.tests mode base reference)
        ≡ canonical_in S.tests mode base reference }
{}

/// The canonical text has at most 3 bytes more than base and reference together.
pub fn canonical_text_is_short<S: Spec>()
    ensures { (mode : CanonMode) (base reference : List ℕ) → IsAbsolute S.tests base → IsReference S.tests reference
        → length (canonical_in S.tests mode base reference) ≤ length base + length reference + 3 }
{}

/// Mapping and normal form may be done in either order.
pub fn mapping_commutes_with_normal_form<S: Spec>()
    ensures { (mode : CanonMode) (t : Parts) → Fits S.tests t → mapped_parts (normal_form_in S.tests mode t)
        ≡ normal_form_in uri_tests mode (mapped_parts t) }
{}

/// The canonical text, mapped, is the canonical text of the mapped base and reference.
pub fn mapping_commutes_with_canonical_texts<S: Spec>()
    ensures { (mode : CanonMode) (base reference : List ℕ) → IsAbsolute S.tests base → IsReference S.tests reference
        → mapped (canonical_in S.tests mode base reference) ≡ canonical_in uri_tests mode (mapped base) (mapped reference) }
{}
