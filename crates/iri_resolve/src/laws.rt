//! The laws of steps. Each holds of the steps and the normal form by the rules of every scheme, and of those by scheme rules.
ghost use Rattle.std.specs.Prelude.{◌≡◌, ◌≢◌, ◌↔◌, ℕ, List, IsSome, Some, true};
ghost use Rattle.iri_grammar.specs.Parts.{Parts, Fits, recompose};
ghost use Rattle.iri_percent.specs.Units.{whole_triplets};
ghost use Rattle.iri_normal.specs.NormalForm.{form, normal_form_in};
ghost use Rattle.iri_resolve.specs.Changes.{with_decoded};
ghost use Rattle.iri_resolve.specs.DecodedPlace.{IsCharacterAt};
ghost use Rattle.iri_resolve.specs.NormalSteps.{steps_of};
ghost use Rattle.iri_resolve.specs.Steps.{JoinedIn, replayed_in, step_in};

use crate::step::Step;
use iri_grammar::spec::Spec;
use iri_normal::mode::CanonMode;

/// The parts after a step are valid again, have a scheme, and have the same normal form.
pub fn steps_keep_the_normal_form<S: Spec>()
    ensures fits { (mode : CanonMode) (t u : Parts) (x : Step) → Fits S.tests t → IsSome t.scheme
        → step_in S.tests mode t x ≡ Some u → Fits S.tests u × IsSome u.scheme }
    ensures form { (mode : CanonMode) (t u : Parts) (x : Step) → Fits S.tests t → IsSome t.scheme
        → step_in S.tests mode t x ≡ Some u → normal_form_in S.tests mode u ≡ normal_form_in S.tests mode t }
{}

/// A step changes the parts: what would change nothing is no step.
pub fn steps_change_something<S: Spec>()
    ensures { (mode : CanonMode) (t u : Parts) (x : Step) → step_in S.tests mode t x ≡ Some u → u ≢ t }
{}

/// Where percent-encoded octets are decoded, an unreserved character stands among the units of the text.
pub fn decoded_places_are_characters<S: Spec>()
    ensures { (t u : List ℕ) (i : ℕ) → whole_triplets t ≡ true → with_decoded S.tests i t ≡ Some u
        → IsCharacterAt S.tests i t }
{}

/// From all valid parts, steps lead to their normal form: these.
pub fn steps_lead_to_the_normal_form<S: Spec>()
    ensures these { (mode : CanonMode) (t : Parts) → Fits S.tests t
        → replayed_in S.tests mode t (steps_of S.tests mode t) ≡ Some (normal_form_in S.tests mode t) }
    ensures some { (mode : CanonMode) (t : Parts) → Fits S.tests t
        → (l : List Step) × (replayed_in S.tests mode t l ≡ Some (normal_form_in S.tests mode t)) }
{}

/// Steps join exactly the valid parts that have one normal form, which are those with one canonical text.
pub fn steps_join_what_has_one_normal_form<S: Spec>()
    ensures joined { (mode : CanonMode) (t u : Parts) → Fits S.tests t → IsSome t.scheme → Fits S.tests u
        → IsSome u.scheme → JoinedIn S.tests mode t u ↔ (normal_form_in S.tests mode t ≡ normal_form_in S.tests mode u) }
    ensures texts { (mode : CanonMode) (t u : Parts) → Fits S.tests t → IsSome t.scheme → Fits S.tests u
        → IsSome u.scheme → (recompose (normal_form_in S.tests mode t) ≡ recompose (normal_form_in S.tests mode u))
        ↔ (normal_form_in S.tests mode t ≡ normal_form_in S.tests mode u) }
{}
