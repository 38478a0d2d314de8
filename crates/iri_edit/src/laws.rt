//! What edits keep: each function's contract is a law, and its body is empty.
ghost use Rattle.std.specs.Prelude.{◌≡◌, ℕ, List, [], None, Option, true};
ghost use Rattle.iri_edit.specs.Edited.{edited_parts};
ghost use Rattle.iri_edit.specs.Fragment.{fragment_replaced, with_fragment};
ghost use Rattle.iri_edit.specs.Host.{host_replaced, with_host};
ghost use Rattle.iri_edit.specs.Password.{masked, password_of, user_alone, user_with, with_password, with_userinfo};
ghost use Rattle.iri_edit.specs.Password.{without_password};
ghost use Rattle.iri_grammar.specs.Components.{if_there, is_fragment, is_userinfo};
ghost use Rattle.iri_grammar.specs.Host.{is_host};
ghost use Rattle.iri_grammar.specs.Split.{split_of};
ghost use Rattle.iri_grammar.specs.WholeFault.{reference_fault};

use iri_grammar::spec::Spec;

/// A masked text masked again is itself, and a text without password stays, whatever is to be put in its place.
pub fn masked_again_is_itself<S: Spec>()
    ensures masked { (t : List ℕ) → reference_fault S.tests t ≡ None → masked (masked t) ≡ masked t }
    ensures same { (t w : List ℕ) → password_of t ≡ None → with_password t w ≡ t }
    ensures without { (t : List ℕ) → password_of t ≡ None → without_password t ≡ t }
{}

/// Where the password of a reference is changed, all parts but the userinfo stay: the new text splits into the old parts with
/// that userinfo.
pub fn passwords_change_nothing_else<S: Spec>()
    ensures replaced { (t w : List ℕ) → reference_fault S.tests t ≡ None → is_userinfo S.tests w ≡ true
        → split_of (with_password t w) ≡ edited_parts (with_userinfo (user_with w)) (split_of t) }
    ensures masked { (t : List ℕ) → reference_fault S.tests t ≡ None
        → split_of (masked t) ≡ edited_parts (with_userinfo (user_with [])) (split_of t) }
    ensures without { (t : List ℕ) → reference_fault S.tests t ≡ None
        → split_of (without_password t) ≡ edited_parts (with_userinfo user_alone) (split_of t) }
{}

/// Where the host or the fragment of a reference is replaced, all other parts stay.
pub fn other_parts_stay<S: Spec>()
    ensures host { (t h : List ℕ) → reference_fault S.tests t ≡ None → is_host S.tests h ≡ true
        → split_of (with_host t h) ≡ edited_parts (host_replaced h) (split_of t) }
    ensures fragment { (t : List ℕ) (f : Option (List ℕ)) → reference_fault S.tests t ≡ None
        → if_there (is_fragment S.tests) f ≡ true → split_of (with_fragment t f) ≡ fragment_replaced f (split_of t) }
{}
