//! Laws of the definitions: each function's contract is a law, and its body is empty.
ghost use Rattle.std.specs.Prelude.{◌≡◌, ◌↔◌, ℕ, List, None};
ghost use Rattle.iri_grammar.specs.Parts.{IsAbsolute};
ghost use Rattle.iri_link.specs.Fault.{field_fault};
ghost use Rattle.iri_link.specs.Field.{LinkValue, IsField};
ghost use Rattle.iri_link.specs.LaxReadings.{lax_links_in};
ghost use Rattle.iri_link.specs.Links.{HasLinks};
ghost use Rattle.iri_link.specs.Readings.{links_in};
ghost use Rattle.iri_link.specs.Resolved.{IsReadIn};
ghost use Rattle.iri_percent.specs.declared.canon_mode.CanonMode.{CanonMode};
ghost use Rattle.iri_link.specs.Written.{written};

use iri_grammar::spec::Spec;
use iri_normal::mode::CanonMode;

/// A field value has one list of link-values, and `links_in` is it; so one list is kept of it against a base.
pub fn field_values_have_one_list<S: Spec>()
    ensures links { (x : List ℕ) (links others : List LinkValue) → IsField x links → IsField x others
        → links ≡ others }
    ensures value { (x : List ℕ) (links : List LinkValue) → IsField x links → links_in x ≡ links }
    ensures kept { (mode : CanonMode) (base x : List ℕ) (kept others : List LinkValue)
        → IsReadIn S.tests mode base x kept → IsReadIn S.tests mode base x others → kept ≡ others }
{}

/// Bytes have no fault exactly where they are the UTF-8 of a field value whose targets are URI-references.
pub fn no_fault_of_field_values<S: Spec>()
    ensures fields { (x : List ℕ) → (field_fault S.tests x ≡ None)
        ↔ ((links : List LinkValue) × HasLinks S.tests x links) }
    ensures links { (x : List ℕ) → field_fault S.tests x ≡ None → HasLinks S.tests x (links_in x) }
{}

/// The lax reading of a field value whose targets are URI-references gives its link-values, as the strict one.
pub fn field_values_are_read_alike<S: Spec>()
    ensures { (x : List ℕ) → field_fault S.tests x ≡ None → lax_links_in S.tests x ≡ links_in x }
{}

/// The written form of the link-values of a field value has these link-values.
pub fn written_links_are_read<S: Spec>()
    ensures { (x : List ℕ) (links : List LinkValue) → HasLinks S.tests x links
        → HasLinks S.tests (written links) links }
{}

/// What is kept of a field value against a base is kept of its written form against any base, and nothing else is.
pub fn written_sets_are_read<S: Spec>()
    ensures read { (mode : CanonMode) (base x other : List ℕ) (kept : List LinkValue) → IsAbsolute S.tests base
        → IsReadIn S.tests mode base x kept → IsReadIn S.tests mode other (written kept) kept }
    ensures same { (mode : CanonMode) (base x other : List ℕ) (kept again : List LinkValue)
        → IsAbsolute S.tests base → IsReadIn S.tests mode base x kept
        → IsReadIn S.tests mode other (written kept) again → again ≡ kept }
{}
