//! Laws of the definitions: each function's contract is a law, and its body is empty.
ghost use Rattle.std.specs.Prelude.{◌≡◌, ◌↔◌, ◌⊎◌, ◌&&◌, ℕ, IsNone, IsSome, List, None, not, true};
ghost use Rattle.std.specs.Str.{all_scalars, chars, encode_utf8_all, IsUtf8};
ghost use Rattle.iri_grammar.specs.Classes.{uri_tests};
ghost use Rattle.iri_grammar.specs.Components.{is_scheme, is_userinfo, is_port, is_path, is_path_segment, is_query};
ghost use Rattle.iri_grammar.specs.Components.{is_fragment};
ghost use Rattle.iri_grammar.specs.Ipv4.{is_ipv4};
ghost use Rattle.iri_grammar.specs.Host.{is_host, is_reg_name};
ghost use Rattle.iri_grammar.specs.Authority.{AuthorityParts, FitsAuthority, authority_parts, is_authority};
ghost use Rattle.iri_grammar.specs.Authority.{recompose_authority};
ghost use Rattle.iri_grammar.specs.Parts.{Parts, Fits, Splits, IsReference, IsIri, IsAbsolute, IsRelative, recompose};
ghost use Rattle.iri_grammar.specs.Split.{split_of};
ghost use Rattle.iri_grammar.specs.Fault.{bytes_fault, scheme_fault, userinfo_fault, host_fault, reg_name_fault};
ghost use Rattle.iri_grammar.specs.Fault.{port_fault, path_fault, path_segment_fault, query_fault, fragment_fault};
ghost use Rattle.iri_grammar.specs.Fault.{authority_fault};
ghost use Rattle.iri_grammar.specs.WholeFault.{reference_fault, iri_fault, absolute_fault, relative_fault};

use crate::spec::Spec;

/// A text has at most one split, and `split_of` is it; each text is recomposed from `split_of`.
#[tactic(auto, using(crate::proofs::splits::SplitUnique::one_split, crate::proofs::splits::SplitUnique::split_is, crate::proofs::splits::SplitLaws::recompose_split))]
pub fn one_split<S: Spec>()
    ensures unique { (t : List ℕ) (a b : Parts) → Splits S.tests t a → Splits S.tests t b → a ≡ b }
    ensures value { (t : List ℕ) (p : Parts) → Splits S.tests t p → split_of t ≡ p }
    ensures recomposed { (t : List ℕ) → recompose (split_of t) ≡ t }
{}

/// A reference is an IRI or a relative reference, and never both.
pub fn iri_or_relative<S: Spec>()
    ensures either { (t : List ℕ) → IsReference S.tests t ↔ (IsIri S.tests t ⊎ IsRelative S.tests t) }
    ensures never_both { (t : List ℕ) → IsIri S.tests t → IsRelative S.tests t → ⊥ }
{}

/// Bytes have no fault exactly where they are the UTF-8 of a whole text in the production.
pub fn no_fault_of_wholes<S: Spec>()
    ensures reference { (bs : List ℕ) → (bytes_fault (reference_fault S.tests) bs ≡ None) ↔ IsReference S.tests bs }
    ensures iri { (bs : List ℕ) → (bytes_fault (iri_fault S.tests) bs ≡ None) ↔ IsIri S.tests bs }
    ensures absolute { (bs : List ℕ) → (bytes_fault (absolute_fault S.tests) bs ≡ None) ↔ IsAbsolute S.tests bs }
    ensures relative { (bs : List ℕ) → (bytes_fault (relative_fault S.tests) bs ≡ None) ↔ IsRelative S.tests bs }
    ensures utf8 { (bs : List ℕ) → IsReference S.tests bs → IsUtf8 bs }
{}

/// Parts that are each in their production, with a path that keeps the rules of its place, make a text without fault, of
/// each kind that allows what stands; its split is these parts. A reference without fault has such parts.
pub fn valid_parts_make_wholes<S: Spec>()
    ensures split { (p : Parts) → Fits S.tests p → split_of (recompose p) ≡ p }
    ensures reference { (p : Parts) → Fits S.tests p → reference_fault S.tests (recompose p) ≡ None }
    ensures iri { (p : Parts) → Fits S.tests p → IsSome p.scheme → iri_fault S.tests (recompose p) ≡ None }
    ensures absolute { (p : Parts) → Fits S.tests p → IsSome p.scheme → IsNone p.fragment
        → absolute_fault S.tests (recompose p) ≡ None }
    ensures relative { (p : Parts) → Fits S.tests p → IsNone p.scheme → relative_fault S.tests (recompose p) ≡ None }
    ensures parts { (t : List ℕ) → reference_fault S.tests t ≡ None → Fits S.tests (split_of t) }
{}

/// Userinfo, host and port that are each in their production make an authority, and are its reading.
pub fn valid_parts_make_authorities<S: Spec>()
    ensures authority { (a : AuthorityParts) → FitsAuthority S.tests a
        → is_authority S.tests (recompose_authority a) ≡ true }
    ensures reading { (a : AuthorityParts) → FitsAuthority S.tests a → authority_parts (recompose_authority a) ≡ a }
{}

/// Bytes have no fault exactly where they are the UTF-8 of a component in the production: of the authority
/// and its parts.
pub fn no_fault_of_authorities<S: Spec>()
    ensures authority { (bs : List ℕ) → (bytes_fault (authority_fault S.tests) bs ≡ None)
        ↔ (is_authority S.tests bs ≡ true) }
    ensures userinfo { (bs : List ℕ) → (bytes_fault (userinfo_fault S.tests) bs ≡ None)
        ↔ (is_userinfo S.tests bs ≡ true) }
    ensures host { (bs : List ℕ) → (bytes_fault (host_fault S.tests) bs ≡ None) ↔ (is_host S.tests bs ≡ true) }
    ensures reg_name { (bs : List ℕ) → (bytes_fault (reg_name_fault S.tests) bs ≡ None)
        ↔ ((is_reg_name S.tests bs && not (is_ipv4 bs)) ≡ true) }
    ensures port { (bs : List ℕ) → (bytes_fault port_fault bs ≡ None) ↔ (is_port bs ≡ true) }
{}

/// Bytes have no fault exactly where they are the UTF-8 of a component in the production: of scheme, path, a path's
/// segment, query and fragment.
pub fn no_fault_of_components<S: Spec>()
    ensures scheme { (bs : List ℕ) → (bytes_fault scheme_fault bs ≡ None) ↔ (is_scheme bs ≡ true) }
    ensures path { (bs : List ℕ) → (bytes_fault (path_fault S.tests) bs ≡ None) ↔ (is_path S.tests bs ≡ true) }
    ensures path_segment { (bs : List ℕ) → (bytes_fault (path_segment_fault S.tests) bs ≡ None)
        ↔ (is_path_segment S.tests bs ≡ true) }
    ensures query { (bs : List ℕ) → (bytes_fault (query_fault S.tests) bs ≡ None) ↔ (is_query S.tests bs ≡ true) }
    ensures fragment { (bs : List ℕ) → (bytes_fault (fragment_fault S.tests) bs ≡ None)
        ↔ (is_fragment S.tests bs ≡ true) }
{}

/// A whole text of URIs is one of every spec, so of IRIs, with the same parts.
pub fn uri_wholes_within<S: Spec>()
    ensures fits { (p : Parts) → Fits uri_tests p → Fits S.tests p }
    ensures reference { (t : List ℕ) → IsReference uri_tests t → IsReference S.tests t }
    ensures iri { (t : List ℕ) → IsIri uri_tests t → IsIri S.tests t }
    ensures absolute { (t : List ℕ) → IsAbsolute uri_tests t → IsAbsolute S.tests t }
    ensures relative { (t : List ℕ) → IsRelative uri_tests t → IsRelative S.tests t }
{}

/// A component of URIs is one of every spec, so of IRIs.
pub fn uri_components_within<S: Spec>()
    ensures authority { (x : List ℕ) → is_authority uri_tests x ≡ true → is_authority S.tests x ≡ true }
    ensures userinfo { (x : List ℕ) → is_userinfo uri_tests x ≡ true → is_userinfo S.tests x ≡ true }
    ensures host { (x : List ℕ) → is_host uri_tests x ≡ true → is_host S.tests x ≡ true }
    ensures reg_name { (x : List ℕ) → is_reg_name uri_tests x ≡ true → is_reg_name S.tests x ≡ true }
    ensures path { (x : List ℕ) → is_path uri_tests x ≡ true → is_path S.tests x ≡ true }
    ensures path_segment { (x : List ℕ) → is_path_segment uri_tests x ≡ true → is_path_segment S.tests x ≡ true }
    ensures query { (x : List ℕ) → is_query uri_tests x ≡ true → is_query S.tests x ≡ true }
    ensures fragment { (x : List ℕ) → is_fragment uri_tests x ≡ true → is_fragment S.tests x ≡ true }
{}

/// The bytes of a text and its characters undo each other.
pub fn utf8_and_chars()
    ensures bytes { (bs : List ℕ) → IsUtf8 bs → encode_utf8_all (chars bs) ≡ bs }
    ensures chars { (cs : List ℕ) → all_scalars cs ≡ true → chars (encode_utf8_all cs) ≡ cs }
{}
