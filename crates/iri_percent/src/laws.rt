//! Laws of the definitions: each function's contract is a law, and its body is empty.
ghost use Rattle.std.specs.Prelude.{◌≡◌, ◌≢◌, ◌↔◌, ℕ, List, ◌∷◌, ◌++◌, Some, true, false, map};
ghost use Rattle.std.specs.List.{All, flat_map};
ghost use Rattle.std.specs.Char.{IsScalar, encode_utf8};
ghost use Rattle.iri_grammar.specs.Classes.{uri_tests};
ghost use Rattle.iri_grammar.specs.Components.{is_userinfo, is_path, is_path_segment, is_query, is_fragment};
ghost use Rattle.iri_grammar.specs.Host.{is_host, is_reg_name};
ghost use Rattle.iri_percent.specs.Units.{TextUnit, units, unit_text, whole_triplets, first_char, IsOutsideTriplets};
ghost use Rattle.iri_percent.specs.CharUnits.{char_units, char_unit_text, byte_units};
ghost use Rattle.iri_percent.specs.Triplets.{pct, as_it_is, unit_in_form};
ghost use Rattle.iri_percent.specs.ByteForm.{written, normal_unit};
ghost use Rattle.iri_grammar.specs.Parts.{IsReference, IsIri, IsAbsolute, IsRelative};
ghost use Rattle.iri_grammar.specs.Split.{split_of};
ghost use Rattle.iri_percent.specs.Mapping.{mapped, mapped_char, mapped_parts};
ghost use Rattle.iri_percent.specs.Decoding.{decoding, has_triplet, fragments, fragment_bytes};
ghost use Rattle.iri_percent.specs.Encoding.{keeps, encoded};
ghost use Rattle.iri_percent.specs.declared.context.Context.{Context};
ghost use Rattle.std.specs.Str.{chars, IsAscii, IsUtf8};

use iri_grammar::spec::Spec;

/// The units of a text, put together, are the text; and octets begin with a character exactly where they begin with
/// its UTF-8.
pub fn units_of_texts()
    ensures whole { (t : List ℕ) → flat_map unit_text (units t) ≡ t }
    ensures character { (os : List ℕ) (c : ℕ)
        → (first_char os ≡ Some c) ↔ (IsScalar c × ((rest : List ℕ) × (os ≡ encode_utf8 c ++ rest))) }
{}

/// Two hex digits follow each `%` of a text exactly where none of its units is a stray `%`, read character by character or
/// byte by byte.
#[tactic(auto, using(crate::proofs::units::StrayPercents::strays))]
pub fn whole_triplets_have_no_stray_percent()
    ensures characters { (t : List ℕ) → (whole_triplets t ≡ true) ↔ All (λ u. u ≢ TextUnit.Stray) (char_units t) }
    ensures bytes { (t : List ℕ) → (whole_triplets t ≡ true) ↔ All (λ u. u ≢ TextUnit.Stray) (units t) }
{}

/// The units of a text, read character by character, put together are the text. They are those of its characters; and where
/// each character that isn't percent-encoded gives way to the bytes of its UTF-8, they are the units of its bytes. So its
/// triplet normal form can be read byte by byte too.
#[tactic(auto, using(crate::proofs::units::ByCharacters::readings))]
pub fn units_of_characters<S: Spec>()
    ensures whole { (t : List ℕ) → flat_map char_unit_text (char_units t) ≡ t }
    ensures characters { (t : List ℕ) → IsUtf8 t → char_units t ≡ units (chars t) }
    ensures bytes { (t : List ℕ) → units t ≡ flat_map byte_units (char_units t) }
    ensures normal { (t : List ℕ) → pct S.tests t ≡ flat_map (written S.tests as_it_is) (units t) }
{}

/// The triplet normal form of a text without stray `%` has no stray `%`, and is its own.
#[tactic(auto, using(crate::proofs::forms::Stability::stable_forms))]
pub fn triplet_form_is_stable<S: Spec>()
    ensures whole { (t : List ℕ) → whole_triplets t ≡ true → whole_triplets (pct S.tests t) ≡ true }
    ensures stable { (t : List ℕ) → whole_triplets t ≡ true → pct S.tests (pct S.tests t) ≡ pct S.tests t }
{}

/// No decoding makes a new percent-encoded character: the units of the triplet normal form are those of the text, each in
/// normal form.
#[tactic(auto, using(crate::proofs::units::InNormalForm::formed_units))]
pub fn decoding_makes_no_new_character<S: Spec>()
    ensures characters { (t : List ℕ) → IsUtf8 t → whole_triplets t ≡ true
        → char_units (pct S.tests t) ≡ map (unit_in_form S.tests) (char_units t) }
    ensures bytes { (t : List ℕ) → whole_triplets t ≡ true
        → units (pct S.tests t) ≡ flat_map (normal_unit S.tests as_it_is) (units t) }
{}

/// A byte that is no `%` and no hex digit parts the triplet normal forms on both sides of it.
#[tactic(auto, using(crate::proofs::units::AtDelimiters::pct_delimiter))]
pub fn delimiters_part_triplet_forms<S: Spec>()
    ensures { (m : ℕ) (a b : List ℕ) → IsOutsideTriplets m → pct S.tests (a ++ m ∷ b) ≡ pct S.tests a ++ m ∷ pct S.tests b }
{}

/// No part of a reference has a stray `%`.
#[tactic(auto, using(crate::proofs::units::OfParts::parts_whole))]
pub fn parts_have_whole_triplets<S: Spec>()
    ensures userinfo { (t : List ℕ) → is_userinfo S.tests t ≡ true → whole_triplets t ≡ true }
    ensures host { (t : List ℕ) → is_host S.tests t ≡ true → whole_triplets t ≡ true }
    ensures path { (t : List ℕ) → is_path S.tests t ≡ true → whole_triplets t ≡ true }
    ensures path_segment { (t : List ℕ) → is_path_segment S.tests t ≡ true → whole_triplets t ≡ true }
    ensures query { (t : List ℕ) → is_query S.tests t ≡ true → whole_triplets t ≡ true }
    ensures fragment { (t : List ℕ) → is_fragment S.tests t ≡ true → whole_triplets t ≡ true }
{}

/// The triplet normal form of a part is a part of the same kind.
#[tactic(auto, using(crate::proofs::forms::Classes::parts_in_form))]
pub fn triplet_forms_keep_their_class<S: Spec>()
    ensures userinfo { (t : List ℕ) → is_userinfo S.tests t ≡ true → is_userinfo S.tests (pct S.tests t) ≡ true }
    ensures reg_name { (t : List ℕ) → is_reg_name S.tests t ≡ true → is_reg_name S.tests (pct S.tests t) ≡ true }
    ensures path { (t : List ℕ) → is_path S.tests t ≡ true → is_path S.tests (pct S.tests t) ≡ true }
    ensures path_segment { (t : List ℕ) → is_path_segment S.tests t ≡ true
        → is_path_segment S.tests (pct S.tests t) ≡ true }
    ensures query { (t : List ℕ) → is_query S.tests t ≡ true → is_query S.tests (pct S.tests t) ≡ true }
    ensures fragment { (t : List ℕ) → is_fragment S.tests t ≡ true → is_fragment S.tests (pct S.tests t) ≡ true }
{}

/// A text is mapped piece by piece, and character by character; what is in ASCII stays, and what comes out is in ASCII.
#[tactic(auto, using(crate::proofs::mapping::NormalForms::mapped_texts, crate::proofs::mapping::Runs::ascii_stays))]
pub fn mapping_of_texts()
    ensures pieces { (t u : List ℕ) → mapped (t ++ u) ≡ mapped t ++ mapped u }
    ensures ascii { (t : List ℕ) → IsAscii t → mapped t ≡ t }
    ensures in_ascii { (t : List ℕ) → IsUtf8 t → IsAscii (mapped t) }
    ensures characters { (t : List ℕ) → IsUtf8 t → mapped t ≡ flat_map mapped_char (chars t) }
{}

/// What is in a production is, mapped, in the same production of URIs, and its parts are mapped with it.
pub fn mapped_texts_are_uris<S: Spec>()
    ensures reference { (t : List ℕ) → IsReference S.tests t → IsReference uri_tests (mapped t) }
    ensures iri { (t : List ℕ) → IsIri S.tests t → IsIri uri_tests (mapped t) }
    ensures absolute { (t : List ℕ) → IsAbsolute S.tests t → IsAbsolute uri_tests (mapped t) }
    ensures relative { (t : List ℕ) → IsRelative S.tests t → IsRelative uri_tests (mapped t) }
    ensures query { (t : List ℕ) → is_query S.tests t ≡ true → is_query uri_tests (mapped t) ≡ true }
    ensures fragment { (t : List ℕ) → is_fragment S.tests t ≡ true → is_fragment uri_tests (mapped t) ≡ true }
    ensures parts { (t : List ℕ) → IsReference S.tests t → split_of (mapped t) ≡ mapped_parts (split_of t) }
{}

/// The fragments of a text, joined, are what it decodes to. A text decodes to itself exactly where it has no percent-encoded
/// octet.
#[tactic(auto, using(crate::proofs::coding::Fragments::decoded_texts))]
pub fn decoding_of_texts()
    ensures joined { (t : List ℕ) → flat_map fragment_bytes (fragments t) ≡ decoding t }
    ensures same { (t : List ℕ) → (decoding t ≡ t) ↔ (has_triplet t ≡ false) }
{}

/// Decoding undoes encoding, for each place of a reference.
#[tactic(auto, using(crate::proofs::coding::DecodedAgain::decoded_again))]
pub fn decoding_undoes_encoding<S: Spec>()
    ensures { (k : Context) (t : List ℕ) → IsUtf8 t → decoding (encoded (keeps S.tests k) t) ≡ t }
{}
