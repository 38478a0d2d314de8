//! The laws of what the calls write and tell: how many bytes a text has at most, so that a caller knows a buffer that is never too
//! short, and that the part which a fault names is faulty.
ghost use Rattle.std.specs.Prelude.{◌≡◌, ◌≤◌, ◌+◌, ◌*◌, ℕ, List, None, Some, length, max};
ghost use Rattle.iri_grammar.specs.Fault.{bytes_fault};
ghost use Rattle.iri_grammar.specs.Split.{split_of, relative_split_of};
ghost use Rattle.iri_grammar.specs.WholeFault.{reference_fault, iri_fault, absolute_fault, relative_fault};
ghost use Rattle.iri_grammar.specs.declared.error.ErrorKind.{ErrorKind};
ghost use Rattle.iri_percent.specs.Decoding.{decoding};
ghost use Rattle.iri_percent.specs.declared.canon_mode.CanonMode.{CanonMode};
ghost use Rattle.iri_calls.specs.Bounds.{HasAtMost};
ghost use Rattle.iri_calls.specs.Encodings.{encoded_outcome};
ghost use Rattle.iri_calls.specs.FaultParts.{IsFaulty, faulty_slot};
ghost use Rattle.iri_calls.specs.Lines.{line_answer, pair_answer};
ghost use Rattle.iri_calls.specs.Outcomes.{canonical_outcome, in_grammar, mapped_outcome, uri_outcome};
ghost use Rattle.iri_calls.specs.Resolutions.{normalized_outcome, resolved_in, target_in};

use iri_grammar::spec::Spec;

/// What `irikit_normalize` writes has at most 3 bytes more than its text.
pub fn normal_forms_are_short()
    ensures { (grammar mode : ℕ) (t : List ℕ) → HasAtMost (length t + 3) (normalized_outcome grammar mode t) }
{}

/// What `irikit_canonical` writes has at most 3 bytes more than base and reference together.
pub fn canonical_texts_are_short()
    ensures { (grammar mode : ℕ) (base reference : List ℕ)
        → HasAtMost (length base + length reference + 3) (canonical_outcome grammar mode base reference) }
{}

/// What `irikit_canonical_to_uri` writes has at most three times as many bytes as base and reference together, and 9.
pub fn canonical_uris_are_short()
    ensures { (mode : ℕ) (base reference : List ℕ)
        → HasAtMost (3 * (length base + length reference + 3)) (uri_outcome mode base reference) }
{}

/// What `irikit_resolve` writes has at most 3 bytes more than base and reference together.
pub fn resolved_texts_are_short()
    ensures { (grammar : ℕ) (base reference : List ℕ)
        → HasAtMost (length base + length reference + 3) (in_grammar grammar (resolved_in base reference)) }
{}

/// What `irikit_target` writes has at most one byte more than base and reference together.
pub fn targets_are_short()
    ensures { (grammar : ℕ) (base reference : List ℕ)
        → HasAtMost (length base + length reference + 1) (in_grammar grammar (target_in base reference)) }
{}

/// What `irikit_map_to_uri` writes has at most three times as many bytes as its text.
pub fn mapped_texts_are_short()
    ensures { (t : List ℕ) → HasAtMost (3 * length t) (mapped_outcome t) }
{}

/// What `irikit_encode` writes has at most three times as many bytes as its text.
pub fn encoded_texts_are_short()
    ensures { (grammar place : ℕ) (t : List ℕ) → HasAtMost (3 * length t) (encoded_outcome grammar place t) }
{}

/// What `irikit_decode` writes has at most as many bytes as its text.
pub fn decoded_bytes_are_few()
    ensures { (t : List ℕ) → length (decoding t) ≤ length t }
{}

/// An answer that `irikit_canonical_lines` writes has at most 7 bytes more than base and line together, or 64.
pub fn answers_are_short<S: Spec>()
    ensures { (mode : CanonMode) (base line : List ℕ) → bytes_fault (absolute_fault S.tests) base ≡ None
        → length (line_answer S.tests mode base line) ≤ max (length base + length line + 7) 64 }
{}

/// An answer that `irikit_canonical_pairs` writes has at most 6 bytes more than its line, or 64.
pub fn pair_answers_are_short<S: Spec>()
    ensures { (mode : CanonMode) (line : List ℕ) → length (pair_answer S.tests mode line) ≤ max (length line + 6) 64 }
{}

/// The part that `irikit_fault_part` tells of the first fault of a text stands in the text, and what stands there isn't what the kind of
/// fault asks.
pub fn faulty_parts_are_faulty<S: Spec>()
    ensures reference { (t : List ℕ) (kind : ErrorKind) → bytes_fault (reference_fault S.tests) t ≡ Some kind
        → IsFaulty S.tests kind t (split_of t) (faulty_slot kind t (split_of t)) }
    ensures iri { (t : List ℕ) (kind : ErrorKind) → bytes_fault (iri_fault S.tests) t ≡ Some kind
        → IsFaulty S.tests kind t (split_of t) (faulty_slot kind t (split_of t)) }
    ensures absolute { (t : List ℕ) (kind : ErrorKind) → bytes_fault (absolute_fault S.tests) t ≡ Some kind
        → IsFaulty S.tests kind t (split_of t) (faulty_slot kind t (split_of t)) }
    ensures relative { (t : List ℕ) (kind : ErrorKind) → bytes_fault (relative_fault S.tests) t ≡ Some kind
        → IsFaulty S.tests kind t (relative_split_of t) (faulty_slot kind t (relative_split_of t)) }
{}
