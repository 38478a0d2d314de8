//! References resolved against a base, their normal form, and canonical texts (RFC 3986 sections 5.2.2, 5.2.3, 5.2.4, 6.2.2 and
//! 6.2.3).
//!
//! [`FixedBaseResolver`](resolver::FixedBaseResolver) has a base. It gives each reference resolved against it as a
//! [`Normalized`](normalized::Normalized), which shows its text to any sink without memory, in one of four modes: resolved alone,
//! in normal form, in the normal form that preserves relative paths, or in normal form by scheme rules, where default ports go and
//! empty paths become `/`. It also gives the reference's [`Target`](owned_target::Target), owned, with its dots kept. `views` has the
//! same for views: `normalize` and `resolve_against`.
//! [`canonicalize`](canonical::canonicalize) answers the canonical text of two texts of bytes,
//! [`canonicalize_to_uri`](to_uri::canonicalize_to_uri) the same mapped to a URI, and
//! [`show_canonical`](canonical::show_canonical) shows that of a reference against a resolver's base, and
//! [`show_target`](target_text::show_target) its target.
//! [`IsNormalized`](is_normalized::IsNormalized) tells whether a text is in normal form. The calls that end with `_in` take a
//! [`CanonMode`](mode::CanonMode): the normal form by the rules of every scheme, or by scheme rules too. `laws` has what holds of all
//! targets, forms and canonical texts. The steps from a target to its normal form are `iri_resolve`'s, which stands on this crate.
//!
//! Proved: a target is that of section 5.2.2, with its dots kept. What is shown is exactly the recomposition of the target's
//! form in the mode, whatever the sink and however many segments the path has; a sink that stops, stops within that text.
//! Only a path that would be read as an authority is answered to be not normalizable by RFC 3986 alone. A canonical text is
//! the recomposition of the target's normal form; it is a URI of the grammar, splits into exactly the normal parts, and is
//! its own canonical text against every base. `canonicalize` refuses exactly a base or a reference outside its grammar, with
//! its first fault, the base first; memory is wanted only where both are valid. Dot removal is the rewriting of section
//! 5.2.4, and is stable; each form fits the grammar again, and the normal ones and the preserving one are stable; a
//! canonical text has at most three bytes more than base and reference together. A text is found to be in normal form
//! exactly where it is, without memory. What is said of shown texts and canonical texts holds of the mode by scheme rules
//! too, and `is_normalized_in` tests it. `canonical_into` wants memory only where the string has no room, and keeps that room.
//!
//! Not proved: that memory is allocated, so that a call that always answered `Memory` would keep its contract; tests show
//! that each succeeds with ample memory. The words of `Display` of `CanonError`, which `thiserror` makes. Any bound on time:
//! a path is written by parts, in O(n log n) looks at its bytes; a resolver tells once whether the scheme and the authority
//! of its base are in normal form, and of each reference whether anything in it changes, so as to write them as they are;
//! one that told it of none would write the same texts more slowly. Which of two equal texts a law hands back
//! (`mapping_laws::canonicalize_commutes_with_mapping`).
#![tactic(auto)]

mod beginning;
pub mod canonical;
mod canonical_string;
mod comparison;
mod directory;
mod dots;
mod form;
pub mod is_normalized;
pub mod laws;
pub mod mapping_laws;
mod merged_path;
pub mod mode;
pub mod normal_kind;
pub mod normalized;
pub mod normalized_in;
pub mod owned_target;
mod path_writer;
mod prefix;
mod remove_dot_segments;
pub mod resolver;
mod scheme_rules;
mod target;
pub mod target_text;
pub mod to_uri;
mod unchanged;
pub mod unresolvable;
pub mod views;

pub use dots::{has_dot_segment, is_dot_segment, is_two_dots};
pub use form::{becomes_slash, show_form};
pub use merged_path::MergedPath;
pub use path_writer::show_guarded;
pub use prefix::NormalPrefix;
pub use target::{TargetSlices, cut_last_segment};
