//! Owned texts of a kind, that a program keeps without testing them again (RFC 3986 sections 3 and 4,
//! RFC 3987 section 2.2).
//!
//! An [`Owned`](owned::Owned) holds a string that is in the production of its kind, in a grammar `S`, and
//! is seen as its text, in UTF-8 bytes, and its capacity. Its names are the six of `owned`, as
//! `RiString<S>`, and their aliases for IRIs and URIs, as `IriString`. The getters are those of its view,
//! by `as_slice`. `conversions` has the ways from kind to kind by value, `std_conversions` std's traits of conversion,
//! `splice` the edits in place, `error` what refused texts answer.
//!
//! Proved: an owned text is in its production; texts outside it are refused with their first fault, and
//! handed back by the calls that took a string or another kind. After allocation failure a text and its capacity
//! are as they were, or are handed back. `splice` can't need memory where what comes out is no longer than the
//! capacity, nor where the new text is no longer than the range; it never lowers the capacity. What becomes a
//! text of another kind or a string keeps its capacity. `shrink_to_fit` never fails and never raises the
//! capacity, and leaves none where the text is empty. Equality, order and hash are those of the text, and so is
//! what is shown and displayed.
//!
//! Not proved: the words of `CreateError`'s `Display`, how much `shrink_to_fit` gives back of a text that isn't
//! empty, and that `splice` allocates nothing for a longer text that fits, which tests show (`made_and_refused`,
//! `within_and_past_the_capacity`); how far the capacity of a copy, or of a text that `splice` made longer, is
//! above its length; the text of `Debug`; that what else takes memory gets it, which tests show with ample
//! memory.
#![tactic(auto)]

pub mod comparison;
pub mod conversions;
pub mod error;
pub mod owned;
pub mod splice;
pub mod std_conversions;
