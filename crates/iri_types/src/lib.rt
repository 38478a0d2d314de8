//! Borrowed texts of a kind, that a program passes on without testing them again (RFC 3986 sections 3 and 4,
//! RFC 3987 section 2.2).
//!
//! A [`View`](view::View) is a `&str` that is in the production of its kind, in a grammar `S`. Its names are
//! the six of `view`, as `RiStr<'a, S>`, and their aliases for IRIs and URIs, as `IriStr<'a>`. `kind` has the
//! kinds and what several of them share; `getters` the five parts, `conversions` the ways from kind to kind,
//! `std_conversions` std's traits of conversion, `authority` the components of an authority, `split` views that are cut
//! into their parts once. Slices have the lifetime of the text, and outlive the view.
//!
//! Proved: a view's text is in its production; `new` and `try_from_bytes` refuse exactly the others, each
//! with its first fault. Getters are the slices of the text's one split, and none exactly where the part is
//! absent. Conversions keep the text, or cut it at the fragment. Equality, order and hash are those of the
//! text (`laws`), and so are what is shown and displayed.
//!
//! Not proved: the text of `Debug`.
#![tactic(auto)]

pub mod authority;
pub mod conversions;
pub mod getters;
pub mod kind;
pub mod laws;
pub mod split;
pub mod std_conversions;
mod utf8;
pub mod view;
