//! The values of `Link` fields (RFC 8288 section 3).
//!
//! [`read_links`] reads one field value and gives a [`LinkSet`]: its link-values in their order, each with its target
//! resolved against a base and put into normal form (RFC 3986 sections 5.2 and 6.2.2), and with its parameters. A set
//! is seen as their list. [`len`](LinkSet::len), [`target`](LinkSet::target), [`param_count`](LinkSet::param_count),
//! [`param_name`](LinkSet::param_name) and [`param_value`](LinkSet::param_value) read it, and it shows itself in one
//! written form. [`LinkError`] tells the first fault of a field value, and its place. [`check_field`] and
//! [`show_links_against`] check a field value and show its links, and keep none of them. `laws` has what holds of all
//! field values.
//!
//! Parameters have no meaning here: `rel`, `anchor` and names that end with `*` are passed on like any other, in their
//! order, each as often as it stands. A name is put into lower case. A value may be a token or a quoted string, of
//! which a `\` before a character goes; which of both it was isn't kept.
//!
//! Proved: `read_links` answers Ok exactly where the bytes are the UTF-8 of a field value whose targets are
//! URI-references, allocation failure aside; the set is then the one list of its link-values, each with its target's
//! canonical text. Otherwise it tells the first fault from the left and its place. The getters read that list, and
//! take no memory. What a set shows is its written form, and a sink that stops, stops within it; it takes no memory. The
//! same is shown of a field value that was checked, and its first fault is told, without memory.
//! Bytes have no fault exactly where they are such a field value; the written form of a set has exactly its
//! link-values, against every base.
//!
//! Not proved: that memory is allocated, so that a `read_links` that answered `Memory` to each field value with a
//! link-value, and to no other, would keep its contract; tests show that it succeeds with ample memory, and that a
//! `Display` does. The text of `Debug`. Not proved, and not tested: how long a call takes.
#![tactic(auto)]

mod error;
mod fault;
mod field;
pub mod laws;
mod link;
mod param;
mod param_text;
mod piece;
mod plain;
mod quoted;
mod runs;
mod set;
mod shown_text;
mod walk;
mod written;

pub use error::{LinkError, LinkKind};
pub use field::{
    check_field, show_lax_links_against_in, show_links_against, show_links_against_in,
};
pub use set::{LinkSet, read_links, read_links_against, read_links_against_in, read_links_in};
