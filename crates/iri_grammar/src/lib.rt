//! The grammar of URIs and IRIs (RFC 3986 sections 2 and 3, RFC 3987 section 2.2).
//!
//! A `spec::Spec` says which characters past ASCII a grammar has. `validate` validates whole texts and single
//! components: Ok exactly on the production, and otherwise the `error::Error` of the first fault. Valid
//! references are cut by `splitter`, valid authorities by `authority`. `laws` and `authority_laws` say what holds
//! of the definitions that all of these contracts cite.
#![tactic(auto)]

pub mod authority;
pub mod authority_laws;
pub mod class;
pub mod cutting;
pub mod digits;
pub mod dots;
pub mod error;
pub mod host;
mod ip_literal;
mod ipv4;
mod ipv6;
pub mod laws;
pub mod over;
mod run;
pub mod seen;
pub mod spec;
pub mod splitter;
mod tail;
mod unit;
pub mod validate;
