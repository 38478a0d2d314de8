//! URIs and IRIs (RFC 3986, RFC 3987), URI templates (RFC 6570), `Link` fields (RFC 8288) and robots rules (RFC 9309):
//! the one crate that a program names. Each item is that of the crate below that has it, with its contract; the modules
//! are named as those of the Rust crate `iri-string`.
//!
//! - [`types`] has the views and the owned texts, [`components`] the parts of a text and of an authority, [`validate`] the
//!   test of each production, [`class`] the classes of characters, [`spec`] the two grammars.
//! - [`resolve`] resolves references, [`normalize`] puts texts into normal form and compares them, [`steps`] tells why
//!   two are one.
//! - [`percent_encode`] encodes and decodes values, [`convert`] maps IRIs to URIs, [`build`] makes a text from its
//!   parts, [`edit`] changes one part.
//! - [`template`] expands templates.
//! - [`register`] keeps each link once, [`link`] reads `Link` fields, [`robots`] judges links by a robots file,
//!   [`docs`] expands template documents in JSON.
//! - [`format`](mod@format) shows values to sinks, [`streams`] reads lines and writes bytes.
//! - [`prelude`] has the traits whose methods these give: `use iri::prelude::*;`.
//! - [`laws`] has what holds of all of this, for a program's own proofs.
//!
//! What a call may answer besides what was asked for stands in its docs with the cause, under `# Errors` where it is an
//! error. *Exactly where* says that it comes there and nowhere else, but that it yields to an allocation that fails;
//! *only where*, that it never comes without its cause. Every call returns, whatever texts, bytes and values it is given,
//! and none panics. A call takes memory only where it takes an allocator, or adds to a value that keeps one; no clause
//! says why an allocation fails, and tests show that there is none that fails with ample memory. A call with a condition
//! names the call that tests it.
//!
//! Each example in the docs is the body of a test: `rt` is its runtime, and its first error ends it.
//!
//! ```
//! use iri::prelude::*;
//! use iri::types::{UriAbsoluteStr, UriReferenceStr};
//! let page = UriAbsoluteStr::new("http://a/b/c/d;p?q")?;
//! let target = UriReferenceStr::new("../%67")?.resolve_against(page).and_normalize();
//! assert_eq!(rt; target.try_to_string(rt.alloc())?.as_str(), "http://a/b/g");
//! ```
#![tactic(auto)]

pub mod build;
pub mod components;
pub mod convert;
pub mod docs;
pub mod edit;
pub mod format;
pub mod laws;
pub mod normalize;
pub mod percent_encode;
pub mod prelude;
pub mod register;
pub mod resolve;
pub mod steps;
pub mod streams;
pub mod template;
pub mod types;

pub use iri_grammar::{class, spec, validate};
pub use iri_link as link;
pub use iri_robots as robots;
