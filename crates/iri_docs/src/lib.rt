//! Template documents in JSON: a URI template (RFC 6570) with the values of its variables, and the canonical text of its
//! expansion (RFC 3986 sections 5.2 and 6.2.2).
//!
//! [`read_document`](read::read_document) gives the [`Document`](document::Document) that a line is, and
//! [`expand_document`](expand::expand_document) its canonical text against a base; the calls that end with `_in` take a
//! mode. Who has the JSON in memory takes [`document_of`](read::document_of) of a value,
//! [`read_variables`](variables::read_variables) of an object, or [`read_value`](values::read_value) of the value of one
//! variable. What is wrong is told by [`DocError`](doc_error::DocError) and
//! [`DocExpandError`](expand_error::DocExpandError), which are displayed in the words that answer a line. `laws` has what
//! holds of the definitions.
//!
//!     {"template":"x{?q,n,l*}","vars":{"q":"é","n":7,"l":["a","b"]}}
//!
//! Lines are read as `serde_json` reads them, which decides what a float is, in which order members come, and which of
//! two with one key stays; `specs/Documents.antt` stands on its definition of a reading.
//!
//! Proved: each call answers exactly what its definition says, or the definition's first fault; allocation failure alone
//! is free, and of a value in memory it never takes the place of a fault, nor of a template's. A fault of variables is that
//! of the first one that has a fault. The words of both errors' `Display`.
//!
//! Not proved: that memory is allocated, so that a call that always answered `Memory` would keep its contract; tests
//! show that each succeeds with ample memory, and that a `Display` does. How deep a value may nest before the stack is
//! full: a reading has at most 127 levels, which a test reads. The text of `Debug`.
#![tactic(auto)]

pub mod doc_error;
pub mod document;
pub mod expand;
pub mod expand_error;
pub mod laws;
pub mod read;
mod value_fault;
pub mod values;
pub mod variables;
