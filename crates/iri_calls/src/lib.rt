//! The calls for C and for what calls C: canonical texts of one reference or many lines, resolution, normal forms and the steps to
//! them, tests, splits, faulty parts, mappings, encodings, edits and templates over slices. Each has the name of the function for C that
//! `iri_c` exports with the same contract, where a slice crosses as a pointer and a length; `include/irikit.h` has the declarations and
//! the numbers. Nothing here allocates or keeps anything.
//!
//! Proved: each call answers by its outcome (`Answered`), which is a function of what is passed: an unknown number, the first fault
//! and whose it is, or a text. A text is written over the start of the caller's buffer as far as there is room, what comes after it
//! stays, and the detail is its whole length; the status says whether it had room. The texts, tests and splits are those of the crates
//! below. Of many lines those count whose answers have room together (`Batched`).
#![tactic(auto)]

mod answering;
pub mod buffer;
pub mod building;
pub mod canonical;
pub mod decoding;
pub mod edits;
pub mod encoding;
pub mod fault;
pub mod fault_part;
pub mod grammar;
pub mod hosts;
pub mod laws;
pub mod lines;
pub mod mapping;
pub mod names;
pub mod normal;
pub mod parts;
pub mod resolve;
pub mod status;
pub mod steps;
pub mod target;
pub mod template;
pub mod validation;
pub mod variables;
pub mod version;
