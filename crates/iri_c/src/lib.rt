//! The library for C and for what calls C: the exports alone of the calls of `iri_calls`, whose slices cross as a pointer and a length.
//! `include/irikit.h` declares each of them.
//!
//! Proved: each export keeps the contract of the call of its name, word for word.
//!
//! Not proved: that a caller in C passes what the header asks for.
#![tactic(auto)]

mod edits;
mod links;
mod templates;
mod texts;
mod version;
