//! The library for C, of the calls that allocate: the exports alone of the calls of `iri_run_calls` and `iri_robots_calls`, whose
//! slices cross as a pointer and a length. `include/irikit.h` declares each of them.
//!
//! Proved: each export keeps the contract of the call of its name, word for word.
//!
//! Not proved: that memory is there, and that a caller in C passes what the header asks for.
#![tactic(auto)]

mod robots;
mod run;
