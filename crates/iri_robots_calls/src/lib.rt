//! Robots files for C and for what calls C: the rules for one crawler, prepared as lines, and what they say of a target. Each call has
//! the name of the function for C that `iri_run_c` exports with the same contract, where a slice crosses as a pointer and a length;
//! `include/irikit.h` has the declarations and the numbers. Each allocates, and has freed all of it when it returns.
//!
//! Proved: each call answers by its outcome (`Answered`), which is a function of what is passed, or allocation failed, which it does
//! only where nothing is refused. What is said over the lines that `irikit_robots_rules` writes is what the file says.
//!
//! Not proved: that memory is there.
#![tactic(auto)]

pub mod robots;
pub mod status;
