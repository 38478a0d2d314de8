//! What the programs that try rows of tables share. A row is a line of a subject's file: a verb, its arguments, the answer that is
//! wanted, and where the row is from (a section of a standard, an outside suite, or `chosen here`), parted by tabs. docs/MAP.md says how
//! a row is written.
//!
//! [`judge`](judge::judge) tries the rows of a subject, and writes each that differs beside the answer that it got, and last how many
//! rows the subject has and how many of them differ. Nothing is proved of the answers: each call that a row is tried at has its contract,
//! and the rows show that its definition is the standard's.
#![tactic(auto)]

pub mod answer;
pub mod error;
pub mod field;
pub mod judge;
mod macros;
mod row;
