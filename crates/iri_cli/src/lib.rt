//! The work of the program `irikit`, for any source and any sink.
//!
//! - [`run`](run::run) does what the words after the program's name say, and gives the program's
//!   status.
//! - [`run_to_writer`](run::to_writer::run_to_writer) does the same over a writer of std, as the program
//!   calls it, and leaves nothing pending there.
//! - For every command the base is prepared once in its buffer, for all lines: its scheme and authority are put into normal form, and its
//!   path loses the dot segments before its last segment.
//! - [`CanonBuffers`](CanonBuffers) is the memory that every command over lines takes before it reads,
//!   and all that `canon` needs: [`canon_lines`](canon_lines) answers the lines of a source with it,
//!   each reference line by its canonical text against the base line (RFC 3986 section 5 and section
//!   6.2.2; RFC 3987). [`canon_lines_in`](canon_lines_in) does the same by the rules of a mode. Of
//!   every command over lines the last word `scheme` names that by scheme rules (section 6.2.3).
//! - `canon` with `to uri` answers by the same texts, mapped to URIs (RFC 3987 section 3.1), and `parts` by the texts and their
//!   components, as JSON.
//! - `expand` keeps the values that lines give variables, and answers each URI template by the
//!   canonical text of its expansion (RFC 6570) against the base line.
//! - `register` keeps each canonical link once, with the numbers of its lines, and writes them at
//!   the end.
//! - `links` answers the value of a `Link` field by its links with canonical targets (RFC 8288
//!   section 3), and `docs` a template with its variables in JSON by the canonical text of its
//!   expansion: both answer a line by the base and that line alone.
//! - `robots` keeps the records of a robots file that lines feed, and tells of each link whether
//!   they allow the crawler of a product token to fetch it (RFC 9309).
//! - `gen` makes references by a counter, and writes how many bytes their canonical texts have and
//!   the sum of these bytes' values.
//!
//! Proved: the contracts of `run`, `run_to_writer`, `canon_lines` and `canon_lines_in`. Each status comes only by
//! its cause, and where the source tells its bytes, status and output are those of `ending` in
//! specs/run/Ending.antt, which is defined by the lines of the input and the events that end a run,
//! and by the rules of the command (`rules_of` in specs/run/Words.antt). These stand in the command's
//! folder of specs/, in Rules.antt, beside what its lines say and how they are answered. A clause of
//! `run` each says what the answers of the tools are by the standard's relations: which lines of
//! `register` share an entry, which links a field value has, what a document expands to, what the
//! patterns of a robots file allow, and what a text's components are. `canon_lines` and `canon_lines_in` are given no allocator, and never answer that
//! allocation failed; where it fails at a line of another command, that line takes memory by the
//! command's rules, and the lines before it were answered. A sink that is known to have room for the
//! output doesn't fail: over a `PlainSource` and a `MemorySink` that has no failing calls and has
//! that room, status and output are those of `ending` alone, but that allocation may fail. The text of `gen` is that of
//! specs/generator/References.antt, and those of `--help` and `--version` are constants of `help`.
//!
//! Not proved: that `CanonBuffers::new` and the other commands have their memory where there is
//! some, which tests show; that answers are flushed before more bytes are taken, which
//! tests/devices/edges shows on the built program.
#![tactic(auto)]

mod canon;
mod docs;
mod expand;
mod generator;
pub mod help;
pub mod laws;
mod links;
mod pairs;
mod parts;
mod register;
mod robots;
pub mod run;
mod to_uri;

pub use canon::calls::{canon_lines, canon_lines_in};
pub use run::buffers::CanonBuffers;
