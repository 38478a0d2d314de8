//! A register of links: each canonical target once, in first-seen order, with the numbers of the lines it stood on.
//!
//! A [`Register`](register::Register) has a base and a mode, and is seen as the base's text, the mode and the list of its
//! entries. An entry is a canonical target in the mode and the numbers of its lines. [`add`](register::Register::add) puts a line,
//! [`remove`](register::Register::remove) takes an entry out, and [`find`](register::Register::find) tells an entry's
//! place; each takes a reference, whose canonical text against the base is compared. [`len`](register::Register::len),
//! [`target_at`](register::Register::target_at) and [`lines_at`](register::Register::lines_at) read the entries by
//! place. `laws` has what the entries of a whole list of commands are.
//!
//! Proved: each call changes or reads the entries as its sentence says. A reference is refused exactly where it isn't
//! valid, with its first fault, or where allocation failed, and it was valid then; the register is unchanged in both
//! cases. No two entries have one target. After commands in turn the entries are the distinct targets of the lines that
//! no later command took out, in the order of the first such line of each, each with the numbers of these lines. Two
//! such lines share an entry exactly where steps of the mode join the targets of their references.
//!
//! Not proved: that memory is allocated, so that an `add`, a `remove` or a `find` that answered `Memory` to each valid
//! reference would keep its contract (`remove` and `find` of a register without entries take none); tests show that
//! each succeeds with ample memory. The words of `RegisterError`'s `Display`, which `thiserror` makes and a test reads.
//! How long a call takes: time in the reference's and the target's length, a removal also in the square root of the number
//! of entries, and what reads a place in the logarithm of the number of removed ones. What memory it takes: a removed
//! target's text stays until slots run out, and there are no more than 729, or four times as many as entries ever stood at
//! once. That a key changes the hashes: whoever picks the references can make targets collide in a register by
//! [`new`](register::Register::new), and not in one by [`with_key`](register::Register::with_key) with a key that they
//! don't know.
#![tactic(auto)]

pub mod added;
mod entries;
pub mod error;
mod key;
pub mod laws;
mod lines;
mod moves;
pub mod register;
