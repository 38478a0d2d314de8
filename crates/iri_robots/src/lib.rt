//! Robots rules (RFC 9309 section 2.2): whether a crawler may fetch what a reference stands for.
//!
//! [`Robots::new`] takes the product token of a crawler, and [`is_product_token`] tells such a token.
//! [`Robots::feed_line`] takes the lines of a robots file, one after the other, without their line ends, and
//! [`Robots::feed_line_within`] with a bound. [`subject_of`] gives what of a target the rules speak of, and
//! [`Robots::verdict`] says what the lines so far say of it. [`matches`] is the test of one pattern. `laws` has what
//! holds of the definitions.
//!
//! A line that isn't UTF-8, or has no key of a record, is ignored and ends nothing. U+FEFF that begins a line goes, and
//! what follows its first `#`. Keys and agents are compared without case. The agent is `*`, or the longest prefix of
//! the value that has only ASCII letters, `_` and `-`, so that a version after it goes. A rule belongs to the run of
//! user-agent lines before it. A pattern and a subject are compared mapped to URIs and in triplet normal form; a stray
//! `%` stays.
//!
//! Proved: each call means its definition. `new` refuses exactly what is no product token. `feed_line` adds exactly the
//! record of its line, and nothing after an allocation failure, which comes only where the line has a record.
//! `feed_line_within` adds the same, but no rule with more escapes than the caller takes, which it tells whatever memory
//! there is. A pattern matches exactly
//! where the text, or without a `$` at its end a prefix of it, is a filling of the pattern. The verdict is allow
//! exactly where the text is `/robots.txt`, where no rule for the token matches, or where an allow rule is among the
//! longest that match; it allocates nothing.
//!
//! Not proved: that memory is allocated, so that a `feed_line` of a record or a `subject_of` that always answered
//! `AllocError`, and a `new` that answered `Memory` to each product token, would keep their contracts; tests show that
//! each succeeds with ample memory. How long a search takes. What stands between two `*` is found at
//! its leftmost place, and what a `$` anchors is compared from the end, so a match takes time in the lengths of pattern
//! and text. Only where both `$` and `%24` stand between two `*` it may take these times one more than the pattern's
//! escapes (each `%2A`, `%24` and `$`): `feed_line_within` bounds these for a file that nobody vouches for. The words of
//! the errors' `Display`, which `thiserror` makes and a test reads, and the text of their `Debug`. The file is neither
//! fetched nor kept, and lines are not cut out of it here.
#![tactic(auto)]

mod compared;
mod escape;
mod escaped;
mod groups;
pub mod laws;
mod line;
mod needle;
mod pattern;
mod periods;
mod record;
mod robots;
mod rule;
mod rules_text;
mod subject;

pub use pattern::matches;
pub use robots::{LineError, Robots, RobotsError, Verdict, is_product_token};
pub use rules_text::{lines_verdict, rule_lines};
pub use subject::{subject_in, subject_of, subject_of_split};
