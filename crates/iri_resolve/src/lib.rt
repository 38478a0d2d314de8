//! Steps that lead a target to its normal form (RFC 3986 sections 6.2.2 and 6.2.3), beside the resolver and the normal forms of
//! `iri_normal`, which have the same names here.
//!
//! [`Step`](step::Step)s lead a [`Target`](owned_target::Target) to its normal form:
//! [`steps_to_normal`](normal_steps::steps_to_normal) gives them as a list, [`show_steps`](normal_steps::show_steps) shows them in words,
//! a line each, without memory, and a [`StepSink`](step_sink::StepSink) takes them as they are found. [`replay`](replay::replay) does them, and
//! [`join_steps`](join::join_steps) gives those that lead two targets to one. The calls that end with `_in` take a
//! [`CanonMode`](mode::CanonMode): the normal form by the rules of every scheme, or by scheme rules too. `laws` has what holds of all
//! steps.
//!
//! Proved: steps keep parts valid, keep their normal form, and change something; those to the normal form replay to it, and whatever
//! the sink, it takes exactly these or stops within them; two targets
//! are joined exactly where their canonical texts are equal. It holds of the mode by scheme rules too.
//!
//! Not proved: that memory is allocated, so that a `replay` that always answered `Memory` would keep its contract; tests show that
//! each call succeeds with ample memory. The words of `Display` of `ReplayError`, which `thiserror` makes. Any bound on time.
#![tactic(auto)]

mod change;
mod component_steps;
pub mod join;
pub mod laws;
pub mod normal_steps;
mod part_steps;
mod reached;
mod reached_authority;
pub mod replay;
pub mod step;
mod step_lines;
pub mod step_list;
pub mod step_sink;
mod step_text;
mod take_step;

pub use iri_normal::{
    canonical, is_normalized, mapping_laws, mode, normal_kind, normalized, owned_target, resolver,
    target_text, unresolvable, views,
};
