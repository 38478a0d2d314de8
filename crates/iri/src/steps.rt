//! The steps that lead a target to its normal form.
//!
//! ```
//! use iri::components::Splitter;
//! use iri::spec::UriSpec;
//! use iri::steps::{Target, TargetSlices};
//! let parts = Splitter::new::<UriSpec>("http://a/b?c")?;
//! let target: Target<UriSpec> = Target::of(rt.alloc(), &TargetSlices::of(&parts))?;
//! assert_eq!(rt; target.path(), "/b");
//! ```

pub use iri_normal::owned_target::Target;
pub use iri_normal::{MergedPath, TargetSlices};
pub use iri_resolve::join::{join_steps, join_steps_in};
pub use iri_resolve::normal_steps::{
    put_steps_in, show_steps, show_steps_in, steps_to_normal, steps_to_normal_in,
};
pub use iri_resolve::replay::{ReplayError, replay, replay_in};
pub use iri_resolve::step::{Part, Step};
pub use iri_resolve::step_list::StepList;
pub use iri_resolve::step_sink::StepSink;
