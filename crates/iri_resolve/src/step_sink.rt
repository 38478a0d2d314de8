//! Where steps go.
ghost use Rattle.std.specs.Prelude.{ℕ, List, [], ◌∷◌, ◌^◌, ◌-◌};
ghost use Rattle.iri_text.specs.Shown.{AreSinkLaws, Shows};
ghost use Rattle.iri_resolve.specs.declared.step.Step.{Step};

use crate::step::Step;
use crate::step_list::StepList;
use iri_text::Stop;

/// Where steps are put, one after the other.
///
/// ```
/// use iri::steps::{Step, StepList, StepSink};
/// let mut steps = StepList::new(rt.alloc());
/// assert!(rt; StepSink::push(&mut steps, Step::EmptyPort).is_ok());
/// assert_eq!(rt; steps.len(), 1);
/// ```
pub trait StepSink {
    /// The steps went in: the sink before, the steps, the sink after.
    ghost puts: { Self → List Step → Self → Type 0 };

    /// The sink stopped somewhere in the steps.
    ghost halts: { Self → List Step → Self → Type 0 };

    /// How often it has stopped, up to 2^64 - 1, where the count stays. It never falls.
    ghost stops: { Self → ℕ };

    /// Takes a step.
    ///
    /// # Errors
    ///
    /// Only where the count of stops rises; the sink has stopped within the step then.
    fn push(&mut self, step: Step) -> Result<(), Stop>
        ensures { Shows puts halts stops self.old (step ∷ []) self.new result };

    /// What is put one after the other is put as one.
    ghost rules: { AreSinkLaws puts halts };
}

/// The steps stand at the end of the list. It stops only where allocation fails, without the step that was refused, and
/// doesn't count how often.
impl StepSink for StepList {
    ghost use Rattle.iri_resolve.specs.StepSinks.{ListPuts, ListHalts, uncounted};
    ghost use Rattle.iri_resolve.specs.inside.StepSinkLaws.{list_none, list_both, list_until, list_within};

    ghost puts = { ListPuts };

    ghost halts = { ListHalts };

    ghost stops = { λ _. uncounted };

    ghost rules = { record { none = list_none; both = list_both; until = list_until; within = list_within } };

    fn push(&mut self, step: Step) -> Result<(), Stop> {
        match StepList::push(self, step) {
            Ok(()) => Ok(()),
            Err(_) => Err(Stop),
        }
    }
}
