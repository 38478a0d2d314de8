//! Steps, one after the other.
ghost use Rattle.std.specs.Prelude.{◌≡◌, ◌<◌, [], ◌∷◌, ◌++◌, IfOk, IfErr, Some, length, slice_get};

use crate::step::Step;
use std::alloc::{AllocError, Global};
use std::marker::Model;

/// A list of steps, seen as that list.
///
/// ```
/// use iri::steps::{Part, Step, StepList};
/// let mut steps = StepList::new(rt.alloc());
/// steps.push(Step::HexDigit(Part::Query, 2))?;
/// assert_eq!(rt; steps.len(), 1);
/// assert!(rt; matches!(steps.get(0), Some(Step::HexDigit(Part::Query, 2))));
/// ```
#[derive(Debug, Drop)]
pub struct StepList {
    steps: Vec<Step>,
}

impl Model for StepList {
    ghost use Rattle.std.specs.Prelude.{List};
    ghost use Rattle.iri_resolve.specs.declared.step.Step.{Step};

    ghost Value = { List Step };

    ghost view = { λ l. l.steps.items };
}

impl StepList {
    /// No steps.
    pub fn new(alloc: Global) -> Self
        ensures { result ≡ [] }
    {
        StepList {
            steps: Vec::new(alloc),
        }
    }

    /// Puts a step at the end.
    ///
    /// # Errors
    ///
    /// Where allocation fails; the list is as it was then.
    pub fn push(&mut self, step: Step) -> Result<(), AllocError>
        ensures ok { IfOk result (λ _. self.new ≡ self.old ++ step ∷ []) }
        ensures err { IfErr result (λ _. self.new ≡ self.old) }
    {
        self.steps.push(step)?;
        Ok(())
    }

    /// How many steps there are.
    pub fn len(&self) -> usize
        ensures { result ≡ length self.now }
    {
        self.steps.len()
    }

    /// The step of this number, from 0; `None` exactly where there are no more than so many.
    pub fn get(&self, i: usize) -> Option<Step>
        ensures { result ≡ slice_get self.now i }
    {
        self.steps.get(i).copied()
    }

    // The step of this number.
    pub(crate) fn at(&self, i: usize) -> Step
        requires { i < length self.now }
        ensures { slice_get self.now i ≡ Some result }
    {
        self.steps[i]
    }
}
