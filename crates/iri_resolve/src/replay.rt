//! Steps, done one after the other.
ghost use Rattle.std.specs.Prelude.{◌≡◌, IfOk, MatchResult, OnOk, Some, string_bytes};
ghost use Rattle.iri_percent.specs.declared.canon_mode.CanonMode.TheVariants.{Default};
ghost use Rattle.iri_normal.specs.Resolver.{bytes_of};
ghost use Rattle.iri_resolve.specs.inside.Reached.{Holds, parts_of};
ghost use Rattle.iri_resolve.specs.Replays.{EndsByIn, StopsAt};
ghost use Rattle.iri_resolve.specs.Steps.{replayed_in, step_in};

use crate::reached::Reached;
use crate::reached_authority::{borrowed, copied, read_there, recomposed_there};
use crate::step::Step;
use crate::step_list::StepList;
use crate::take_step::take_step;
use iri_grammar::spec::Spec;
use iri_normal::mode::CanonMode;
use iri_normal::owned_target::Target;
use iri_normal::{MergedPath, TargetSlices};
use std::alloc::{AllocError, Global};
use thiserror::Error;

/// Why steps can't be replayed.
///
/// ```
/// use iri::resolve::FixedBaseResolver;
/// use iri::steps::{ReplayError, Step, StepList, replay};
/// use iri::types::{UriAbsoluteStr, UriReferenceStr};
/// let page = FixedBaseResolver::new(UriAbsoluteStr::new("http://a/b")?);
/// let target = page.target(rt.alloc(), UriReferenceStr::new("/g")?)?;
/// let mut steps = StepList::new(rt.alloc());
/// steps.push(Step::EmptyPort)?;
/// assert!(rt; matches!(replay(rt.alloc(), &target, &steps), Err(ReplayError::Illegal(0))));
/// ```
#[derive(Debug, Drop, Error)]
pub enum ReplayError {
    /// The step of this number, from 0 on, is the first that is no step from the parts reached.
    #[error("step {0} is no step from the parts reached")]
    Illegal(usize),
    /// Allocation failed.
    #[error("out of memory")]
    Memory,
}

// A target's parts, each on its own.
fn read<S: Spec>(alloc: Global, target: &Target<S>) -> Result<Reached, AllocError>
    ensures parts { IfOk result (λ r. parts_of r ≡ target.now) }
    ensures holds { IfOk result (λ r. Holds S.tests r) }
{
    let _valid = target.slices();
    let scheme = String::from_str(alloc, target.scheme())?;
    let authority = read_there::<S>(alloc, target.authority())?;
    let path = String::from_str(alloc, target.path())?;
    let query = copied(alloc, target.query())?;
    let fragment = copied(alloc, target.fragment())?;
    Ok(Reached {
        scheme,
        authority,
        path,
        query,
        fragment,
    })
}

// The parts in a target.
fn written<S: Spec>(alloc: Global, reached: &Reached) -> Result<Target<S>, AllocError>
    requires { Holds S.tests reached.now }
    ensures { IfOk result (λ t. t ≡ parts_of reached.now) }
{
    let authority = recomposed_there(alloc, &reached.authority)?;
    let slices = TargetSlices {
        scheme: Some(reached.scheme.as_str()),
        authority: borrowed(&authority),
        path: MergedPath::of(reached.path.as_str()),
        query: borrowed(&reached.query),
        fragment: borrowed(&reached.fragment),
    };
    Target::of(alloc, &slices)
}

// Takes the step of number k.
fn take_numbered<S: Spec>(
    alloc: Global,
    mode: CanonMode,
    reached: &mut Reached,
    next: Step,
    k: usize,
) -> Result<(), ReplayError>
    requires { Holds S.tests reached.old }
    ensures step { MatchResult result (λ _. step_in S.tests mode (parts_of reached.old) next ≡ Some (parts_of reached.new))
        (StopsAt S.tests mode (parts_of reached.old) next k) }
    ensures holds { OnOk result (Holds S.tests reached.new) }
{
    let Ok(went) = take_step::<S>(alloc, mode, reached, next) else {
        return Err(ReplayError::Memory);
    };
    if !went {
        return Err(ReplayError::Illegal(k));
    }
    Ok(())
}

/// The parts after all of these steps, one after the other (RFC 3986 section 6.2.2). A step that keeps the length looks
/// only at its place; one that changes it moves what follows there, and one that removes dot segments reads the path.
///
/// # Errors
///
/// - `Illegal(k)` exactly where step `k`, from 0, is the first that is no step from the parts reached.
/// - `Memory` where allocation fails.
///
/// ```
/// use iri::resolve::FixedBaseResolver;
/// use iri::steps::{Step, StepList, replay};
/// use iri::types::{UriAbsoluteStr, UriReferenceStr};
/// let page = FixedBaseResolver::new(UriAbsoluteStr::new("http://a/b")?);
/// let target = page.target(rt.alloc(), UriReferenceStr::new("c/../g")?)?;
/// let mut steps = StepList::new(rt.alloc());
/// steps.push(Step::Dots)?;
/// assert_eq!(rt; replay(rt.alloc(), &target, &steps)?.path(), "/g");
/// ```
pub fn replay<S: Spec>(
    alloc: Global,
    target: &Target<S>,
    steps: &StepList,
) -> Result<Target<S>, ReplayError>
    ensures { MatchResult result (λ t. replayed_in S.tests Default target.now steps.now ≡ Some t)
        (EndsByIn S.tests Default target.now steps.now) }
{
    replay_in(alloc, CanonMode::Default, target, steps)
}

/// The parts after all of these steps of a mode (RFC 3986 section 6.2.3).
///
/// # Errors
///
/// `Illegal` and `Memory` exactly as [`replay`].
///
/// ```
/// use iri::normalize::CanonMode;
/// use iri::resolve::FixedBaseResolver;
/// use iri::steps::{Step, StepList, replay_in};
/// use iri::types::{UriAbsoluteStr, UriReferenceStr};
/// let page = FixedBaseResolver::new(UriAbsoluteStr::new("http://a/b")?);
/// let target = page.target(rt.alloc(), UriReferenceStr::new("http://example.com:80/")?)?;
/// let mut steps = StepList::new(rt.alloc());
/// steps.push(Step::DefaultPort)?;
/// let reached = replay_in(rt.alloc(), CanonMode::Scheme, &target, &steps)?;
/// assert_eq!(rt; reached.authority(), Some("example.com"));
/// ```
pub fn replay_in<S: Spec>(
    alloc: Global,
    mode: CanonMode,
    target: &Target<S>,
    steps: &StepList,
) -> Result<Target<S>, ReplayError>
    ensures { MatchResult result (λ t. replayed_in S.tests mode target.now steps.now ≡ Some t)
        (EndsByIn S.tests mode target.now steps.now) }
{
    let mut reached = match read::<S>(alloc, target) {
        Ok(reached) => reached,
        Err(_) => return Err(ReplayError::Memory),
    };
    for k in 0..steps.len() {
        take_numbered::<S>(alloc, mode, &mut reached, steps.at(k), k)?;
    }
    match written::<S>(alloc, &reached) {
        Ok(after) => Ok(after),
        Err(_) => Err(ReplayError::Memory),
    }
}
