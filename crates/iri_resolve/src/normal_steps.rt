//! Steps from a target to its normal form (RFC 3986 sections 6.2.2 and 6.2.3).
ghost use Rattle.std.specs.Prelude.{◌≡◌, IfOk, Some};
ghost use Rattle.iri_text.specs.Shown.{Shows};
ghost use Rattle.iri_grammar.specs.Parts.{Fits};
ghost use Rattle.iri_grammar.specs.Split.{split_of};
ghost use Rattle.iri_types.specs.Texts.{text};
ghost use Rattle.iri_percent.specs.declared.canon_mode.CanonMode.TheVariants.{Default};
ghost use Rattle.iri_normal.specs.NormalForm.{normal_form, normal_form_in};
ghost use Rattle.iri_normal.specs.Slices.{slices};
ghost use Rattle.iri_resolve.specs.NormalSteps.{steps_of};
ghost use Rattle.iri_resolve.specs.StepSinks.{step_lines};
ghost use Rattle.iri_resolve.specs.Steps.{replayed_in};

use crate::part_steps::push_steps;
use crate::step_lines::StepLines;
use crate::step_list::StepList;
use crate::step_sink::StepSink;
use iri_grammar::spec::Spec;
use iri_normal::TargetSlices;
use iri_normal::mode::CanonMode;
use iri_normal::normal_kind::NormalKind;
use iri_normal::owned_target::Target;
use iri_text::{Stop, TextSink};
use iri_types::split::SplitView;
use iri_types::view::View;
use std::alloc::{AllocError, Global};

/// Steps that lead from a target to its normal form (RFC 3986 section 6.2.2), part by part and from left to right; the
/// dot segments go after the other steps of the path. Places count bytes of what is in normal form already.
///
/// # Errors
///
/// Where allocation fails.
///
/// ```
/// use iri::resolve::FixedBaseResolver;
/// use iri::steps::{Part, Step, steps_to_normal};
/// use iri::types::{UriAbsoluteStr, UriReferenceStr};
/// let page = FixedBaseResolver::new(UriAbsoluteStr::new("http://a/b")?);
/// let target = page.target(rt.alloc(), UriReferenceStr::new("%7eg")?)?;
/// let steps = steps_to_normal(rt.alloc(), &target)?;
/// assert_eq!(rt; steps.len(), 1);
/// assert!(rt; matches!(steps.get(0), Some(Step::Decode(Part::Path, 1))));
/// ```
pub fn steps_to_normal<S: Spec>(alloc: Global, target: &Target<S>) -> Result<StepList, AllocError>
    ensures list { IfOk result (λ l. l ≡ steps_of S.tests Default target.now) }
    ensures leads { IfOk result (λ l. replayed_in S.tests Default target.now l ≡ Some (normal_form S.tests target.now)) }
{
    steps_to_normal_in(alloc, CanonMode::Default, target)
}

/// Steps of a mode that lead from a target to its normal form: those of every scheme, and then the default port and the
/// empty path (RFC 3986 section 6.2.3).
///
/// # Errors
///
/// Where allocation fails.
///
/// ```
/// use iri::normalize::CanonMode;
/// use iri::resolve::FixedBaseResolver;
/// use iri::steps::{Step, steps_to_normal_in};
/// use iri::types::{UriAbsoluteStr, UriReferenceStr};
/// let page = FixedBaseResolver::new(UriAbsoluteStr::new("http://a/b")?);
/// let target = page.target(rt.alloc(), UriReferenceStr::new("//h:80")?)?;
/// let steps = steps_to_normal_in(rt.alloc(), CanonMode::Scheme, &target)?;
/// assert!(rt; matches!(steps.get(0), Some(Step::DefaultPort)));
/// assert!(rt; matches!(steps.get(1), Some(Step::SlashPath)));
/// ```
pub fn steps_to_normal_in<S: Spec>(
    alloc: Global,
    mode: CanonMode,
    target: &Target<S>,
) -> Result<StepList, AllocError>
    ensures list { IfOk result (λ l. l ≡ steps_of S.tests mode target.now) }
    ensures leads { IfOk result (λ l. replayed_in S.tests mode target.now l
        ≡ Some (normal_form_in S.tests mode target.now)) }
{
    let mut steps = StepList::new(alloc);
    let parts = target.slices();
    let Ok(()) = push_steps::<S, StepList>(&mut steps, mode, &parts, target.path()) else {
        return Err(AllocError);
    };
    Ok(steps)
}

/// Puts the steps to the normal form into a sink, one after the other: into a list, or into one that allocates nothing.
///
/// # Errors
///
/// Only where the sink's count of stops rises; the sink has stopped within the steps then.
///
/// ```
/// use iri::normalize::CanonMode;
/// use iri::resolve::FixedBaseResolver;
/// use iri::spec::UriSpec;
/// use iri::steps::{Step, StepList, put_steps_in};
/// use iri::types::{UriAbsoluteStr, UriReferenceStr};
/// let page = FixedBaseResolver::new(UriAbsoluteStr::new("http://a/b/c/d;p?q")?);
/// let target = page.target(rt.alloc(), UriReferenceStr::new("../g")?)?;
/// let mut steps = StepList::new(rt.alloc());
/// assert!(rt; put_steps_in::<UriSpec, StepList>(&mut steps, CanonMode::Default, &target).is_ok());
/// assert_eq!(rt; steps.get(0), Some(Step::Dots));
/// ```
pub fn put_steps_in<S: Spec, T: StepSink>(
    sink: &mut T,
    mode: CanonMode,
    target: &Target<S>,
) -> Result<(), Stop>
    ensures { Shows T.puts T.halts T.stops sink.old (steps_of S.tests mode target.now) sink.new result }
{
    push_steps::<S, T>(sink, mode, &target.slices(), target.path())
}

// Writes the steps from a target to its normal form as lines.
fn show_lines<S: Spec, W: TextSink>(
    lines: &mut StepLines<'_, W>,
    mode: CanonMode,
    target: &TargetSlices<'_>,
    path: &str,
) -> Result<(), Stop>
    requires fits { Fits S.tests (slices target.now) }
    requires path { path.now ≡ (slices target.now).path }
    ensures shows { Shows W.puts W.halts W.stops lines.old.to.now
        (step_lines (steps_of S.tests mode (slices target.now))) lines.new.to.now result }
    ensures same { lines.new.to.ghost_name ≡ lines.old.to.ghost_name }
{
    push_steps::<S, StepLines<'_, W>>(lines, mode, target, path)
}

/// Shows the steps from a text to its normal form (RFC 3986 section 6.2.2) in words, each as it is found, with an LF after
/// it. Allocates nothing.
///
/// # Errors
///
/// Only where the sink's count of stops rises; the sink has stopped within these lines then.
///
/// ```
/// use iri::format::SliceSink;
/// use iri::steps::show_steps;
/// use iri::types::UriStr;
/// let mut buffer = [0; 64];
/// let mut sink = SliceSink::new(&mut buffer);
/// assert!(rt; show_steps(&mut sink, UriStr::new("Http://a/%7eb/../c")?).is_ok());
/// assert_eq!(rt; sink.as_str(), "scheme letter 0\ndecode path 1\ndot segments\n");
/// ```
pub fn show_steps<S: Spec, K: NormalKind, W: TextSink>(
    sink: &mut W,
    view: View<'_, S, K>,
) -> Result<(), Stop>
    ensures { Shows W.puts W.halts W.stops sink.old
        (step_lines (steps_of S.tests Default (split_of (text view.entry)))) sink.new result }
{
    show_steps_in(sink, CanonMode::Default, view)
}

/// Shows the steps of a mode, a line each.
///
/// # Errors
///
/// As [`show_steps`].
///
/// ```
/// use iri::format::SliceSink;
/// use iri::normalize::CanonMode;
/// use iri::steps::show_steps_in;
/// use iri::types::UriStr;
/// let mut buffer = [0; 64];
/// let mut sink = SliceSink::new(&mut buffer);
/// assert!(rt; show_steps_in(&mut sink, CanonMode::Scheme, UriStr::new("http://a:80")?).is_ok());
/// assert_eq!(rt; sink.as_str(), "default port\nempty path\n");
/// ```
pub fn show_steps_in<S: Spec, K: NormalKind, W: TextSink>(
    sink: &mut W,
    mode: CanonMode,
    view: View<'_, S, K>,
) -> Result<(), Stop>
    ensures { Shows W.puts W.halts W.stops sink.old
        (step_lines (steps_of S.tests mode (split_of (text view.entry)))) sink.new result }
{
    let split = SplitView::of(view);
    let parts = split.parts();
    let mut lines = StepLines::new(sink);
    show_lines::<S, W>(&mut lines, mode, &TargetSlices::of(parts), parts.path())
}
