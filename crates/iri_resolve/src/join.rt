//! Steps that lead two targets to one.
ghost use Rattle.std.specs.Prelude.{◌≡◌, false, IfOk, MatchOption, string_bytes};
ghost use Rattle.iri_grammar.specs.Parts.{recompose};
ghost use Rattle.iri_percent.specs.declared.canon_mode.CanonMode.TheVariants.{Default};
ghost use Rattle.iri_normal.specs.NormalForm.{form};
ghost use Rattle.std.specs.Str.{bytes_eq};
ghost use Rattle.iri_normal.specs.Modes.{mode_of};
ghost use Rattle.iri_resolve.specs.Steps.{AreApartIn, LeadToNormalIn};

use crate::normal_steps::steps_to_normal_in;
use crate::step_list::StepList;
use iri_grammar::spec::Spec;
use iri_normal::mode::{CanonMode, mode_of};
use iri_normal::owned_target::Target;
use iri_normal::show_form;
use iri_text::StringSink;
use std::alloc::{AllocError, Global};

// The text of a target in normal form.
fn normal_text<S: Spec>(
    alloc: Global,
    mode: CanonMode,
    target: &Target<S>,
) -> Result<String, AllocError>
    ensures { IfOk result (λ text. string_bytes text ≡ recompose (form S.tests (mode_of mode) false target.now)) }
{
    let mut text = String::new(alloc);
    let mut sink = StringSink::new(&mut text);
    match show_form::<S, StringSink<'_>>(&mut sink, &target.slices(), mode_of(mode), false) {
        Ok(()) => {}
        Err(_) => return Err(AllocError),
    }
    Ok(text)
}

// Whether two targets have one text in normal form.
fn have_one_normal_text<S: Spec>(
    alloc: Global,
    mode: CanonMode,
    a: &Target<S>,
    b: &Target<S>,
) -> Result<bool, AllocError>
    ensures { IfOk result (λ same. same ≡ bytes_eq (recompose (form S.tests (mode_of mode) false a.now))
        (recompose (form S.tests (mode_of mode) false b.now))) }
{
    let first = normal_text(alloc, mode, a)?;
    let second = normal_text(alloc, mode, b)?;
    Ok(first.as_str() == second.as_str())
}

/// Two lists of steps, one from each target, that lead to one target: their common normal form (RFC 3986 section
/// 6.2.2). `None` exactly where no two lists of steps lead to one target, which is where their canonical texts differ.
///
/// # Errors
///
/// Where allocation fails.
///
/// ```
/// use iri::resolve::FixedBaseResolver;
/// use iri::steps::join_steps;
/// use iri::types::{UriAbsoluteStr, UriReferenceStr};
/// let page = FixedBaseResolver::new(UriAbsoluteStr::new("http://a/b")?);
/// let one = page.target(rt.alloc(), UriReferenceStr::new("%7eg")?)?;
/// let other = page.target(rt.alloc(), UriReferenceStr::new("/~g")?)?;
/// let (from_one, from_other) = join_steps(rt.alloc(), &one, &other)?.ok_or("one target")?;
/// assert_eq!(rt; from_one.len(), 1);
/// assert_eq!(rt; from_other.len(), 0);
/// ```
pub fn join_steps<S: Spec>(
    alloc: Global,
    a: &Target<S>,
    b: &Target<S>,
) -> Result<Option<(StepList, StepList)>, AllocError>
    ensures { IfOk result (λ lists. MatchOption lists (AreApartIn S.tests Default a.now b.now)
        (λ l. LeadToNormalIn S.tests Default a.now b.now l.0 l.1)) }
{
    join_steps_in(alloc, CanonMode::Default, a, b)
}

/// Two lists of steps of a mode that lead two targets to one; none where their canonical texts by its rules differ.
///
/// # Errors
///
/// Where allocation fails.
///
/// ```
/// use iri::normalize::CanonMode;
/// use iri::resolve::FixedBaseResolver;
/// use iri::steps::join_steps_in;
/// use iri::types::{UriAbsoluteStr, UriReferenceStr};
/// let page = FixedBaseResolver::new(UriAbsoluteStr::new("http://a/b")?);
/// let one = page.target(rt.alloc(), UriReferenceStr::new("//h:80/")?)?;
/// let other = page.target(rt.alloc(), UriReferenceStr::new("//h/")?)?;
/// assert!(rt; join_steps_in(rt.alloc(), CanonMode::Default, &one, &other)?.is_none());
/// assert!(rt; join_steps_in(rt.alloc(), CanonMode::Scheme, &one, &other)?.is_some());
/// ```
pub fn join_steps_in<S: Spec>(
    alloc: Global,
    mode: CanonMode,
    a: &Target<S>,
    b: &Target<S>,
) -> Result<Option<(StepList, StepList)>, AllocError>
    ensures { IfOk result (λ lists. MatchOption lists (AreApartIn S.tests mode a.now b.now)
        (λ l. LeadToNormalIn S.tests mode a.now b.now l.0 l.1)) }
{
    let _first = a.slices();
    let _second = b.slices();
    if !have_one_normal_text(alloc, mode, a, b)? {
        return Ok(None);
    }
    let first = steps_to_normal_in(alloc, mode, a)?;
    let second = steps_to_normal_in(alloc, mode, b)?;
    Ok(Some((first, second)))
}
