// Steps to the normal form, their replay, and steps that join two targets.
use iri_grammar::spec::Spec;
use iri_normal::mode::CanonMode;
use iri_normal::owned_target::Target;
use iri_normal::resolver::FixedBaseResolver;
use iri_resolve::join::{join_steps, join_steps_in};
use iri_resolve::normal_steps::{show_steps_in, steps_to_normal, steps_to_normal_in};
use iri_resolve::replay::{ReplayError, replay, replay_in};
use iri_resolve::step::{Part, Step};
use iri_resolve::step_list::StepList;
use iri_rows::answer::{agreed, displayed, shown};
use iri_rows::error::RowError;
use iri_rows::field::Field;
use iri_rows::in_grammar;
use iri_text::{StringSink, ToStringFallible};
use iri_types::view::RiStr;
use std::alloc::{AllocError, Global};

fn number(text: &str) -> Result<usize, RowError> {
    match text.parse::<usize>() {
        Ok(number) => Ok(number),
        Err(_) => Err(RowError::NoRow),
    }
}

fn part(word: &str) -> Result<Part, RowError> {
    match word {
        "authority" => Ok(Part::Authority),
        "path" => Ok(Part::Path),
        "query" => Ok(Part::Query),
        "fragment" => Ok(Part::Fragment),
        _ => Err(RowError::NoRow),
    }
}

// A step of a place: what it does, and where.
fn placed(text: &str) -> Result<Step, RowError> {
    let Some((rest, place)) = text.rsplit_once(' ') else {
        return Err(RowError::NoRow);
    };
    let place = number(place)?;
    match rest.rsplit_once(' ') {
        Some(("scheme", "letter")) => Ok(Step::SchemeLetter(place)),
        Some(("host", "letter")) => Ok(Step::HostLetter(place)),
        Some(("hex digit", word)) => Ok(Step::HexDigit(part(word)?, place)),
        Some(("decode", word)) => Ok(Step::Decode(part(word)?, place)),
        _ => Err(RowError::NoRow),
    }
}

// The step of a text.
fn step_of(text: &str) -> Result<Step, RowError> {
    match text {
        "empty port" => Ok(Step::EmptyPort),
        "dot segments" => Ok(Step::Dots),
        "default port" => Ok(Step::DefaultPort),
        "empty path" => Ok(Step::SlashPath),
        _ => placed(text),
    }
}

// The steps of a field, parted by commas.
fn steps_of(alloc: Global, field: &Field) -> Result<StepList, RowError> {
    let mut steps = StepList::new(alloc);
    for text in field.text()?.split(',') {
        steps.push(step_of(text)?)?;
    }
    Ok(steps)
}

// The texts of steps, parted by commas.
fn listed(alloc: Global, steps: &StepList) -> Result<String, AllocError> {
    let mut text = String::new(alloc);
    for place in 0..steps.len() {
        let Some(step) = steps.get(place) else {
            break;
        };
        if place > 0 {
            text.push_str(",")?;
        }
        text.push_str(step.try_to_string(alloc)?.as_str())?;
    }
    Ok(text)
}

fn push_delimited(
    text: &mut String,
    delimiter: &str,
    part: Option<&str>,
) -> Result<(), AllocError> {
    let Some(part) = part else {
        return Ok(());
    };
    text.push_str(delimiter)?;
    text.push_str(part)
}

// The parts of a target, recomposed.
fn text_of<S: Spec>(alloc: Global, target: &Target<S>) -> Result<String, AllocError> {
    let mut text = String::from_str(alloc, target.scheme())?;
    text.push_str(":")?;
    push_delimited(&mut text, "//", target.authority())?;
    text.push_str(target.path())?;
    push_delimited(&mut text, "?", target.query())?;
    push_delimited(&mut text, "#", target.fragment())?;
    Ok(text)
}

fn target_of<S: Spec>(
    alloc: Global,
    base: &Field,
    reference: &Field,
) -> Result<Target<S>, RowError> {
    let resolver = FixedBaseResolver::<S>::new(base.view()?);
    Ok(resolver.target(alloc, reference.view()?)?)
}

// The text of a target, or why there is none.
fn outcome<S: Spec>(
    alloc: Global,
    after: Result<Target<S>, ReplayError>,
) -> Result<String, RowError> {
    match after {
        Ok(target) => Ok(text_of(alloc, &target)?),
        Err(ReplayError::Memory) => Err(RowError::Memory(AllocError)),
        Err(error) => Ok(displayed(alloc, &error)?),
    }
}

// What steps lead to from a target, or which of them is none; by the call without a mode where the mode is `-`.
fn led_to<S: Spec>(
    alloc: Global,
    by: &Field,
    target: &Target<S>,
    steps: &StepList,
) -> Result<String, RowError> {
    match by.optional()? {
        Some(_) => outcome(alloc, replay_in(alloc, by.mode()?, target, steps)),
        None => outcome(alloc, replay(alloc, target, steps)),
    }
}

// `replay GRAMMAR MODE BASE REFERENCE STEPS`: what the steps lead to from the target of a reference.
fn replayed<S: Spec>(
    alloc: Global,
    by: &Field,
    base: &Field,
    reference: &Field,
    steps: &Field,
) -> Result<String, RowError> {
    let target = target_of::<S>(alloc, base, reference)?;
    let steps = steps_of(alloc, steps)?;
    led_to(alloc, by, &target, &steps)
}

fn normal_steps<S: Spec>(
    alloc: Global,
    by: &Field,
    target: &Target<S>,
) -> Result<StepList, RowError> {
    match by.optional()? {
        Some(_) => Ok(steps_to_normal_in(alloc, by.mode()?, target)?),
        None => Ok(steps_to_normal(alloc, target)?),
    }
}

// `steps GRAMMAR MODE BASE REFERENCE`: the steps from the target of a reference to its normal form.
fn steps<S: Spec>(
    alloc: Global,
    by: &Field,
    base: &Field,
    reference: &Field,
) -> Result<String, RowError> {
    let target = target_of::<S>(alloc, base, reference)?;
    let steps = normal_steps(alloc, by, &target)?;
    Ok(listed(alloc, &steps)?)
}

// `normal GRAMMAR MODE BASE REFERENCE`: the text that these steps lead to.
fn normal<S: Spec>(
    alloc: Global,
    by: &Field,
    base: &Field,
    reference: &Field,
) -> Result<String, RowError> {
    let target = target_of::<S>(alloc, base, reference)?;
    let steps = normal_steps(alloc, by, &target)?;
    led_to(alloc, by, &target, &steps)
}

fn joining<S: Spec>(
    alloc: Global,
    by: &Field,
    first: &Target<S>,
    second: &Target<S>,
) -> Result<Option<(StepList, StepList)>, RowError> {
    match by.optional()? {
        Some(_) => Ok(join_steps_in(alloc, by.mode()?, first, second)?),
        None => Ok(join_steps(alloc, first, second)?),
    }
}

// `joined GRAMMAR MODE BASE FIRST SECOND`: the text that the targets of two references are joined in, or both where the steps lead
// to two; `-` where they are apart.
fn joined<S: Spec>(
    alloc: Global,
    by: &Field,
    base: &Field,
    first: &Field,
    second: &Field,
) -> Result<String, RowError> {
    let first = target_of::<S>(alloc, base, first)?;
    let second = target_of::<S>(alloc, base, second)?;
    let Some((to_first, to_second)) = joining(alloc, by, &first, &second)? else {
        return Ok(String::from_str(alloc, "-")?);
    };
    let by = match by.optional()? {
        Some(_) => by.mode()?,
        None => CanonMode::Default,
    };
    let one = outcome(alloc, replay_in(alloc, by, &first, &to_first))?;
    let other = outcome(alloc, replay_in(alloc, by, &second, &to_second))?;
    Ok(agreed(alloc, one, other.as_str())?)
}

// `lines GRAMMAR MODE TEXT`: the steps from a text to its normal form, as lines.
fn lines<S: Spec>(alloc: Global, by: &Field, text: &Field) -> Result<String, RowError> {
    let text: RiStr<'_, S> = text.view()?;
    let mut shown = String::new(alloc);
    let mut sink = StringSink::new(&mut shown);
    match show_steps_in(&mut sink, by.mode()?, text) {
        Ok(()) => Ok(shown),
        Err(_) => Err(RowError::Memory(AllocError)),
    }
}

// `step TEXT`: the step of a text, as it is shown and displayed.
fn shown_step(alloc: Global, text: &Field) -> Result<String, RowError> {
    Ok(shown(alloc, &step_of(text.text()?)?)?)
}

fn of_grammar<S: Spec>(alloc: Global, verb: &str, fields: &[Field]) -> Result<String, RowError> {
    match (verb, fields) {
        ("replay", [by, base, reference, steps]) => {
            replayed::<S>(alloc, by, base, reference, steps)
        }
        ("steps", [by, base, reference]) => steps::<S>(alloc, by, base, reference),
        ("normal", [by, base, reference]) => normal::<S>(alloc, by, base, reference),
        ("joined", [by, base, first, second]) => joined::<S>(alloc, by, base, first, second),
        ("lines", [by, text]) => lines::<S>(alloc, by, text),
        _ => Err(RowError::NoRow),
    }
}

pub(crate) fn answer(alloc: Global, verb: &str, fields: &[Field]) -> Result<String, RowError> {
    match (verb, fields) {
        ("step", [text]) => shown_step(alloc, text),
        (_, [grammar, rest @ ..]) => in_grammar!(grammar, of_grammar(alloc, verb, rest)),
        _ => Err(RowError::NoRow),
    }
}
