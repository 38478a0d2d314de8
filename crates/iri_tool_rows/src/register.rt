// Registers of links, with the lines of each.
use iri_grammar::spec::{IriSpec, Spec, UriSpec};
use iri_normal::owned_target::Target;
use iri_normal::resolver::FixedBaseResolver;
use iri_owned::owned::RiAbsoluteString;
use iri_register::added::Added;
use iri_register::error::RegisterError;
use iri_register::register::Register;
use iri_resolve::join::join_steps;
use iri_rows::answer::{displayed, yes_or_no};
use iri_rows::error::RowError;
use iri_rows::field::Field;
use iri_rows::in_grammar;
use std::alloc::{AllocError, Global};

// The key of registers that have one.
const KEY: u128 = 0x0123_4567_89ab_cdef_0123_4567_89ab_cdef;

// The register that rows speak of.
#[derive(Drop)]
pub(crate) enum Links {
    None,
    Uris(Register<UriSpec>),
    Iris(Register<IriSpec>),
}

impl Links {
    fn keep(&mut self, alloc: Global, links: Links) -> Result<String, RowError> {
        *self = links;
        Ok(String::from_str(alloc, "empty")?)
    }
}

fn base_of<S: Spec>(alloc: Global, base: &Field) -> Result<RiAbsoluteString<S>, RowError> {
    Ok(RiAbsoluteString::from_view(alloc, base.view()?)?)
}

// `register GRAMMAR BASE`: begins a register.
fn begun(alloc: Global, grammar: &Field, base: &Field) -> Result<Links, RowError> {
    match grammar.text()? {
        "uri" => Ok(Links::Uris(Register::new(alloc, base_of(alloc, base)?))),
        "iri" => Ok(Links::Iris(Register::new(alloc, base_of(alloc, base)?))),
        _ => Err(RowError::NoRow),
    }
}

// `register GRAMMAR BASE MODE`: begins a register by the rules of a mode.
fn begun_in(alloc: Global, grammar: &Field, base: &Field, mode: &Field) -> Result<Links, RowError> {
    let mode = mode.mode()?;
    match grammar.text()? {
        "uri" => Ok(Links::Uris(Register::new_in(alloc, mode, base_of(alloc, base)?))),
        "iri" => Ok(Links::Iris(Register::new_in(alloc, mode, base_of(alloc, base)?))),
        _ => Err(RowError::NoRow),
    }
}

// `keyed BASE`: begins a register with a key.
fn keyed(alloc: Global, base: &Field) -> Result<Links, RowError> {
    Ok(Links::Uris(Register::with_key(alloc, base_of(alloc, base)?, KEY)))
}

// `keyed BASE MODE`: the same by the rules of a mode.
fn keyed_in(alloc: Global, base: &Field, mode: &Field) -> Result<Links, RowError> {
    let base = base_of(alloc, base)?;
    Ok(Links::Uris(Register::with_key_in(alloc, mode.mode()?, base, KEY)))
}

fn refused(alloc: Global, error: RegisterError) -> Result<String, RowError> {
    match error {
        RegisterError::Bad(error) => Ok(format!(in alloc; "bad {:?}", error.kind())?),
        RegisterError::Memory => Err(RowError::Memory(AllocError)),
    }
}

fn shown_added(alloc: Global, added: Result<Added, RegisterError>) -> Result<String, RowError> {
    match added {
        Ok(Added::New(place)) => Ok(format!(in alloc; "new {place}")?),
        Ok(Added::Old(place)) => Ok(format!(in alloc; "old {place}")?),
        Err(error) => refused(alloc, error),
    }
}

// The number after a word, or `none`.
fn shown_number(
    alloc: Global,
    word: &str,
    number: Result<Option<usize>, RegisterError>,
) -> Result<String, RowError> {
    match number {
        Ok(Some(number)) => Ok(format!(in alloc; "{word} {number}")?),
        Ok(None) => Ok(String::from_str(alloc, "none")?),
        Err(error) => refused(alloc, error),
    }
}

// `error REFERENCE`: why a reference isn't added, as it is displayed.
fn error<S: Spec>(
    alloc: Global,
    register: &mut Register<S>,
    reference: &Field,
) -> Result<String, RowError> {
    match register.add(reference.bytes(), 0) {
        Ok(_) => Ok(String::from_str(alloc, "none")?),
        Err(RegisterError::Memory) => Err(RowError::Memory(AllocError)),
        Err(error) => Ok(displayed(alloc, &error)?),
    }
}

fn numbers(alloc: Global, lines: &[u64]) -> Result<String, AllocError> {
    let mut text = String::new(alloc);
    for line in lines {
        let number = format!(in alloc; " {line}")?;
        text.push_str(number.as_str())?;
    }
    Ok(text)
}

// `entry PLACE`: the target at a place and the numbers of its lines.
fn entry<S: Spec>(
    alloc: Global,
    register: &Register<S>,
    place: &Field,
) -> Result<String, RowError> {
    let place = place.number()?;
    match (register.target_at(place), register.lines_at(place)) {
        (Some(target), Some(lines)) => {
            let lines = numbers(alloc, lines)?;
            Ok(format!(in alloc; "{target}{lines}")?)
        }
        (None, None) => Ok(String::from_str(alloc, "none")?),
        _ => Ok(String::from_str(alloc, "half an entry")?),
    }
}

fn resolver<S: Spec>(base: &Field) -> Result<FixedBaseResolver<'_, S>, RowError> {
    Ok(FixedBaseResolver::new(base.view()?))
}

fn target<S: Spec>(
    alloc: Global,
    page: &FixedBaseResolver<'_, S>,
    reference: &Field,
) -> Result<Target<S>, RowError> {
    Ok(page.target(alloc, reference.view()?)?)
}

// What adding the first reference answers, and finding the other.
fn found_in<S: Spec>(
    alloc: Global,
    base: &Field,
    one: &Field,
    other: &Field,
) -> Result<String, RowError> {
    let mut register = Register::<S>::new(alloc, base_of(alloc, base)?);
    let added = shown_added(alloc, register.add(one.bytes(), 2))?;
    let found = shown_number(alloc, "at", register.find(other.bytes()))?;
    Ok(format!(in alloc; "{added}, {found}")?)
}

// Whether steps join two targets.
fn are_joined<S: Spec>(
    alloc: Global,
    first: &Target<S>,
    second: &Target<S>,
) -> Result<bool, AllocError> {
    match join_steps(alloc, first, second)? {
        Some(_) => Ok(true),
        None => Ok(false),
    }
}

fn targets_are_joined<S: Spec>(
    alloc: Global,
    base: &Field,
    one: &Field,
    other: &Field,
) -> Result<bool, RowError> {
    let page = resolver::<S>(base)?;
    let first = target(alloc, &page, one)?;
    let second = target(alloc, &page, other)?;
    Ok(are_joined(alloc, &first, &second)?)
}

fn joined_in<S: Spec>(
    alloc: Global,
    base: &Field,
    one: &Field,
    other: &Field,
) -> Result<String, RowError> {
    let found = found_in::<S>(alloc, base, one, other)?;
    let joined = yes_or_no(alloc, targets_are_joined::<S>(alloc, base, one, other)?)?;
    Ok(format!(in alloc; "{found}, joined {joined}")?)
}

// `joined GRAMMAR BASE REFERENCE REFERENCE`: adds the first reference and finds the other; and whether steps join their targets.
fn joined(
    alloc: Global,
    grammar: &Field,
    base: &Field,
    one: &Field,
    other: &Field,
) -> Result<String, RowError> {
    in_grammar!(grammar, joined_in(alloc, base, one, other))
}

// The calls with a base of their own: `add_against BASE REFERENCE LINE`, `remove_against BASE REFERENCE` and
// `find_against BASE REFERENCE`.
fn against<S: Spec>(
    alloc: Global,
    register: &mut Register<S>,
    verb: &str,
    fields: &[Field],
) -> Result<String, RowError> {
    match (verb, fields) {
        ("add_against", [base, reference, line]) => {
            let page = resolver(base)?;
            let line = line.number()? as u64;
            shown_added(alloc, register.add_against(&page, reference.bytes(), line))
        }
        ("remove_against", [base, reference]) => {
            let page = resolver(base)?;
            let count = register.remove_against(&page, reference.bytes());
            shown_number(alloc, "gone", count)
        }
        ("find_against", [base, reference]) => {
            let page = resolver(base)?;
            shown_number(alloc, "at", register.find_against(&page, reference.bytes()))
        }
        _ => Err(RowError::NoRow),
    }
}

// `add REFERENCE LINE`, `remove REFERENCE`, `find REFERENCE` and `len`.
fn called<S: Spec>(
    alloc: Global,
    register: &mut Register<S>,
    verb: &str,
    fields: &[Field],
) -> Result<String, RowError> {
    match (verb, fields) {
        ("add", [reference, line]) => {
            let line = line.number()? as u64;
            shown_added(alloc, register.add(reference.bytes(), line))
        }
        ("remove", [reference]) => {
            shown_number(alloc, "gone", register.remove(reference.bytes()))
        }
        ("find", [reference]) => shown_number(alloc, "at", register.find(reference.bytes())),
        ("len", []) => Ok(displayed(alloc, &register.len())?),
        ("entry", [place]) => entry(alloc, register, place),
        ("error", [reference]) => error(alloc, register, reference),
        _ => against(alloc, register, verb, fields),
    }
}

pub(crate) fn answer(
    alloc: Global,
    links: &mut Links,
    verb: &str,
    fields: &[Field],
) -> Result<String, RowError> {
    match (verb, fields) {
        ("register", [grammar, base]) => links.keep(alloc, begun(alloc, grammar, base)?),
        ("joined", [grammar, base, one, other]) => joined(alloc, grammar, base, one, other),
        ("register", [grammar, base, mode]) => {
            links.keep(alloc, begun_in(alloc, grammar, base, mode)?)
        }
        ("keyed", [base]) => links.keep(alloc, keyed(alloc, base)?),
        ("keyed", [base, mode]) => links.keep(alloc, keyed_in(alloc, base, mode)?),
        ("memory", []) => Ok(displayed(alloc, &RegisterError::Memory)?),
        _ => match links {
            Links::None => Err(RowError::NoRow),
            Links::Uris(register) => called(alloc, register, verb, fields),
            Links::Iris(register) => called(alloc, register, verb, fields),
        },
    }
}
