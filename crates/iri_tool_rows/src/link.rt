// Values of `Link` fields (RFC 8288).
mod octets;

use iri_grammar::spec::{Spec, UriSpec};
use iri_link::{LinkError, LinkSet, read_links, read_links_against};
use iri_normal::resolver::FixedBaseResolver;
use iri_rows::answer::{displayed, shown, spaced, yes_or_no};
use iri_rows::error::RowError;
use iri_rows::field::Field;
use iri_rows::in_grammar;
use iri_types::view::RiAbsoluteStr;
use std::alloc::{AllocError, Global};

// The links that rows ask for.
#[derive(Drop)]
pub(crate) struct Links {
    set: Option<LinkSet<UriSpec>>,
}

impl Links {
    pub(crate) fn new() -> Links {
        Links { set: None }
    }
}

fn refused(alloc: Global, error: LinkError) -> Result<String, RowError> {
    match error {
        LinkError::Memory => Err(RowError::Memory(AllocError)),
        _ => Ok(shown(alloc, &error)?),
    }
}

fn written_in<S: Spec>(alloc: Global, base: &Field, field: &[u8]) -> Result<String, RowError> {
    match read_links::<S>(alloc, base.view()?, field) {
        Ok(set) => Ok(shown(alloc, &set)?),
        Err(error) => refused(alloc, error),
    }
}

// `written GRAMMAR BASE FIELD`: the written form of a field value's links, or its first fault and the fault's place.
fn written(
    alloc: Global,
    grammar: &Field,
    base: &Field,
    field: &Field,
) -> Result<String, RowError> {
    in_grammar!(grammar, written_in(alloc, base, field.bytes()))
}

// `read_back BASE FIELD OTHER`: whether the written form against another base is itself.
fn read_back(
    alloc: Global,
    base: &Field,
    field: &Field,
    other: &Field,
) -> Result<String, RowError> {
    let set = match read_links::<UriSpec>(alloc, base.view()?, field.bytes()) {
        Ok(set) => set,
        Err(error) => return refused(alloc, error),
    };
    let text = shown(alloc, &set)?;
    let again = written_in::<UriSpec>(alloc, other, text.as_bytes())?;
    Ok(yes_or_no(alloc, again.as_str() == text.as_str())?)
}

// `kind FIELD`: what is wrong with a field value, without its place.
fn kind(alloc: Global, field: &Field) -> Result<String, RowError> {
    match read_links(alloc, example_base()?, field.bytes()) {
        Ok(_) => Ok(String::from_str(alloc, "none")?),
        Err(LinkError::Fault(kind, _)) => Ok(shown(alloc, &kind)?),
        Err(LinkError::Memory) => Err(RowError::Memory(AllocError)),
    }
}

// `against BASE FIELD`: the target of the first link, by a resolver.
fn against(alloc: Global, base: &Field, field: &Field) -> Result<String, RowError> {
    let page = FixedBaseResolver::<'_, UriSpec>::new(base.view()?);
    match read_links_against(alloc, &page, field.bytes()) {
        Ok(set) => optional(alloc, set.target(0)),
        Err(error) => refused(alloc, error),
    }
}

// `links BASE FIELD`: reads the links that the next rows ask for; how many there are.
fn begun(
    alloc: Global,
    links: &mut Links,
    base: &Field,
    field: &Field,
) -> Result<String, RowError> {
    match read_links(alloc, base.view()?, field.bytes()) {
        Ok(set) => {
            let count = displayed(alloc, &set.len())?;
            links.set = Some(set);
            Ok(count)
        }
        Err(error) => refused(alloc, error),
    }
}

fn example_base() -> Result<RiAbsoluteStr<'static, UriSpec>, RowError> {
    match RiAbsoluteStr::new("http://a/") {
        Ok(base) => Ok(base),
        Err(_) => Err(RowError::NoRow),
    }
}

fn optional(alloc: Global, text: Option<&str>) -> Result<String, RowError> {
    match text {
        Some(text) => Ok(spaced(alloc, &["is", text])?),
        None => Ok(String::from_str(alloc, "none")?),
    }
}

// `target LINK`, `count LINK`, `name LINK PARAMETER` and `value LINK PARAMETER`: what stands at a place.
fn at_place(
    alloc: Global,
    set: &LinkSet<UriSpec>,
    verb: &str,
    fields: &[Field],
) -> Result<String, RowError> {
    match (verb, fields) {
        ("target", [link]) => optional(alloc, set.target(link.number()?)),
        ("count", [link]) => Ok(displayed(alloc, &set.param_count(link.number()?))?),
        ("name", [link, parameter]) => optional(
            alloc,
            set.param_name(link.number()?, parameter.number()?),
        ),
        ("value", [link, parameter]) => optional(
            alloc,
            set.param_value(link.number()?, parameter.number()?),
        ),
        _ => Err(RowError::NoRow),
    }
}

pub(crate) fn answer(
    alloc: Global,
    links: &mut Links,
    verb: &str,
    fields: &[Field],
) -> Result<String, RowError> {
    match (verb, fields) {
        ("written", [grammar, base, field]) => written(alloc, grammar, base, field),
        ("read_back", [base, field, other]) => read_back(alloc, base, field, other),
        ("kind", [field]) => kind(alloc, field),
        ("against", [base, field]) => against(alloc, base, field),
        ("links", [base, field]) => begun(alloc, links, base, field),
        ("octets", [before, after, wanted]) => octets::with_outcome(alloc, before, after, wanted),
        ("memory", []) => Ok(shown(alloc, &LinkError::Memory)?),
        _ => match &links.set {
            Some(set) => at_place(alloc, set, verb, fields),
            None => Err(RowError::NoRow),
        },
    }
}
