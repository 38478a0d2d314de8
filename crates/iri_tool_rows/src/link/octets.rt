// Each octet at a place where a field value can have it.
use super::{example_base, refused};
use iri_link::read_links;
use iri_rows::error::RowError;
use iri_rows::field::Field;
use std::alloc::{AllocError, Global};

// What a field value is that has an octet somewhere: its fault, or what stands in the octet's place.
fn outcome(alloc: Global, field: &[u8], octet: u8) -> Result<String, RowError> {
    let set = match read_links(alloc, example_base()?, field) {
        Ok(set) => set,
        Err(error) => return refused(alloc, error),
    };
    let (name, value) = (set.param_name(0, 0), set.param_value(0, 0));
    Ok(String::from_str(
        alloc,
        word_of(set.len(), set.param_count(0), name, value, octet),
    )?)
}

fn word_of(
    links: usize,
    parameters: usize,
    name: Option<&str>,
    value: Option<&str>,
    octet: u8,
) -> &'static str {
    match (links, parameters, name, value) {
        (1, 0, None, None) => "no parameter",
        (1, 1, Some(name), None) => {
            if name.as_bytes() == [octet.to_ascii_lowercase()].as_slice() {
                "name"
            } else {
                "other name"
            }
        }
        (1, 1, Some(_), Some(value)) => {
            if value.as_bytes() == [octet].as_slice() {
                "value"
            } else {
                "other value"
            }
        }
        _ => "other links",
    }
}

// A field value with an octet between two texts.
fn field_with(
    alloc: Global,
    before: &[u8],
    octet: u8,
    after: &[u8],
) -> Result<Vec<u8>, AllocError> {
    let mut field = Vec::new(alloc);
    field.extend_from_slice(before)?;
    field.push(octet)?;
    field.extend_from_slice(after)?;
    Ok(field)
}

// Octets in hexadecimal digits, as ranges.
fn ranges(alloc: Global, octets: &[u8]) -> Result<String, AllocError> {
    let mut text = String::new(alloc);
    let mut last = None;
    for octet in octets {
        let follows = last == octet.checked_sub(1) && last.is_some();
        let next = octet.checked_add(1);
        let goes_on = next.is_some() && octets.contains(&next.unwrap_or(0));
        if !follows || !goes_on {
            let mark = if follows { "-" } else { " " };
            let shown = format!(in alloc; "{mark}{octet:02X}")?;
            text.push_str(shown.as_str())?;
        }
        last = Some(*octet);
    }
    Ok(text)
}

// `octets BEFORE AFTER OUTCOME`: the octets with which a field value, between these texts, has this outcome.
pub(crate) fn with_outcome(
    alloc: Global,
    before: &Field,
    after: &Field,
    wanted: &Field,
) -> Result<String, RowError> {
    let mut found = Vec::new(alloc);
    for octet in 0..=255u8 {
        let field = field_with(alloc, before.bytes(), octet, after.bytes())?;
        if outcome(alloc, field.as_slice(), octet)?.as_bytes() == wanted.bytes() {
            found.push(octet)?;
        }
    }
    Ok(ranges(alloc, found.as_slice())?)
}
