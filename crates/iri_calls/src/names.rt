// Where the variables of a template stand (RFC 6570 section 2.3).
ghost use Rattle.std.specs.Prelude.{◌≡◌, ◌<◌, ◌^◌, None, length, map, slice_set};
ghost use Rattle.iri_template.specs.Fault.{template_fault};
ghost use Rattle.iri_template.specs.Variables.{places_left};
ghost use Rattle.iri_calls.specs.Buffers.{over};
ghost use Rattle.iri_calls.specs.Names.{HoldsNames, NamesWritten, slot_of};

use crate::parts::Slot;
use crate::status::{OK, SHORT};
use crate::template::refuse;
use iri_template::template::UriTemplateStr;
use iri_template::variables::UriTemplateVariables;

// Writes a slot over that at a place, where there is one.
fn put_slot(slots: &mut [Slot], at: usize, slot: Slot)
    ensures { slots.new ≡ slice_set slots.old at slot }
{
    if at < slots.len() {
        slots[at] = slot;
    }
}

// Writes where names stand, as far as there is room, and says how many there are.
fn write_names(variables: UriTemplateVariables<'_>, slots: &mut [Slot]) -> usize
    requires { length (places_left variables) < 2 ^ 64 }
    ensures slots { slots.new ≡ over (map slot_of (places_left variables.entry)) slots.old }
    ensures count { result ≡ length (map slot_of (places_left variables.entry)) }
{
    let mut left = variables;
    let mut count = 0;
    'names: while let Some((offset, name)) = left.next_with_place() {
        let len = name.as_str().len();
        put_slot(slots, count, Slot { offset, len });
        count += 1;
    }
    count
}

/// Where the variables of a template stand, or its first fault.
#[tactic(auto, using(crate::proofs::NameLemmas::names_stand, crate::proofs::NameLemmas::few_names))]
pub fn irikit_template_variables(
    template: &[u8],
    names: &mut [Slot],
    detail: &mut usize,
    place: &mut usize,
) -> u8
    ensures detail { NamesWritten template.now names.old names.new detail.new place.new result }
    ensures names { template_fault template.now ≡ None → HoldsNames template.now }
{
    match UriTemplateStr::try_from_bytes(template) {
        Ok(text) => {
            // The proof takes from this that the length of a slice fits a `usize`.
            let _len = template.len();
            *place = 0;
            *detail = write_names(text.variables(), names);
            if *detail <= names.len() { OK } else { SHORT }
        }
        Err(error) => refuse(&error, detail, place),
    }
}
