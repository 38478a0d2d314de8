// Members of lists and of associative arrays, each text put character by character.
use super::refused;
use crate::template::chars::Chars;
use crate::template::expansions::in_grammar;
use iri_grammar::spec::UriSpec;
use iri_rows::error::RowError;
use iri_rows::field::Field;
use iri_template::context::Context;
use iri_template::template::UriTemplateStr;
use iri_template::visitor::Visitor;
use iri_text::{Show, SliceSink, Stop, ToStringFallible};
use std::alloc::Global;

// Each variable is the list of these.
#[derive(Drop)]
struct Items<'a> {
    items: &'a [Chars<'a>],
}

impl Context for Items<'_> {
    ghost use Rattle.std.specs.Prelude.{map};
    ghost use Rattle.iri_template.specs.ShownValues.{list};

    ghost value_of = { λ l name. list (map (λ c. c.text.now) l.items.now) };

    fn visit<V: Visitor>(&self, visitor: &mut V) -> Result<(), Stop> {
        visitor.visit_list_direct(self.items)
    }
}

// Each variable is the associative array of these.
#[derive(Drop)]
struct Entries<'a> {
    entries: &'a [(Chars<'a>, Chars<'a>)],
}

impl Context for Entries<'_> {
    ghost use Rattle.std.specs.Prelude.{map};
    ghost use Rattle.iri_template.specs.Events.{pair_text};
    ghost use Rattle.iri_template.specs.ShownValues.{pairs};

    ghost value_of = { λ l name. pairs (map (pair_text (λ c. c.text.now) (λ c. c.text.now)) l.entries.now) };

    fn visit<V: Visitor>(&self, visitor: &mut V) -> Result<(), Stop> {
        visitor.visit_assoc_direct(self.entries)
    }
}

fn items_of(alloc: Global, fields: &[Field]) -> Result<Vec<Chars<'_>>, RowError> {
    let mut items = Vec::new(alloc);
    for field in fields {
        items.push(Chars {
            text: field.text()?,
        })?;
    }
    Ok(items)
}

fn entries_of(alloc: Global, fields: &[Field]) -> Result<Vec<(Chars<'_>, Chars<'_>)>, RowError> {
    let mut entries = Vec::new(alloc);
    for pair in fields.chunks(2) {
        let [key, value] = pair else {
            return Err(RowError::NoRow);
        };
        let (key, value) = (key.text()?, value.text()?);
        entries.push((Chars { text: key }, Chars { text: value }))?;
    }
    Ok(entries)
}

// `items TEMPLATE ITEM..`: the expansion where each variable is the list of these items.
pub(crate) fn of_items(
    alloc: Global,
    template: &Field,
    items: &[Field],
) -> Result<String, RowError> {
    let items = items_of(alloc, items)?;
    let context = Items {
        items: items.as_slice(),
    };
    in_grammar(alloc, "both", template.text()?, &context)
}

// `entries TEMPLATE KEY VALUE ..`: the expansion where each variable is the associative array of these.
pub(crate) fn of_entries(
    alloc: Global,
    template: &Field,
    entries: &[Field],
) -> Result<String, RowError> {
    let entries = entries_of(alloc, entries)?;
    let context = Entries {
        entries: entries.as_slice(),
    };
    in_grammar(alloc, "both", template.text()?, &context)
}

// Whether a sink with this little room stops within a member, and all went in before but for the next piece, which is a
// percent-encoded octet at most.
fn stops_within(written: &str, stopped: bool, want: &str, room: usize) -> bool {
    stopped && want.starts_with(written) && written.len() <= room && room - written.len() <= 2
}

// The expansion, if a sink with any less room for it stops half way.
fn stopped<C: Context>(alloc: Global, template: &str, context: &C) -> Result<String, RowError> {
    let template = match UriTemplateStr::new(template) {
        Ok(template) => template,
        Err(error) => return refused(alloc, error),
    };
    let expansion = match template.expand::<UriSpec, C>(context) {
        Ok(expansion) => expansion,
        Err(error) => return refused(alloc, error),
    };
    let want = expansion.try_to_string(alloc)?;
    for room in 0..want.len() {
        let mut buf = [0u8; 40];
        let mut sink = SliceSink::new(&mut buf[..room.min(40)]);
        let stopped = expansion.show(&mut sink).is_err();
        if !stops_within(sink.as_str(), stopped, want.as_str(), room) {
            return Ok(format!(in alloc; "{} at {room}", sink.as_str())?);
        }
    }
    Ok(want)
}

// `items_stopped TEMPLATE ITEM..`: the expansion, if a sink with any less room for it stops half way.
pub(crate) fn items_stopped(
    alloc: Global,
    template: &Field,
    items: &[Field],
) -> Result<String, RowError> {
    let items = items_of(alloc, items)?;
    let context = Items {
        items: items.as_slice(),
    };
    stopped(alloc, template.text()?, &context)
}

// `entries_stopped TEMPLATE KEY VALUE ..`: the same of an associative array.
pub(crate) fn entries_stopped(
    alloc: Global,
    template: &Field,
    entries: &[Field],
) -> Result<String, RowError> {
    let entries = entries_of(alloc, entries)?;
    let context = Entries {
        entries: entries.as_slice(),
    };
    stopped(alloc, template.text()?, &context)
}
