// Calls on templates.
ghost use Rattle.iri_calls.specs.Names.{HoldsNames, NamesWritten};
ghost use Rattle.iri_calls.specs.Outcome.{Answered};
ghost use Rattle.iri_calls.specs.Templates.{Expanded, template_fault_words};
ghost use Rattle.iri_template.specs.Fault.{template_fault};
ghost use Rattle.std.specs.Prelude.{None, ◌≡◌};

use iri_calls::parts::Slot;
use iri_calls::variables::Variable;
use iri_calls::{names, template};

/// The expansion of a template with the values of variables.
#[unsafe(no_mangle)]
pub extern "C" fn irikit_expand(
    grammar: u32,
    template: &[u8],
    variables: &[Variable<'_>],
    out: &mut [u8],
    detail: &mut usize,
    place: &mut usize,
) -> u8
    ensures { Expanded grammar template.now variables.now out.old out.new detail.new place.new result }
{
    template::irikit_expand(grammar, template, variables, out, detail, place)
}

/// Where the variables of a template stand, or its first fault.
#[unsafe(no_mangle)]
pub extern "C" fn irikit_template_variables(
    template: &[u8],
    names: &mut [Slot],
    detail: &mut usize,
    place: &mut usize,
) -> u8
    ensures detail { NamesWritten template.now names.old names.new detail.new place.new result }
    ensures names { template_fault template.now ≡ None → HoldsNames template.now }
{
    names::irikit_template_variables(template, names, detail, place)
}

/// The words for a kind of fault of a template.
#[unsafe(no_mangle)]
pub extern "C" fn irikit_template_fault_words(
    fault: usize,
    out: &mut [u8],
    detail: &mut usize,
) -> u8
    ensures { Answered (template_fault_words fault) out.old out.new detail.new result }
{
    template::irikit_template_fault_words(fault, out, detail)
}
