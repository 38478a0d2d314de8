// Calls on one text: tests, splits, normal forms, mappings, encodings.
ghost use Rattle.iri_calls.specs.Encodings.{encoded_outcome};
ghost use Rattle.iri_calls.specs.FaultParts.{PartFound};
ghost use Rattle.iri_calls.specs.Outcome.{Answered, Returned};
ghost use Rattle.iri_calls.specs.Outcome.Outcome.{text};
ghost use Rattle.iri_calls.specs.Outcomes.{NormalJudged, fault_words, in_grammar, mapped_outcome, validated_in};
ghost use Rattle.iri_calls.specs.Resolutions.{normalized_outcome, steps_outcome};
ghost use Rattle.iri_calls.specs.Slots.{SplitWritten};
ghost use Rattle.iri_percent.specs.Decoding.{decoding};

use iri_calls::parts::{self, Slot, Slots};
use iri_calls::{decoding, encoding, fault, fault_part, mapping, normal, steps, validation};

/// Whether a whole text is of a kind.
#[unsafe(no_mangle)]
pub extern "C" fn irikit_validate(grammar: u32, kind: u32, text: &[u8], detail: &mut usize) -> u8
    ensures { Returned (in_grammar grammar (validated_in kind text.now)) detail.new result }
{
    validation::irikit_validate(grammar, kind, text, detail)
}

/// The words for a kind of fault, as they stand in the answers of `irikit canon`.
#[unsafe(no_mangle)]
pub extern "C" fn irikit_fault_words(fault: usize, out: &mut [u8], detail: &mut usize) -> u8
    ensures { Answered (fault_words fault) out.old out.new detail.new result }
{
    fault::irikit_fault_words(fault, out, detail)
}

/// Where the part of a text stands that has a kind of fault.
#[unsafe(no_mangle)]
pub extern "C" fn irikit_fault_part(
    kind: u32,
    fault: usize,
    text: &[u8],
    part: &mut Slot,
    detail: &mut usize,
) -> u8
    ensures { PartFound kind fault text.now part.old part.new detail.new result }
{
    fault_part::irikit_fault_part(kind, fault, text, part, detail)
}

/// The split of a reference.
#[unsafe(no_mangle)]
pub extern "C" fn irikit_split(
    grammar: u32,
    text: &[u8],
    parts: &mut Slots,
    detail: &mut usize,
) -> u8
    ensures { SplitWritten grammar text.now parts.old parts.new detail.new result }
{
    parts::irikit_split(grammar, text, parts, detail)
}

/// The normal form of a text with a scheme.
#[unsafe(no_mangle)]
pub extern "C" fn irikit_normalize(
    grammar: u32,
    form: u32,
    text: &[u8],
    out: &mut [u8],
    detail: &mut usize,
) -> u8
    ensures { Answered (normalized_outcome grammar form text.now) out.old out.new detail.new result }
{
    normal::irikit_normalize(grammar, form, text, out, detail)
}

/// Whether a text with a scheme is its own normal form.
#[unsafe(no_mangle)]
pub extern "C" fn irikit_is_normalized(
    grammar: u32,
    form: u32,
    text: &[u8],
    detail: &mut usize,
) -> u8
    ensures { NormalJudged grammar form text.now detail.new result }
{
    normal::irikit_is_normalized(grammar, form, text, detail)
}

/// The steps that lead a text with a scheme to its normal form.
#[unsafe(no_mangle)]
pub extern "C" fn irikit_steps(
    grammar: u32,
    mode: u32,
    text: &[u8],
    out: &mut [u8],
    detail: &mut usize,
) -> u8
    ensures { Answered (steps_outcome grammar mode text.now) out.old out.new detail.new result }
{
    steps::irikit_steps(grammar, mode, text, out, detail)
}

/// A reference of IRIs, mapped to one of URIs.
#[unsafe(no_mangle)]
pub extern "C" fn irikit_map_to_uri(text: &[u8], out: &mut [u8], detail: &mut usize) -> u8
    ensures { Answered (mapped_outcome text.now) out.old out.new detail.new result }
{
    mapping::irikit_map_to_uri(text, out, detail)
}

/// A raw text, percent-encoded for its place in a reference.
#[unsafe(no_mangle)]
pub extern "C" fn irikit_encode(
    grammar: u32,
    place: u32,
    raw: &[u8],
    out: &mut [u8],
    detail: &mut usize,
) -> u8
    ensures { Answered (encoded_outcome grammar place raw.now) out.old out.new detail.new result }
{
    encoding::irikit_encode(grammar, place, raw, out, detail)
}

/// The bytes that a text decodes to.
#[unsafe(no_mangle)]
pub extern "C" fn irikit_decode(bytes: &[u8], out: &mut [u8], detail: &mut usize) -> u8
    ensures { Answered (text (decoding bytes.now)) out.old out.new detail.new result }
{
    decoding::irikit_decode(bytes, out, detail)
}
