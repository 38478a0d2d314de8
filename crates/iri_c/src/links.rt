// Calls on references against a base, one or many.
ghost use Rattle.iri_calls.specs.Lines.{Batched, PairsBatched};
ghost use Rattle.iri_calls.specs.Outcome.{Answered};
ghost use Rattle.iri_calls.specs.Outcomes.{canonical_outcome, in_grammar, uri_outcome};
ghost use Rattle.iri_calls.specs.Resolutions.{resolved_in, target_in};

use iri_calls::{canonical, lines, resolve, target};

/// The canonical text of a reference against a base.
#[unsafe(no_mangle)]
pub extern "C" fn irikit_canonical(
    grammar: u32,
    mode: u32,
    base: &[u8],
    reference: &[u8],
    out: &mut [u8],
    detail: &mut usize,
) -> u8
    ensures { Answered (canonical_outcome grammar mode base.now reference.now) out.old out.new detail.new result }
{
    canonical::irikit_canonical(grammar, mode, base, reference, out, detail)
}

/// The canonical text of a reference against a base, both of IRIs, mapped to a URI.
#[unsafe(no_mangle)]
pub extern "C" fn irikit_canonical_to_uri(
    mode: u32,
    base: &[u8],
    reference: &[u8],
    out: &mut [u8],
    detail: &mut usize,
) -> u8
    ensures { Answered (uri_outcome mode base.now reference.now) out.old out.new detail.new result }
{
    canonical::irikit_canonical_to_uri(mode, base, reference, out, detail)
}

/// A reference resolved against a base.
#[unsafe(no_mangle)]
pub extern "C" fn irikit_resolve(
    grammar: u32,
    base: &[u8],
    reference: &[u8],
    out: &mut [u8],
    detail: &mut usize,
) -> u8
    ensures { Answered (in_grammar grammar (resolved_in base.now reference.now)) out.old out.new detail.new result }
{
    resolve::irikit_resolve(grammar, base, reference, out, detail)
}

/// The target of a reference against a base, with its dot segments.
#[unsafe(no_mangle)]
pub extern "C" fn irikit_target(
    grammar: u32,
    base: &[u8],
    reference: &[u8],
    out: &mut [u8],
    detail: &mut usize,
) -> u8
    ensures { Answered (in_grammar grammar (target_in base.now reference.now)) out.old out.new detail.new result }
{
    target::irikit_target(grammar, base, reference, out, detail)
}

/// The answers to the lines of a text, as `irikit canon` writes them.
#[unsafe(no_mangle)]
pub extern "C" fn irikit_canonical_lines(
    grammar: u32,
    mode: u32,
    base: &[u8],
    lines: &[u8],
    out: &mut [u8],
    consumed: &mut usize,
    detail: &mut usize,
) -> u8
    ensures { Batched grammar mode base.now lines.now out.old out.new consumed.new detail.new result }
{
    lines::irikit_canonical_lines(grammar, mode, base, lines, out, consumed, detail)
}

/// The answers to the lines of a text, each a page, a tab and a link on it, as `irikit pairs` writes them.
#[unsafe(no_mangle)]
pub extern "C" fn irikit_canonical_pairs(
    grammar: u32,
    mode: u32,
    lines: &[u8],
    out: &mut [u8],
    consumed: &mut usize,
    detail: &mut usize,
) -> u8
    ensures { PairsBatched grammar mode lines.now out.old out.new consumed.new detail.new result }
{
    lines::irikit_canonical_pairs(grammar, mode, lines, out, consumed, detail)
}
