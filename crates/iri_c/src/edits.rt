// Calls that change a part of a reference, or build a text from parts.
ghost use Rattle.iri_calls.specs.Building.{built_outcome};
ghost use Rattle.iri_calls.specs.Edits.{cut_in, fragment_in, host_in, masked_in, password_in, removed_in};
ghost use Rattle.iri_calls.specs.Outcome.{Answered};
ghost use Rattle.iri_calls.specs.Outcomes.{in_grammar};
ghost use Rattle.std.specs.Prelude.{false, true};

use iri_calls::building::{self, Part};
use iri_calls::{edits, hosts};

/// A reference without its password.
#[unsafe(no_mangle)]
pub extern "C" fn irikit_mask_password(
    grammar: u32,
    text: &[u8],
    out: &mut [u8],
    detail: &mut usize,
) -> u8
    ensures { Answered (in_grammar grammar (masked_in text.now)) out.old out.new detail.new result }
{
    edits::irikit_mask_password(grammar, text, out, detail)
}

/// A reference without its password and the colon before it.
#[unsafe(no_mangle)]
pub extern "C" fn irikit_remove_password(
    grammar: u32,
    text: &[u8],
    out: &mut [u8],
    detail: &mut usize,
) -> u8
    ensures { Answered (in_grammar grammar (removed_in text.now)) out.old out.new detail.new result }
{
    edits::irikit_remove_password(grammar, text, out, detail)
}

/// A reference with another text in place of its password.
#[unsafe(no_mangle)]
pub extern "C" fn irikit_replace_password(
    grammar: u32,
    text: &[u8],
    password: &[u8],
    out: &mut [u8],
    detail: &mut usize,
) -> u8
    ensures { Answered (in_grammar grammar (password_in text.now password.now)) out.old out.new detail.new result }
{
    edits::irikit_replace_password(grammar, text, password, out, detail)
}

/// A reference without its fragment.
#[unsafe(no_mangle)]
pub extern "C" fn irikit_remove_fragment(
    grammar: u32,
    text: &[u8],
    out: &mut [u8],
    detail: &mut usize,
) -> u8
    ensures { Answered (in_grammar grammar (cut_in text.now)) out.old out.new detail.new result }
{
    edits::irikit_remove_fragment(grammar, text, out, detail)
}

/// A reference with a fragment in place of its own, or after one that has none.
#[unsafe(no_mangle)]
pub extern "C" fn irikit_set_fragment(
    grammar: u32,
    text: &[u8],
    fragment: &[u8],
    out: &mut [u8],
    detail: &mut usize,
) -> u8
    ensures { Answered (in_grammar grammar (fragment_in text.now fragment.now)) out.old out.new detail.new result }
{
    edits::irikit_set_fragment(grammar, text, fragment, out, detail)
}

/// A reference with another host in place of its own.
#[unsafe(no_mangle)]
pub extern "C" fn irikit_replace_host(
    grammar: u32,
    text: &[u8],
    host: &[u8],
    out: &mut [u8],
    detail: &mut usize,
) -> u8
    ensures { Answered (in_grammar grammar (host_in false text.now host.now)) out.old out.new detail.new result }
{
    hosts::irikit_replace_host(grammar, text, host, out, detail)
}

/// A reference with another host in place of a registered name.
#[unsafe(no_mangle)]
pub extern "C" fn irikit_replace_reg_name(
    grammar: u32,
    text: &[u8],
    host: &[u8],
    out: &mut [u8],
    detail: &mut usize,
) -> u8
    ensures { Answered (in_grammar grammar (host_in true text.now host.now)) out.old out.new detail.new result }
{
    hosts::irikit_replace_reg_name(grammar, text, host, out, detail)
}

/// A text built from its parts.
#[unsafe(no_mangle)]
pub extern "C" fn irikit_build(
    grammar: u32,
    kind: u32,
    parts: &[Part<'_>],
    out: &mut [u8],
    detail: &mut usize,
) -> u8
    ensures { Answered (built_outcome grammar kind parts.now) out.old out.new detail.new result }
{
    building::irikit_build(grammar, kind, parts, out, detail)
}
