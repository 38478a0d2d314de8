// Texts decoded (the URL Standard, section 1.3, "percent-decode").
ghost use Rattle.std.specs.Prelude.{◌≡◌, length};
ghost use Rattle.iri_percent.specs.Decoding.{decoding, fragment_bytes};
ghost use Rattle.iri_percent.specs.FragmentViews.{fragment};
ghost use Rattle.iri_calls.specs.Buffers.{over};
ghost use Rattle.iri_calls.specs.Outcome.{Answered};
ghost use Rattle.iri_calls.specs.Outcome.Outcome.{text};
ghost use Rattle.iri_calls.specs.inside.Placed.{over_at};

use crate::buffer::copy_at;
use crate::status::{OK, SHORT};
use iri_percent::{DecodedFragment, decode_whatwg_bytes};

// Writes the bytes of a fragment over what stands at a place, as far as there is room, and says how many they are.
fn write_fragment(out: &mut [u8], at: usize, piece: DecodedFragment<'_>) -> usize
    ensures bytes { out.new ≡ over_at at (fragment_bytes (fragment piece.entry)) out.old }
    ensures len { result ≡ length (fragment_bytes (fragment piece.entry)) }
{
    match piece {
        DecodedFragment::Direct(run) => {
            copy_at(out, at, run);
            run.len()
        }
        DecodedFragment::DecodedByte(octet) => {
            copy_at(out, at, &[octet]);
            1
        }
        DecodedFragment::StrayPercent => {
            copy_at(out, at, b"%");
            1
        }
    }
}

// Writes the decoded bytes over the start of a buffer, as far as there is room, and says how many they are.
fn write_decoded(out: &mut [u8], bytes: &[u8]) -> usize
    ensures bytes { out.new ≡ over (decoding bytes.now) out.old }
    ensures len { result ≡ length (decoding bytes.now) }
{
    let mut at = 0;
    for piece in decode_whatwg_bytes(bytes).bytes_fragments() {
        at += write_fragment(out, at, piece);
    }
    at
}

/// The bytes that a text decodes to.
pub fn irikit_decode(bytes: &[u8], out: &mut [u8], detail: &mut usize) -> u8
    ensures { Answered (text (decoding bytes.now)) out.old out.new detail.new result }
{
    *detail = write_decoded(out, bytes);
    if *detail <= out.len() { OK } else { SHORT }
}
