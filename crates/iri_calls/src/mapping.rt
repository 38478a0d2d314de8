// IRIs mapped to URIs (RFC 3987 section 3.1).
ghost use Rattle.iri_calls.specs.Outcome.{Answered};
ghost use Rattle.iri_calls.specs.Outcomes.{mapped_outcome};

use crate::buffer::answer_text;
use crate::fault::answer_fault;
use crate::status::BAD_TEXT;
use iri_percent::MappedToUri;
use iri_types::view::IriReferenceStr;

/// A reference of IRIs, mapped to one of URIs.
pub fn irikit_map_to_uri(text: &[u8], out: &mut [u8], detail: &mut usize) -> u8
    ensures { Answered (mapped_outcome text.now) out.old out.new detail.new result }
{
    match IriReferenceStr::try_from_bytes(text) {
        Ok(view) => answer_text(out, &MappedToUri::of(view), detail),
        Err(error) => answer_fault(BAD_TEXT, error.kind(), detail),
    }
}
