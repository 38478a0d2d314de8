//! Canonical texts of IRIs, mapped to URIs (RFC 3987 section 3.1).
ghost use Rattle.std.specs.Prelude.{◌≡◌, None, IfOk, MatchResult};
ghost use Rattle.iri_grammar.specs.Classes.{uri_tests};
ghost use Rattle.iri_grammar.specs.Fault.{bytes_fault};
ghost use Rattle.iri_grammar.specs.WholeFault.{absolute_fault, reference_fault};
ghost use Rattle.iri_percent.specs.Mapping.{mapped};
ghost use Rattle.iri_normal.specs.Canonicalized.{CausedBy, IsCanonicalTextIn};
ghost use Rattle.iri_normal.specs.NormalForm.{canonical_in};

use crate::canonical::{CanonError, canonicalize_in};
use crate::mode::CanonMode;
use iri_grammar::spec::Spec;
use iri_owned::owned::UriString;
use iri_percent::MappedToUri;
use iri_text::ToDedicatedString;
use std::alloc::Global;

/// The canonical text of a reference against a base, both as bytes, by the rules of a mode, mapped to a URI (RFC 3987 section 3.1): so it
/// is the canonical text of both mapped. A host past ASCII becomes percent-encoded octets, and not Punycode.
///
/// # Errors
///
/// `BadBase`, `BadReference` and `Memory` exactly as [`canonicalize_in`].
///
/// ```
/// use iri::normalize::{CanonMode, canonicalize_to_uri};
/// use iri::spec::IriSpec;
/// let (base, link) = (b"http://example.org/a/".as_slice(), "../résumé.html".as_bytes());
/// let uri = canonicalize_to_uri::<IriSpec>(rt.alloc(), CanonMode::Default, base, link)?;
/// assert_eq!(rt; uri.as_str(), "http://example.org/r%C3%A9sum%C3%A9.html");
/// ```
pub fn canonicalize_to_uri<S: Spec>(
    alloc: Global,
    mode: CanonMode,
    base: &[u8],
    reference: &[u8],
) -> Result<UriString, CanonError>
    ensures causes { MatchResult result (λ _. (bytes_fault (absolute_fault S.tests) base.now ≡ None)
        × (bytes_fault (reference_fault S.tests) reference.now ≡ None))
        (λ e. CausedBy e (bytes_fault (absolute_fault S.tests) base.now)
        (bytes_fault (reference_fault S.tests) reference.now)) }
    ensures text { IfOk result (λ t. t.text ≡ mapped (canonical_in S.tests mode base.now reference.now)) }
    ensures canonical { IfOk result (λ t. IsCanonicalTextIn uri_tests mode (mapped base.now) (mapped reference.now) t.text) }
{
    let text = canonicalize_in::<S>(alloc, mode, base, reference)?;
    match MappedToUri::of(text.as_slice()).try_to_dedicated_string(alloc) {
        Ok(uri) => Ok(uri),
        Err(_) => Err(CanonError::Memory),
    }
}
