//! The law of canonical texts and the mapping to URIs (RFC 3987 section 3.1), over the calls that make them.
ghost use Rattle.std.specs.Prelude.{◌≡◌, None, IfOk};
ghost use Rattle.iri_grammar.specs.Classes.{uri_tests};
ghost use Rattle.iri_grammar.specs.WholeFault.{absolute_fault, reference_fault};
ghost use Rattle.iri_types.specs.Texts.{text};
ghost use Rattle.iri_percent.specs.Mapping.{mapped};
ghost use Rattle.iri_normal.specs.NormalForm.{canonical};

use crate::canonical::canonicalize;
use crate::mode::CanonMode;
use crate::to_uri::canonicalize_to_uri;
use iri_grammar::spec::{Spec, UriSpec};
use iri_owned::owned::UriString;
use iri_percent::MappedToUri;
use iri_text::ToDedicatedString;
use iri_types::view::{RiAbsoluteStr, RiReferenceStr};
use std::alloc::{AllocError, Global};

// The canonical text, mapped.
fn canonical_mapped<S: Spec>(
    alloc: Global,
    base: RiAbsoluteStr<'_, S>,
    reference: RiReferenceStr<'_, S>,
) -> Result<UriString, AllocError>
    ensures text { IfOk result (λ t. t.text ≡ mapped (canonical S.tests (text base.entry) (text reference.entry))) }
    ensures base { absolute_fault S.tests (text base.entry) ≡ None }
    ensures reference { reference_fault S.tests (text reference.entry) ≡ None }
{
    let (base, reference) = (base.as_str(), reference.as_str());
    let mode = CanonMode::Default;
    match canonicalize_to_uri::<S>(alloc, mode, base.as_bytes(), reference.as_bytes()) {
        Ok(uri) => Ok(uri),
        Err(_) => Err(AllocError),
    }
}

// The canonical text of the mapped base and the mapped reference.
fn mapped_canonical<S: Spec>(
    alloc: Global,
    base: RiAbsoluteStr<'_, S>,
    reference: RiReferenceStr<'_, S>,
) -> Result<UriString, AllocError>
    ensures { IfOk result (λ t. t.text ≡ canonical uri_tests (mapped (text base.entry))
        (mapped (text reference.entry))) }
{
    let base = MappedToUri::of(base).try_to_dedicated_string(alloc)?;
    let reference = MappedToUri::of(reference).try_to_dedicated_string(alloc)?;
    let (base, reference) = (base.as_str(), reference.as_str());
    match canonicalize::<UriSpec>(alloc, base.as_bytes(), reference.as_bytes()) {
        Ok(uri) => Ok(uri),
        Err(_) => Err(AllocError),
    }
}

/// The canonical text of a reference against a base, mapped, and the canonical text of both mapped: they are one text, of
/// every base and reference. It fails on allocation failure alone.
pub fn canonicalize_commutes_with_mapping<S: Spec>(
    alloc: Global,
    base: RiAbsoluteStr<'_, S>,
    reference: RiReferenceStr<'_, S>,
) -> Result<(UriString, UriString), AllocError>
    ensures { IfOk result (λ r. (r.0.text ≡ mapped (canonical S.tests (text base.entry) (text reference.entry)))
        × (r.1.text ≡ r.0.text)) }
{
    let last = canonical_mapped(alloc, base, reference)?;
    let first = mapped_canonical(alloc, base, reference)?;
    Ok((last, first))
}
