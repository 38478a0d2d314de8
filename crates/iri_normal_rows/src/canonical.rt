// Resolution, normal forms and canonical texts (RFC 3986 sections 5.2 and 6.2; RFC 3987).
use iri_grammar::spec::Spec;
use iri_normal::canonical::{CanonError, canonicalize, canonicalize_in};
use iri_normal::has_dot_segment;
use iri_normal::is_normalized::IsNormalized;
use iri_normal::mapping_laws::canonicalize_commutes_with_mapping;
use iri_normal::resolver::FixedBaseResolver;
use iri_normal::views::{Normalize, ResolveAgainst};
use iri_rows::answer::{agreed, displayed, spaced, word, yes_or_no};
use iri_rows::error::RowError;
use iri_rows::field::Field;
use iri_rows::in_grammar;
use iri_text::ToStringFallible;
use iri_types::kind::{Absolute, Reference};
use iri_types::split::SplitView;
use iri_types::view::{IriAbsoluteStr, IriReferenceStr, RiAbsoluteStr, RiReferenceStr, RiStr};
use std::alloc::{AllocError, Global};

// `canonical GRAMMAR MODE BASE REFERENCE`: the canonical text or the fault, by the call without a mode where the mode is `-`.
fn canonical<S: Spec>(
    alloc: Global,
    by: &Field,
    base: &Field,
    reference: &Field,
) -> Result<String, RowError> {
    let text = match by.optional()? {
        Some(_) => canonicalize_in::<S>(alloc, by.mode()?, base.bytes(), reference.bytes()),
        None => canonicalize::<S>(alloc, base.bytes(), reference.bytes()),
    };
    match text {
        Ok(text) => Ok(text.into_string()),
        Err(CanonError::Memory) => Err(RowError::from(AllocError)),
        Err(error) => Ok(displayed(alloc, &error)?),
    }
}

// `resolved GRAMMAR BASE REFERENCE`: the reference resolved, and not put into normal form.
fn resolved<S: Spec>(alloc: Global, base: &Field, reference: &Field) -> Result<String, RowError> {
    let base: RiAbsoluteStr<'_, S> = base.view()?;
    let reference: RiReferenceStr<'_, S> = reference.view()?;
    Ok(reference.resolve_against(base).try_to_string(alloc)?)
}

// `normal GRAMMAR BASE REFERENCE`: the same in normal form.
fn normal<S: Spec>(alloc: Global, base: &Field, reference: &Field) -> Result<String, RowError> {
    let base: RiAbsoluteStr<'_, S> = base.view()?;
    let reference: RiReferenceStr<'_, S> = reference.view()?;
    let text = reference.resolve_against(base).and_normalize();
    Ok(text.try_to_string(alloc)?)
}

// `split GRAMMAR BASE REFERENCE`: the same of a base and a reference that were split before; both, where a resolver of a base
// that is split afterwards answers otherwise.
fn split<S: Spec>(alloc: Global, base: &Field, reference: &Field) -> Result<String, RowError> {
    let (Ok(base), Ok(reference)) = (
        SplitView::<'_, S, Absolute>::absolute(base.text()?),
        SplitView::<'_, S, Reference>::new(reference.text()?),
    ) else {
        return Err(RowError::NoRow);
    };
    let afterwards = FixedBaseResolver::new(base.view());
    let before = FixedBaseResolver::of_split(base);
    let text = before.resolve_split(&reference).and_normalize();
    let text = text.try_to_string(alloc)?;
    let other = afterwards.resolve_split(&reference).and_normalize();
    let other = other.try_to_string(alloc)?;
    Ok(agreed(alloc, text, other.as_str())?)
}

// `mapped BASE REFERENCE`: the canonical IRI mapped to a URI, and the canonical URI of what is mapped; one text where they are one.
fn mapped(alloc: Global, base: &Field, reference: &Field) -> Result<String, RowError> {
    let base: IriAbsoluteStr<'_> = base.view()?;
    let reference: IriReferenceStr<'_> = reference.view()?;
    let (first, second) = canonicalize_commutes_with_mapping(alloc, base, reference)?;
    Ok(agreed(alloc, first.into_string(), second.as_str())?)
}

// `normalized GRAMMAR TEXT`: whether the text is in normal form, also by RFC 3986 alone, also with its relative path preserved.
fn normalized<S: Spec>(alloc: Global, text: &Field) -> Result<String, RowError> {
    let text: RiStr<'_, S> = text.view()?;
    let normal = word(text.is_normalized());
    let alone = word(text.is_normalized_rfc3986());
    let preserved = word(text.is_normalized_but_authorityless_relative_path_preserved());
    Ok(spaced(alloc, &[normal, alone, preserved])?)
}

// `normalized_base GRAMMAR TEXT`: whether an absolute URI is in normal form.
fn normalized_base<S: Spec>(alloc: Global, text: &Field) -> Result<String, RowError> {
    let text: RiAbsoluteStr<'_, S> = text.view()?;
    Ok(yes_or_no(alloc, text.is_normalized())?)
}

// `normalizable GRAMMAR TEXT`: whether RFC 3986 alone has a normal form of the text.
fn normalizable<S: Spec>(alloc: Global, text: &Field) -> Result<String, RowError> {
    let text: RiStr<'_, S> = text.view()?;
    Ok(yes_or_no(alloc, text.ensure_rfc3986_normalizable().is_ok())?)
}

// `dotted PATH`: whether a path has a dot segment.
fn dotted(alloc: Global, path: &Field) -> Result<String, RowError> {
    Ok(yes_or_no(alloc, has_dot_segment(path.text()?))?)
}

fn of_grammar<S: Spec>(alloc: Global, verb: &str, fields: &[Field]) -> Result<String, RowError> {
    match (verb, fields) {
        ("canonical", [by, base, reference]) => canonical::<S>(alloc, by, base, reference),
        ("resolved", [base, reference]) => resolved::<S>(alloc, base, reference),
        ("normal", [base, reference]) => normal::<S>(alloc, base, reference),
        ("split", [base, reference]) => split::<S>(alloc, base, reference),
        ("normalized", [text]) => normalized::<S>(alloc, text),
        ("normalized_base", [text]) => normalized_base::<S>(alloc, text),
        ("normalizable", [text]) => normalizable::<S>(alloc, text),
        _ => Err(RowError::NoRow),
    }
}

pub(crate) fn answer(alloc: Global, verb: &str, fields: &[Field]) -> Result<String, RowError> {
    match (verb, fields) {
        ("mapped", [base, reference]) => mapped(alloc, base, reference),
        ("dotted", [path]) => dotted(alloc, path),
        (_, [grammar, rest @ ..]) => in_grammar!(grammar, of_grammar(alloc, verb, rest)),
        _ => Err(RowError::NoRow),
    }
}
