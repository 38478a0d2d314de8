// Link-values that are kept (RFC 8288 section 3).
ghost use Rattle.std.specs.Prelude.{◌≡◌, ◌++◌, ◌∷◌, [], IfOk, None, OnOk, map, string_bytes, MatchResult};
ghost use Rattle.iri_grammar.specs.WholeFault.{reference_fault};
ghost use Rattle.iri_types.specs.SplitText.{split_text};
ghost use Rattle.iri_normal.specs.NormalForm.{canonical_in};
ghost use Rattle.iri_normal.specs.Resolver.{base_text};
ghost use Rattle.iri_link.specs.Fault.{field_fault};
ghost use Rattle.iri_link.specs.Readings.{links_in};
ghost use Rattle.iri_link.specs.Resolved.{resolved_in};
ghost use Rattle.iri_link.specs.Stored.{link_of};
ghost use Rattle.iri_link.specs.inside.KeptLinks.{IsValid, Wants, grown, kept_past};
ghost use Rattle.iri_link.specs.inside.Pieces.{param_said};

use crate::param::{Param, keep_param};
use crate::param_text::ParamText;
use crate::piece::Piece;
use crate::walk::{is_inside, next_piece};
use iri_grammar::spec::Spec;
use iri_normal::mode::CanonMode;
use iri_normal::resolver::FixedBaseResolver;
use iri_types::kind::Reference;
use iri_types::split::SplitView;
use std::alloc::{AllocError, Global};

// A link-value, its target in canonical form.
#[derive(Debug, Drop)]
pub(crate) struct Link {
    pub(crate) target: String,
    pub(crate) params: Vec<Param>,
}

// The room that a target is given for what the base puts before its reference: most prefixes are no longer.
const PREFIX: usize = 64;

// The canonical text of a target.
fn canonical_target<'a, S: Spec>(
    alloc: Global,
    mode: CanonMode,
    resolver: &FixedBaseResolver<'a, S>,
    reference: &SplitView<'a, S, Reference>,
) -> Result<String, AllocError>
    ensures { IfOk result (λ t. string_bytes t
        ≡ canonical_in S.tests mode (base_text resolver.now) (split_text reference.now)) }
{
    let room = reference.view().len().saturating_add(PREFIX);
    let mut target = String::with_capacity(alloc, room)?;
    resolver.canonical_into_in(&mut target, mode, reference)?;
    Ok(target)
}

// Puts a link-value at the end that has no parameters yet.
fn push_link<'a, S: Spec>(
    alloc: Global,
    mode: CanonMode,
    resolver: &FixedBaseResolver<'a, S>,
    links: &mut Vec<Link>,
    reference: &SplitView<'a, S, Reference>,
) -> Result<(), AllocError>
    ensures { OnOk result (map link_of links.new.items ≡ map link_of links.old.items
        ++ record { target = canonical_in S.tests mode (base_text resolver.now) (split_text reference.now); params = [] } ∷ []) }
{
    let target = canonical_target(alloc, mode, resolver, reference)?;
    let params = Vec::new(alloc);
    links.push(Link { target, params })?;
    Ok(())
}

// Puts a parameter at the end of those of the last link-value.
fn push_param(alloc: Global, links: &mut Vec<Link>, param: ParamText<'_>) -> Result<(), AllocError>
    ensures { MatchResult result (λ _. map link_of links.new.items
        ≡ grown (map link_of links.old.items) (param_said param.entry ∷ []))
        (λ _. map link_of links.old.items ≡ [] → ⊥) }
{
    match links.last_mut() {
        Some(link) => {
            let kept = keep_param(alloc, param)?;
            link.params.push(kept)?;
            Ok(())
        }
        None => Ok(()),
    }
}

// Keeps a target that is a URI-reference, and no other.
fn keep_target<'a, S: Spec>(
    alloc: Global,
    mode: CanonMode,
    resolver: &FixedBaseResolver<'a, S>,
    links: &mut Vec<Link>,
    target: &'a str,
) -> Result<(), AllocError>
    ensures { OnOk result (reference_fault S.tests target.now ≡ None → map link_of links.new.items ≡ map link_of links.old.items
        ++ record { target = canonical_in S.tests mode (base_text resolver.now) target.now; params = [] } ∷ []) }
{
    match SplitView::<S, Reference>::new(target) {
        Ok(reference) => push_link(alloc, mode, resolver, links, &reference),
        Err(_) => Ok(()),
    }
}

// Keeps a piece.
fn keep_piece<'a, S: Spec>(
    alloc: Global,
    mode: CanonMode,
    resolver: &FixedBaseResolver<'a, S>,
    links: &mut Vec<Link>,
    piece: Piece<'a>,
) -> Result<(), AllocError>
    ensures { MatchResult result (λ _. IsValid S.tests piece.entry → map link_of links.new.items
        ≡ kept_past S.tests mode (base_text resolver.now) (map link_of links.old.items) piece.entry)
        (λ _. Wants (map link_of links.old.items) piece.entry) }
{
    match piece {
        Piece::Target(target) => keep_target(alloc, mode, resolver, links, target),
        Piece::Param(param) => push_param(alloc, links, param),
        _ => Ok(()),
    }
}

// The link-values of a text without a fault.
pub(crate) fn read_text<'a, S: Spec>(
    alloc: Global,
    mode: CanonMode,
    resolver: &FixedBaseResolver<'a, S>,
    text: &'a str,
) -> Result<Vec<Link>, AllocError>
    requires { field_fault S.tests text.now ≡ None }
    ensures { MatchResult result (λ v. map link_of v.items ≡ map (resolved_in S.tests mode (base_text resolver.now)) (links_in text.now))
        (λ _. links_in text.now ≡ [] → ⊥) }
{
    let mut links = Vec::new(alloc);
    let mut inside = false;
    let mut rest = text;
    'pieces: loop {
        match next_piece(inside, rest) {
            Some((piece, after)) => {
                keep_piece(alloc, mode, resolver, &mut links, piece)?;
                inside = is_inside(piece);
                rest = after;
            }
            None => return Ok(links),
        }
    }
}
