//! A visitor that learns whether a value has members, and the first varspec that has no use for its value (RFC 6570 section
//! 2.4.1).
ghost use Rattle.std.specs.Prelude.{◌≡◌, false};
ghost use Rattle.iri_grammar.specs.Characters.{colon, left_brace};
ghost use Rattle.iri_grammar.specs.Cut.{from, lacks};
ghost use Rattle.iri_template.specs.Fault.{Answers};
ghost use Rattle.iri_template.specs.Reading.{pieces_of};
ghost use Rattle.iri_template.specs.Texts.{text};
ghost use Rattle.iri_template.specs.TypeFaults.{is_mistyped, type_fault};
ghost use Rattle.iri_template.specs.inside.TypeHears.{TypeHears, TypeHalts, type_rules};
ghost use Rattle.iri_template.specs.declared.visitor.VisitPurpose.TheVariants.{Typecheck};
ghost use Rattle.iri_template.specs.declared.visitor.Phase.TheVariants.{Fresh};

use crate::context::Context;
use crate::error::{Error, ErrorKind};
use crate::template::UriTemplateStr;
use crate::var_name::VarName;
use crate::variables::UriTemplateVariables;
use crate::varspec::VarSpec;
use crate::visitor::{Phase, VisitPurpose, Visitor};
use iri_grammar::cutting::{cut_before, lacks};
use iri_text::{Show, Stop};

// A visitor that keeps of a value only whether it is a list or an associative array that isn't empty.
#[derive(Drop)]
pub(crate) struct TypeCheck<'a> {
    name: VarName<'a>,
    phase: Phase,
    pub(crate) members: bool,
}

impl<'a> TypeCheck<'a> {
    // A visitor for the variable of this name.
    pub(crate) fn new(name: VarName<'a>) -> TypeCheck<'a>
        ensures name { result.name.text.now ≡ name.entry.text.now }
        ensures phase { result.phase ≡ Fresh }
        ensures members { result.members ≡ false }
    {
        TypeCheck {
            name,
            phase: Phase::Fresh,
            members: false,
        }
    }
}

impl<'a> Visitor for TypeCheck<'a> {
    ghost name = { λ v. v.name.text.now };

    ghost aim = { λ v. Typecheck };

    ghost phase = { λ v. v.phase };

    ghost hears = { TypeHears };

    ghost halts = { TypeHalts };

    ghost stops = { λ v. 0 };

    ghost rules = { type_rules };

    fn var_name(&self) -> VarName<'_> {
        self.name
    }

    fn purpose(&self) -> VisitPurpose {
        VisitPurpose::Typecheck
    }

    fn visit_undefined(&mut self) -> Result<(), Stop> {
        self.phase = Phase::Done;
        Ok(())
    }

    fn visit_string<T: Show>(&mut self, _value: &T) -> Result<(), Stop> {
        self.phase = Phase::Done;
        Ok(())
    }

    fn visit_list(&mut self) -> Result<(), Stop> {
        self.phase = Phase::InList;
        Ok(())
    }

    fn visit_item<T: Show>(&mut self, _item: &T) -> Result<(), Stop> {
        self.members = true;
        Ok(())
    }

    fn visit_assoc(&mut self) -> Result<(), Stop> {
        self.phase = Phase::InPairs;
        Ok(())
    }

    fn visit_entry<K: Show, T: Show>(&mut self, _key: &K, _value: &T) -> Result<(), Stop> {
        self.members = true;
        Ok(())
    }

    fn finish(&mut self) -> Result<(), Stop> {
        self.phase = Phase::Done;
        Ok(())
    }

    #[tactic(auto, using(crate::specs::inside::Members::list_members))]
    fn visit_list_direct<T: Show>(&mut self, items: &[T]) -> Result<(), Stop> {
        self.phase = Phase::Done;
        self.members |= !items.is_empty();
        Ok(())
    }

    #[tactic(auto, using(crate::specs::inside::Members::pairs_members))]
    fn visit_assoc_direct<K: Show, T: Show>(&mut self, entries: &[(K, T)]) -> Result<(), Stop> {
        self.phase = Phase::Done;
        self.members |= !entries.is_empty();
        Ok(())
    }
}

// Whether a varspec has no use for its value.
#[tactic(auto, using(crate::specs::inside::Members::told_members))]
fn is_mistyped<C: Context>(context: &C, varspec: VarSpec<'_>) -> bool
    ensures { result ≡ is_mistyped varspec.entry.modifier (C.value_of context.now varspec.entry.name.text.now) }
{
    let mut visitor = TypeCheck::new(varspec.name);
    varspec.modifier.prefix().is_some() && context.visit(&mut visitor).is_ok() && visitor.members
}

// Whether no colon follows the first brace, so that no varspec has a prefix. Asked before each varspec is read, it gains
// 148 instructions a line of `expand` (3 %, 2026-12-01).
fn lacks_prefix(template: &str) -> bool
    ensures { result ≡ lacks colon (from left_brace template.now) }
{
    lacks(cut_before(template, b'{').1, b':')
}

// The place of the first varspec of a template that has no use for its value.
pub(crate) fn check_types<C: Context>(
    context: &C,
    template: UriTemplateStr<'_>,
) -> Result<(), Error>
    ensures { Answers result (type_fault (C.value_of context.now) (pieces_of (text template.entry))) }
{
    let s = template.as_str();
    if lacks_prefix(s) {
        return Ok(());
    }
    let mut left = UriTemplateVariables::of(s);
    'varspecs: while let Some(varspec) = left.next_varspec() {
        if is_mistyped(context, varspec) {
            return Err(Error::new(ErrorKind::UnexpectedValueType, varspec.location));
        }
    }
    Ok(())
}
