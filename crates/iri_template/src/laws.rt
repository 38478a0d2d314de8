//! Laws of the definitions and of the types, as functions whose contracts say them.
ghost use Rattle.std.specs.Prelude.{◌≡◌, ◌↔◌, ◌+◌, ◌*◌, ◌++◌, ℕ, List, None, Some, IsTrue, MatchResult, fold};
ghost use Rattle.std.specs.Ordering.{nat_cmp};
ghost use Rattle.std.specs.Cmp.Lexicographic.{slice_cmp};
ghost use Rattle.std.specs.Hash as fed;
ghost use Rattle.std.specs.Str.{IsUtf8};
ghost use Rattle.iri_percent.specs.CharUnits.{char_units};
ghost use Rattle.iri_grammar.specs.Classes.{Tests};
ghost use Rattle.iri_template.specs.Writings.{HasCause};
ghost use Rattle.iri_template.specs.Expansion.{text_units, expansion};
ghost use Rattle.iri_template.specs.Portions.{portions, portions_fault, portions_text};
ghost use Rattle.iri_template.specs.ShownValues.{ShownValue};
ghost use Rattle.iri_template.specs.Tells.{Telling, always};
ghost use Rattle.iri_template.specs.TypeFaults.{type_fault};
ghost use Rattle.iri_template.specs.declared.error.ErrorKind.TheVariants.{UnexpectedValueType};
ghost use Rattle.iri_template.specs.declared.visitor.VisitPurpose.TheVariants.{Typecheck, Expand};
ghost use Rattle.iri_template.specs.Template.{Piece, Spells, IsTemplate};
ghost use Rattle.iri_template.specs.Reading.{pieces_of};
ghost use Rattle.iri_template.specs.Fault.{text_fault, template_fault};
ghost use Rattle.iri_template.specs.Texts.{text};

use crate::context::Context;
use crate::dynamic_context::Fixed;
use crate::error::Error;
use crate::template::UriTemplateStr;
use crate::var_name::VarName;
use iri_grammar::spec::Spec;
use iri_text::TextSink;
use std::cmp::Ordering;
use std::hash::{Hash, Hasher};

/// Bytes have no fault exactly where they are a template, so where literals, percent-encoded octets and expressions spell
/// them (RFC 6570 section 2). At most one list of these does, and `pieces_of` is it.
pub fn no_fault_of_templates()
    ensures template { (bs : List ℕ) → (template_fault bs ≡ None) ↔ IsTemplate bs }
    ensures pieces { (bs : List ℕ) → template_fault bs ≡ None → Spells (pieces_of bs) bs }
    ensures one { (bs : List ℕ) (ps : List Piece) → Spells ps bs → pieces_of bs ≡ ps }
    ensures utf8 { (bs : List ℕ) → IsTemplate bs → IsUtf8 bs }
{}

/// Two templates one after the other are a template.
#[tactic(auto, using(crate::proofs::Grammar::templates_joined))]
pub fn joined_templates()
    ensures { (a b : List ℕ) → template_fault a ≡ None → template_fault b ≡ None → template_fault (a ++ b) ≡ None }
{}

/// The units that an expansion counts and keeps are those of the text: each character outside percent-encoded octets, each
/// character in percent-encoded octets, each other percent-encoded octet, and each `%` that begins none.
pub fn units_of_values()
    ensures { (t : List ℕ) → IsUtf8 t → text_units t ≡ char_units t }
{}

/// Where every call of a context tells the same values, what is written is the expansion with these, and the first fault
/// is theirs.
#[tactic(auto, using(crate::proofs::FixedLemmas::fixed_fault, crate::proofs::FixedLemmas::fixed_text))]
pub fn fixed_values()
    ensures fault { (s : Tests) (value : List ℕ → ShownValue) (ps : List Piece)
        → portions_fault (portions s (always value) ps) ≡ type_fault value ps }
    ensures text { (s : Tests) (value : List ℕ → ShownValue) (ps : List Piece)
        → type_fault value ps ≡ None → portions_text (portions s (always value) ps) ≡ expansion s value ps }
{}

/// What is written where values change is decided by two values of each varspec alone: for the first, that of call 0 for
/// its type and that of call 1 to be written, for the second those of calls 2 and 3, and so on.
#[tactic(auto, using(crate::proofs::FixedLemmas::same_portions))]
pub fn numbered_calls()
    ensures { (s : Tests) (f g : Telling) (ps : List Piece)
        → ((i : ℕ) (name : List ℕ) → f (2 * i) name Typecheck ≡ g (2 * i) name Typecheck)
        → ((i : ℕ) (name : List ℕ) → f (2 * i + 1) name Expand ≡ g (2 * i + 1) name Expand)
        → portions s f ps ≡ portions s g ps }
{}

/// An expansion with a context that stays as it is writes the text that `expand` has, or is refused at the same place.
pub fn expanded_as_fixed<S: Spec, W: TextSink, C: Context>(
    template: UriTemplateStr<'_>,
    writer: &mut W,
    context: &C,
) -> Result<(), Error>
    ensures same { MatchResult result
        (λ _. (type_fault (C.value_of context.now) (pieces_of (text template.entry)) ≡ None)
        × W.puts writer.old (expansion S.tests (C.value_of context.now) (pieces_of (text template.entry))) writer.new)
        (λ e. e.kind ≡ UnexpectedValueType
        → type_fault (C.value_of context.now) (pieces_of (text template.entry)) ≡ Some e) }
    ensures cause { HasCause (W.stops writer.old) (W.stops writer.new) result }
{
    let mut fixed = Fixed::new(context);
    template.expand_dynamic::<S, W, Fixed<'_, C>>(writer, &mut fixed)
}

/// Templates are equal exactly where their texts are.
pub fn equal_as_texts(a: UriTemplateStr<'_>, b: UriTemplateStr<'_>) -> bool
    ensures { IsTrue result ↔ text a.entry ≡ text b.entry }
{
    a == b
}

/// Templates are ordered as their texts, byte by byte.
pub fn ordered_as_texts(a: UriTemplateStr<'_>, b: UriTemplateStr<'_>) -> Ordering
    ensures { result ≡ slice_cmp nat_cmp (text a.entry) (text b.entry) }
{
    a.cmp(&b)
}

/// Templates are hashed as their texts.
pub fn hashed_as_texts<H: Hasher>(v: UriTemplateStr<'_>, state: &mut H)
    ensures { state.new ≡ fold H.write state.old (fed.str (text v.entry)) }
{
    v.hash(state);
}

/// Names are equal exactly where their texts are.
pub fn names_equal_as_texts(a: VarName<'_>, b: VarName<'_>) -> bool
    ensures { IsTrue result ↔ a.entry.text.now ≡ b.entry.text.now }
{
    a == b
}

/// Names are hashed as their texts.
pub fn names_hashed_as_texts<H: Hasher>(v: VarName<'_>, state: &mut H)
    ensures { state.new ≡ fold H.write state.old (fed.str v.entry.text.now) }
{
    v.hash(state);
}
