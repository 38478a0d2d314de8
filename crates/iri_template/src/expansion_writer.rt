//! Expansions that are written: their expressions (RFC 6570 section 3.2.1), and the literals between them (section 3.1).
ghost use Rattle.std.specs.Prelude.{◌≡◌, ◌≤◌, ◌<◌, ◌+◌, ◌*◌, ◌^◌, ◌||◌, [], ◌∷◌, false, cond, None, map, length, IfErr};
ghost use Rattle.std.specs.Prelude.{OnOk, ◌-◌};
ghost use Rattle.iri_template.specs.Expansion.{row_of, value_texts};
ghost use Rattle.iri_template.specs.Fault.{text_fault};
ghost use Rattle.iri_template.specs.Portions.{varspec_portion, varspec_portions, portions};
ghost use Rattle.iri_template.specs.Reading.{pieces_of};
ghost use Rattle.iri_template.specs.Tells.{WhereTold, MovesBy, Calls};
ghost use Rattle.iri_template.specs.TypeFaults.{is_mistyped};
ghost use Rattle.iri_template.specs.Writings.{EndsAs, HasCause, CallsUpTo};
ghost use Rattle.iri_template.specs.inside.Checked.{state_texts, state_portion};
ghost use Rattle.iri_template.specs.declared.visitor.Phase.TheVariants.{Fresh};
ghost use Rattle.iri_template.specs.declared.visitor.VisitPurpose.TheVariants.{Typecheck, Expand};
ghost use Rattle.iri_template.specs.Template.{has_some, names_of};
ghost use Rattle.iri_template.specs.inside.PartEnds.{PartEnds, PartCalls, calls_of, begin_after, write_result};
ghost use Rattle.iri_template.specs.Variables.{varspecs_left};

use crate::dynamic_context::DynamicContext;
use crate::encoded_value::put_reserved;
use crate::error::{Error, ErrorKind};
use crate::operator::Operator;
use crate::part::Part;
use crate::parts::Parts;
use crate::type_check::TypeCheck;
use crate::value_writer::{ExpressionState, ValueWriter};
use crate::varspec::VarSpec;
use crate::varspecs::VarSpecs;
use iri_grammar::spec::Spec;
use iri_text::{Stop, TextSink};

// Looks at the value that the context tells next: whether the varspec has no use for it.
fn looks_mistyped<C: DynamicContext>(context: &mut C, varspec: VarSpec<'_>) -> bool
    ensures value { WhereTold (C.tells context.old)
        (λ f. result ≡ is_mistyped varspec.entry.modifier (f 0 varspec.entry.name.text.now Typecheck)) }
    ensures call { Calls 1 (C.tells context.old) (C.tells context.new) (C.starts context.old) (C.starts context.new)
        (C.ends context.old) (C.ends context.new) }
{
    let mut visitor = TypeCheck::new(varspec.name);
    match context.visit_dynamic(&mut visitor) {
        Ok(()) => varspec.modifier.prefix().is_some() && visitor.members,
        Err(_) => false,
    }
}

// Tells a writer the value that the context tells next. `at` is the place of the varspec.
fn tell_next<C: DynamicContext, S: Spec, W: TextSink>(
    visitor: &mut ValueWriter<S, W>,
    context: &mut C,
    at: usize,
) -> Result<(), Error>
    requires fresh { visitor.old.phase ≡ Fresh }
    requires first { visitor.old.state.member ≡ false }
    requires right { visitor.old.mistyped ≡ false }
    ensures written { WhereTold (C.tells context.old)
        (λ f. EndsAs W.puts W.halts (state_portion S.tests at visitor.old.state false
        (f 0 visitor.old.state.name.text.now Expand) ∷ []) visitor.old.to.now visitor.new.to.now
        result) }
    ensures goes_on { OnOk result (WhereTold (C.tells context.old)
        (λ f. visitor.new.state.written ≡ (visitor.old.state.written || has_some
        (state_texts S.tests visitor.old.state (f 0 visitor.old.state.name.text.now Expand))))) }
    ensures same { visitor.new.to.ghost_name ≡ visitor.old.to.ghost_name }
    ensures place { IfErr result (λ e. e.location ≡ at) }
    ensures cause { HasCause (W.stops visitor.old.to.now) (W.stops visitor.new.to.now) result }
    ensures later { W.stops visitor.old.to.now ≤ W.stops visitor.new.to.now }
    ensures call { Calls 1 (C.tells context.old) (C.tells context.new) (C.starts context.old) (C.starts context.new)
        (C.ends context.old) (C.ends context.new) }
{
    match context.visit_dynamic(visitor) {
        Ok(()) if visitor.mistyped => Err(Error::new(ErrorKind::UnexpectedValueType, at)),
        Ok(()) => Ok(()),
        Err(_) => Err(Error::new(ErrorKind::WriteFailed, at)),
    }
}

// Looks at the value of a variable, and then writes it, after the operator's first text or its separator.
fn write_varspec<C: DynamicContext, S: Spec, W: TextSink>(
    sink: &mut W,
    context: &mut C,
    operator: Operator,
    varspec: VarSpec<'_>,
    written: &mut bool,
) -> Result<(), Error>
    ensures written { WhereTold (C.tells context.old)
        (λ f. EndsAs W.puts W.halts (varspec_portion S.tests operator varspec.entry.location written.old varspec.entry.name.text.now
        varspec.entry.modifier (is_mistyped varspec.entry.modifier (f 0 varspec.entry.name.text.now Typecheck))
        (f 1 varspec.entry.name.text.now Expand) ∷ []) sink.old sink.new result) }
    ensures goes_on { OnOk result (WhereTold (C.tells context.old)
        (λ f. written.new ≡ (written.old || has_some (value_texts S.tests (row_of operator) varspec.entry.name.text.now
        varspec.entry.modifier (f 1 varspec.entry.name.text.now Expand))))) }
    ensures cause { HasCause (W.stops sink.old) (W.stops sink.new) result }
    ensures later { W.stops sink.old ≤ W.stops sink.new }
    ensures moves { OnOk result (MovesBy 2 (C.tells context.old) (C.tells context.new)) }
    ensures place { IfErr result (λ e. e.location ≡ varspec.entry.location) }
    ensures calls { WhereTold (C.tells context.old)
        (λ f. MovesBy (cond (is_mistyped varspec.entry.modifier (f 0 varspec.entry.name.text.now Typecheck)) 1 2)
        (C.tells context.old) (C.tells context.new)) }
    ensures same_starts { C.starts context.new ≡ C.starts context.old }
    ensures same_ends { C.ends context.new ≡ C.ends context.old }
{
    if looks_mistyped(context, varspec) {
        return Err(Error::new(ErrorKind::UnexpectedValueType, varspec.location));
    }
    let state = ExpressionState {
        operator,
        name: varspec.name,
        modifier: varspec.modifier,
        written: *written,
        member: false,
    };
    let mut visitor = ValueWriter::<S, W>::new(sink, state);
    let result = tell_next(&mut visitor, context, varspec.location);
    *written = visitor.state.written;
    result
}

// Writes the values of the varspecs of an expression.
fn write_varspecs<C: DynamicContext, S: Spec, W: TextSink>(
    sink: &mut W,
    context: &mut C,
    operator: Operator,
    varspecs: VarSpecs<'_>,
) -> Result<(), Error>
    ensures written { WhereTold (C.tells context.old)
        (λ f. EndsAs W.puts W.halts (varspec_portions S.tests operator f false (varspecs_left varspecs.entry)) sink.old sink.new
        result) }
    ensures cause { HasCause (W.stops sink.old) (W.stops sink.new) result }
    ensures later { W.stops sink.old ≤ W.stops sink.new }
    ensures moves { OnOk result (MovesBy (2 * length (varspecs_left varspecs.entry)) (C.tells context.old)
        (C.tells context.new)) }
    ensures refused { IfErr result (λ e. WhereTold (C.tells context.old)
        (λ f. CallsUpTo (varspec_portions S.tests operator f false (varspecs_left varspecs.entry)) e.location 0
        (C.tells context.old) (C.tells context.new))) }
    ensures same_starts { C.starts context.new ≡ C.starts context.old }
    ensures same_ends { C.ends context.new ≡ C.ends context.old }
{
    let mut left = varspecs;
    let mut written = false;
    'varspecs: while let Some(varspec) = left.next() {
        match write_varspec::<C, S, W>(sink, context, operator, varspec, &mut written) {
            Ok(()) => {}
            Err(error) => return Err(error),
        }
    }
    Ok(())
}

// What is answered of literals and percent-encoded octets that begin at this place, where they were put or the sink
// stopped within them.
fn write_result(put: Result<(), Stop>, begin: usize) -> Result<(), Error>
    ensures { result ≡ write_result begin put }
{
    put.map_err(|_| Error::new(ErrorKind::WriteFailed, begin))
}

// Writes a part. `begin` is the place of the literals and percent-encoded octets to which it belongs, where it is one.
fn write_part<C: DynamicContext, S: Spec, W: TextSink>(
    sink: &mut W,
    context: &mut C,
    part: Part<'_>,
    begin: usize,
) -> Result<(), Error>
    ensures written { WhereTold (C.tells context.old)
        (PartEnds S.tests W.puts W.halts begin sink.old sink.new result part.entry) }
    ensures cause { HasCause (W.stops sink.old) (W.stops sink.new) result }
    ensures later { W.stops sink.old ≤ W.stops sink.new }
    ensures moves { OnOk result (MovesBy (calls_of part.entry) (C.tells context.old) (C.tells context.new)) }
    ensures refused { IfErr result (λ e. WhereTold (C.tells context.old)
        (PartCalls S.tests e.location begin (C.tells context.old) (C.tells context.new) part.entry)) }
    ensures same_starts { C.starts context.new ≡ C.starts context.old }
    ensures same_ends { C.ends context.new ≡ C.ends context.old }
{
    match part {
        Part::Expression(operator, varspecs) => {
            write_varspecs::<C, S, W>(sink, context, operator, varspecs)
        }
        Part::Literals(literals) => write_result(put_reserved::<S, W>(sink, literals), begin),
        Part::Triplet(triplet) => write_result(sink.put(triplet), begin),
    }
}

// Where the literals and percent-encoded octets after a part begin, which ends at `end`.
fn begin_after(part: &Part<'_>, begin: usize, end: usize) -> usize
    ensures { result ≡ begin_after part.now begin end }
{
    match part {
        Part::Expression(_, _) => end,
        _ => begin,
    }
}

// Writes the expansion of a template.
pub(crate) fn write_expansion<C: DynamicContext, S: Spec, W: TextSink>(
    sink: &mut W,
    context: &mut C,
    template: &str,
) -> Result<(), Error>
    requires { text_fault template.now ≡ None }
    ensures written { WhereTold (C.tells context.old)
        (λ f. EndsAs W.puts W.halts (portions S.tests f (pieces_of template.now)) sink.old sink.new result) }
    ensures cause { HasCause (W.stops sink.old) (W.stops sink.new) result }
    ensures later { W.stops sink.old ≤ W.stops sink.new }
    ensures moves { OnOk result (MovesBy (2 * length (names_of (pieces_of template.now))) (C.tells context.old)
        (C.tells context.new)) }
    ensures refused { IfErr result (λ e. WhereTold (C.tells context.old)
        (λ f. CallsUpTo (portions S.tests f (pieces_of template.now)) e.location 0 (C.tells context.old)
        (C.tells context.new))) }
    ensures same_starts { C.starts context.new ≡ C.starts context.old }
    ensures same_ends { C.ends context.new ≡ C.ends context.old }
{
    let mut left = Parts::of(template);
    let mut begin = 0usize;
    'parts: while let Some(part) = left.next() {
        let next = begin_after(&part, begin, left.location());
        match write_part::<C, S, W>(sink, context, part, begin) {
            Ok(()) => begin = next,
            Err(error) => return Err(error),
        }
    }
    Ok(())
}
