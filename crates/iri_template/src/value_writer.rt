//! A visitor that writes the value of a variable (RFC 6570 section 3.2.1).
ghost use Rattle.std.specs.Prelude.{◌≡◌, ◌++◌, ◌∷◌, [], false, MatchResult};
ghost use Rattle.iri_text.specs.Shown.{Shows};
ghost use Rattle.iri_template.specs.Events.{StringTold, Item, Entry};
ghost use Rattle.iri_template.specs.Expansion.{row_of, lead};
ghost use Rattle.iri_template.specs.inside.Written.{write_state, name_part, item_lead, entry_lead, entry_delimiter};
ghost use Rattle.iri_template.specs.inside.Written.{event_text};
ghost use Rattle.iri_template.specs.inside.WriterHears.{WriterHears, WriterHalts, writer_rules};
ghost use Rattle.iri_template.specs.declared.visitor.Phase.TheVariants.{Fresh, Halted};
ghost use Rattle.iri_template.specs.declared.visitor.VisitPurpose.TheVariants.{Expand};

use crate::encoded_value::EncodedValue;
use crate::operator::Operator;
use crate::var_name::VarName;
use crate::varspec::Modifier;
use crate::visitor::{Phase, VisitPurpose, Visitor};
use iri_grammar::spec::Spec;
use iri_text::{Show, Stop, TextSink, show_four, show_three, show_two};
use std::marker::PhantomData;

// The varspec that is expanded, and what was written of the expression.
#[derive(Clone, Copy)]
pub(crate) struct ExpressionState<'a> {
    pub(crate) operator: Operator,
    pub(crate) name: VarName<'a>,
    pub(crate) modifier: Modifier,
    // Whether a text of the expression was written.
    pub(crate) written: bool,
    // Whether a member of the value was written.
    pub(crate) member: bool,
}

// Writes the value that it is told to a sink. Where a prefix stands, it takes the members of a value and writes none of
// them: the value is mistyped.
#[derive(Drop)]
pub(crate) struct ValueWriter<'w, S, W> {
    pub(crate) to: &'w mut W,
    pub(crate) state: ExpressionState<'w>,
    pub(crate) phase: Phase,
    pub(crate) mistyped: bool,
    spec: PhantomData<S>,
}

impl<'w, S, W> ValueWriter<'w, S, W> {
    // What the variable is told goes to the sink.
    pub(crate) fn new(to: &'w mut W, state: ExpressionState<'w>) -> ValueWriter<'w, S, W>
        ensures same { result.to.ghost_name ≡ to.entry.ghost_name }
        ensures now { result.to.now ≡ to.old }
        ensures state { result.state ≡ state.entry }
        ensures phase { result.phase ≡ Fresh }
        ensures mistyped { result.mistyped ≡ false }
    {
        ValueWriter {
            to,
            state,
            phase: Phase::Fresh,
            mistyped: false,
            spec: PhantomData,
        }
    }
}

// The phase after a call that goes on to this one.
fn phase_after(shown: &Result<(), Stop>, phase: Phase) -> Phase
    ensures { MatchResult shown.now (λ _. result ≡ phase) (λ _. result ≡ Halted) }
{
    match shown {
        Ok(()) => phase,
        Err(_) => Phase::Halted,
    }
}

// Shows the operator's first text or its separator, and the name where names are written.
fn show_lead<W: TextSink>(sink: &mut W, state: ExpressionState<'_>) -> Result<(), Stop>
    ensures { Shows W.puts W.halts W.stops sink.old
        (lead (row_of state.entry.operator) state.entry.written
        ++ name_part (row_of state.entry.operator) state.entry.name.text.now) sink.new result }
{
    let first = state.operator.lead(state.written);
    if state.operator.is_named() {
        show_three(sink, &first, &state.name.as_str(), &"=")
    } else {
        sink.put(first)
    }
}

fn show_item_lead<W: TextSink>(sink: &mut W, state: ExpressionState<'_>) -> Result<(), Stop>
    ensures { Shows W.puts W.halts W.stops sink.old (item_lead (write_state state.entry)) sink.new result }
{
    if state.member && !state.modifier.explodes() {
        sink.put(",")
    } else {
        show_lead(sink, state)
    }
}

fn show_entry_lead<W: TextSink>(sink: &mut W, state: ExpressionState<'_>) -> Result<(), Stop>
    ensures { Shows W.puts W.halts W.stops sink.old (entry_lead (write_state state.entry)) sink.new result }
{
    if state.modifier.explodes() {
        sink.put(state.operator.lead(state.written))
    } else {
        show_item_lead(sink, state)
    }
}

fn show_string<T: Show, S: Spec, W: TextSink>(
    sink: &mut W,
    state: ExpressionState<'_>,
    value: &T,
) -> Result<(), Stop>
    ensures { Shows W.puts W.halts W.stops sink.old
        (event_text S.tests (write_state state.entry) (StringTold (T.text value.now))) sink.new result }
{
    let first = state.operator.lead(state.written);
    let shown = EncodedValue::<T, S>::new(
        value,
        state.operator.allows_reserved(),
        state.modifier.prefix(),
    );
    if !state.operator.is_named() {
        return show_two(sink, &first, &shown);
    }
    let name = state.name.as_str();
    if shown.is_empty() {
        return show_three(sink, &first, &name, &state.operator.if_empty());
    }
    show_four(sink, &first, &name, &"=", &shown)
}

fn show_item<T: Show, S: Spec, W: TextSink>(
    sink: &mut W,
    state: ExpressionState<'_>,
    item: &T,
) -> Result<(), Stop>
    ensures { Shows W.puts W.halts W.stops sink.old
        (event_text S.tests (write_state state.entry) (Item (T.text item.now))) sink.new result }
{
    show_item_lead(sink, state)?;
    EncodedValue::<T, S>::new(item, state.operator.allows_reserved(), None).show(sink)
}

fn entry_delimiter(state: ExpressionState<'_>) -> &'static str
    ensures { result.now ≡ entry_delimiter state.entry.modifier ∷ [] }
{
    if state.modifier.explodes() { "=" } else { "," }
}

fn show_entry<K: Show, T: Show, S: Spec, W: TextSink>(
    sink: &mut W,
    state: ExpressionState<'_>,
    key: &K,
    value: &T,
) -> Result<(), Stop>
    ensures { Shows W.puts W.halts W.stops sink.old
        (event_text S.tests (write_state state.entry) (Entry (K.text key.now) (T.text value.now))) sink.new result }
{
    let allow = state.operator.allows_reserved();
    show_entry_lead(sink, state)?;
    show_three(
        sink,
        &EncodedValue::<K, S>::new(key, allow, None),
        &entry_delimiter(state),
        &EncodedValue::<T, S>::new(value, allow, None),
    )
}

impl<'w, S: Spec, W: TextSink> Visitor for ValueWriter<'w, S, W> {
    ghost name = { λ v. v.state.name.text.now };

    ghost aim = { λ v. Expand };

    ghost phase = { λ v. v.phase };

    ghost hears = { WriterHears S.tests W.puts };

    ghost halts = { WriterHalts S.tests W.halts };

    ghost stops = { λ v. W.stops v.to.now };

    ghost rules = { writer_rules S.tests W.rules };

    fn var_name(&self) -> VarName<'_> {
        self.state.name
    }

    fn purpose(&self) -> VisitPurpose {
        VisitPurpose::Expand
    }

    fn visit_undefined(&mut self) -> Result<(), Stop> {
        self.phase = Phase::Done;
        Ok(())
    }

    fn visit_string<T: Show>(&mut self, value: &T) -> Result<(), Stop> {
        let result = show_string::<T, S, W>(&mut *self.to, self.state, value);
        self.state.written = true;
        self.phase = phase_after(&result, Phase::Done);
        result
    }

    fn visit_list(&mut self) -> Result<(), Stop> {
        self.phase = Phase::InList;
        Ok(())
    }

    fn visit_item<T: Show>(&mut self, item: &T) -> Result<(), Stop> {
        if self.state.modifier.prefix().is_some() {
            self.mistyped = true;
            return Ok(());
        }
        let result = show_item::<T, S, W>(&mut *self.to, self.state, item);
        self.state.written = true;
        self.state.member = true;
        self.phase = phase_after(&result, Phase::InList);
        result
    }

    fn visit_assoc(&mut self) -> Result<(), Stop> {
        self.phase = Phase::InPairs;
        Ok(())
    }

    fn visit_entry<K: Show, T: Show>(&mut self, key: &K, value: &T) -> Result<(), Stop> {
        if self.state.modifier.prefix().is_some() {
            self.mistyped = true;
            return Ok(());
        }
        let result = show_entry::<K, T, S, W>(&mut *self.to, self.state, key, value);
        self.state.written = true;
        self.state.member = true;
        self.phase = phase_after(&result, Phase::InPairs);
        result
    }

    fn finish(&mut self) -> Result<(), Stop> {
        self.phase = Phase::Done;
        Ok(())
    }
}
