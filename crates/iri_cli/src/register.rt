// The answers of `register`.
ghost use Rattle.std.specs.Prelude.{◌≡◌, Option, Some, true, IfOk, OnErr, OnOk};
ghost use Rattle.iri_grammar.specs.declared.error.ErrorKind.{ErrorKind};
ghost use Rattle.iri_normal.specs.Resolver.{base_text};
ghost use Rattle.iri_text.specs.Sink.{PutsAll, sink_state};
ghost use Rattle.iri_register.specs.Entries.{Entry, entry_at};
ghost use Rattle.iri_register.specs.Refusals.{CausedBy};
ghost use Rattle.iri_cli.specs.run.Refused.{is_not_bad};
ghost use Rattle.iri_cli.specs.register.Answers.{answer_to, entry_line, entry_lines, joined, more_numbers, numbered};
ghost use Rattle.iri_cli.specs.register.Lines.{command_of};
ghost use Rattle.iri_cli.specs.register.Memory.{takes_memory};
ghost use Rattle.iri_register.specs.declared.error.RegisterError.{RegisterError};
ghost use Rattle.iri_cli.specs.inside.Asked.{asked};
ghost use Rattle.iri_cli.specs.inside.Replies.{IsRefusal, reply_text, obeyed_by};

pub(crate) mod line;

use crate::register::line::{Asked, line_of};
use crate::run::answers::{AnswerError, Answers, Setup};
use crate::run::puts::{put_bad, put_bad_line, put_number, say_good};
use iri_grammar::error::ErrorKind;
use iri_grammar::spec::Spec;
use iri_normal::resolver::FixedBaseResolver;
use iri_owned::owned::RiAbsoluteString;
use iri_register::added::Added;
use iri_register::error::RegisterError;
use iri_register::register::Register;
use iri_text::{Failed, Sink};
use std::alloc::AllocError;

// What is answered to a line.
#[derive(Clone, Copy)]
enum Reply {
    // The line stands in a new entry at this place.
    New(usize),
    // The line stands in the entry at this place.
    Old(usize),
    // An entry of so many lines went.
    Gone(usize),
    // The entry stands at this place.
    At(usize),
    // There is no such entry.
    NoEntry,
    // The reference has this fault.
    BadReference(ErrorKind),
    // Nothing was asked.
    BadLine,
}

// The reply where a register refuses a reference.
fn refused(error: RegisterError) -> Result<Reply, AllocError>
    ensures fault { (fault : Option ErrorKind) → CausedBy error fault → IfOk result (IsRefusal fault) }
    ensures memory { OnErr result (error ≡ RegisterError.Memory) }
{
    match error {
        RegisterError::Bad(error) => Ok(Reply::BadReference(error.kind())),
        RegisterError::Memory => Err(AllocError),
    }
}

// Does what the line of this number asks.
fn reply_to<S: Spec>(
    register: &mut Register<S>,
    resolver: &FixedBaseResolver<'_, S>,
    line: Asked<'_>,
    number: u64,
) -> Result<Reply, AllocError>
    ensures reply { IfOk result (λ reply. reply_text reply
        ≡ answer_to S.tests register.old.mode (base_text resolver.now) register.old.entries (asked line.entry)) }
    ensures entries { OnOk result (register.new.entries ≡ obeyed_by register.old.entries
        (command_of S.tests register.old.mode (base_text resolver.now) number (asked line.entry))) }
    ensures base { register.new.base ≡ register.old.base }
    ensures mode { register.new.mode ≡ register.old.mode }
    ensures memory { OnErr result (takes_memory S.tests register.old.entries (asked line.entry) ≡ true) }
{
    match line {
        Asked::Adds(reference) => match register.add_against(resolver, reference, number) {
            Ok(Added::New(place)) => Ok(Reply::New(place)),
            Ok(Added::Old(place)) => Ok(Reply::Old(place)),
            Err(error) => refused(error),
        },
        Asked::Removes(reference) => match register.remove_against(resolver, reference) {
            Ok(Some(count)) => Ok(Reply::Gone(count)),
            Ok(None) => Ok(Reply::NoEntry),
            Err(error) => refused(error),
        },
        Asked::Finds(reference) => match register.find_against(resolver, reference) {
            Ok(Some(place)) => Ok(Reply::At(place)),
            Ok(None) => Ok(Reply::NoEntry),
            Err(error) => refused(error),
        },
        Asked::Bad => Ok(Reply::BadLine),
    }
}

// Whether a reply lets the run end in status 0.
fn is_good(reply: Reply) -> bool
    ensures { result ≡ is_not_bad (reply_text reply) }
{
    !matches!(reply, Reply::BadReference(_) | Reply::BadLine)
}

// Puts words and a number, as a line.
fn put_numbered<O: Sink>(sink: &mut O, words: &str, number: usize) -> Result<(), Failed>
    ensures { let state = sink_state O.written O.faults O.room_left in
        PutsAll (state sink.old) (state sink.new) result (numbered words.now number) }
{
    sink.put_all(words.as_bytes())?;
    put_number(sink, number)?;
    sink.put_all(b"\n")
}

fn put_reply<O: Sink>(sink: &mut O, reply: Reply) -> Result<(), Failed>
    ensures { let state = sink_state O.written O.faults O.room_left in
        PutsAll (state sink.old) (state sink.new) result (reply_text reply) }
{
    match reply {
        Reply::New(place) => put_numbered(sink, "new ", place),
        Reply::Old(place) => put_numbered(sink, "old ", place),
        Reply::Gone(count) => put_numbered(sink, "gone ", count),
        Reply::At(place) => put_numbered(sink, "at ", place),
        Reply::NoEntry => sink.put_all(b"none\n"),
        Reply::BadReference(kind) => put_bad(sink, kind.description()),
        Reply::BadLine => put_bad_line(sink),
    }
}

// Puts numbers, each after a comma.
fn put_more<O: Sink>(sink: &mut O, numbers: &[u64]) -> Result<(), Failed>
    ensures { let state = sink_state O.written O.faults O.room_left in
        PutsAll (state sink.old) (state sink.new) result (more_numbers numbers.now) }
{
    for number in numbers {
        sink.put_all(b",")?;
        put_number(sink, *number as usize)?;
    }
    Ok(())
}

// Puts numbers, joined by commas.
fn put_joined<O: Sink>(sink: &mut O, numbers: &[u64]) -> Result<(), Failed>
    ensures { let state = sink_state O.written O.faults O.room_left in
        PutsAll (state sink.old) (state sink.new) result (joined numbers.now) }
{
    let Some((first, rest)) = numbers.split_first() else {
        return Ok(());
    };
    put_number(sink, *first as usize)?;
    put_more(sink, rest)
}

// Puts an entry: its place, the numbers of its lines, its target.
fn put_entry_line<O: Sink>(
    sink: &mut O,
    place: usize,
    lines: &[u64],
    target: &str,
) -> Result<(), Failed>
    ensures { let state = sink_state O.written O.faults O.room_left in
        PutsAll (state sink.old) (state sink.new) result
        (entry_line place (record { target = target.now; lines = lines.now })) }
{
    put_number(sink, place)?;
    sink.put_all(b" ")?;
    put_joined(sink, lines)?;
    sink.put_all(b" ")?;
    sink.put_all(target.as_bytes())?;
    sink.put_all(b"\n")
}

// Puts the entry at a place.
fn put_entry<S: Spec, O: Sink>(
    sink: &mut O,
    register: &Register<S>,
    place: usize,
) -> Result<(), Failed>
    requires { (e : Entry) × (entry_at register.now.entries place ≡ Some e) }
    ensures { let state = sink_state O.written O.faults O.room_left in
        (e : Entry) → entry_at register.now.entries place ≡ Some e
        → PutsAll (state sink.old) (state sink.new) result (entry_line place e) }
{
    match (register.lines_at(place), register.target_at(place)) {
        (Some(lines), Some(target)) => put_entry_line(sink, place, lines, target),
        _ => unreachable!(),
    }
}

// Puts all entries, in order.
fn put_entries<S: Spec, O: Sink>(sink: &mut O, register: &Register<S>) -> Result<(), Failed>
    ensures { let state = sink_state O.written O.faults O.room_left in
        PutsAll (state sink.old) (state sink.new) result (entry_lines 1 register.now.entries) }
{
    for index in 0..register.len() {
        put_entry(sink, register, index + 1)?;
    }
    Ok(())
}

/// Answers each line by what it asks of a register of links.
#[derive(Drop)]
pub struct Registers<S: Spec> {
    register: Register<S>,
    // How many lines after the base line were answered.
    answered: u64,
}

impl<S: Spec> Answers<S> for Registers<S> {
    type Start = Setup;

    ghost use Rattle.std.specs.Prelude.{refl};
    ghost use Rattle.iri_cli.specs.inside.RegisterAt.{IsRegisterAt};
    ghost use Rattle.iri_cli.specs.register.Rules.{register_rules};

    ghost rules = { λ setup. register_rules S.tests setup.mode };

    ghost begins = { λ setup. record { line_limit = refl; input_limit = refl; refusal = refl } };

    ghost stands_at = { λ r base at. IsRegisterAt S.tests base r.register r.answered at };

    fn open(
        setup: Setup,
        resolver: &FixedBaseResolver<'_, S>,
        _output: Vec<u8>,
    ) -> Result<Self, AllocError> {
        let Setup { alloc, mode } = setup;
        let base = RiAbsoluteString::from_view(alloc, resolver.base())?;
        Ok(Registers {
            register: Register::new_in(alloc, mode, base),
            answered: 0,
        })
    }

    fn answer<O: Sink>(
        &mut self,
        resolver: &FixedBaseResolver<'_, S>,
        line: &[u8],
        sink: &mut O,
    ) -> Result<bool, AnswerError> {
        // The base line has number 1.
        match reply_to(
            &mut self.register,
            resolver,
            line_of(line),
            self.answered + 2,
        ) {
            Ok(reply) => {
                self.answered += 1;
                say_good(is_good(reply), put_reply(sink, reply))
            }
            Err(_) => Err(AnswerError::Memory),
        }
    }

    fn close<O: Sink>(&mut self, sink: &mut O) -> Result<(), Failed> {
        put_entries(sink, &self.register)
    }
}
