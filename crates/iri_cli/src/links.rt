// The answers of `links`, which reads field values as RFC 8288 section 3 has them, or laxly.
ghost use Rattle.iri_text.specs.Sink.{PutsAll, sink_state};
ghost use Rattle.iri_link.specs.LaxReadings.{lax_links_in};
ghost use Rattle.iri_normal.specs.Resolver.{base_text};
ghost use Rattle.iri_cli.specs.links.Answers.{field_refusal, links_line, links_text};

use crate::run::answers::{AnswerError, Answers, Setup};
use crate::run::puts::{put_bad, say_good};
use crate::run::sink_text::SinkText;
use iri_grammar::spec::Spec;
use iri_link::{LinkError, LinkKind, check_field, show_lax_links_against_in};
use iri_normal::mode::CanonMode;
use iri_normal::resolver::FixedBaseResolver;
use iri_text::{Failed, Sink, write_to_slice};
use std::alloc::AllocError;

// Puts the answer to a line that has a fault. It takes no memory.
fn put_fault<O: Sink>(sink: &mut O, kind: LinkKind, place: usize) -> Result<(), Failed>
    ensures { let state = sink_state O.written O.faults O.room_left in
        PutsAll (state sink.old) (state sink.new) result
        (field_refusal (record { kind = kind; place = place })) }
{
    let mut words = [0u8; 80];
    match write_to_slice(&mut words, &LinkError::Fault(kind, place)) {
        Ok(text) => put_bad(sink, text),
        Err(_) => unreachable!(),
    }
}

// Puts the written form of the links of a text, read laxly.
fn put_written<S: Spec, O: Sink>(
    sink: &mut O,
    mode: CanonMode,
    resolver: &FixedBaseResolver<'_, S>,
    field: &str,
) -> Result<(), Failed>
    ensures { let state = sink_state O.written O.faults O.room_left in
        PutsAll (state sink.old) (state sink.new) result
        (links_text S.tests mode (base_text resolver.now) (lax_links_in S.tests field.now)) }
{
    let mut text = SinkText::new(sink);
    match show_lax_links_against_in(&mut text, mode, resolver, field) {
        Ok(()) => Ok(()),
        Err(_) => Err(Failed),
    }
}

// Puts the answer to a text that is read laxly; what has no fault is read alike.
fn put_links<S: Spec, O: Sink>(
    sink: &mut O,
    mode: CanonMode,
    resolver: &FixedBaseResolver<'_, S>,
    field: &str,
) -> Result<(), Failed>
    ensures { let state = sink_state O.written O.faults O.room_left in
        PutsAll (state sink.old) (state sink.new) result
        (links_line S.tests mode (base_text resolver.now) (lax_links_in S.tests field.now)) }
{
    sink.put_all(b"ok ")?;
    put_written(sink, mode, resolver, field)?;
    sink.put_all(b"\n")
}

/// Answers the value of a `Link` field by its links, with their canonical targets, in one written
/// form.
#[derive(Drop)]
pub struct Links {
    mode: CanonMode,
}

impl<S: Spec> Answers<S> for Links {
    type Start = Setup;

    ghost use Rattle.std.specs.Prelude.{false, refl};
    ghost use Rattle.iri_cli.specs.inside.StatelessAt.{IsStatelessAt};
    ghost use Rattle.iri_cli.specs.links.Answers.{links_answer};
    ghost use Rattle.iri_cli.specs.links.Rules.{links_rules, takes_memory};

    ghost rules = { λ setup. links_rules S.tests setup.mode };

    ghost begins = { λ setup. record { line_limit = refl; input_limit = refl; refusal = refl } };

    ghost stands_at = { λ l base at. IsStatelessAt links_answer false takes_memory S.tests l.mode
        base at };

    fn open(
        setup: Setup,
        _resolver: &FixedBaseResolver<'_, S>,
        _output: Vec<u8>,
    ) -> Result<Self, AllocError> {
        Ok(Links { mode: setup.mode })
    }

    fn answer<O: Sink>(
        &mut self,
        resolver: &FixedBaseResolver<'_, S>,
        line: &[u8],
        sink: &mut O,
    ) -> Result<bool, AnswerError> {
        match check_field::<S>(line) {
            Ok(field) => say_good(true, put_links(sink, self.mode, resolver, field)),
            Err((kind, place)) => say_good(false, put_fault(sink, kind, place)),
        }
    }

    fn close<O: Sink>(&mut self, _sink: &mut O) -> Result<(), Failed> {
        Ok(())
    }
}

/// Answers the value of a `Link` field in the same way, read laxly.
#[derive(Drop)]
pub struct LaxLinks {
    mode: CanonMode,
}

impl<S: Spec> Answers<S> for LaxLinks {
    type Start = Setup;

    ghost use Rattle.std.specs.Prelude.{false, refl};
    ghost use Rattle.iri_cli.specs.inside.StatelessAt.{IsStatelessAt};
    ghost use Rattle.iri_cli.specs.links.Answers.{lax_answer};
    ghost use Rattle.iri_cli.specs.links.Rules.{lax_rules, takes_memory};

    ghost rules = { λ setup. lax_rules S.tests setup.mode };

    ghost begins = { λ setup. record { line_limit = refl; input_limit = refl; refusal = refl } };

    ghost stands_at = { λ l base at. IsStatelessAt lax_answer false takes_memory S.tests l.mode
        base at };

    fn open(
        setup: Setup,
        _resolver: &FixedBaseResolver<'_, S>,
        _output: Vec<u8>,
    ) -> Result<Self, AllocError> {
        Ok(LaxLinks { mode: setup.mode })
    }

    fn answer<O: Sink>(
        &mut self,
        resolver: &FixedBaseResolver<'_, S>,
        line: &[u8],
        sink: &mut O,
    ) -> Result<bool, AnswerError> {
        match str::from_utf8(line) {
            Ok(field) => say_good(true, put_links(sink, self.mode, resolver, field)),
            Err(error) => say_good(
                false,
                put_fault(sink, LinkKind::NotUtf8, error.valid_up_to()),
            ),
        }
    }

    fn close<O: Sink>(&mut self, _sink: &mut O) -> Result<(), Failed> {
        Ok(())
    }
}
