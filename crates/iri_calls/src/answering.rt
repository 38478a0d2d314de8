// The answer to one line, against one base for all lines or against a page of its own.
ghost use Rattle.std.specs.Prelude.{◌≡◌, None, Some, true};
ghost use Rattle.iri_grammar.specs.Fault.{bytes_fault};
ghost use Rattle.iri_grammar.specs.WholeFault.{absolute_fault};
ghost use Rattle.iri_text.specs.Lines.{no_cr};
ghost use Rattle.iri_text.specs.Shown.{Shows};
ghost use Rattle.iri_normal.specs.Answers.{answer_in};
ghost use Rattle.iri_normal.specs.Resolver.{base_text};
ghost use Rattle.iri_calls.specs.Lines.{answer_against};
ghost use Rattle.iri_normal.specs.Pairs.{answer_on, pairs_answer};
ghost use Rattle.iri_calls.specs.inside.BufferText.{BufferHalts, BufferPuts};

use crate::buffer::BufferSink;
use crate::canonical::Canonical;
use iri_grammar::cutting::find_byte;
use iri_grammar::spec::Spec;
use iri_normal::mode::CanonMode;
use iri_normal::resolver::FixedBaseResolver;
use iri_text::{Stop, TextSink, show_three};
use iri_types::kind::{Absolute, Reference};
use iri_types::split::SplitView;

/// The last page that was taken. It isn't read again where the next line has it.
#[derive(Drop)]
pub(crate) struct Held<'a, S: Spec> {
    pub(crate) page: Option<FixedBaseResolver<'a, S>>,
}

/// What lines are answered against: the resolver of one base, or each its own page, of which the last is held.
#[derive(Drop)]
pub(crate) enum Bases<R, H> {
    One(R),
    Pages(H),
}

// Puts the answer to a reference, with its LF.
fn put_reference<S: Spec>(
    mode: CanonMode,
    resolver: &FixedBaseResolver<'_, S>,
    line: &[u8],
    sink: &mut BufferSink<'_>,
) -> Result<(), Stop>
    ensures { Shows BufferPuts BufferHalts (λ s. s.stops) sink.old (answer_in S.tests mode (base_text resolver.now) line.now) sink.new result }
{
    match SplitView::<S, Reference>::try_from_bytes(line) {
        Ok(reference) => {
            let canonical = Canonical {
                mode,
                resolver,
                reference: &reference,
            };
            show_three(sink, &"ok ", &canonical, &"\n")
        }
        Err(error) => show_three(sink, &"bad ", &error.kind().description(), &"\n"),
    }
}

// A line without the CR at its end, where it has one.
fn without_cr(raw: &[u8]) -> &[u8]
    ensures { result.now ≡ no_cr raw.now }
{
    match raw.strip_suffix(b"\r") {
        Some(line) => line,
        None => raw,
    }
}

// Whether bytes are a text.
fn is_text(text: &str, bytes: &[u8]) -> bool
    ensures { result ≡ true → text.now ≡ bytes.now }
{
    text.as_bytes() == bytes
}

// Whether this is the base of a resolver.
fn is_base<S: Spec>(resolver: &FixedBaseResolver<'_, S>, page: &[u8]) -> bool
    ensures { result ≡ true → (base_text resolver.now ≡ page.now) × (bytes_fault (absolute_fault S.tests) page.now ≡ None) }
{
    is_text(resolver.base().as_str(), page)
}

// Puts the answer to a link on a page, and holds the page where it is taken.
fn put_on_page<'i, S: Spec>(
    mode: CanonMode,
    held: &mut Held<'i, S>,
    page: &'i [u8],
    link: &[u8],
    sink: &mut BufferSink<'_>,
) -> Result<(), Stop>
    ensures { Shows BufferPuts BufferHalts (λ s. s.stops) sink.old (answer_on S.tests mode page.now (Some link.now)) sink.new result }
{
    if let Some(resolver) = &held.page {
        if is_base(resolver, page) {
            return put_reference(mode, resolver, link, sink);
        }
    }
    match SplitView::<S, Absolute>::absolute_from_bytes(page) {
        Ok(page) => {
            let resolver = FixedBaseResolver::of_split(page);
            held.page = Some(resolver);
            put_reference(mode, &resolver, link, sink)
        }
        Err(error) => show_three(sink, &"base ", &error.kind().description(), &"\n"),
    }
}

// Puts the answer to a page and a link, which the first tab parts.
fn put_pair<'i, S: Spec>(
    mode: CanonMode,
    held: &mut Held<'i, S>,
    line: &'i [u8],
    sink: &mut BufferSink<'_>,
) -> Result<(), Stop>
    ensures { Shows BufferPuts BufferHalts (λ s. s.stops) sink.old (pairs_answer S.tests mode line.now) sink.new result }
{
    match find_byte(line, b'\t') {
        Some(at) => put_on_page(mode, held, &line[..at], &line[at + 1..], sink),
        None => sink.put("bad line\n"),
    }
}

/// Puts the answer to a line as it stands, with its LF.
pub(crate) fn put_answer<'i, S: Spec>(
    mode: CanonMode,
    bases: &mut Bases<FixedBaseResolver<'i, S>, Held<'i, S>>,
    raw: &'i [u8],
    sink: &mut BufferSink<'_>,
) -> Result<(), Stop>
    ensures shows { Shows BufferPuts BufferHalts (λ s. s.stops) sink.old (answer_against S.tests mode bases.old raw.now) sink.new result }
    ensures same { answer_against S.tests mode bases.new ≡ answer_against S.tests mode bases.old }
{
    let line = without_cr(raw);
    match bases {
        Bases::One(resolver) => put_reference(mode, resolver, line, sink),
        Bases::Pages(held) => put_pair(mode, held, line, sink),
    }
}
