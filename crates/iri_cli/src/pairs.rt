// The answers of `pairs`: those to links, page by page.
ghost use Rattle.std.specs.Prelude.{◌≡◌, ◌≤◌, ◌+◌, length, take, true};
ghost use Rattle.std.specs.Vec.{vec_capacity};
ghost use Rattle.iri_normal.specs.Resolver.{base_text};
ghost use Rattle.iri_cli.specs.inside.Going.{Beginning, GoesOn, ahead};
ghost use Rattle.iri_cli.specs.inside.Paged.{IsPage, WaitsBy, paged_rules};
ghost use Rattle.iri_cli.specs.run.Buffers.{AreBuffers};
ghost use Rattle.iri_cli.specs.run.Limits.{answer_room, longest_line};
ghost use Rattle.iri_cli.specs.run.Run.{Ran, Runs, outside_state};

pub(crate) mod link;
pub(crate) mod pair;

use crate::pairs::link::{LinkText, put_link};
use crate::pairs::pair::{link_on, pair_of};
use crate::run::answering::{go_on, next_line};
use crate::run::buffers::{CanonBuffers, room_for};
use crate::run::end::{End, finish};
use crate::run::puts::{put_bad_line, put_line, say_good};
use iri_grammar::spec::Spec;
use iri_normal::resolver::FixedBaseResolver;
use iri_text::{Failed, LineReader, Sink, Source};
use iri_types::split::SplitView;

/// What answers each link on its page, and whether all answers so far are good.
#[derive(Drop)]
struct Pairs {
    text: LinkText,
    output: Vec<u8>,
    all_good: bool,
}

// Writes bytes over the start of others.
#[inline(always)]
fn put_over(held: &mut [u8], bytes: &[u8])
    requires { length bytes.now ≤ length held.old }
    ensures { take (length bytes.now) held.new ≡ bytes.now }
{
    held[..bytes.len()].copy_from_slice(bytes);
}

// Holds a page over the start of another, of which what is longer stays behind it.
#[inline(always)]
fn hold(held: &mut Vec<u8>, page: &[u8])
    requires { length page.now ≤ vec_capacity held.old }
    ensures room { length page.now ≤ length held.new.items }
    ensures text { take (length page.now) held.new.items ≡ page.now }
    ensures capacity { vec_capacity held.old ≤ vec_capacity held.new }
{
    room_for(held, page.len());
    put_over(held, page);
}

// Answers lines with the page of a resolver, from that of the reader on. None where the reader has a line with another page, or with none.
fn answer_page<S: Spec, I: Source, O: Sink>(
    pairs: &mut Pairs,
    resolver: &FixedBaseResolver<'_, S>,
    reader: &mut LineReader,
    source: &mut I,
    sink: &mut O,
) -> Option<End>
    requires page { IsPage S.tests (base_text resolver.now) }
    requires output { answer_room ≤ vec_capacity pairs.old.output }
    requires waits { let state = outside_state I.left I.faults O.written O.faults O.room_left in
        (b : Beginning) × WaitsBy (paged_rules S.tests pairs.old.text) b reader.old (state source.old sink.old) pairs.old.all_good }
    ensures goes { let state = outside_state I.left I.faults O.written O.faults O.room_left in
        (b : Beginning)
        → WaitsBy (paged_rules S.tests pairs.old.text) b reader.old (state source.old sink.old) pairs.old.all_good
        → GoesOn b (ahead reader.old + 1) reader.new (state source.new sink.new) pairs.new.all_good result }
    ensures by { pairs.new.text ≡ pairs.old.text }
    ensures output { answer_room ≤ vec_capacity pairs.new.output }
{
    let text = pairs.text;
    let page = resolver.base().as_str();
    'links: loop {
        let Some(link) = link_on(reader.line(), page) else {
            return None;
        };
        let answer = put_link::<S, O>(sink, &mut pairs.output, text, resolver, link);
        match go_on(answer, &mut pairs.all_good, reader, source, sink) {
            Some(end) => return Some(end),
            None => (),
        }
    }
}

// Answers the line that the reader has, and those after it that have its page.
fn answer_from<S: Spec, I: Source, O: Sink>(
    pairs: &mut Pairs,
    held: &mut Vec<u8>,
    reader: &mut LineReader,
    source: &mut I,
    sink: &mut O,
) -> Option<End>
    requires held { longest_line ≤ vec_capacity held.old }
    requires output { answer_room ≤ vec_capacity pairs.old.output }
    requires waits { let state = outside_state I.left I.faults O.written O.faults O.room_left in
        (b : Beginning) × WaitsBy (paged_rules S.tests pairs.old.text) b reader.old (state source.old sink.old) pairs.old.all_good }
    ensures goes { let state = outside_state I.left I.faults O.written O.faults O.room_left in
        (b : Beginning)
        → WaitsBy (paged_rules S.tests pairs.old.text) b reader.old (state source.old sink.old) pairs.old.all_good
        → GoesOn b (ahead reader.old) reader.new (state source.new sink.new) pairs.new.all_good result }
    ensures by { pairs.new.text ≡ pairs.old.text }
    ensures held { longest_line ≤ vec_capacity held.new }
    ensures output { answer_room ≤ vec_capacity pairs.new.output }
{
    match pair_of(reader.line()) {
        Some(pair) => {
            hold(held, pair.page);
            match SplitView::<S, _>::absolute_from_bytes(&held[..pair.page.len()]) {
                Ok(page) => {
                    let resolver = FixedBaseResolver::of_split(page);
                    let answer = put_link::<S, O>(
                        sink,
                        &mut pairs.output,
                        pairs.text,
                        &resolver,
                        pair.link,
                    );
                    match go_on(answer, &mut pairs.all_good, reader, source, sink) {
                        Some(end) => Some(end),
                        None => answer_page::<S, I, O>(pairs, &resolver, reader, source, sink),
                    }
                }
                Err(error) => {
                    let answer = say_good(
                        false,
                        put_line(sink, "base ", error.kind().description()),
                    );
                    go_on(answer, &mut pairs.all_good, reader, source, sink)
                }
            }
        }
        None => {
            let answer = say_good(false, put_bad_line(sink));
            go_on(answer, &mut pairs.all_good, reader, source, sink)
        }
    }
}

// Answers all lines.
fn answer_pages<S: Spec, I: Source, O: Sink>(
    pairs: &mut Pairs,
    held: &mut Vec<u8>,
    reader: &mut LineReader,
    source: &mut I,
    sink: &mut O,
) -> End
    requires buffers { AreBuffers reader.old (vec_capacity held.old) (vec_capacity pairs.old.output) }
    requires good { pairs.old.all_good ≡ true }
    ensures { let state = outside_state I.left I.faults O.written O.faults O.room_left in
        Ran (paged_rules S.tests pairs.old.text)
        (state source.old sink.old) (state source.new sink.new) result }
{
    if let Err(Failed) = sink.flush() {
        return End::SinkFailed;
    }
    match next_line(true, reader, source) {
        Some(end) => return end,
        None => (),
    }
    'pages: loop {
        match answer_from::<S, I, O>(pairs, held, reader, source, sink) {
            Some(end) => return end,
            None => (),
        }
    }
}

/// The lines of `pairs`, by what links are answered by.
pub(crate) fn pairs_lines<S: Spec, I: Source, O: Sink>(
    text: LinkText,
    buffers: CanonBuffers,
    source: &mut I,
    sink: &mut O,
) -> u8
    ensures { let state = outside_state I.left I.faults O.written O.faults O.room_left in
        Runs (paged_rules S.tests text)
        (state source.old sink.old) (state source.new sink.new) result }
{
    let CanonBuffers {
        mut reader,
        mut base,
        output,
    } = buffers;
    let mut pairs = Pairs {
        text,
        output,
        all_good: true,
    };
    let end = answer_pages::<S, I, O>(&mut pairs, &mut base, &mut reader, source, sink);
    finish(sink, end)
}
