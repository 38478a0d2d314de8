// The command `gen`: references that are made by a counter, and the totals of their canonical texts.
ghost use Rattle.std.specs.Prelude.{◌≡◌, ◌≤◌, ◌<◌, ◌+◌, ◌*◌, ◌%◌, ◌^◌, ◌++◌, None, OnOk, IfOk, length, sum};
ghost use Rattle.std.specs.Prelude.{◌≢◌, ◌⊎◌, string_bytes};
ghost use Rattle.iri_text.specs.Sink.{KeepsRoom, sink_state};
ghost use Rattle.iri_grammar.specs.WholeFault.{reference_fault};
ghost use Rattle.iri_normal.specs.NormalForm.{canonical};
ghost use Rattle.iri_normal.specs.Resolver.{base_text};
ghost use Rattle.iri_cli.specs.help.Notices.{PutsText};
ghost use Rattle.iri_cli.specs.run.Words.{tests_of};
ghost use Rattle.iri_cli.specs.generator.References.{gen_segment, more_segments, gen_reference, gen_base, gen_text, gen_total};
ghost use Rattle.iri_cli.specs.generator.References.{most_references};

use crate::help::put_text;
use crate::run::MEMORY;
use crate::run::base::base_of;
use crate::run::words::Grammar;
use iri_grammar::spec::{IriSpec, Spec, UriSpec};
use iri_normal::resolver::FixedBaseResolver;
use iri_text::Sink;
use iri_types::kind::Reference;
use iri_types::split::SplitView;
use std::alloc::{AllocError, Global};

const BASE: &str = "http://a/b/c/d;p?q";

// The segment of a number.
fn segment(number: u64) -> &'static str
    requires { number < 16 }
    ensures { result.now ≡ gen_segment number }
{
    match number {
        0 | 14 => "..",
        1 => ".",
        2 => "a",
        3 => "b",
        4 => "%2E",
        5 => "%2e%2E",
        6 => "",
        7 => "%7e",
        8 => "c",
        9 => "x%2fy",
        10 => "%ce%b1",
        11 => "Q",
        12 => "d;1",
        13 => "%41",
        _ => "e",
    }
}

// The state after one more step.
fn next_state(state: u64) -> u64
    ensures { result ≡ (state * 6364136223846793005 + 1442695040888963407) % 2 ^ 64 }
{
    state
        .wrapping_mul(6364136223846793005)
        .wrapping_add(1442695040888963407)
}

// Writes so many segments, each after a slash.
fn push_segments(text: &mut String, count: u64, number: u64) -> Result<(), AllocError>
    ensures { OnOk result
        (string_bytes text.new ≡ string_bytes text.old ++ more_segments count number) }
{
    let mut rest = number;
    for i in 0..count {
        text.push_str("/")?;
        text.push_str(segment(rest % 16))?;
        rest /= 16;
    }
    Ok(())
}

// Writes the reference of a state, in place of what the text holds.
fn write_reference(text: &mut String, state: u64) -> Result<(), AllocError>
    ensures { OnOk result (string_bytes text.new ≡ gen_reference state) }
{
    text.clear();
    text.push_str(segment(state % 16))?;
    push_segments(text, state >> 60, state / 16)
}

// The bytes of all canonical texts, and the sum of their values.
#[derive(Clone, Copy)]
struct Totals {
    bytes: u128,
    sum: u128,
}

// Writes the canonical text of a reference, in place of what the buffer holds.
fn write_text<'a, S: Spec>(
    buffer: &mut String,
    resolver: FixedBaseResolver<'a, S>,
    reference: &'a str,
) -> Result<(), AllocError>
    requires { reference_fault S.tests reference.now ≡ None }
    ensures { OnOk result
        (string_bytes buffer.new ≡ canonical S.tests (base_text resolver.entry) reference.now) }
{
    match SplitView::<S, Reference>::new(reference) {
        Ok(reference) => {
            buffer.clear();
            resolver.canonical_into(buffer, &reference)
        }
        Err(_) => unreachable!(),
    }
}

// The sum of the values of bytes.
fn sum_of(bytes: &[u8]) -> u128
    ensures value { result ≡ sum bytes.now }
    ensures bound { result ≤ 255 * length bytes.now }
{
    let mut total = 0;
    for byte in bytes {
        total += u128::from(*byte);
    }
    total
}

// The totals of the canonical texts of so many references.
fn totals_of<S: Spec>(
    alloc: Global,
    resolver: FixedBaseResolver<'_, S>,
    count: u32,
) -> Result<Totals, AllocError>
    requires base { base_text resolver ≡ gen_base }
    requires most { count ≤ most_references }
    ensures { IfOk result
        (λ t. (t.bytes ≡ gen_total length S.tests count) × (t.sum ≡ gen_total sum S.tests count)) }
{
    let mut reference = String::new(alloc);
    let mut text = String::new(alloc);
    let mut state = 0;
    let mut bytes = 0u128;
    let mut sum = 0u128;
    for i in 0..count {
        state = next_state(state);
        write_reference(&mut reference, state)?;
        write_text::<S>(&mut text, resolver, &reference)?;
        bytes += text.len() as u128;
        sum += sum_of(text.as_bytes());
    }
    Ok(Totals { bytes, sum })
}

// The resolver of the one base.
fn base_resolver<S: Spec>() -> FixedBaseResolver<'static, S>
    ensures { base_text result ≡ gen_base }
{
    match base_of::<S>(BASE.as_bytes()) {
        Ok(base) => FixedBaseResolver::new(base),
        Err(_) => unreachable!(),
    }
}

// The three lines with the totals of the canonical texts of so many references.
fn gen_lines<S: Spec>(alloc: Global, count: u32) -> Result<String, AllocError>
    requires { count ≤ most_references }
    ensures { IfOk result (λ t. string_bytes t ≡ gen_text S.tests count) }
{
    let Totals { bytes, sum } = totals_of::<S>(alloc, base_resolver(), count)?;
    format!(in alloc; "lines {count}\nbytes {bytes}\nsum {sum}\n")
}

// The lines that `gen` writes, by a grammar.
fn gen_lines_by(alloc: Global, grammar: Grammar, count: u32) -> Result<String, AllocError>
    requires { count ≤ most_references }
    ensures { IfOk result (λ t. string_bytes t ≡ gen_text (tests_of grammar) count) }
{
    match grammar {
        Grammar::Uri => gen_lines::<UriSpec>(alloc, count),
        Grammar::Iri => gen_lines::<IriSpec>(alloc, count),
    }
}

/// Makes the lines of `gen`, and writes them.
pub(crate) fn generate<O: Sink>(alloc: Global, grammar: Grammar, count: u32, sink: &mut O) -> u8
    requires { count ≤ most_references }
    ensures puts { let state = sink_state O.written O.faults O.room_left in
        PutsText (gen_text (tests_of grammar) count) (state sink.old) (state sink.new) result
        ⊎ ((result ≡ 6) × (state sink.new ≡ state sink.old)) }
    ensures room { KeepsRoom (O.room_left sink.old) (O.room_left sink.new)
        (gen_text (tests_of grammar) count) (result ≢ 5) }
{
    match gen_lines_by(alloc, grammar, count) {
        Ok(lines) => put_text(&lines, sink),
        Err(_) => MEMORY,
    }
}
