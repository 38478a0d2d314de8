// Raw text, encoded run by run.
ghost use Rattle.std.specs.Prelude.{◌≡◌, ◌<◌, drop, length, ⊤, MatchOption};
ghost use Rattle.iri_grammar.specs.ClassTests.{class_test};
ghost use Rattle.iri_grammar.specs.Runs.{run_of};
ghost use Rattle.iri_text.specs.Shown.{Shows};
ghost use Rattle.iri_percent.specs.Encoding.{keeps, encoded};
ghost use Rattle.iri_percent.specs.inside.Runs.{run_text, is_other, IsPastRun, IsNextRun};

use crate::context::{Context, class_of};
use crate::spelling::put_triplets;
use iri_grammar::class::Class;
use iri_grammar::cutting::run_len;
use iri_grammar::over;
use iri_grammar::spec::Spec;
use iri_text::{Stop, TextSink};

// A run of characters that all stay as they are, or that are all percent-encoded, and what follows it.
#[derive(Clone, Copy)]
struct Run<'a> {
    stands: bool,
    text: &'a str,
    rest: &'a str,
}

fn is_other(class: Class, b: u8) -> bool
    ensures { result ≡ is_other class b }
{
    b < 128 && !class.has_byte(b)
}

fn other_run_len(class: Class, bytes: &[u8]) -> usize
    ensures { result ≡ run_of (is_other class) bytes.now }
{
    run_len(bytes, |b| is_other(class, b))
}

// What follows the ASCII characters at the start that aren't in the class.
fn past_other_run(class: Class, text: &str) -> &str
    ensures { result.now ≡ drop (run_of (is_other class) text.now) text.now }
{
    &text[other_run_len(class, text.as_bytes())..]
}

fn past_ascii_run<S: Spec>(class: Class, stands: bool, text: &str) -> &str
    ensures { IsPastRun (class_test S.tests class) stands text.now result.now }
{
    if stands {
        return over::past_run(class, text);
    }
    past_other_run(class, text)
}

// What follows the first character, where that is past ASCII and in the run.
fn past_char<S: Spec>(class: Class, stands: bool, text: &str) -> Option<&str>
    ensures { MatchOption result ⊤ (λ r. IsPastRun (class_test S.tests class) stands text.now r.now
        × (length r.now < length text.now)) }
{
    if let [0..=0x7F, ..] = text.as_bytes() {
        return None;
    }
    let mut chars = text.chars();
    match chars.next() {
        Some(c) => {
            if class.has::<S>(c) == stands {
                Some(chars.as_str())
            } else {
                None
            }
        }
        None => None,
    }
}

// What follows the longest run at the start.
fn past_run<S: Spec>(class: Class, stands: bool, text: &str) -> &str
    ensures { IsPastRun (class_test S.tests class) stands text.now result.now }
{
    let mut rest = text;
    'run: loop {
        let tail = past_ascii_run::<S>(class, stands, rest);
        match past_char::<S>(class, stands, tail) {
            Some(next) => rest = next,
            None => return tail,
        }
    }
}

fn next_run<S: Spec>(class: Class, text: &str) -> Option<Run>
    ensures { MatchOption result (length text.now ≡ 0)
        (λ r. IsNextRun (class_test S.tests class) text.now r.stands r.text.now r.rest.now) }
{
    let mut chars = text.chars();
    match chars.next() {
        Some(c) => {
            let stands = class.has::<S>(c);
            let rest = past_run::<S>(class, stands, chars.as_str());
            Some(Run {
                stands,
                text: &text[..text.len() - rest.len()],
                rest,
            })
        }
        None => None,
    }
}

fn put_run<W: TextSink>(sink: &mut W, stands: bool, run: &str) -> Result<(), Stop>
    ensures { Shows W.puts W.halts W.stops sink.old (run_text stands run.now) sink.new result }
{
    if stands {
        sink.put(run)
    } else {
        put_triplets(sink, run.as_bytes())
    }
}

fn put_over<S: Spec, W: TextSink>(sink: &mut W, class: Class, text: &str) -> Result<(), Stop>
    ensures { Shows W.puts W.halts W.stops sink.old (encoded (class_test S.tests class) text.now) sink.new result }
{
    let mut rest = text;
    while let Some(next) = next_run::<S>(class, rest) {
        put_run(sink, next.stands, next.text)?;
        rest = next.rest;
    }
    Ok(())
}

// Writes a raw text: a character that is kept stays as it is, and every other one becomes the percent-encoded octets of its
// UTF-8.
pub(crate) fn put_encoded<S: Spec, W: TextSink>(
    sink: &mut W,
    context: Context,
    text: &str,
) -> Result<(), Stop>
    ensures { Shows W.puts W.halts W.stops sink.old (encoded (keeps S.tests context) text.now) sink.new result }
{
    put_over::<S, W>(sink, class_of::<S>(context), text)
}
