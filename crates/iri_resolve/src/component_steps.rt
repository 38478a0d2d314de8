// The steps of one component, from left to right: each has the length of what is in normal form already as its place, so no
// text in between is built.
ghost use Rattle.iri_resolve.specs.Changes.{is_small_digit};
ghost use Rattle.std.specs.Prelude.{◌≡◌, ◌<◌, ◌≤◌, ◌+◌, ◌^◌, ◌++◌, ◌&&◌, [], ◌∷◌, IfOk, true, length};
ghost use Rattle.std.specs.Char.{is_ascii_uppercase};
ghost use Rattle.iri_text.specs.Shown.{Shows};
ghost use Rattle.iri_percent.specs.Triplets.{normal};
ghost use Rattle.iri_percent.specs.Units.{whole_triplets};
ghost use Rattle.iri_percent.specs.inside.Pieces.{case_of};
ghost use Rattle.iri_resolve.specs.NormalSteps.{component_steps, prefix_of, step_if};
ghost use Rattle.iri_resolve.specs.StepSinks.{done};
ghost use Rattle.iri_resolve.specs.declared.step.Step.TheVariants.{Decode, HostLetter, HexDigit};

use crate::change::is_small_digit;
use crate::step::{Part, Step};
use crate::step_sink::StepSink;
use iri_grammar::spec::Spec;
use iri_percent::character::decoded_char;
use iri_text::Stop;

// How many bytes the prefix of a text has, and how many in normal form.
#[derive(Clone, Copy)]
struct Lengths {
    len: usize,
    normal_len: usize,
}

// A letter of a host becomes small, where it is a capital.
fn push_letter<T: StepSink>(sink: &mut T, is_capital: bool, at: usize) -> Result<(), Stop>
    ensures { Shows T.puts T.halts T.stops sink.old (step_if is_capital (HostLetter at)) sink.new result }
{
    if !is_capital {
        return Ok(());
    }
    sink.push(Step::HostLetter(at))
}

// A hex digit becomes a capital, where it is a small letter.
fn push_digit<T: StepSink>(sink: &mut T, part: Part, at: usize, digit: u8) -> Result<(), Stop>
    ensures { Shows T.puts T.halts T.stops sink.old (step_if (is_small_digit digit) (HexDigit part at)) sink.new result }
{
    if !is_small_digit(digit) {
        return Ok(());
    }
    sink.push(Step::HexDigit(part, at))
}

// The hex digits of a percent-encoded octet that stays become capitals.
fn push_digits<T: StepSink>(
    sink: &mut T,
    part: Part,
    at: usize,
    high: u8,
    low: u8,
) -> Result<(), Stop>
    requires { at + 2 < 2 ^ 64 }
    ensures { Shows T.puts T.halts T.stops sink.old
        (step_if (is_small_digit high) (HexDigit part (at + 1)) ++ step_if (is_small_digit low) (HexDigit part (at + 2))) sink.new result }
{
    push_digit(sink, part, at + 1, high)?;
    push_digit(sink, part, at + 2, low)
}

// Percent-encoded octets become the character that they spell, and this a small letter, where it is a capital of a host.
fn push_decoded<T: StepSink>(
    sink: &mut T,
    part: Part,
    at: usize,
    is_capital: bool,
) -> Result<(), Stop>
    ensures { Shows T.puts T.halts T.stops sink.old (Decode part at ∷ step_if is_capital (HostLetter at)) sink.new result }
{
    sink.push(Step::Decode(part, at))?;
    push_letter(sink, is_capital, at)
}

// The steps of what a text begins with, at this place of the part in normal form.
fn push_prefix<S: Spec, T: StepSink>(
    sink: &mut T,
    part: Part,
    lower: bool,
    at: usize,
    text: &[u8],
) -> Result<Lengths, Stop>
    requires whole { whole_triplets text.now ≡ true }
    requires some { 0 < length text.now }
    requires room { at + length text.now < 2 ^ 64 }
    ensures steps { Shows T.puts T.halts T.stops sink.old
        (prefix_of S.tests part lower at text.now).steps sink.new (done result) }
    ensures len { IfOk result (λ l. l.len ≡ (prefix_of S.tests part lower at text.now).len) }
    ensures normal_len { IfOk result (λ l. l.normal_len ≡ (prefix_of S.tests part lower at text.now).normal_len) }
{
    let first = text[0];
    if first != b'%' {
        push_letter(sink, lower && first.is_ascii_uppercase(), at)?;
        return Ok(Lengths {
            len: 1,
            normal_len: 1,
        });
    }
    if let Some(c) = decoded_char::<S>(text) {
        push_decoded(sink, part, at, lower && c.is_ascii_uppercase())?;
        return Ok(Lengths {
            len: 3 * c.len_utf8(),
            normal_len: c.len_utf8(),
        });
    }
    let (high, low) = (text[1], text[2]);
    push_digits(sink, part, at, high, low)?;
    Ok(Lengths {
        len: 3,
        normal_len: 3,
    })
}

// Puts the steps of a text that begins at this place of the part, and says where its normal form ends.
pub(crate) fn push_component<S: Spec, T: StepSink>(
    sink: &mut T,
    part: Part,
    lower: bool,
    start: usize,
    text: &str,
) -> Result<usize, Stop>
    requires whole { whole_triplets text.now ≡ true }
    requires room { start + length text.now < 2 ^ 64 }
    ensures steps { Shows T.puts T.halts T.stops sink.old
        (component_steps S.tests part lower 0 start text.now) sink.new (done result) }
    ensures place { IfOk result (λ end. end ≡ start + length (normal S.tests (case_of lower) text.now)) }
    ensures shorter { IfOk result (λ end. end ≤ start + length text.now) }
{
    let mut rest = text.as_bytes();
    let mut at = start;
    'prefixes: while !rest.is_empty() {
        let prefix = push_prefix::<S, T>(sink, part, lower, at, rest)?;
        at += prefix.normal_len;
        rest = &rest[prefix.len..];
    }
    Ok(at)
}
