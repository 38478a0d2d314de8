// Steps as text.
ghost use Rattle.std.specs.Prelude.{Some};
ghost use Rattle.iri_text.specs.Shown.{Shows};
ghost use Rattle.iri_resolve.specs.StepSinks.{step_line};
ghost use Rattle.iri_resolve.specs.StepTexts.{part_name, step_text};

use crate::step::{Part, Step};
use crate::step_lines::StepLines;
use crate::step_sink::StepSink;
use iri_text::{FormatSink, Show, Stop, TextSink, show_four, show_two};
use std::fmt;

/// The name of the part: `authority`, `path`, `query` or `fragment`.
impl Show for Part {
    ghost text = { part_name };

    fn show<W: TextSink>(&self, sink: &mut W) -> Result<(), Stop> {
        match self {
            Part::Authority => sink.put("authority"),
            Part::Path => sink.put("path"),
            Part::Query => sink.put("query"),
            Part::Fragment => sink.put("fragment"),
        }
    }
}

/// What changes, in which part and at which byte of it: `scheme letter 0`, `host letter 3`, `hex digit path 5`,
/// `decode query 2`, `empty port`, `dot segments`, `default port`, `empty path`.
impl Show for Step {
    ghost text = { step_text };

    fn show<W: TextSink>(&self, sink: &mut W) -> Result<(), Stop> {
        match self {
            Step::SchemeLetter(at) => show_two(sink, &"scheme letter ", at),
            Step::HostLetter(at) => show_two(sink, &"host letter ", at),
            Step::HexDigit(part, at) => show_four(sink, &"hex digit ", part, &" ", at),
            Step::Decode(part, at) => show_four(sink, &"decode ", part, &" ", at),
            Step::EmptyPort => sink.put("empty port"),
            Step::Dots => sink.put("dot segments"),
            Step::DefaultPort => sink.put("default port"),
            Step::SlashPath => sink.put("empty path"),
        }
    }
}

// Shows a step and the end of its line.
fn show_step_line<W: TextSink>(sink: &mut W, step: &Step) -> Result<(), Stop>
    ensures { Shows W.puts W.halts W.stops sink.old (step_line step.now) sink.new result }
{
    show_two(sink, step, &"\n")
}

impl<'s, W: TextSink> StepSink for StepLines<'s, W> {
    ghost use Rattle.iri_resolve.specs.inside.StepSinkLaws.{LinesPut, LinesHalt, lines_rules};

    ghost puts = { LinesPut W.puts };

    ghost halts = { LinesHalt W.halts };

    ghost stops = { λ l. W.stops l.to.now };

    ghost rules = { lines_rules W.rules };

    fn push(&mut self, step: Step) -> Result<(), Stop> {
        show_step_line(&mut *self.to, &step)
    }
}

impl fmt::Display for Part {
    ghost use Rattle.iri_resolve.specs.StepTexts.{part_name};

    ghost output = { λ part. Some (part_name part) };

    ghost styled_output = { λ part _. Some (part_name part) };

    fn fmt<W: fmt::Write>(&self, f: &mut fmt::Formatter<W>) -> fmt::Result {
        FormatSink::new(f).display(self)
    }
}

impl fmt::Display for Step {
    ghost use Rattle.iri_resolve.specs.StepTexts.{step_text};

    ghost output = { λ step. Some (step_text step) };

    ghost styled_output = { λ step _. Some (step_text step) };

    fn fmt<W: fmt::Write>(&self, f: &mut fmt::Formatter<W>) -> fmt::Result {
        FormatSink::new(f).display(self)
    }
}
