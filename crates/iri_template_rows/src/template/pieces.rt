// Expansions with one value for each variable, which is put in one piece and in many.
use crate::template::chars::Chars;
use crate::template::expansions::in_grammar;
use iri_rows::answer::agreed;
use iri_rows::error::RowError;
use iri_rows::field::Field;
use iri_template::context::Context;
use iri_template::visitor::Visitor;
use iri_text::{Show, Stop, TextSink, show_four};
use std::alloc::Global;

// Each variable has this one value.
#[derive(Drop)]
struct Always<T> {
    value: T,
}

impl<T: Show> Context for Always<T> {
    ghost use Rattle.iri_template.specs.ShownValues.{string};

    ghost value_of = { λ a name. string (T.text a.value) };

    fn visit<V: Visitor>(&self, visitor: &mut V) -> Result<(), Stop> {
        visitor.visit_string(&self.value)
    }
}

// A text in four pieces.
#[derive(Drop)]
struct Pieces<'a> {
    first: &'a str,
    second: &'a str,
    third: &'a str,
    fourth: &'a str,
}

impl Show for Pieces<'_> {
    ghost use Rattle.std.specs.Prelude.{◌++◌};

    ghost text = { λ p. p.first.now ++ (p.second.now ++ (p.third.now ++ p.fourth.now)) };

    fn show<W: TextSink>(&self, sink: &mut W) -> Result<(), Stop> {
        show_four(sink, &self.first, &self.second, &self.third, &self.fourth)
    }
}

// `each GRAMMAR TEMPLATE VALUE`: the expansion where each variable has this value, in one piece and character by character.
pub(crate) fn each(
    alloc: Global,
    grammar: &Field,
    template: &Field,
    value: &Field,
) -> Result<String, RowError> {
    let (grammar, template, text) = (grammar.text()?, template.text()?, value.text()?);
    let whole = in_grammar(alloc, grammar, template, &Always { value: text })?;
    let chars = Always {
        value: Chars { text },
    };
    let pieces = in_grammar(alloc, grammar, template, &chars)?;
    Ok(agreed(alloc, whole, pieces.as_str())?)
}

// `pieces GRAMMAR TEMPLATE PIECE PIECE PIECE PIECE`: the same of a value in four pieces.
pub(crate) fn in_four(
    alloc: Global,
    grammar: &Field,
    template: &Field,
    pieces: [&Field; 4],
) -> Result<String, RowError> {
    let [first, second, third, fourth] = pieces;
    let pieces = Always {
        value: Pieces {
            first: first.text()?,
            second: second.text()?,
            third: third.text()?,
            fourth: fourth.text()?,
        },
    };
    in_grammar(alloc, grammar.text()?, template.text()?, &pieces)
}
