// Texts and values that are put character by character.
ghost use Rattle.std.specs.Char.{encode_utf8};
ghost use Rattle.iri_text.specs.Shown.{Shows};

use iri_template::context::Context;
use iri_template::naive::VisitValueNaive;
use iri_template::simple_context::SimpleContext;
use iri_template::value::Value;
use iri_template::visitor::Visitor;
use iri_text::{Show, Stop, TextSink};

fn put_char<W: TextSink>(sink: &mut W, c: char) -> Result<(), Stop>
    ensures { Shows W.puts W.halts W.stops sink.old (encode_utf8 c) sink.new result }
{
    let mut buf = [0u8; 4];
    sink.put(c.encode_utf8(&mut buf))
}

fn put_chars<W: TextSink>(sink: &mut W, text: &str) -> Result<(), Stop>
    ensures { Shows W.puts W.halts W.stops sink.old text.now sink.new result }
{
    for c in text.chars() {
        put_char(sink, c)?;
    }
    Ok(())
}

// A text that is put character by character.
#[derive(Drop)]
pub(crate) struct Chars<'a> {
    pub(crate) text: &'a str,
}

impl Show for Chars<'_> {
    ghost text = { λ c. c.text.now };

    fn show<W: TextSink>(&self, sink: &mut W) -> Result<(), Stop> {
        put_chars(sink, self.text)
    }
}

// The same values, with strings that are put character by character.
#[derive(Drop)]
pub(crate) struct Bytewise<'c> {
    pub(crate) context: &'c SimpleContext,
}

impl Context for Bytewise<'_> {
    ghost use Rattle.iri_template.specs.Contexts.{value_in};

    ghost value_of = { λ b. value_in b.context.now };

    fn visit<V: Visitor>(&self, visitor: &mut V) -> Result<(), Stop> {
        match self.context.get(visitor.var_name()) {
            Some(value) => match value {
                Value::String(text) => visitor.visit_string(&Chars {
                    text: text.as_str(),
                }),
                Value::List(_) => value.visit_value(visitor),
                Value::Assoc(_) => value.visit_value(visitor),
                Value::Undefined => visitor.visit_undefined(),
            },
            None => visitor.visit_undefined(),
        }
    }
}
