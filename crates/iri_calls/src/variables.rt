// The values of variables, as they cross.
ghost use Rattle.std.specs.Prelude.{◌≡◌, map, position, option_copied, not};
ghost use Rattle.std.specs.Str.{bytes_eq, is_utf8};
ghost use Rattle.iri_template.specs.Events.{telling};
ghost use Rattle.iri_template.specs.ShownValues.{pairs};
ghost use Rattle.iri_template.specs.Events.{pair_text};
ghost use Rattle.iri_template.specs.Visits.{Visits};
ghost use Rattle.iri_template.specs.declared.visitor.Phase.TheVariants.{Fresh, Done};
ghost use Rattle.iri_calls.specs.Variables.{shown, paired, value_of, named, is_sound, fits_kind, all_utf8};

use iri_template::context::Context;
use iri_template::visitor::Visitor;
use iri_text::{Show, Stop, TextSink};

/// A text in the caller's memory.
#[repr(C)]
#[derive(Clone, Copy)]
pub struct Text<'a> {
    pub bytes: &'a [u8],
}

impl Show for Text<'_> {
    ghost use Rattle.iri_calls.specs.Variables.{shown};

    ghost text = { shown };

    fn show<W: TextSink>(&self, sink: &mut W) -> Result<(), Stop> {
        sink.put(as_str(self.bytes))
    }
}

// The text of bytes, where they are UTF-8; otherwise none.
pub(crate) fn as_str(bytes: &[u8]) -> &str
    ensures { result.now ≡ shown (record { bytes = bytes.entry }) }
{
    match str::from_utf8(bytes) {
        Ok(text) => text,
        Err(_) => "",
    }
}

/// A variable: its name, the number of the kind of its value, and the texts of that: of a string one, of a list its items, of pairs
/// each key with its value after it.
#[repr(C)]
#[derive(Clone, Copy)]
pub struct Variable<'a> {
    pub name: Text<'a>,
    pub kind: usize,
    pub values: &'a [Text<'a>],
}

pub const UNDEFINED: usize = 600;

pub const STRING: usize = 601;

pub const LIST: usize = 602;

pub const PAIRS: usize = 603;

// Tells a visitor pairs of texts.
fn visit_pairs<V: Visitor>(values: &[Text<'_>], visitor: &mut V) -> Result<(), Stop>
    requires { V.phase visitor.old ≡ Fresh }
    ensures { Visits V.name V.aim V.phase V.hears V.halts V.stops visitor.old
        (telling (pairs (map (pair_text shown shown) (paired values.now)))) Done visitor.new result }
{
    visitor.visit_assoc()?;
    for i in 0..values.len() / 2 {
        visitor.visit_entry(&values[2 * i], &values[2 * i + 1])?;
    }
    visitor.finish()
}

// Tells a visitor the value of a variable.
#[tactic(auto, unfolding(crate::specs::Variables::value_of))]
fn visit_value<V: Visitor>(variable: &Variable<'_>, visitor: &mut V) -> Result<(), Stop>
    requires { V.phase visitor.old ≡ Fresh }
    ensures { Visits V.name V.aim V.phase V.hears V.halts V.stops visitor.old
        (telling (value_of variable.now)) Done visitor.new result }
{
    match variable.kind {
        STRING => match variable.values {
            [text, ..] => visitor.visit_string(text),
            [] => visitor.visit_undefined(),
        },
        LIST => visitor.visit_list_direct(variable.values),
        PAIRS => visit_pairs(variable.values, visitor),
        _ => visitor.visit_undefined(),
    }
}

fn is_named(variable: &Variable<'_>, name: &[u8]) -> bool
    ensures { result ≡ bytes_eq variable.now.name.bytes.now name.now }
{
    variable.name.bytes == name
}

// The first variable of this name.
fn find_named<'v, 'a>(variables: &'v [Variable<'a>], name: &[u8]) -> Option<&'v Variable<'a>>
    ensures { option_copied result ≡ named variables.now name.now }
{
    variables.iter().find(|variable| is_named(variable, name))
}

/// The variables of a call.
#[derive(Drop)]
pub(crate) struct Variables<'a> {
    pub(crate) variables: &'a [Variable<'a>],
}

impl Context for Variables<'_> {
    ghost use Rattle.iri_calls.specs.Variables.{value_in};

    ghost value_of = { λ c name. value_in c.variables.now name };

    fn visit<V: Visitor>(&self, visitor: &mut V) -> Result<(), Stop> {
        match find_named(self.variables, visitor.var_name().as_str().as_bytes()) {
            Some(variable) => visit_value(variable, visitor),
            None => visitor.visit_undefined(),
        }
    }
}

// Whether a kind has so many texts.
fn fits_kind(kind: usize, count: usize) -> bool
    ensures { result ≡ fits_kind kind count }
{
    match kind {
        UNDEFINED => count == 0,
        STRING => count == 1,
        LIST => true,
        PAIRS => count % 2 == 0,
        _ => false,
    }
}

pub(crate) fn is_utf8(bytes: &[u8]) -> bool
    ensures { result ≡ is_utf8 bytes.now }
{
    match str::from_utf8(bytes) {
        Ok(_) => true,
        Err(_) => false,
    }
}

fn all_utf8(values: &[Text<'_>]) -> bool
    ensures { result ≡ all_utf8 values.now }
{
    values.iter().all(|value| is_utf8(value.bytes))
}

#[tactic(auto, unfolding(crate::specs::Variables::is_sound))]
fn is_sound(variable: &Variable<'_>) -> bool
    ensures { result ≡ is_sound variable.now }
{
    fits_kind(variable.kind, variable.values.len()) && all_utf8(variable.values)
}

/// Where the first variable stands that isn't as its kind asks, or has a text that isn't UTF-8.
pub(crate) fn find_unsound(variables: &[Variable<'_>]) -> Option<usize>
    ensures { result ≡ position (λ v. not (is_sound v)) variables.now }
{
    variables.iter().position(|variable| !is_sound(variable))
}
