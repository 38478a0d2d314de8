// What the lines of `expand` say.
ghost use Rattle.std.specs.Prelude.{◌≡◌};
ghost use Rattle.iri_cli.specs.expand.Lines.{adds_item, change_line, field_line, fields_line, line_of, named, pair_line, sets, unset_line};
ghost use Rattle.iri_cli.specs.inside.Said.{named_now, said};

use iri_grammar::cutting::cut;
use iri_template::var_name::VarName;
use std::str;

// What becomes of a variable.
#[derive(Clone, Copy)]
pub(crate) enum Change<'a> {
    // It is this string.
    Sets(VarName<'a>, &'a str),
    // An item is put at the end of its list.
    AddsItem(VarName<'a>, &'a str),
    // A key and a value are put at the end of its associative array.
    AddsPair(VarName<'a>, &'a str, &'a str),
    // It has no value.
    Unsets(VarName<'a>),
}

// What a line says.
#[derive(Clone, Copy)]
pub(crate) enum Said<'a> {
    // A variable changes.
    Changes(Change<'a>),
    // A template is to be expanded.
    Expands(&'a [u8]),
    // Nothing of these.
    Bad,
}

// The name of a variable, and the fields after it.
fn named(fields: &str) -> Option<(VarName<'_>, &str)>
    ensures { named_now result ≡ named fields.now }
{
    let (name, rest) = cut(fields, b' ');
    match (VarName::new(name), rest) {
        (Ok(name), Some(rest)) => Some((name, rest)),
        _ => None,
    }
}

fn string_line(fields: &str) -> Said<'_>
    ensures { said result ≡ field_line sets (named fields.now) }
{
    match named(fields) {
        Some((name, value)) => Said::Changes(Change::Sets(name, value)),
        None => Said::Bad,
    }
}

fn item_line(fields: &str) -> Said<'_>
    ensures { said result ≡ field_line adds_item (named fields.now) }
{
    match named(fields) {
        Some((name, item)) => Said::Changes(Change::AddsItem(name, item)),
        None => Said::Bad,
    }
}

fn pair_line(fields: &str) -> Said<'_>
    ensures { said result ≡ pair_line (named fields.now) }
{
    match named(fields) {
        Some((name, rest)) => match cut(rest, b' ') {
            (key, Some(value)) => Said::Changes(Change::AddsPair(name, key, value)),
            _ => Said::Bad,
        },
        None => Said::Bad,
    }
}

fn unset_line(name: &str) -> Said<'_>
    ensures { said result ≡ unset_line name.now }
{
    match VarName::new(name) {
        Ok(name) => Said::Changes(Change::Unsets(name)),
        Err(_) => Said::Bad,
    }
}

fn change_line(letter: u8, fields: &str) -> Said<'_>
    ensures { said result ≡ change_line letter fields.now }
{
    match letter {
        b's' => string_line(fields),
        b'l' => item_line(fields),
        b'a' => pair_line(fields),
        b'u' => unset_line(fields),
        _ => Said::Bad,
    }
}

fn fields_line(letter: u8, fields: &[u8]) -> Said<'_>
    ensures { said result ≡ fields_line letter fields.now }
{
    if letter == b't' {
        return Said::Expands(fields);
    }
    match str::from_utf8(fields) {
        Ok(fields) => change_line(letter, fields),
        Err(_) => Said::Bad,
    }
}

/// What a line says.
#[tactic(auto, unfolding(crate::specs::expand::Lines::line_of))]
pub(crate) fn line_of(line: &[u8]) -> Said<'_>
    ensures { said result ≡ line_of line.now }
{
    match line {
        [letter, b' ', fields @ ..] => fields_line(*letter, fields),
        _ => Said::Bad,
    }
}
