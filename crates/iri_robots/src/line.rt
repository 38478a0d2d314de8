// Lines of a robots file.
ghost use Rattle.std.specs.Prelude.{◌≡◌, ◌<◌, ◌≤◌, ◌∷◌, MatchOption, length};
ghost use Rattle.std.specs.List.{prefix_len};
ghost use Rattle.std.specs.Str.{is_utf8, str_eq_ignore_ascii_case};
ghost use Rattle.iri_grammar.specs.Characters.{number_sign};
ghost use Rattle.iri_grammar.specs.Blanks.{is_blank};
ghost use Rattle.iri_grammar.specs.Cut.{before, after};
ghost use Rattle.iri_grammar.specs.OptionalSlices.{now_of};
ghost use Rattle.iri_grammar.specs.Runs.{run_of};
ghost use Rattle.iri_robots.specs.FileLines.{line_of, line_of_text, keyed, trimmed, without_start};
ghost use Rattle.iri_robots.specs.FileLines.{without_end, without_byte_order_mark, agent_of, is_token_char};
ghost use Rattle.iri_robots.specs.Files.{file_lines, is_in_line, more_lines};
ghost use Rattle.iri_robots.specs.inside.ReadLines.{said};

use iri_grammar::cutting::{find_byte, run_len};

// What a line says.
#[derive(Clone, Copy)]
pub(crate) enum Said<'a> {
    UserAgent(&'a [u8]),
    Allow(&'a [u8]),
    Disallow(&'a [u8]),
    Nothing,
}

fn is_space_or_tab(c: u8) -> bool
    ensures { result ≡ is_blank c }
{
    c == b' ' || c == b'\t'
}

fn is_of_token(c: u8) -> bool
    ensures { result ≡ is_token_char c }
{
    c.is_ascii_alphabetic() || c == b'_' || c == b'-'
}

fn trim_prefix(text: &[u8]) -> &[u8]
    ensures { result.now ≡ without_start text.now }
{
    let mut text = text;
    while !text.is_empty() {
        if !is_space_or_tab(text[0]) {
            return text;
        }
        text = &text[1..];
    }
    text
}

fn trim_end(text: &[u8]) -> &[u8]
    ensures { result.now ≡ without_end text.now }
{
    let mut text = text;
    while let Some((last, prefix)) = text.split_last() {
        if !is_space_or_tab(*last) {
            return text;
        }
        text = prefix;
    }
    text
}

// Without the blanks at both ends.
fn trim(text: &[u8]) -> &[u8]
    ensures { result.now ≡ trimmed text.now }
{
    trim_end(trim_prefix(text))
}

// How many bytes at the start are characters of a product token.
pub(crate) fn token_len(text: &[u8]) -> usize
    ensures value { result ≡ prefix_len is_token_char text.now }
    ensures within { result ≤ length text.now }
{
    for (i, c) in text.iter().enumerate() {
        if !is_of_token(*c) {
            return i;
        }
    }
    text.len()
}

// `*`, or the longest prefix that has only characters of a product token.
fn agent(value: &[u8]) -> &[u8]
    ensures { result.now ≡ agent_of value.now }
{
    if value == b"*".as_slice() {
        return value;
    }
    &value[..token_len(value)]
}

fn strip_byte_order_mark(line: &[u8]) -> &[u8]
    ensures { result.now ≡ without_byte_order_mark line.now }
{
    match line.strip_prefix("\u{FEFF}".as_bytes()) {
        Some(rest) => rest,
        None => line,
    }
}

fn strip_comment(line: &[u8]) -> &[u8]
    ensures { result.now ≡ before number_sign line.now }
{
    match find_byte(line, b'#') {
        Some(end) => &line[..end],
        None => line,
    }
}

fn is_key(key: &[u8], name: &str) -> bool
    ensures { result ≡ str_eq_ignore_ascii_case key.now name.now }
{
    key.eq_ignore_ascii_case(name.as_bytes())
}

fn say<'a>(key: &[u8], value: &'a [u8]) -> Said<'a>
    ensures { said result ≡ keyed key.now value.now }
{
    if is_key(key, "user-agent") {
        return Said::UserAgent(agent(value));
    }
    if is_key(key, "allow") {
        return Said::Allow(value);
    }
    if is_key(key, "disallow") {
        return Said::Disallow(value);
    }
    Said::Nothing
}

fn say_parts(text: &[u8]) -> Said<'_>
    ensures { said result ≡ line_of_text text.now }
{
    match find_byte(text, b':') {
        Some(at) => say(trim(&text[..at]), trim(&text[at + 1..])),
        None => Said::Nothing,
    }
}

// What a line of a robots file says.
pub(crate) fn read_line(line: &[u8]) -> Said<'_>
    ensures { said result ≡ line_of line.now }
{
    match str::from_utf8(line) {
        Ok(_) => say_parts(strip_comment(strip_byte_order_mark(line))),
        Err(_) => Said::Nothing,
    }
}

// How many bytes at the start come before the end of a line.
fn line_len(text: &[u8]) -> usize
    ensures value { result ≡ run_of is_in_line text.now }
    ensures within { result ≤ length text.now }
{
    run_len(text, |b| b != b'\r' && b != b'\n')
}

// The first line of a file, and what follows its end, where it has one.
pub(crate) fn cut_line(file: &[u8]) -> (&[u8], Option<&[u8]>)
    ensures lines { file_lines file.now ≡ result.0.now ∷ more_lines (now_of result.1) }
    ensures shorter { MatchOption result.1 (Unit {0}) (λ rest. length rest.now < length file.now) }
{
    let (line, end) = file.split_at(line_len(file));
    match end.split_first() {
        Some((_, rest)) => (line, Some(rest)),
        None => (line, None),
    }
}

// What comes before the first delimiter, or all, and what comes after it.
pub(crate) fn cut(text: &[u8], delimiter: u8) -> (&[u8], Option<&[u8]>)
    ensures before { result.0.now ≡ before delimiter text.now }
    ensures after { now_of result.1 ≡ after delimiter text.now }
{
    match find_byte(text, delimiter) {
        Some(at) => (&text[..at], Some(&text[at + 1..])),
        None => (text, None),
    }
}
