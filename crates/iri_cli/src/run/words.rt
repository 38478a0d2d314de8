//! The commands.
ghost use Rattle.std.specs.Prelude.{◌≡◌, ◌≢◌, ◌↔◌, ℕ, codes, decimal, true, [], ◌∷◌, map, string_bytes, MatchOption};
ghost use Rattle.iri_cli.specs.run.Words.{HasToken, IsCommand, IsCount, named, word_of};
ghost use Rattle.iri_cli.specs.declared.run.words.Command.{Command};
ghost use Rattle.iri_cli.specs.declared.run.words.Grammar.{Grammar};
ghost use Rattle.iri_cli.specs.declared.run.words.LineCommand.{LineCommand};

use crate::help::{Notice, notice_of};
use iri_normal::mode::CanonMode;
use iri_robots::is_product_token;
use iri_text::write_to_slice;

// How many references `gen` makes at most.
const MOST_REFERENCES: u32 = 100_000;

/// Which of the two grammars a command works by.
#[derive(Clone, Copy)]
pub enum Grammar {
    /// That of RFC 3986.
    Uri,
    /// That of RFC 3987.
    Iri,
}

/// A command over the lines of an input, of which the first is the base, but for `Pairs` and `PairsToUri`.
#[derive(Clone, Copy)]
pub enum LineCommand<'a> {
    /// To answer each reference line by its canonical text.
    Canon,
    /// The same, with each text mapped to a URI.
    ToUri,
    /// To answer each reference line by its canonical text and the components of that text, as JSON.
    Parts,
    /// To answer each template by the canonical text of its expansion, with the values that lines
    /// before give variables.
    Expand,
    /// To keep each canonical link once, with the numbers of its lines.
    Register,
    /// To answer the value of a `Link` field by its links, with their canonical targets.
    Links,
    /// The same, with field values read laxly.
    LaxLinks,
    /// To answer a template document in JSON by the canonical text of its expansion.
    Docs,
    /// To say what the crawler of a product token may fetch.
    Robots(&'a str),
    /// To answer each page and link by the link's canonical text against the page.
    Pairs,
    /// The same, with each text mapped to a URI.
    PairsToUri,
}

/// What the words after the program's name ask for.
#[derive(Clone, Copy)]
pub enum Command<'a> {
    /// To work on the lines of an input, by the rules of a mode.
    Lines(LineCommand<'a>, CanonMode, Grammar),
    /// To make so many references by a counter, and to write the totals of their canonical texts.
    Gen(Grammar, u32),
    /// To write a text about the program.
    Tell(Notice),
}

/// The grammar of this name; none exactly where it names no grammar.
pub fn grammar_of(word: &str) -> Option<Grammar>
    ensures { MatchOption result ((grammar : Grammar) → word.now ≢ word_of grammar)
        (λ grammar. word.now ≡ word_of grammar) }
{
    match word {
        "uri" => Some(Grammar::Uri),
        "iri" => Some(Grammar::Iri),
        _ => None,
    }
}

// Whether this is the word for scheme rules.
fn is_scheme(word: &str) -> bool
    ensures { (result ≡ true) ↔ (word.now ≡ codes "scheme") }
{
    word == "scheme"
}

// Whether these are the words for answers that are URIs.
fn is_to_uri(first: &str, second: &str) -> bool
    ensures { (result ≡ true) ↔ ((first.now ≡ codes "to") × (second.now ≡ codes "uri")) }
{
    first == "to" && second == "uri"
}

// Whether this is the word for a lax reading.
fn is_lax(word: &str) -> bool
    ensures { (result ≡ true) ↔ (word.now ≡ codes "lax") }
{
    word == "lax"
}

// Whether this is the number in decimal.
fn is_decimal(word: &str, number: u32) -> bool
    ensures { (result ≡ true) ↔ (word.now ≡ decimal number) }
{
    let mut buffer = [0u8; 10];
    match write_to_slice(&mut buffer, &number) {
        Ok(text) => text == word,
        Err(_) => false,
    }
}

// The number from 1 to `MOST_REFERENCES` that is spelled in decimal, without a leading zero.
fn count_of(word: &str) -> Option<u32>
    ensures { MatchOption result ((count : ℕ) → ¬ (IsCount word.now count)) (IsCount word.now) }
{
    let Ok(count) = word.parse::<u32>() else {
        return None;
    };
    if count < 1 || count > MOST_REFERENCES || !is_decimal(word, count) {
        return None;
    }
    Some(count)
}

// The command over lines that is named by one word; none exactly where that is the name of no such command.
fn named_by_one<'a>(name: &str) -> Option<LineCommand<'a>>
    ensures { MatchOption result
        ((command : LineCommand) → (named command).after ≡ [] → name.now ≢ (named command).word)
        (λ command. (name.now ≡ (named command).word) × ((named command).after ≡ []) × HasToken command) }
{
    match name {
        "canon" => Some(LineCommand::Canon),
        "parts" => Some(LineCommand::Parts),
        "expand" => Some(LineCommand::Expand),
        "register" => Some(LineCommand::Register),
        "links" => Some(LineCommand::Links),
        "docs" => Some(LineCommand::Docs),
        "pairs" => Some(LineCommand::Pairs),
        _ => None,
    }
}

/// The command of a name and a grammar alone; none exactly where these words are no command.
pub fn command_of_two<'a>(name: &str, grammar: Grammar) -> Option<Command<'a>>
    ensures { MatchOption result ((command : Command) → ¬ (IsCommand (name.now ∷ word_of grammar ∷ []) command))
        (IsCommand (name.now ∷ word_of grammar ∷ [])) }
{
    Some(Command::Lines(named_by_one(name)?, CanonMode::Default, grammar))
}

/// The command of a name, a grammar and one word more; none exactly where these words are no command.
pub fn command_of_three<'a>(name: &str, grammar: Grammar, word: &'a str) -> Option<Command<'a>>
    ensures { MatchOption result ((command : Command) → ¬ (IsCommand (name.now ∷ word_of grammar ∷ word.now ∷ []) command))
        (IsCommand (name.now ∷ word_of grammar ∷ word.now ∷ [])) }
{
    match name {
        "links" if is_lax(word) => Some(Command::Lines(
            LineCommand::LaxLinks,
            CanonMode::Default,
            grammar,
        )),
        "robots" if is_product_token(word) => {
            Some(Command::Lines(LineCommand::Robots(word), CanonMode::Default, grammar))
        }
        "gen" => Some(Command::Gen(grammar, count_of(word)?)),
        _ if is_scheme(word) => Some(Command::Lines(
            named_by_one(name)?,
            CanonMode::Scheme,
            grammar,
        )),
        _ => None,
    }
}

/// The command of a name, a grammar and two words more; none exactly where these words are no command.
pub fn command_of_four<'a>(
    name: &str,
    grammar: Grammar,
    word: &'a str,
    last: &str,
) -> Option<Command<'a>>
    ensures { MatchOption result
        ((command : Command) → ¬ (IsCommand (name.now ∷ word_of grammar ∷ word.now ∷ last.now ∷ []) command))
        (IsCommand (name.now ∷ word_of grammar ∷ word.now ∷ last.now ∷ [])) }
{
    match name {
        "links" if is_lax(word) && is_scheme(last) => Some(Command::Lines(
            LineCommand::LaxLinks,
            CanonMode::Scheme,
            grammar,
        )),
        "robots" if is_product_token(word) && is_scheme(last) => {
            Some(Command::Lines(LineCommand::Robots(word), CanonMode::Scheme, grammar))
        }
        "canon" if is_to_uri(word, last) => {
            Some(Command::Lines(LineCommand::ToUri, CanonMode::Default, grammar))
        }
        "pairs" if is_to_uri(word, last) => {
            Some(Command::Lines(LineCommand::PairsToUri, CanonMode::Default, grammar))
        }
        _ => None,
    }
}

/// The command of a name, a grammar and three words more; none exactly where these words are no command.
pub fn command_of_five<'a>(
    name: &str,
    grammar: Grammar,
    first: &str,
    second: &str,
    last: &str,
) -> Option<Command<'a>>
    ensures { MatchOption result
        ((command : Command) → ¬ (IsCommand (name.now ∷ word_of grammar ∷ first.now ∷ second.now ∷ last.now ∷ []) command))
        (IsCommand (name.now ∷ word_of grammar ∷ first.now ∷ second.now ∷ last.now ∷ [])) }
{
    match name {
        "canon" if is_to_uri(first, second) && is_scheme(last) => {
            Some(Command::Lines(LineCommand::ToUri, CanonMode::Scheme, grammar))
        }
        "pairs" if is_to_uri(first, second) && is_scheme(last) => {
            Some(Command::Lines(LineCommand::PairsToUri, CanonMode::Scheme, grammar))
        }
        _ => None,
    }
}

// The command of a name and a grammar, with these words after that of the grammar.
fn command_by<'a>(name: &str, grammar: Grammar, after: &'a [String]) -> Option<Command<'a>>
    ensures { MatchOption result ((command : Command)
        → ¬ (IsCommand (name.now ∷ word_of grammar ∷ map string_bytes after.now) command))
        (IsCommand (name.now ∷ word_of grammar ∷ map string_bytes after.now)) }
{
    match after {
        [] => command_of_two(name, grammar),
        [word] => command_of_three(name, grammar, word.as_str()),
        [word, last] => command_of_four(name, grammar, word.as_str(), last.as_str()),
        [first, second, last] => command_of_five(
            name,
            grammar,
            first.as_str(),
            second.as_str(),
            last.as_str(),
        ),
        _ => None,
    }
}

/// The command of these words, where they are one.
pub fn command_of(words: &[String]) -> Option<Command<'_>>
    ensures { MatchOption result
        ((command : Command) → ¬ (IsCommand (map string_bytes words.now) command))
        (IsCommand (map string_bytes words.now)) }
{
    match words {
        [word] => Some(Command::Tell(notice_of(word.as_str())?)),
        [name, grammar, after @ ..] => {
            command_by(name.as_str(), grammar_of(grammar.as_str())?, after)
        }
        _ => None,
    }
}
