// The command that a text names, found before memory is taken for its words.
ghost use Rattle.std.specs.Prelude.{[], ◌∷◌, MatchOption};
ghost use Rattle.iri_cli.specs.run.Words.{IsCommand, word_of};
ghost use Rattle.iri_cli.specs.declared.run.words.Command.{Command};
ghost use Rattle.iri_grammar.specs.Pieces.{pieces};
ghost use Rattle.iri_grammar.specs.Blanks.{space};

use iri_cli::help::notice_of;
use iri_cli::run::words::{
    Command, Grammar, command_of_five, command_of_four, command_of_three, command_of_two,
    grammar_of,
};
use iri_grammar::cutting::cut;

// The command of one word.
fn command_of_one<'a>(word: &str) -> Option<Command<'a>>
    ensures { MatchOption result ((command : Command) → ¬ (IsCommand (word.now ∷ []) command)) (IsCommand (word.now ∷ [])) }
{
    Some(Command::Tell(notice_of(word)?))
}

// The command of a name, a grammar and two words more, and of the words of a text after them.
fn command_of_last<'a>(
    name: &str,
    grammar: Grammar,
    third: &str,
    fourth: &str,
    rest: &str,
) -> Option<Command<'a>>
    ensures { MatchOption result
        ((command : Command) → ¬ (IsCommand (name.now ∷ word_of grammar ∷ third.now ∷ fourth.now ∷ pieces space rest.now) command))
        (IsCommand (name.now ∷ word_of grammar ∷ third.now ∷ fourth.now ∷ pieces space rest.now)) }
{
    match cut(rest, b' ') {
        (last, None) => command_of_five(name, grammar, third, fourth, last),
        (_, Some(_)) => None,
    }
}

// The command of a name and a grammar, and of the words of a text after them.
fn command_after<'a>(name: &str, grammar: Grammar, rest: &'a str) -> Option<Command<'a>>
    ensures { MatchOption result
        ((command : Command) → ¬ (IsCommand (name.now ∷ word_of grammar ∷ pieces space rest.now) command))
        (IsCommand (name.now ∷ word_of grammar ∷ pieces space rest.now)) }
{
    let (word, after) = cut(rest, b' ');
    let Some(after) = after else {
        return command_of_three(name, grammar, word);
    };
    let (next, more) = cut(after, b' ');
    let Some(more) = more else {
        return command_of_four(name, grammar, word, next);
    };
    command_of_last(name, grammar, word, next, more)
}

/// The command that a text names, whose words have one space between each two.
pub(crate) fn command_in(text: &str) -> Option<Command<'_>>
    ensures { MatchOption result ((command : Command) → ¬ (IsCommand (pieces space text.now) command))
        (IsCommand (pieces space text.now)) }
{
    let (first, after) = cut(text, b' ');
    let Some(after) = after else {
        return command_of_one(first);
    };
    let (second, after) = cut(after, b' ');
    let Some(grammar) = grammar_of(second) else {
        return None;
    };
    let Some(after) = after else {
        return command_of_two(first, grammar);
    };
    command_after(first, grammar, after)
}
