// A walk over a text, piece by piece, read laxly (RFC 8288 appendix B.2 to B.4): what has no fault is read alike (a law). It allocates nothing.
ghost use Rattle.std.specs.Prelude.{◌≡◌, ◌∷◌, ◌<◌, ◌&&◌, [], false, length, option_map, true, MatchOption};
ghost use Rattle.std.specs.Str.{str_to_ascii_lowercase};
ghost use Rattle.iri_grammar.specs.Characters.{semicolon};
ghost use Rattle.iri_grammar.specs.OptionalSlices.{now_of};
ghost use Rattle.iri_grammar.specs.inside.Runs.{first_passes};
ghost use Rattle.iri_grammar.specs.Blanks.{is_blank};
ghost use Rattle.iri_link.specs.LaxReadings.{is_writable_value, lax_next, lax_reading, passed, reads};
ghost use Rattle.iri_link.specs.Phases.{before_link};
ghost use Rattle.iri_link.specs.Readings.{of_links};
ghost use Rattle.iri_link.specs.Token.{is_token};
ghost use Rattle.iri_link.specs.inside.Pieces.{EndsPassing, IsCommaAt, IsValueAt, IsPieceOf, Comes, Ends, passing_phase, stands};
ghost use Rattle.iri_link.specs.inside.ReadQuoted.{said};

use crate::param::past_equals;
use crate::param_text::ParamText;
use crate::piece::Piece;
use crate::quoted::cut_open;
use crate::runs::{Run, cut_run, is_all, past, trim_end};
use iri_grammar::cutting::cut;

// Where what is passed over stands.
#[derive(Clone, Copy)]
enum Passing {
    // Outside quotes.
    Outer,
    // Within a quoted string.
    Quoted,
    // After a `\` in one.
    Pair,
}

// Where it stands after a byte; `None` exactly where that is a comma outside quotes.
fn next_passing(place: Passing, b: u8) -> Option<Passing>
    ensures { MatchOption result (EndsPassing place b) (λ p. lax_next (passing_phase place) b ≡ passing_phase p) }
{
    match (place, b) {
        (Passing::Outer, b',') => None,
        (Passing::Outer, b'"') | (Passing::Pair, _) => Some(Passing::Quoted),
        (Passing::Quoted, b'"') => Some(Passing::Outer),
        (Passing::Quoted, b'\\') => Some(Passing::Pair),
        _ => Some(place),
    }
}

// Where the next comma outside quotes is.
fn find_comma(bytes: &[u8]) -> Option<usize>
    ensures { MatchOption result (lax_reading passed bytes.now ≡ of_links []) (λ n. IsCommaAt bytes.now n) }
{
    let mut place = Passing::Outer;
    for (i, b) in bytes.iter().enumerate() {
        match next_passing(place, *b) {
            Some(next) => place = next,
            None => return Some(i),
        }
    }
    None
}

// What follows the next comma outside quotes, where there is one.
fn past_comma(s: &str) -> Option<&str>
    ensures { MatchOption result (lax_reading passed s.now ≡ of_links [])
        (λ r. (lax_reading passed s.now ≡ lax_reading (reads before_link) r.now) × (length r.now < length s.now)) }
{
    match find_comma(s.as_bytes()) {
        Some(i) => Some(&s[i + 1..]),
        None => None,
    }
}

// What a walk before a link-value comes to, and what follows it; `None` at the end.
fn next_target<'a>(s: &'a str) -> Option<(Piece<'a>, &'a str)>
    ensures { MatchOption result (Ends false s.now) (λ r. Comes false s.now r.0 r.1.now) }
{
    let (_, next) = cut_run(Run::Blank, s);
    let Some(inner) = past(next, b'<') else {
        return match past_comma(next) {
            Some(after) => Some((Piece::Comma, after)),
            None => None,
        };
    };
    let (target, rest) = cut(inner, b'>');
    match rest {
        Some(after) => Some((Piece::Target(target), after)),
        None => None,
    }
}

// A value as it stands, whether a `\` before a character goes there, and what follows it, after a `=` and blanks.
fn cut_value(s: &str) -> (&str, bool, &str)
    requires { first_passes is_blank s.now ≡ false }
    ensures { IsValueAt s.now result.2.now (said result.1 result.0.now) }
{
    match past(s, b'"') {
        Some(inner) => {
            let (raw, rest) = cut_open(inner);
            (raw, true, rest)
        }
        None => {
            let (value, rest) = cut_run(Run::Value, s);
            (trim_end(value), false, rest)
        }
    }
}

// Whether a name is a token, and a value can stand in a quoted string.
fn is_writable(name: &str, value: Option<&str>) -> bool
    ensures { result ≡ (is_token name.now && is_writable_value (now_of value.entry)) }
{
    if name.is_empty() || !is_all(Run::Token, name.as_bytes()) {
        return false;
    }
    match value {
        Some(value) => is_all(Run::Pair, value.as_bytes()),
        None => true,
    }
}

// The parameter of a name and a value, where it can be written.
fn param_piece<'a>(name: &'a str, value: Option<&'a str>, escapes: bool) -> Piece<'a>
    ensures { IsPieceOf result (record {
      name = str_to_ascii_lowercase name.now;
      value = option_map (said escapes) (now_of value.entry);
    }) }
{
    if is_writable(name, value) {
        Piece::Param(ParamText {
            name,
            value,
            escapes,
        })
    } else {
        Piece::NoParam
    }
}

// What stands after a `;`, and what follows it.
fn param_after<'a>(whole: &'a str, following: &'a str) -> (Piece<'a>, &'a str)
    requires { whole.now ≡ semicolon ∷ following.now }
    ensures { Comes true whole.now result.0 result.1.now }
{
    let (_, next) = cut_run(Run::Blank, following);
    let (name, rest) = cut_run(Run::Name, next);
    match past_equals(rest) {
        Some(start) => {
            let (value, escapes, after) = cut_value(start);
            (param_piece(name, Some(value), escapes), after)
        }
        None => (param_piece(name, None, false), rest),
    }
}

// What a walk after a target or a parameter comes to, and what follows it; `None` at the end.
fn next_param<'a>(s: &'a str) -> Option<(Piece<'a>, &'a str)>
    ensures { MatchOption result (Ends true s.now) (λ r. Comes true s.now r.0 r.1.now) }
{
    let (_, next) = cut_run(Run::Blank, s);
    if let Some(following) = past(next, b';') {
        let (piece, rest) = param_after(next, following);
        return Some((piece, rest));
    }
    match past_comma(next) {
        Some(after) => Some((Piece::Comma, after)),
        None => None,
    }
}

// What a walk comes to, and what follows it; `None` at the end. `inside` says that it stands after a target or a
// parameter.
pub(crate) fn next_piece<'a>(inside: bool, s: &'a str) -> Option<(Piece<'a>, &'a str)>
    ensures { MatchOption result (Ends inside s.now) (λ r. Comes inside s.now r.0 r.1.now) }
{
    if inside {
        next_param(s)
    } else {
        next_target(s)
    }
}

// Whether a walk stands after a target or a parameter, past a piece.
pub(crate) fn is_inside(piece: Piece<'_>) -> bool
    ensures { result ≡ stands piece.entry }
{
    !matches!(piece, Piece::Comma)
}
