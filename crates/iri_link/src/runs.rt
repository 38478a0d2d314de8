// Runs of blanks and of a token's characters.
ghost use Rattle.std.specs.Prelude.{◌≡◌, ◌==◌, ◌<◌, ◌≤◌, ◌∷◌, false, length, slice_index, take, MatchOption};
ghost use Rattle.std.specs.List.{list_all};
ghost use Rattle.iri_grammar.specs.Runs.{run_of};
ghost use Rattle.iri_link.specs.Token.{is_token_char};
ghost use Rattle.iri_grammar.specs.inside.Runs.{first_passes};
ghost use Rattle.iri_link.specs.inside.Pieces.{without_end};
ghost use Rattle.iri_link.specs.inside.Runs.{run_test, IsRun};

use crate::quoted::{is_pair_char, is_plain_char};
use iri_grammar::cutting;

// What a run is of.
#[derive(Clone, Copy)]
pub(crate) enum Run {
    // Spaces and tabs.
    Blank,
    // Characters of a token.
    Token,
    // Characters of a name that is read laxly.
    Name,
    // Characters of such a value that is no quoted string.
    Value,
    // Characters that may stand after a `\` in a quoted string.
    Pair,
    // Those that stand there for themselves.
    Plain,
    // Small letters.
    Lower,
}

impl Run {
    fn has(self, b: u8) -> bool
        ensures { result ≡ run_test self b }
    {
        match self {
            Run::Blank => b == b' ' || b == b'\t',
            Run::Token => {
                b.is_ascii_alphanumeric()
                    || matches!(
                        b,
                        b'!' | b'#'
                            | b'$'
                            | b'%'
                            | b'&'
                            | b'\''
                            | b'*'
                            | b'+'
                            | b'-'
                            | b'.'
                            | b'^'
                            | b'_'
                            | b'`'
                            | b'|'
                            | b'~'
                    )
            }
            Run::Name => !matches!(b, b' ' | b'\t' | b'=' | b';' | b','),
            Run::Value => !matches!(b, b';' | b','),
            Run::Pair => is_pair_char(b),
            Run::Plain => is_plain_char(b),
            Run::Lower => b.is_ascii_lowercase(),
        }
    }
}

// How many bytes at the start are of the run.
fn run_len(run: Run, bytes: &[u8]) -> usize
    ensures { result ≡ run_of (run_test run) bytes.now }
{
    cutting::run_len(bytes, |b| run.has(b))
}

// Whether all bytes are of the run.
pub(crate) fn is_all(run: Run, bytes: &[u8]) -> bool
    ensures { result ≡ list_all (run_test run) bytes.now }
{
    run_len(run, bytes) == bytes.len()
}

// The run at the start, and what follows it.
pub(crate) fn cut_run(run: Run, s: &str) -> (&str, &str)
    ensures { IsRun (run_test run) s.now result.0.now result.1.now }
{
    s.split_at(run_len(run, s.as_bytes()))
}

// How many bytes stand before the blanks at the end.
fn len_without_end(bytes: &[u8]) -> usize
    ensures bound { result ≤ length bytes.now }
    ensures value { take result bytes.now ≡ without_end bytes.now }
    ensures ascii { result < length bytes.now → slice_index bytes.now result < 128 }
{
    let mut len = bytes.len();
    while len > 0 {
        if !Run::Blank.has(bytes[len - 1]) {
            return len;
        }
        len -= 1;
    }
    len
}

// The text without the blanks at its end.
pub(crate) fn trim_end(s: &str) -> &str
    ensures { result.now ≡ without_end s.now }
{
    &s[..len_without_end(s.as_bytes())]
}

// Whether the delimiter comes first.
fn begins_with(bytes: &[u8], delimiter: u8) -> bool
    ensures { result ≡ first_passes (λ c. c == delimiter) bytes.now }
{
    match bytes {
        [b, ..] => *b == delimiter,
        _ => false,
    }
}

// What follows the delimiter at the start, where it is there. The delimiter must be ASCII.
pub(crate) fn past(s: &str, delimiter: u8) -> Option<&str>
    requires { delimiter < 128 }
    ensures { MatchOption result (first_passes (λ c. c == delimiter) s.now ≡ false) (λ r. s.now ≡ delimiter ∷ r.now) }
{
    if begins_with(s.as_bytes(), delimiter) {
        Some(&s[1..])
    } else {
        None
    }
}

// Whether a token begins there.
pub(crate) fn begins_token(s: &str) -> bool
    ensures { result ≡ first_passes is_token_char s.now }
{
    match s.as_bytes() {
        [b, ..] => Run::Token.has(*b),
        _ => false,
    }
}
