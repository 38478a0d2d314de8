// Whether a text begins with two slashes, by its pieces.
ghost use Rattle.std.specs.Prelude.{◌≡◌, take};
ghost use Rattle.iri_normal.specs.inside.Beginning.{after_byte, begun_by, is_slashes};

use iri_text::{Stop, TextSink};

// What a text begins with, as far as it was put.
#[derive(Clone, Copy)]
pub(crate) enum Begun {
    Nothing,
    Slash,
    Slashes,
    Other,
}

// It takes what a text begins with, and never stops.
#[derive(Drop)]
pub(crate) struct Beginning {
    pub(crate) begun: Begun,
}

// Whether that is two slashes.
pub(crate) fn is_slashes(begun: Begun) -> bool
    ensures { result ≡ is_slashes begun }
{
    matches!(begun, Begun::Slashes)
}

fn after_byte(begun: Begun, b: u8) -> Begun
    ensures { result ≡ after_byte begun b }
{
    match (begun, b) {
        (Begun::Nothing, b'/') => Begun::Slash,
        (Begun::Slash, b'/') | (Begun::Slashes, _) => Begun::Slashes,
        (_, _) => Begun::Other,
    }
}

fn after_text(begun: Begun, text: &[u8]) -> Begun
    ensures { result ≡ begun_by begun text.now }
{
    let mut now = begun;
    for b in text {
        now = after_byte(now, *b);
    }
    now
}

// The first two bytes, or all where there are fewer.
fn first_two(text: &[u8]) -> &[u8]
    ensures { result.now ≡ take 2 text.now }
{
    if text.len() < 2 { text } else { &text[..2] }
}

// The same by the first two bytes, which tell it: a piece may be long.
fn after_piece(begun: Begun, piece: &[u8]) -> Begun
    ensures { result ≡ begun_by begun piece.now }
{
    after_text(begun, first_two(piece))
}

impl TextSink for Beginning {
    ghost use Rattle.iri_normal.specs.inside.Beginning.{Begins, StopsNowhere, begins_none, begins_both};

    ghost puts = { Begins };

    ghost halts = { StopsNowhere };

    ghost stops = { λ _. 0 };

    ghost rules = { record { none = begins_none; both = begins_both; until = λ _ _ _ _ _ _ h. h; within = λ _ _ _ _ h. h } };

    fn put(&mut self, piece: &str) -> Result<(), Stop> {
        self.begun = after_piece(self.begun, piece.as_bytes());
        Ok(())
    }
}
