// A text compared with one that is shown, without memory.
ghost use Rattle.std.specs.Prelude.{◌≡◌, ◌↔◌, ◌++◌, true, MatchOption};
ghost use Rattle.iri_normal.specs.inside.Comparison.{IsApart};
ghost use Rattle.iri_text.specs.Shown.{Shows};

use iri_text::{Show, Stop, TextSink};

// What is left of a text to compare with what is put. It stops at the first piece that isn't at the start of that.
#[derive(Drop)]
pub(crate) struct Comparison<'a> {
    left: &'a [u8],
    stops: u64,
}

// What follows a piece at the start of a text.
fn after<'a>(text: &'a [u8], piece: &[u8]) -> Option<&'a [u8]>
    ensures { MatchOption result (IsApart text.now piece.now) (λ rest. text.now ≡ piece.now ++ rest.now) }
{
    text.strip_prefix(piece)
}

impl<'a> TextSink for Comparison<'a> {
    ghost use Rattle.iri_normal.specs.inside.Comparison.{Leaves, Differs, leaves_none, leaves_both, differs_until};
    ghost use Rattle.iri_normal.specs.inside.Comparison.{differs_within};

    ghost puts = { Leaves };

    ghost halts = { Differs };

    ghost stops = { λ c. c.stops };

    ghost rules = { record { none = leaves_none; both = leaves_both; until = differs_until; within = differs_within } };

    fn put(&mut self, piece: &str) -> Result<(), Stop> {
        match after(self.left, piece.as_bytes()) {
            Some(rest) => {
                self.left = rest;
                Ok(())
            }
            None => {
                self.stops = self.stops.saturating_add(1);
                Err(Stop)
            }
        }
    }
}

// Whether a text is that of a value. Allocates nothing.
pub(crate) fn is_text<T: Show>(value: &T, text: &str) -> bool
    ensures { (result ≡ true) ↔ (T.text value.now ≡ text.now) }
{
    let mut sink = Comparison {
        left: text.as_bytes(),
        stops: 0,
    };
    match value.show(&mut sink) {
        Ok(()) => sink.left.is_empty(),
        Err(_) => false,
    }
}
