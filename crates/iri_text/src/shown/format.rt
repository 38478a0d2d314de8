// Shown values as displayed ones.
ghost use Rattle.std.specs.Prelude.{◌≤◌, OnOk, OnErr};
ghost use Rattle.iri_text.specs.Count.{Rose};
ghost use Rattle.iri_text.specs.Shown.{Shows};
ghost use Rattle.iri_text.specs.FormatText.{FormatPuts, FormatHalts};
ghost use Rattle.iri_text.specs.inside.FormatLaws.{format_none, format_both, format_until, format_within};

use crate::shown::format_sink::FormatSink;
use crate::{Show, Stop, TextSink};
use std::fmt;

impl<'f, W: fmt::Write> TextSink for FormatSink<'f, W> {
    ghost puts = { FormatPuts W.write_str_gives };

    ghost halts = { FormatHalts };

    ghost stops = { λ s. s.stops };

    ghost rules = { record {
      none = format_none W.write_str_gives;
      both = format_both W.write_str_gives;
      until = format_until W.write_str_gives;
      within = format_within W.write_str_gives;
    } };

    /// Stops where the formatter refuses the piece.
    fn put(&mut self, piece: &str) -> Result<(), Stop> {
        match self.to.write_str(piece) {
            Ok(()) => Ok(()),
            Err(_) => {
                self.stops = self.stops.saturating_add(1);
                Err(Stop)
            }
        }
    }
}

impl<'f, W: fmt::Write> FormatSink<'f, W> {
    /// Writes the text of a value. With `FormatSink::new(f)` before it, this is the body of `fmt` in the `Display` of a
    /// type that has `Show`.
    ///
    /// # Errors
    ///
    /// Only where the count of pieces that the formatter refused rises.
    pub fn display<T: Show>(&mut self, value: &T) -> fmt::Result
        ensures text { OnOk result (FormatPuts W.write_str_gives self.old (T.text value.now) self.new) }
        ensures rose { OnErr result (Rose self.old.stops self.new.stops) }
        ensures later { self.old.stops ≤ self.new.stops }
    {
        match value.show(self) {
            Ok(()) => Ok(()),
            Err(_) => Err(fmt::Error),
        }
    }
}
