// Text at the end of a string.
ghost use Rattle.std.specs.Prelude.{◌≡◌, ◌≤◌, ◌<◌, ◌+◌, ◌++◌, length, OnOk, OnErr, string_bytes, string_len};
ghost use Rattle.std.specs.Prelude.{string_capacity};
ghost use Rattle.iri_text.specs.Shown.{Shows};
ghost use Rattle.iri_text.specs.Prefix.{IsPrefixAfter};

use crate::{Show, Stop, TextSink};
use std::alloc::AllocError;

/// A sink at the end of a string. It stops where allocation fails, only where the string would have to grow.
///
/// ```
/// use iri::format::{StringSink, TextSink};
/// let mut text = String::from_str(rt.alloc(), "GET ")?;
/// assert!(rt; StringSink::new(&mut text).put("/over/there").is_ok());
/// assert_eq!(rt; text.as_str(), "GET /over/there");
/// ```
#[derive(Debug, Drop)]
pub struct StringSink<'b> {
    dest: &'b mut String,
    stops: u64,
}

impl<'b> StringSink<'b> {
    /// What is put goes to the end of `dest`, which holds it when the sink is given up.
    pub fn new(dest: &'b mut String) -> StringSink<'b>
        ensures same_reference { result.dest.ghost_name ≡ dest.entry.ghost_name }
        ensures same_string { result.dest.now ≡ dest.old }
        ensures stops { result.stops ≡ 0 }
    {
        StringSink { dest, stops: 0 }
    }
}

impl<'b> TextSink for StringSink<'b> {
    ghost use Rattle.std.specs.Prelude.{◌≡◌, OnErr};
    ghost use Rattle.iri_text.specs.Shown.{Shows};
    ghost use Rattle.iri_text.specs.StringText.{string_taken, StringPuts, StringHalts};
    ghost use Rattle.iri_text.specs.inside.AppendingLaws.{string_rules};

    ghost puts = { StringPuts };

    ghost halts = { StringHalts };

    ghost stops = { λ s. s.stops };

    ghost rules = { string_rules };

    /// Takes the piece.
    ///
    /// # Errors
    ///
    /// Where allocation fails, only where the piece has more bytes than the room that the string has left; nothing of
    /// it is taken then.
    fn put(&mut self, piece: &str) -> Result<(), Stop>
        ensures shows { Shows StringPuts StringHalts (λ s. s.stops) self.old piece.now self.new result }
        ensures nothing { OnErr result (string_taken self.new ≡ string_taken self.old) }
    {
        match self.dest.push_str(piece) {
            Ok(()) => Ok(()),
            Err(_) => {
                self.stops = self.stops.saturating_add(1);
                Err(Stop)
            }
        }
    }
}

/// Appends the text of a value to a string.
///
/// # Errors
///
/// Where allocation fails, and only where what comes out is longer than the capacity; the string is the old text and a
/// prefix of the new one then. The capacity is never less than before.
///
/// ```
/// use iri::format::try_append_to_string;
/// use iri::types::UriReferenceStr;
/// let mut line = String::from_str(rt.alloc(), "GET ")?;
/// try_append_to_string(&mut line, &UriReferenceStr::new("/over/there?name=ferret")?)?;
/// assert_eq!(rt; line.as_str(), "GET /over/there?name=ferret");
/// ```
pub fn try_append_to_string<T: Show>(dest: &mut String, value: &T) -> Result<(), AllocError>
    ensures whole { OnOk result (string_bytes dest.new ≡ string_bytes dest.old ++ T.text value.now) }
    ensures prefix { OnErr result (IsPrefixAfter (string_bytes dest.old) (T.text value.now) (string_bytes dest.new)) }
    ensures long { OnErr result (string_capacity dest.old < string_len dest.old + length (T.text value.now)) }
    ensures capacity { string_capacity dest.old ≤ string_capacity dest.new }
{
    let mut sink = StringSink::new(dest);
    match value.show(&mut sink) {
        Ok(()) => Ok(()),
        Err(_) => Err(AllocError),
    }
}
