// A text and bytes, owned, which clauses see as lists.
ghost use Rattle.std.specs.Prelude.{◌≡◌, Some, string_bytes};

use crate::{FormatSink, Show, Stop, TextSink};
use std::fmt;
use std::marker::Model;

/// Owns a text, and is seen as its UTF-8 bytes.
///
/// ```
/// use iri::format::Text;
/// let text = Text::from_string(String::from_str(rt.alloc(), "rosé")?);
/// assert_eq!(rt; text.as_str(), "rosé");
/// ```
#[derive(Debug, Drop)]
pub struct Text {
    string: String,
}

impl Model for Text {
    ghost use Rattle.std.specs.Prelude.{ℕ, List, string_bytes};

    ghost Value = { List ℕ };

    ghost view = { λ a. string_bytes a.string };
}

impl Text {
    /// The text of a string.
    pub fn from_string(s: String) -> Self
        ensures { result ≡ string_bytes s }
    {
        Text { string: s }
    }

    /// The text, borrowed.
    pub fn as_str(&self) -> &str
        ensures { result.now ≡ self.now }
    {
        self.string.as_str()
    }

    /// The text as a string.
    pub fn into_string(self) -> String
        ensures { string_bytes result ≡ self }
    {
        self.string
    }
}

impl Show for Text {
    ghost text = { λ t. t };

    fn show<W: TextSink>(&self, sink: &mut W) -> Result<(), Stop> {
        sink.put(self.as_str())
    }
}

impl fmt::Display for Text {
    ghost output = { λ t. Some t };

    ghost styled_output = { λ t _. Some t };

    fn fmt<W: fmt::Write>(&self, f: &mut fmt::Formatter<W>) -> fmt::Result {
        FormatSink::new(f).display(self)
    }
}

/// Owns bytes, and is seen as their list.
///
/// ```
/// use iri::format::Bytes;
/// let bytes = Bytes::from_vec(vec![in rt.alloc(); 1, 2]?);
/// assert_eq!(rt; bytes.as_slice(), [1, 2].as_slice());
/// ```
#[derive(Debug, Drop)]
pub struct Bytes {
    vec: Vec<u8>,
}

impl Model for Bytes {
    ghost use Rattle.std.specs.Prelude.{ℕ, List};

    ghost Value = { List ℕ };

    ghost view = { λ a. a.vec.items };
}

impl Bytes {
    /// The bytes of a vector.
    pub fn from_vec(v: Vec<u8>) -> Self
        ensures { result ≡ v.items }
    {
        Bytes { vec: v }
    }

    /// The bytes, borrowed.
    pub fn as_slice(&self) -> &[u8]
        ensures { result.now ≡ self.now }
    {
        self.vec.as_slice()
    }

    /// The bytes as a vector.
    pub fn into_vec(self) -> Vec<u8>
        ensures { result.items ≡ self }
    {
        self.vec
    }
}
