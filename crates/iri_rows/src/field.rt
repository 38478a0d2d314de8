//! Fields of rows.
use crate::error::RowError;
use iri_grammar::spec::Spec;
use iri_percent::canon_mode::CanonMode;
use iri_types::kind::Kind;
use iri_types::view::View;
use std::alloc::Global;
use std::str;

/// A field of a row: its bytes, with the escapes read.
#[derive(Drop)]
pub struct Field {
    bytes: Vec<u8>,
    is_dash: bool,
}

impl Field {
    // Reads `\t`, `\n`, `\r`, `\\` and `\xHH`.
    pub(crate) fn new(alloc: Global, raw: &str) -> Result<Field, RowError> {
        let mut bytes = Vec::new(alloc);
        let mut rest = raw.as_bytes();
        for _ in 0..raw.len() {
            rest = match rest {
                [] => break,
                [b'\\', b'x', high, low, after @ ..] => {
                    bytes.push(byte_of(*high, *low)?)?;
                    after
                }
                [b'\\', letter, after @ ..] => {
                    bytes.push(named(*letter)?)?;
                    after
                }
                [b'\\'] => return Err(RowError::NoRow),
                [byte, after @ ..] => {
                    bytes.push(*byte)?;
                    after
                }
            };
        }
        Ok(Field {
            bytes,
            is_dash: raw == "-",
        })
    }

    /// The bytes.
    pub fn bytes(&self) -> &[u8] {
        self.bytes.as_slice()
    }

    /// The bytes as a text.
    ///
    /// # Errors
    ///
    /// `NoRow`, where they aren't UTF-8.
    pub fn text(&self) -> Result<&str, RowError> {
        match str::from_utf8(self.bytes.as_slice()) {
            Ok(text) => Ok(text),
            Err(_) => Err(RowError::NoRow),
        }
    }

    /// The number of these digits.
    ///
    /// # Errors
    ///
    /// `NoRow`, where they are none, or it doesn't fit.
    pub fn number(&self) -> Result<usize, RowError> {
        match self.text()?.parse::<usize>() {
            Ok(number) => Ok(number),
            Err(_) => Err(RowError::NoRow),
        }
    }

    /// The text, or `None` where the field is `-` alone.
    ///
    /// # Errors
    ///
    /// `NoRow`, where the bytes aren't UTF-8.
    pub fn optional(&self) -> Result<Option<&str>, RowError> {
        if self.is_dash {
            return Ok(None);
        }
        Ok(Some(self.text()?))
    }

    /// The text as a view.
    ///
    /// # Errors
    ///
    /// `NoRow`, where it isn't one of this kind.
    pub fn view<S: Spec, K: Kind>(&self) -> Result<View<'_, S, K>, RowError> {
        match View::new(self.text()?) {
            Ok(view) => Ok(view),
            Err(_) => Err(RowError::NoRow),
        }
    }

    /// The mode of this name: `default` or `scheme`.
    ///
    /// # Errors
    ///
    /// `NoRow`, where there is none.
    pub fn mode(&self) -> Result<CanonMode, RowError> {
        match self.text()? {
            "default" => Ok(CanonMode::Default),
            "scheme" => Ok(CanonMode::Scheme),
            _ => Err(RowError::NoRow),
        }
    }
}

// The byte of an escape of one letter.
fn named(letter: u8) -> Result<u8, RowError> {
    match letter {
        b't' => Ok(b'\t'),
        b'n' => Ok(b'\n'),
        b'r' => Ok(b'\r'),
        b'\\' => Ok(b'\\'),
        _ => Err(RowError::NoRow),
    }
}

fn digit(byte: u8) -> Result<u8, RowError> {
    match byte {
        b'0'..=b'9' => Ok(byte - b'0'),
        b'A'..=b'F' => Ok(byte - b'A' + 10),
        _ => Err(RowError::NoRow),
    }
}

// The byte of two hexadecimal digits.
fn byte_of(high: u8, low: u8) -> Result<u8, RowError> {
    Ok((digit(high)? & 0xF) << 4 | digit(low)? & 0xF)
}
