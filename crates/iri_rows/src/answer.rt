//! Answers in words.
use iri_text::{Show, ToStringFallible};
use std::alloc::{AllocError, Global};
use std::fmt::Display;

/// The word for the answer of a test.
pub fn word(answer: bool) -> &'static str {
    if answer { "yes" } else { "no" }
}

/// The same as an answer.
///
/// # Errors
///
/// Where allocation fails.
pub fn yes_or_no(alloc: Global, answer: bool) -> Result<String, AllocError> {
    String::from_str(alloc, word(answer))
}

/// A value as it is displayed.
///
/// # Errors
///
/// Where allocation fails.
pub fn displayed<T: Display>(alloc: Global, value: &T) -> Result<String, AllocError> {
    format!(in alloc; "{value}")
}

/// A value as it is shown and displayed; both, where they differ.
///
/// # Errors
///
/// Where allocation fails.
pub fn shown<T: Show + Display>(alloc: Global, value: &T) -> Result<String, AllocError> {
    let shown = value.try_to_string(alloc)?;
    let displayed = displayed(alloc, value)?;
    agreed(alloc, shown, displayed.as_str())
}

/// The texts, parted by spaces.
///
/// # Errors
///
/// Where allocation fails.
pub fn spaced(alloc: Global, texts: &[&str]) -> Result<String, AllocError> {
    let mut answer = String::new(alloc);
    for (i, text) in texts.iter().enumerate() {
        if i > 0 {
            answer.push_str(" ")?;
        }
        answer.push_str(text)?;
    }
    Ok(answer)
}

/// One answer, or both where they differ.
///
/// # Errors
///
/// Where allocation fails.
pub fn agreed(alloc: Global, one: String, other: &str) -> Result<String, AllocError> {
    if one.as_str() == other {
        return Ok(one);
    }
    spaced(alloc, &[one.as_str(), "and", other])
}

fn put_escaped(alloc: Global, text: &mut String, byte: u8) -> Result<(), AllocError> {
    match byte {
        b'\t' => text.push_str("\\t"),
        b'\n' => text.push_str("\\n"),
        b'\r' => text.push_str("\\r"),
        b'\\' => text.push_str("\\\\"),
        b' '..=b'~' => text.push(byte as char),
        _ => {
            text.push_str("\\x")?;
            text.push_str(format!(in alloc; "{byte:02X}")?.as_str())
        }
    }
}

// Bytes as a field writes them.
pub(crate) fn escaped(alloc: Global, bytes: &[u8]) -> Result<String, AllocError> {
    let mut text = String::new(alloc);
    for byte in bytes {
        put_escaped(alloc, &mut text, *byte)?;
    }
    Ok(text)
}
