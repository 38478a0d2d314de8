//! Replacing a part of an owned text.
ghost use Rattle.std.specs.Prelude.{◌≡◌, ◌≤◌, ◌<◌, ◌+◌, length, None, OnErr, OnOk};
ghost use Rattle.std.specs.Str.{IsCharBoundary};
ghost use Rattle.std.specs.String.{string_bytes, string_capacity};
ghost use Rattle.std.specs.Vec.{vec_capacity};
ghost use Rattle.std.proofs.Math.Seq.{paste};
ghost use Rattle.iri_owned.specs.OwnedText.{owned_text};
ghost use Rattle.iri_owned.specs.Spliced.{spliced};

use crate::owned::Owned;
use iri_grammar::spec::Spec;
use iri_types::kind::Kind;
use std::alloc::AllocError;
use std::mem;
use std::ops::Range;

// Writes bytes over those from `start` on.
fn write_at(bytes: &mut [u8], start: usize, new: &[u8])
    requires { start + length new.now ≤ length bytes.old }
    ensures { bytes.new ≡ paste bytes.old start new.now (length new.now) }
{
    bytes[start..start + new.len()].copy_from_slice(new);
}

// Puts bytes at a place of a vector.
fn write_into(bytes: &mut Vec<u8>, start: usize, new: &[u8])
    requires { start + length new.now ≤ length bytes.old.items }
    ensures items { bytes.new.items ≡ paste bytes.old.items start new.now (length new.now) }
    ensures capacity { vec_capacity bytes.new ≡ vec_capacity bytes.old }
{
    write_at(bytes.as_mut_slice(), start, new);
}

// Puts bytes in the place of the range, which has no fewer. It allocates nothing.
fn overwrite(bytes: &mut Vec<u8>, start: usize, end: usize, new: &[u8])
    requires fits { start + length new.now ≤ end }
    requires inside { end ≤ length bytes.old.items }
    ensures items { bytes.new.items ≡ spliced bytes.old.items start end new.now }
    ensures capacity { vec_capacity bytes.new ≡ vec_capacity bytes.old }
{
    let at = start + new.len();
    let tail = bytes.len() - end;
    write_into(bytes, start, new);
    bytes.copy_within(end.., at);
    bytes.truncate(at + tail);
}

// Puts a text in the place of the range, which is no shorter. It allocates nothing.
fn replace_within(text: &mut String, start: usize, end: usize, new: &str)
    requires fits { start + length new.now ≤ end }
    requires low { IsCharBoundary (string_bytes text.old) start }
    requires high { IsCharBoundary (string_bytes text.old) end }
    ensures text { string_bytes text.new ≡ spliced (string_bytes text.old) start end new.now }
    ensures capacity { string_capacity text.new ≡ string_capacity text.old }
{
    let empty = String::new(*text.allocator());
    let mut bytes = mem::replace(text, empty).into_bytes();
    overwrite(&mut bytes, start, end, new.as_bytes());
    *text = unsafe { String::from_utf8_unchecked(bytes) };
}

// Puts bytes in the place of the range, which has no more, where there is room for them.
fn widen(bytes: &mut Vec<u8>, start: usize, end: usize, new: &[u8])
    requires ordered { start ≤ end }
    requires inside { end ≤ length bytes.old.items }
    requires longer { end ≤ start + length new.now }
    requires room { length (spliced bytes.old.items start end new.now) ≤ vec_capacity bytes.old }
    ensures items { bytes.new.items ≡ spliced bytes.old.items start end new.now }
    ensures capacity { vec_capacity bytes.old ≤ vec_capacity bytes.new }
{
    let tail = bytes.len() - end;
    let more = new.len() - (end - start);
    match bytes.extend_from_slice(&new[..more]) {
        Ok(()) => {
            let len = bytes.len();
            bytes.copy_within(end..len - more, len - tail);
            write_into(bytes, start, new);
        }
        Err(_) => unreachable!(),
    }
}

// Puts a text in the place of the range, which is no longer. Allocation failure comes only where what comes out
// is longer than the capacity; then all stays as it was.
fn replace_past(text: &mut String, start: usize, end: usize, new: &str) -> Result<(), AllocError>
    requires ordered { start ≤ end }
    requires longer { end ≤ start + length new.now }
    requires low { IsCharBoundary (string_bytes text.old) start }
    requires high { IsCharBoundary (string_bytes text.old) end }
    ensures ok { OnOk result (string_bytes text.new ≡ spliced (string_bytes text.old) start end new.now) }
    ensures err { OnErr result (owned_text text.new ≡ owned_text text.old) }
    ensures full { OnErr result (string_capacity text.old
        < length (spliced (string_bytes text.old) start end new.now)) }
    ensures capacity { string_capacity text.old ≤ string_capacity text.new }
{
    text.try_reserve(new.len() - (end - start))?;
    let empty = String::new(*text.allocator());
    let mut bytes = mem::replace(text, empty).into_bytes();
    widen(&mut bytes, start, end, new.as_bytes());
    *text = unsafe { String::from_utf8_unchecked(bytes) };
    Ok(())
}

impl<S: Spec, K: Kind> Owned<S, K> {
    /// Puts a text in the place of a range in bytes. It has conditions: the range lies in the text on character
    /// boundaries (`str::is_char_boundary` tests each), and what comes out is in the production (`K::validate` tests
    /// it).
    ///
    /// # Errors
    ///
    /// Where allocation fails, and only where what comes out is longer than the capacity, so never where the new text
    /// is no longer than the range; the text and its capacity are as they were then.
    ///
    /// ```
    /// use iri::types::UriString;
    /// let mut link = UriString::try_from_str(rt.alloc(), "http://a/b/c")?;
    /// link.splice(9..10, "xyz")?;
    /// assert_eq!(rt; link.as_str(), "http://a/xyz/c");
    /// ```
    pub fn splice(&mut self, range: Range<usize>, new: &str) -> Result<(), AllocError>
        requires ordered { range.start ≤ range.end }
        requires low { IsCharBoundary self.old.text range.start }
        requires high { IsCharBoundary self.old.text range.end }
        requires valid { K.fault S.tests (spliced self.old.text range.start range.end new.now) ≡ None }
        ensures ok { OnOk result (self.new.text ≡ spliced self.old.text range.start range.end new.now) }
        ensures err { OnErr result (self.new ≡ self.old) }
        ensures memory { OnErr result (range.end < range.start + length new.now) }
        ensures full { OnErr result (self.old.capacity < length (spliced self.old.text range.start range.end new.now)) }
        ensures capacity { self.old.capacity ≤ self.new.capacity }
        ensures within { range.start + length new.now ≤ range.end → self.new.capacity ≡ self.old.capacity }
    {
        let (start, end) = (range.start, range.end);
        if new.len() <= end - start {
            replace_within(&mut self.text, start, end, new);
            Ok(())
        } else {
            replace_past(&mut self.text, start, end, new)
        }
    }
}
