// Percent-decoding (the URL Standard, section 1.3, "percent-decode").
ghost use Rattle.std.specs.Prelude.{◌≡◌, ◌<◌, ◌++◌, length, true, false, IfOk, IfSome, MatchOption, MatchResult, OnErr, OnOk};
ghost use Rattle.std.specs.Prelude.{string_bytes};
ghost use Rattle.iri_percent.specs.Decoding.{decoding, has_triplet, fragments, fragment_bytes};
ghost use Rattle.iri_percent.specs.FragmentViews.{fragment, fragments_left};
ghost use Rattle.iri_percent.specs.TextRefusals.{IsNoText};
ghost use Rattle.iri_percent.specs.inside.Octets.{is_octet};

use crate::fragments::{DecodedFragment, PercentDecodedBytesFragments};
use iri_text::Bytes;
use std::alloc::{AllocError, Global};
use thiserror::Error;

/// Bytes that are read decoded. They are equal, ordered and hashed as they are given, not as what they decode to.
///
/// ```
/// use iri::percent_encode::decode::decode_whatwg_bytes;
/// let bytes = decode_whatwg_bytes(b"%41");
/// assert_eq!(rt; bytes.not_yet_decoded(), b"%41".as_slice());
/// assert_eq!(rt; bytes.into_string(rt.alloc())?.as_str(), "A");
/// ```
#[derive(Clone, Copy, Debug, PartialEq, Eq, PartialOrd, Ord, Hash)]
pub struct PercentDecodedWhatwgBytes<'a> {
    source: &'a [u8],
}

/// Why decoded bytes are no string.
///
/// ```
/// use iri::percent_encode::decode::{DecodeTextError, decode_whatwg_bytes};
/// let decoded = decode_whatwg_bytes(b"%FF").into_string(rt.alloc());
/// assert!(rt; matches!(decoded, Err(DecodeTextError::NotUtf8(_))));
/// ```
#[derive(Debug, Drop, Error)]
pub enum DecodeTextError {
    /// The decoded bytes, which aren't UTF-8.
    #[error("the decoded bytes aren't UTF-8")]
    NotUtf8(Bytes),
    /// Allocation failed.
    #[error(transparent)]
    Memory(AllocError),
}

/// Bytes to be decoded by the URL Standard (section 1.3, "percent-decode"). Nothing is done yet.
///
/// Each `%` that two hex digits follow gives, with them, one byte; every other byte stands for itself. So a stray `%`,
/// one that no two hex digits follow, stays: `50%` and `%zz` decode to themselves. What a percent-encoded octet gives
/// isn't decoded again: `%2541` gives `%41`. Every sequence of bytes can be decoded, and what comes out needn't be
/// UTF-8.
///
/// ```
/// use iri::percent_encode::decode::decode_whatwg_bytes;
/// let decoded = decode_whatwg_bytes(b"%25%s%1G").into_bytes(rt.alloc())?;
/// assert_eq!(rt; decoded.as_slice(), b"%%s%1G".as_slice());
/// ```
pub fn decode_whatwg_bytes(bytes: &[u8]) -> PercentDecodedWhatwgBytes<'_>
    ensures { result.source.now ≡ bytes.now }
{
    PercentDecodedWhatwgBytes { source: bytes }
}

// Whether the fragment is the byte of a percent-encoded octet.
fn is_octet(piece: DecodedFragment<'_>) -> bool
    ensures { result ≡ is_octet (fragment piece.entry) }
{
    match piece {
        DecodedFragment::DecodedByte(_) => true,
        DecodedFragment::Direct(_) | DecodedFragment::StrayPercent => false,
    }
}

// Whether two hex digits follow some `%`.
fn has_triplet(text: &[u8]) -> bool
    ensures { result ≡ has_triplet text.now }
{
    for fragment in PercentDecodedBytesFragments::new(text) {
        if is_octet(fragment) {
            return true;
        }
    }
    false
}

// Puts the bytes of a fragment at the end.
fn push_fragment(bytes: &mut Vec<u8>, piece: DecodedFragment<'_>) -> Result<(), AllocError>
    ensures { OnOk result (bytes.new.items ≡ bytes.old.items ++ fragment_bytes (fragment piece.entry)) }
{
    match piece {
        DecodedFragment::Direct(run) => bytes.extend_from_slice(run)?,
        DecodedFragment::DecodedByte(octet) => bytes.push(octet)?,
        DecodedFragment::StrayPercent => bytes.push(b'%')?,
    }
    Ok(())
}

impl<'a> PercentDecodedWhatwgBytes<'a> {
    /// The bytes as they were given.
    pub fn not_yet_decoded(&self) -> &'a [u8]
        ensures { result.now ≡ self.now.source.now }
    {
        self.source
    }

    /// The bytes as they were given, exactly where no `%` is followed by two hex digits: they are then what they decode
    /// to. It allocates nothing.
    ///
    /// ```
    /// use iri::percent_encode::decode::decode_whatwg_bytes;
    /// assert_eq!(rt; decode_whatwg_bytes(b"50%").to_bytes(), Some(b"50%".as_slice()));
    /// assert_eq!(rt; decode_whatwg_bytes(b"%20").to_bytes(), None);
    /// ```
    #[tactic(auto, using(crate::proofs::coding::Fragments::decoded_texts))]
    pub fn to_bytes(&self) -> Option<&'a [u8]>
        ensures triplet { MatchOption result (has_triplet self.now.source.now ≡ true)
            (λ _. has_triplet self.now.source.now ≡ false) }
        ensures source { IfSome result (λ bytes. bytes.now ≡ self.now.source.now) }
        ensures decoded { IfSome result (λ bytes. bytes.now ≡ decoding self.now.source.now) }
    {
        if has_triplet(self.source) {
            None
        } else {
            Some(self.source)
        }
    }

    /// The decoded bytes, in a vector.
    ///
    /// # Errors
    ///
    /// Where allocation fails, only where there are bytes to decode.
    ///
    /// ```
    /// use iri::percent_encode::decode::decode_whatwg_bytes;
    /// let bytes = decode_whatwg_bytes(b"%FF50%").into_bytes(rt.alloc())?;
    /// assert_eq!(rt; bytes.as_slice(), b"\xFF50%".as_slice());
    /// ```
    pub fn into_bytes(&self, alloc: Global) -> Result<Vec<u8>, AllocError>
        ensures decoded { IfOk result (λ bytes. bytes.items ≡ decoding self.now.source.now) }
        ensures memory { OnErr result (0 < length self.now.source.now) }
    {
        let mut bytes = Vec::with_capacity(alloc, self.source.len())?;
        for fragment in self.bytes_fragments() {
            push_fragment(&mut bytes, fragment)?;
        }
        Ok(bytes)
    }

    /// The decoded bytes as a string.
    ///
    /// # Errors
    ///
    /// - `NotUtf8` with the decoded bytes, exactly where they aren't UTF-8.
    /// - `Memory` where allocation fails, only where there are bytes to decode; it may take the place of either answer,
    ///   since both hold the decoded bytes.
    ///
    /// ```
    /// use iri::percent_encode::decode::decode_whatwg_bytes;
    /// assert_eq!(rt; decode_whatwg_bytes(b"ros%C3%A9").into_string(rt.alloc())?.as_str(), "rosé");
    /// assert!(rt; decode_whatwg_bytes(b"ros%E9").into_string(rt.alloc()).is_err());
    /// ```
    pub fn into_string(&self, alloc: Global) -> Result<String, DecodeTextError>
        ensures { MatchResult result (λ s. string_bytes s ≡ decoding self.now.source.now)
            (λ e. IsNoText e self.now.source.now) }
    {
        match self.into_bytes(alloc) {
            Ok(bytes) => match String::from_utf8(bytes) {
                Ok(s) => Ok(s),
                Err(e) => Err(DecodeTextError::NotUtf8(Bytes::from_vec(e.into_bytes()))),
            },
            Err(e) => Err(DecodeTextError::Memory(e)),
        }
    }

    /// The fragments that the decoding is put together from. It allocates nothing.
    ///
    /// ```
    /// use iri::percent_encode::decode::{DecodedFragment, decode_whatwg_bytes};
    /// let mut fragments = decode_whatwg_bytes(b"a%20%").bytes_fragments();
    /// assert!(rt; matches!(fragments.next(), Some(DecodedFragment::Direct(b"a"))));
    /// assert!(rt; matches!(fragments.next(), Some(DecodedFragment::DecodedByte(32))));
    /// assert!(rt; matches!(fragments.next(), Some(DecodedFragment::StrayPercent)));
    /// assert!(rt; fragments.next().is_none());
    /// ```
    pub fn bytes_fragments(&self) -> PercentDecodedBytesFragments<'a>
        ensures fragments { fragments_left result ≡ fragments self.now.source.now }
        ensures source { result.rest.now ≡ self.now.source.now }
    {
        PercentDecodedBytesFragments::new(self.source)
    }
}
