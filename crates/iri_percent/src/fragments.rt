// The fragments that a decoding is put together from.
ghost use Rattle.std.specs.Iterator.{UpTo, at_most};
ghost use Rattle.std.specs.Iterator.SizeHint.{IsWithinCount};
ghost use Rattle.std.specs.Prelude.{◌≡◌, ◌<◌, ◌∷◌, IfSome, length, drop, min, slice_index};
ghost use Rattle.iri_grammar.specs.Cut.{before, from};
ghost use Rattle.iri_percent.specs.Decoding.{fragments};
ghost use Rattle.iri_percent.specs.FragmentViews.{fragment, source_len};
ghost use Rattle.iri_grammar.specs.Characters.{percent_sign};

use crate::octets::first_octet;
use memchr::memchr;

/// A fragment of a text that is decoded.
///
/// ```
/// use iri::percent_encode::decode::{DecodedFragment, decode_whatwg_bytes};
/// let mut pieces = decode_whatwg_bytes(b"a%41%").bytes_fragments();
/// assert_eq!(rt; pieces.next(), Some(DecodedFragment::Direct(b"a".as_slice())));
/// assert_eq!(rt; pieces.next(), Some(DecodedFragment::DecodedByte(65)));
/// assert_eq!(rt; pieces.next(), Some(DecodedFragment::StrayPercent));
/// ```
#[derive(Clone, Copy, Debug, PartialEq, Eq, Hash)]
pub enum DecodedFragment<'a> {
    /// A run of bytes without `%`, as long as it can be.
    Direct(&'a [u8]),
    /// The byte that a percent-encoded octet gives.
    DecodedByte(u8),
    /// A `%` that no two hex digits follow. It stands for itself.
    StrayPercent,
}

/// The fragments of a text, from the left. Joined, they are the decoded bytes: the bytes of each run, the byte of each
/// percent-encoded octet, and `%` for each stray one.
///
/// ```
/// use iri::percent_encode::decode::decode_whatwg_bytes;
/// let mut pieces = decode_whatwg_bytes(b"a%41").bytes_fragments();
/// assert!(rt; pieces.next().is_some());
/// assert_eq!(rt; pieces.not_yet_decoded(), b"%41".as_slice());
/// ```
#[derive(Clone, Debug, Drop)]
pub struct PercentDecodedBytesFragments<'a> {
    rest: &'a [u8],
}

impl<'a> PercentDecodedBytesFragments<'a> {
    // All fragments of the text.
    pub(crate) fn new(text: &'a [u8]) -> Self
        ensures { result.rest.now ≡ text.now }
    {
        PercentDecodedBytesFragments { rest: text }
    }

    /// The bytes that the fragments still to come are read from, not decoded.
    pub fn not_yet_decoded(&self) -> &'a [u8]
        ensures { result.now ≡ self.now.rest.now }
    {
        self.rest
    }
}

// The longest run without `%` at the start, and the rest.
fn split_run(text: &[u8]) -> (&[u8], &[u8])
    ensures run { result.0.now ≡ before percent_sign text.now }
    ensures rest { result.1.now ≡ from percent_sign text.now }
{
    match memchr(b'%', text) {
        Some(i) => text.split_at(i),
        None => text.split_at(text.len()),
    }
}

// The fragment that a `%` begins, and the rest.
fn split_percent(text: &[u8]) -> (DecodedFragment<'_>, &[u8])
    requires { (0 < length text.now) × (slice_index text.now 0 ≡ percent_sign) }
    ensures first { fragments text.now ≡ fragment result.0 ∷ fragments result.1.now }
    ensures rest { result.1.now ≡ drop (source_len (fragment result.0)) text.now }
{
    match first_octet(text) {
        Some(octet) => (DecodedFragment::DecodedByte(octet), &text[3..]),
        None => (DecodedFragment::StrayPercent, &text[1..]),
    }
}

// The first fragment, and the rest.
fn split_fragment(text: &[u8]) -> (DecodedFragment<'_>, &[u8])
    requires { 0 < length text.now }
    ensures first { fragments text.now ≡ fragment result.0 ∷ fragments result.1.now }
    ensures rest { result.1.now ≡ drop (source_len (fragment result.0)) text.now }
{
    if text[0] == b'%' {
        return split_percent(text);
    }
    let (run, rest) = split_run(text);
    (DecodedFragment::Direct(run), rest)
}

impl<'a> Iterator for PercentDecodedBytesFragments<'a> {
    ghost use Rattle.std.specs.Iterator.{item_count};
    ghost use Rattle.iri_percent.specs.FragmentViews.{fragments_left, GivesFirst};

    type Item = DecodedFragment<'a>;

    ghost next_gives = { GivesFirst };

    ghost remaining = { item_count fragments_left };

    /// The next fragment; `None` exactly where every fragment was given.
    #[tactic(auto, using(crate::proofs::coding::Fragments::fragment_counts))]
    fn next(&mut self) -> Option<DecodedFragment<'a>> {
        if self.rest.is_empty() {
            return None;
        }
        let (fragment, rest) = split_fragment(self.rest);
        self.rest = rest;
        Some(fragment)
    }

    /// From one fragment to as many as bytes are left, and none where none is.
    #[tactic(auto, using(crate::proofs::coding::Fragments::fragment_counts))]
    fn size_hint(&self) -> (usize, Option<usize>)
        ensures lower { IsWithinCount result.0 (at_most (length (fragments self.now.rest.now))) }
        ensures upper { IfSome result.1 (UpTo (at_most (length (fragments self.now.rest.now)))) }
        ensures value { result ≡ (min (length self.now.rest.now) 1, Some (length self.now.rest.now)) }
    {
        let bytes = self.rest.len();
        (bytes.min(1), Some(bytes))
    }
}
