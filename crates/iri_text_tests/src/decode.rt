use crate::same::{same, same_at};
use iri_percent::{DecodeTextError, DecodedFragment, decode_whatwg_bytes, laws};
use iri_text::Bytes;
use std::alloc::{AllocError, Global};
use std::cmp::Ordering;
use std::hash::{DefaultHasher, Hash, Hasher};
use std::test::Fail;

#[test]
fn decoded_texts(rt: HostRuntime) -> Result<(), Fail> {
    let text = decode_whatwg_bytes(b"%CE%B1");
    same(&rt, text.not_yet_decoded(), b"%CE%B1".as_slice());
    let bytes = text.into_bytes(rt.alloc())?;
    same(&rt, bytes.as_slice(), b"\xCE\xB1".as_slice());
    same(&rt, text.into_string(rt.alloc())?.as_str(), "\u{3b1}");
    // Where there is nothing to decode no memory is wanted.
    let empty = decode_whatwg_bytes(b"").into_string(rt.alloc());
    same(&rt, empty.ok().ok_or("refused")?.as_str(), "");
    Ok(())
}

fn told(alloc: Global, error: &DecodeTextError) -> Result<String, Fail> {
    Ok(format!(in alloc; "{error}")?)
}

#[test]
fn refusals_are_told(rt: HostRuntime) -> Result<(), Fail> {
    let error = DecodeTextError::NotUtf8(Bytes::from_vec(Vec::new(rt.alloc())));
    same(
        &rt,
        told(rt.alloc(), &error)?.as_str(),
        "the decoded bytes aren't UTF-8",
    );
    let memory = DecodeTextError::Memory(AllocError);
    same(
        &rt,
        told(rt.alloc(), &memory)?.as_str(),
        "memory allocation failed",
    );
    Ok(())
}

// The fragments of `a%41%` in turn, each with the bytes that are left after it.
static FRAGMENTS: [(Option<DecodedFragment<'static>>, &[u8]); 5] = [
    (Some(DecodedFragment::Direct(b"a")), b"%41%"),
    (Some(DecodedFragment::DecodedByte(0x41)), b"%"),
    (Some(DecodedFragment::StrayPercent), b""),
    (None, b""),
    (None, b""),
];

#[test]
fn fragments(rt: HostRuntime) {
    let mut left = decode_whatwg_bytes(b"a%41%").bytes_fragments();
    same(&rt, left.size_hint(), (1, Some(5)));
    for &(fragment, rest) in &FRAGMENTS {
        same_at(&rt, rest, left.next(), fragment);
        same(&rt, left.not_yet_decoded(), rest);
    }
    same(&rt, left.size_hint(), (0, Some(0)));
}

// The example of the Rust crate.
#[test]
fn fragments_of_words(rt: HostRuntime) {
    let mut left = decode_whatwg_bytes(b"100% hello%20world").bytes_fragments();
    for &want in &[
        Some(DecodedFragment::Direct(b"100")),
        Some(DecodedFragment::StrayPercent),
        Some(DecodedFragment::Direct(b" hello")),
        Some(DecodedFragment::DecodedByte(b' ')),
        Some(DecodedFragment::Direct(b"world")),
        None,
    ] {
        same(&rt, left.next(), want);
    }
}

// Every pair of bytes after a `%`.
#[test]
fn all_pairs_of_digits(rt: HostRuntime) {
    let digits = b"0123456789abcdefABCDEF";
    for high in 0..=255u8 {
        for low in 0..=255u8 {
            let text = [b'%', high, low];
            let stays = decode_whatwg_bytes(&text).to_bytes().is_some();
            let spells = digits.contains(&high) && digits.contains(&low);
            same_at(&rt, (high, low), stays != spells, true);
        }
    }
}

fn hash_of<T: Hash>(x: &T) -> u64 {
    let mut state = DefaultHasher::new();
    x.hash(&mut state);
    state.finish()
}

// As they stand: `A` isn't `%41`.
#[test]
fn compared_as_given(rt: HostRuntime) {
    let plain = decode_whatwg_bytes(b"A");
    let spelled = decode_whatwg_bytes(b"%41");
    let copy = spelled;
    assert!(rt; plain != spelled && copy == spelled);
    same(&rt, plain.cmp(&spelled), Ordering::Greater);
    same(&rt, hash_of(&copy), hash_of(&spelled));
    let fragment = DecodedFragment::Direct(b"a");
    same(
        &rt,
        hash_of(&fragment),
        hash_of(&DecodedFragment::Direct(b"a")),
    );
    assert!(rt; fragment != DecodedFragment::DecodedByte(b'a'));
}

#[test]
fn what_the_law_of_decoding_says(rt: HostRuntime) {
    laws::decoding_of_texts();
    same(
        &rt,
        decode_whatwg_bytes(b"a%").to_bytes(),
        Some(b"a%".as_slice()),
    );
}
