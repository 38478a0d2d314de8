use crate::same::same;
use iri_grammar::spec::{IriSpec, Spec, UriSpec};
use iri_percent::{PercentEncoded, PercentEncodedForIri, PercentEncodedForUri};
use iri_text::{Show, Stop, TextSink, ToStringFallible, show_three, write_to_slice};
use std::test::Fail;

// The nine constructors, by number.
fn encoder<S: Spec>(place: usize, raw: &str) -> PercentEncoded<&str, S> {
    match place {
        0 => PercentEncoded::from_reg_name(raw),
        1 => PercentEncoded::from_user(raw),
        2 => PercentEncoded::from_password(raw),
        3 => PercentEncoded::from_path_segment(raw),
        4 => PercentEncoded::from_path(raw),
        5 => PercentEncoded::from_query(raw),
        6 => PercentEncoded::from_fragment(raw),
        7 => PercentEncoded::unreserve(raw),
        _ => PercentEncoded::characters(raw),
    }
}

// What each of them keeps of ASCII beside `unreserved` (RFC 3986 sections 2.2 and 3).
static KEPT: [&[u8]; 9] = [
    b"!$&'()*+,;=",
    b"!$&'()*+,;=",
    b"!$&'()*+,;=",
    b"!$&'()*+,;=:@",
    b"!$&'()*+,;=:@/",
    b"!$&'()*+,;=:@/?",
    b"!$&'()*+,;=:@/?",
    b"",
    b"!$&'()*+,;=:/?#[]@",
];

const UNRESERVED: &[u8] = b"ABCDEFGHIJKLMNOPQRSTUVWXYZabcdefghijklmnopqrstuvwxyz0123456789-._~";

fn shown<'b, S: Spec>(buf: &'b mut [u8], place: usize, raw: &str) -> &'b str {
    write_to_slice(buf, &encoder::<S>(place, raw)).unwrap_or("no room")
}

// Whether these are the percent-encoded octets of the octets, with capital hex digits.
fn is_spelled(text: &[u8], octets: &[u8]) -> bool {
    let digits = b"0123456789ABCDEF";
    for (triplet, octet) in text.chunks(3).zip(octets) {
        let high = digits[usize::from(*octet / 16)];
        let low = digits[usize::from(*octet % 16)];
        let want = [b'%', high, low];
        if triplet != want.as_slice() {
            return false;
        }
    }
    text.len() / 3 == octets.len() && text.len() % 3 == 0
}

// Whether a character stands as it is, where that is wanted, or is percent-encoded.
fn is_encoded<S: Spec>(place: usize, c: char, kept: bool) -> bool {
    let mut raw = [0u8; 4];
    let raw: &str = c.encode_utf8(&mut raw);
    let mut buf = [0u8; 16];
    let text = shown::<S>(&mut buf, place, raw);
    if kept {
        text == raw
    } else {
        is_spelled(text.as_bytes(), raw.as_bytes())
    }
}

#[test]
fn every_ascii_character(rt: HostRuntime) {
    for (place, others) in KEPT.iter().enumerate() {
        for byte in 0..128u8 {
            let kept = UNRESERVED.contains(&byte) || others.contains(&byte);
            let c = char::from(byte);
            assert!(rt; is_encoded::<UriSpec>(place, c, kept), "at {place} {byte}");
            assert!(rt; is_encoded::<IriSpec>(place, c, kept), "at {place} {byte}");
        }
    }
}

// Of the planes 1 to 13 all but the last two characters are in `ucschar`.
#[test]
fn borders_of_planes(rt: HostRuntime) {
    for plane in 1..14u32 {
        for &(end, in_class) in &[(0, true), (0xFFFD, true), (0xFFFE, false), (0xFFFF, false)] {
            match char::from_u32(plane * 0x1_0000 + end) {
                Some(c) => {
                    for place in 0..9usize {
                        assert!(rt; is_encoded::<UriSpec>(place, c, false), "at {place} {c}");
                        assert!(rt; is_encoded::<IriSpec>(place, c, in_class), "at {place} {c}");
                    }
                }
                None => assert!(rt; false, "no character"),
            }
        }
    }
}

// Counts the pieces that it is given.
#[derive(Drop)]
struct Counted {
    pieces: u64,
}

impl TextSink for Counted {
    ghost use Rattle.std.specs.Prelude.{⊤};

    ghost puts = { λ _ _ _. ⊤ };

    ghost halts = { λ _ _ _. ⊤ };

    ghost stops = { λ _. 0 };

    ghost rules = { record {
      none = λ _. tt;
      both = λ _ _ _ _ _ _ _. tt;
      until = λ _ _ _ _ _ _ _. tt;
      within = λ _ _ _ _ _. tt;
    } };

    fn put(&mut self, _piece: &str) -> Result<(), Stop> {
        self.pieces = self.pieces.saturating_add(1);
        Ok(())
    }
}

fn pieces_of(place: usize, raw: &str) -> u64 {
    let mut sink = Counted { pieces: 0 };
    match encoder::<IriSpec>(place, raw).show(&mut sink) {
        Ok(()) => sink.pieces,
        Err(_) => 0,
    }
}

// The longest runs that stand as they are go through as one piece, and so do up to eight octets that are spelled.
#[test]
fn pieces_of_runs(rt: HostRuntime) {
    same(&rt, pieces_of(4, ""), 0);
    same(&rt, pieces_of(4, "a/\u{3b1}/b-\u{10000}"), 1);
    same(&rt, pieces_of(4, "a b"), 3);
    same(&rt, pieces_of(4, "        "), 1);
    same(&rt, pieces_of(4, "         "), 2);
}

// Three texts in a row.
#[derive(Clone, Copy)]
struct Pieces<'a>(&'a str, &'a str, &'a str);

impl Show for Pieces<'_> {
    ghost use Rattle.std.specs.Prelude.{◌++◌};

    ghost text = { λ p. p.0.now ++ (p.1.now ++ p.2.now) };

    fn show<W: TextSink>(&self, sink: &mut W) -> Result<(), Stop> {
        show_three(sink, &self.0, &self.1, &self.2)
    }
}

#[test]
fn texts_in_pieces(rt: HostRuntime) -> Result<(), Fail> {
    let alloc = rt.alloc();
    let raw = Pieces("a%4", "1/ \u{3b1}", " \u{3b1}%");
    let uri = PercentEncodedForUri::from_path(raw).try_to_string(alloc)?;
    same(&rt, uri.as_str(), "a%2541/%20%CE%B1%20%CE%B1%25");
    let iri = PercentEncodedForIri::from_path(raw).try_to_string(alloc)?;
    same(&rt, iri.as_str(), "a%2541/%20\u{3b1}%20\u{3b1}%25");
    // A value that is encoded is a value too.
    let twice = PercentEncodedForUri::unreserve(PercentEncodedForIri::from_query(raw));
    let twice = twice.try_to_string(alloc)?;
    same(
        &rt,
        twice.as_str(),
        "a%252541%2F%2520%CE%B1%2520%CE%B1%2525",
    );
    let number = PercentEncodedForUri::unreserve(-17i32).try_to_string(alloc)?;
    same(&rt, number.as_str(), "-17");
    Ok(())
}

#[test]
fn displayed(rt: HostRuntime) -> Result<(), Fail> {
    let alloc = rt.alloc();
    // A slice that is too short.
    let mut buf = [0u8; 64];
    same(
        &rt,
        shown::<UriSpec>(&mut buf, 7, "                      "),
        "no room",
    );
    let encoded = PercentEncodedForUri::from_reg_name("a b\u{e9}");
    let text = format!(in alloc; "<{encoded}>")?;
    same(&rt, text.as_str(), "<a%20b%C3%A9>");
    Ok(())
}
