// What the calls answer: rows of the RFCs, room for each length, and unknown numbers.
use iri_calls::building::{FRAGMENT, HOST, PATH, PORT, Part, QUERY, SCHEME, irikit_build};
use iri_calls::canonical::{irikit_canonical, irikit_canonical_to_uri};
use iri_calls::decoding::irikit_decode;
use iri_calls::edits::{
    irikit_mask_password, irikit_remove_fragment, irikit_remove_password, irikit_replace_password,
    irikit_set_fragment,
};
use iri_calls::encoding::{SEGMENT, irikit_encode};
use iri_calls::fault::{
    INVALID_FRAGMENT, INVALID_HOST, INVALID_PATH, INVALID_PORT, INVALID_QUERY, INVALID_SCHEME,
    INVALID_USERINFO, INVALID_UTF8, UNEXPECTED_FRAGMENT, UNEXPECTED_RELATIVE, irikit_fault_words,
};
use iri_calls::fault_part::irikit_fault_part;
use iri_calls::grammar::{BY_SCHEME, IRI, NORMAL, PRESERVING, URI};
use iri_calls::hosts::{irikit_replace_host, irikit_replace_reg_name};
use iri_calls::lines::{irikit_canonical_lines, irikit_canonical_pairs};
use iri_calls::mapping::irikit_map_to_uri;
use iri_calls::names::irikit_template_variables;
use iri_calls::normal::{irikit_is_normalized, irikit_normalize};
use iri_calls::parts::{AuthoritySlots, Slot, Slots, irikit_split};
use iri_calls::resolve::irikit_resolve;
use iri_calls::steps::irikit_steps;
use iri_calls::target::irikit_target;
use iri_calls::template::{EXPRESSION_NOT_CLOSED, irikit_expand, irikit_template_fault_words};
use iri_calls::validation::{ABSOLUTE, REFERENCE, RELATIVE, WITH_SCHEME, irikit_validate};
use iri_calls::variables::{STRING, Text, Variable};
use iri_calls::version::irikit_version;

const HERE: Slot = Slot { offset: 0, len: 0 };

fn empty_slots() -> Slots {
    Slots {
        scheme: HERE,
        authority: HERE,
        path: HERE,
        query: HERE,
        fragment: HERE,
        within: AuthoritySlots {
            userinfo: HERE,
            host: HERE,
            port: HERE,
        },
    }
}

fn is_slot(slot: Slot, offset: usize, len: usize) -> bool {
    slot.offset == offset && slot.len == len
}

#[test]
fn canonical_texts(rt: HostRuntime) {
    let base = b"http://a/b/c/d;p?q";
    let mut out = [b'.'; 32];
    let mut detail = 9;
    assert!(rt; irikit_canonical(URI, NORMAL, base, b"../g", &mut out, &mut detail) == 0);
    assert!(rt; detail == 12 && out.starts_with(b"http://a/b/g...."));
    assert!(rt;
        irikit_canonical(
            IRI,
            NORMAL,
            base,
            "\u{e9}".as_bytes(),
            &mut out,
            &mut detail
        ) == 0
    );
    assert!(rt; detail == 15 && out.starts_with("http://a/b/c/\u{e9}.".as_bytes()));
    assert!(rt;
        irikit_canonical(
            URI,
            NORMAL,
            base,
            "\u{e9}".as_bytes(),
            &mut out,
            &mut detail
        ) == 5
    );
    assert!(rt; detail == INVALID_PATH);
    assert!(rt; irikit_canonical(URI, NORMAL, b"a", b"%", &mut out, &mut detail) == 4);
    assert!(rt; detail == UNEXPECTED_RELATIVE);
    assert!(rt; irikit_canonical(NORMAL, NORMAL, base, b"", &mut out, &mut detail) == 6);
    assert!(rt; irikit_canonical(URI, PRESERVING, base, b"", &mut out, &mut detail) == 6);
    assert!(rt; detail == 0);
}

// Examples of RFC 3987 section 3.1.
#[test]
fn canonical_texts_mapped(rt: HostRuntime) {
    let base = b"http://example.org/a/";
    let mut out = [b'.'; 48];
    let mut detail = 9;
    let host = "http://r\u{e9}sum\u{e9}.example.org".as_bytes();
    assert!(rt; irikit_canonical_to_uri(NORMAL, base, host, &mut out, &mut detail) == 0);
    assert!(rt; detail == 35 && out.starts_with(b"http://r%C3%A9sum%C3%A9.example.org."));
    let rose = "../red%09ros\u{e9}#red".as_bytes();
    let mut short = [b'.'; 20];
    assert!(rt; irikit_canonical_to_uri(BY_SCHEME, base, rose, &mut short, &mut detail) == 1);
    assert!(rt; detail == 38 && short.starts_with(b"http://example.org/r"));
    assert!(rt; irikit_canonical_to_uri(NORMAL, base, b"%", &mut out, &mut detail) == 5);
    assert!(rt; detail == INVALID_PATH);
    assert!(rt; irikit_canonical_to_uri(NORMAL, b"a", b"%", &mut out, &mut detail) == 4);
    assert!(rt; detail == UNEXPECTED_RELATIVE);
    assert!(rt; irikit_canonical_to_uri(PRESERVING, base, b"", &mut out, &mut detail) == 6);
    assert!(rt; irikit_canonical_to_uri(IRI, base, b"", &mut out, &mut detail) == 6 && detail == 0);
}

// Numbers that differ from one that stands for something by what lies past 8 or 16 bits, or are those of another enum.
#[test]
fn other_numbers(rt: HostRuntime) {
    let mut out = [b'.'; 32];
    let mut detail = 9;
    for &number in &[0, 1, URI + 256, IRI + 65_536, NORMAL, REFERENCE] {
        assert!(rt; irikit_canonical(number, NORMAL, b"a:", b"b", &mut out, &mut detail) == 6);
        assert!(rt; detail == 0 && out == [b'.'; 32]);
    }
    for &number in &[0, 1, NORMAL + 256, BY_SCHEME + 65_536, URI, REFERENCE] {
        assert!(rt; irikit_canonical(URI, number, b"a:", b"b", &mut out, &mut detail) == 6);
        assert!(rt; detail == 0 && out == [b'.'; 32]);
    }
}

#[test]
fn version(rt: HostRuntime) {
    assert!(rt; irikit_version() == 200);
}

// A buffer of each size: a prefix of the text, its whole length, and what comes after it in the buffer stays.
#[test]
fn room_for_each_length(rt: HostRuntime) {
    let text = b"http://a/b/g";
    for size in 0..16usize {
        let mut out = [b'.'; 16];
        let mut detail = 0;
        let room = &mut out[..size];
        let status = irikit_canonical(
            URI,
            NORMAL,
            b"http://a/b/c/d;p?q",
            b"../g",
            room,
            &mut detail,
        );
        assert!(rt; status == if size < 12 { 1 } else { 0 });
        assert!(rt; detail == 12);
        let prefix = size.min(12);
        assert!(rt; out.starts_with(&text[..prefix]) && out[prefix..].iter().all(|b| *b == b'.'));
    }
}

#[test]
fn kinds_of_texts(rt: HostRuntime) {
    let mut detail = 0;
    let rows: [(u32, &[u8], u8, usize); 8] = [
        (REFERENCE, b"a/b", 0, 0),
        (WITH_SCHEME, b"a/b", 3, UNEXPECTED_RELATIVE),
        (WITH_SCHEME, b"a:b#c", 0, 0),
        (ABSOLUTE, b"a:b#c", 3, UNEXPECTED_FRAGMENT),
        (ABSOLUTE, b"a:b?c", 0, 0),
        (RELATIVE, b"//[", 3, INVALID_HOST),
        (RELATIVE, b"/a?b#c", 0, 0),
        (304, b"a", 6, 0),
    ];
    for &(kind, text, status, fault) in &rows {
        assert!(rt; irikit_validate(URI, kind, text, &mut detail) == status);
        assert!(rt; detail == fault);
    }
    assert!(rt;
        irikit_validate(IRI, REFERENCE, b"\xff", &mut detail) == 3 && detail == INVALID_UTF8
    );
    assert!(rt; irikit_validate(NORMAL, REFERENCE, b"a", &mut detail) == 6);
}

// The example of RFC 3986 section 3, and parts that don't stand or are empty.
#[test]
fn parts_of_references(rt: HostRuntime) {
    let none = usize::MAX;
    let mut detail = 9;
    let mut p = empty_slots();
    let text = b"foo://u@example.com:8042/over/there?name=ferret#nose";
    assert!(rt; irikit_split(URI, text, &mut p, &mut detail) == 0 && detail == 0);
    assert!(rt; is_slot(p.scheme, 0, 3) && is_slot(p.authority, 6, 18) && is_slot(p.path, 24, 11));
    assert!(rt; is_slot(p.query, 36, 11) && is_slot(p.fragment, 48, 4));
    assert!(rt;
        is_slot(p.within.userinfo, 6, 1)
            && is_slot(p.within.host, 8, 11)
            && is_slot(p.within.port, 20, 4)
    );
    assert!(rt; irikit_split(IRI, b"//h:?#", &mut p, &mut detail) == 0);
    assert!(rt; is_slot(p.scheme, none, 0) && is_slot(p.authority, 2, 2) && is_slot(p.path, 4, 0));
    assert!(rt; is_slot(p.query, 5, 0) && is_slot(p.fragment, 6, 0));
    assert!(rt;
        is_slot(p.within.userinfo, none, 0)
            && is_slot(p.within.host, 2, 1)
            && is_slot(p.within.port, 4, 0)
    );
    assert!(rt; irikit_split(IRI, b"", &mut p, &mut detail) == 0);
    assert!(rt;
        is_slot(p.authority, none, 0) && is_slot(p.path, 0, 0) && is_slot(p.within.host, none, 0)
    );
    assert!(rt; irikit_split(IRI, b"%", &mut p, &mut detail) == 3 && detail == INVALID_PATH);
    assert!(rt; irikit_split(NORMAL, b"", &mut p, &mut detail) == 6);
}

// Whether the first fault of a text of this kind has this number, and the part that has it stands there.
fn has_fault(kind: u32, text: &[u8], fault: usize, offset: usize, len: usize) -> bool {
    let (mut part, mut detail) = (HERE, 99);
    irikit_validate(URI, kind, text, &mut detail) == 3
        && detail == fault
        && irikit_fault_part(kind, fault, text, &mut part, &mut detail) == 0
        && detail == 0
        && is_slot(part, offset, len)
}

#[test]
fn faulty_parts(rt: HostRuntime) {
    assert!(rt; has_fault(REFERENCE, b"http://a/b c?q#f", INVALID_PATH, 8, 4));
    assert!(rt; has_fault(REFERENCE, b"http://u u@h:8/p", INVALID_USERINFO, 7, 3));
    assert!(rt; has_fault(REFERENCE, b"http://u@[::1:80/", INVALID_HOST, 9, 4));
    assert!(rt; has_fault(REFERENCE, b"//a:b:c/", INVALID_HOST, 2, 5));
    assert!(rt; has_fault(REFERENCE, b"a?{b}#", INVALID_QUERY, 2, 3));
    assert!(rt; has_fault(REFERENCE, b"a?b#c#d", INVALID_FRAGMENT, 4, 3));
    assert!(rt; has_fault(REFERENCE, b"1a:b", INVALID_PATH, 0, 4));
    assert!(rt; has_fault(WITH_SCHEME, b"1a:b", INVALID_SCHEME, 0, 2));
    assert!(rt; has_fault(WITH_SCHEME, b"a/b", UNEXPECTED_RELATIVE, 0, 0));
    assert!(rt; has_fault(ABSOLUTE, b"http://a/b#c", UNEXPECTED_FRAGMENT, 11, 1));
    assert!(rt; has_fault(RELATIVE, b"g://h/%", INVALID_PATH, 0, 7));
    assert!(rt; has_fault(RELATIVE, b"//h/%", INVALID_PATH, 3, 2));
    assert!(rt; has_fault(REFERENCE, b"a/\xffb", INVALID_UTF8, 2, 2));
    assert!(rt; has_fault(REFERENCE, "/\u{e9}".as_bytes(), INVALID_PATH, 0, 3));
}

#[test]
fn other_faults(rt: HostRuntime) {
    let (mut part, mut detail) = (Slot { offset: 7, len: 8 }, 9);
    assert!(rt;
        irikit_fault_part(304, INVALID_PATH, b"%", &mut part, &mut detail) == 6 && detail == 0
    );
    assert!(rt;
        irikit_fault_part(REFERENCE, 511, b"%", &mut part, &mut detail) == 6 && detail == 0
    );
    assert!(rt; is_slot(part, 7, 8));
    assert!(rt; irikit_fault_part(REFERENCE, INVALID_QUERY, b"%", &mut part, &mut detail) == 0);
    assert!(rt; is_slot(part, usize::MAX, 0));
    part = HERE;
    assert!(rt;
        irikit_fault_part(WITH_SCHEME, INVALID_SCHEME, b"a/b", &mut part, &mut detail) == 0
    );
    assert!(rt; is_slot(part, usize::MAX, 0));
    assert!(rt;
        irikit_fault_part(REFERENCE, INVALID_PORT, b"//h:8/", &mut part, &mut detail) == 0
            && is_slot(part, 4, 1)
    );
}

#[test]
fn normal_forms(rt: HostRuntime) {
    let mut detail = 9;
    assert!(rt;
        irikit_is_normalized(URI, NORMAL, b"http://a/%2F", &mut detail) == 0 && detail == 0
    );
    assert!(rt;
        irikit_is_normalized(URI, NORMAL, b"http://a/%2f", &mut detail) == 2 && detail == 0
    );
    assert!(rt; irikit_is_normalized(IRI, NORMAL, b"http://a/%C3%A9", &mut detail) == 2);
    assert!(rt;
        irikit_is_normalized(URI, NORMAL, b"a", &mut detail) == 3 && detail == UNEXPECTED_RELATIVE
    );
    assert!(rt; irikit_is_normalized(URI, NORMAL, b"http://a:80/", &mut detail) == 0);
    assert!(rt; irikit_is_normalized(URI, BY_SCHEME, b"http://a:80/", &mut detail) == 2);
    assert!(rt; irikit_is_normalized(URI, PRESERVING, b"a:b/../c", &mut detail) == 0);
    assert!(rt; irikit_is_normalized(URI, NORMAL, b"a:b/../c", &mut detail) == 2);
    assert!(rt; irikit_is_normalized(URI, 203, b"a:", &mut detail) == 6);
    assert!(rt; irikit_is_normalized(NORMAL, NORMAL, b"a:", &mut detail) == 6);
}

// The example of RFC 3987 section 3.1.
#[test]
fn mapped_texts(rt: HostRuntime) {
    let mut detail = 0;
    let mut out = [0; 64];
    let text = "http://www.example.org/red%09ros\u{e9}#red".as_bytes();
    assert!(rt; irikit_map_to_uri(text, &mut out, &mut detail) == 0 && detail == 42);
    assert!(rt; out.starts_with(b"http://www.example.org/red%09ros%C3%A9#red\0"));
    assert!(rt; irikit_map_to_uri(b" ", &mut out, &mut detail) == 3 && detail == INVALID_PATH);
}

#[test]
fn words_of_faults(rt: HostRuntime) {
    let mut detail = 0;
    let mut out = [0; 64];
    assert!(rt; irikit_fault_words(INVALID_PATH, &mut out, &mut detail) == 0 && detail == 12);
    assert!(rt; out.starts_with(b"invalid path\0"));
    assert!(rt; irikit_fault_words(INVALID_UTF8, &mut [], &mut detail) == 1 && detail == 19);
    assert!(rt; irikit_fault_words(511, &mut out, &mut detail) == 6 && detail == 0);
}

#[test]
fn lines(rt: HostRuntime) {
    let mut out = [b'.'; 64];
    let (mut consumed, mut detail) = (9, 9);
    let lines = b"../c\n%\r\nno end";
    let base = b"http://a/b";
    let status = irikit_canonical_lines(
        URI,
        NORMAL,
        base,
        lines,
        &mut out,
        &mut consumed,
        &mut detail,
    );
    assert!(rt; status == 0 && consumed == 8 && detail == 31);
    assert!(rt; out.starts_with(b"ok http://a/c\nbad invalid path\n."));
    let mut room = [b'.'; 30];
    let status = irikit_canonical_lines(
        URI,
        BY_SCHEME,
        base,
        lines,
        &mut room,
        &mut consumed,
        &mut detail,
    );
    assert!(rt; status == 1 && consumed == 5 && detail == 14);
    let status = irikit_canonical_lines(
        URI,
        PRESERVING,
        base,
        lines,
        &mut out,
        &mut consumed,
        &mut detail,
    );
    assert!(rt; status == 6 && consumed == 0 && detail == 0);
}

// Examples of RFC 3986 section 5.4 on two pages by turns, lines that are refused, and one that no LF ends.
const PAIRS: &[u8] =
    b"http://a/b/c/d;p?q\t../g\nhttp://a/b/c/d;p?q\t?y\nhttp://A\tg\t\nhttp://A\t%7Eu\r\n\
    //a\tg\nhttp://a\nhttp://A\t//h:80\nno end";

const PAIRS_ANSWERED: &[u8] =
    b"ok http://a/b/g\nok http://a/b/c/d;p?y\nbad invalid path\nok http://a/~u\n\
    base expected an absolute IRI but got a relative IRI\nbad line\nok http://h:80\n";

#[test]
fn pairs(rt: HostRuntime) {
    let mut out = [b'.'; 192];
    let (mut consumed, mut detail) = (9, 9);
    let status = irikit_canonical_pairs(URI, NORMAL, PAIRS, &mut out, &mut consumed, &mut detail);
    assert!(rt; status == 0 && consumed == PAIRS.len() - 6 && detail == PAIRS_ANSWERED.len());
    assert!(rt; out.starts_with(PAIRS_ANSWERED) && out[detail] == b'.');
    let status = irikit_canonical_pairs(
        URI,
        BY_SCHEME,
        &PAIRS[88..],
        &mut out,
        &mut consumed,
        &mut detail,
    );
    assert!(rt; status == 0 && out.starts_with(b"ok http://h/\n"));
    let status = irikit_canonical_pairs(
        URI,
        PRESERVING,
        PAIRS,
        &mut out,
        &mut consumed,
        &mut detail,
    );
    assert!(rt; status == 6 && consumed == 0 && detail == 0);
    let status = irikit_canonical_pairs(
        NORMAL,
        NORMAL,
        PAIRS,
        &mut out,
        &mut consumed,
        &mut detail,
    );
    assert!(rt; status == 6 && consumed == 0 && detail == 0);
}

// Room for each number of bytes: answers that have none are asked for again, and come out the same.
#[test]
fn pairs_by_parts(rt: HostRuntime) {
    for size in 64..128usize {
        let mut out = [b'.'; 128];
        let mut whole = PAIRS_ANSWERED;
        let mut rest = PAIRS;
        for _ in 0..7u8 {
            let (mut consumed, mut detail) = (9, 9);
            let room = &mut out[..size];
            let status = irikit_canonical_pairs(
                URI,
                NORMAL,
                rest,
                room,
                &mut consumed,
                &mut detail,
            );
            assert!(rt; detail <= whole.len() && consumed <= rest.len());
            assert!(rt; out.starts_with(&whole[..detail]));
            assert!(rt; status == if detail < whole.len() { 1 } else { 0 });
            whole = &whole[detail..];
            rest = &rest[consumed..];
        }
        assert!(rt; whole.is_empty() && rest == b"no end".as_slice());
    }
}

// Examples of RFC 6570 section 3.2.
#[test]
fn templates(rt: HostRuntime) {
    let mut out = [b'.'; 64];
    let (mut detail, mut place) = (9, 9);
    let who = [Text { bytes: b"fred" }];
    let variables = [Variable {
        name: Text { bytes: b"who" },
        kind: STRING,
        values: &who,
    }];
    let status = irikit_expand(
        URI,
        b"{?who}",
        &variables,
        &mut out,
        &mut detail,
        &mut place,
    );
    assert!(rt; status == 0 && detail == 9 && place == 0 && out.starts_with(b"?who=fred."));
    let status = irikit_expand(URI, b"{who", &variables, &mut out, &mut detail, &mut place);
    assert!(rt; status == 3 && detail == EXPRESSION_NOT_CLOSED);
    assert!(rt;
        irikit_template_fault_words(EXPRESSION_NOT_CLOSED, &mut out, &mut detail) == 0
            && detail == 21
    );
    assert!(rt; out.starts_with(b"expression not closed"));
    assert!(rt; irikit_template_fault_words(707, &mut out, &mut detail) == 6);
}

#[test]
fn encoded_and_decoded(rt: HostRuntime) {
    let mut out = [b'.'; 64];
    let mut detail = 9;
    assert!(rt;
        irikit_encode(URI, SEGMENT, b"50% off/a", &mut out, &mut detail) == 0 && detail == 15
    );
    assert!(rt; out.starts_with(b"50%25%20off%2Fa."));
    assert!(rt; irikit_decode(b"50%25%20off%2Fa%4", &mut out, &mut detail) == 0 && detail == 11);
    assert!(rt; out.starts_with(b"50% off/a%4"));
    assert!(rt; irikit_encode(URI, 408, b"a", &mut out, &mut detail) == 6);
    assert!(rt;
        irikit_encode(URI, SEGMENT, b"\xff", &mut out, &mut detail) == 3 && detail == INVALID_UTF8
    );
}

#[test]
fn edits(rt: HostRuntime) {
    let mut out = [b'.'; 64];
    let mut detail = 9;
    assert!(rt; irikit_mask_password(URI, b"http://u:pw@h/", &mut out, &mut detail) == 0);
    assert!(rt; out.starts_with(b"http://u:@h/."));
    assert!(rt; irikit_remove_password(URI, b"http://u:pw@h/", &mut out, &mut detail) == 0);
    assert!(rt; detail == 11 && out.starts_with(b"http://u@h/"));
    assert!(rt; irikit_replace_password(URI, b"//u:p@h", b"***", &mut out, &mut detail) == 0);
    assert!(rt; detail == 9 && out.starts_with(b"//u:***@h"));
    assert!(rt; irikit_remove_fragment(URI, b"a?b#c", &mut out, &mut detail) == 0 && detail == 3);
    assert!(rt;
        irikit_set_fragment(URI, b"a?b#c", b"d", &mut out, &mut detail) == 0 && detail == 5
    );
    assert!(rt; out.starts_with(b"a?b#d"));
    assert!(rt;
        irikit_set_fragment(URI, b"a", b"#", &mut out, &mut detail) == 8
            && detail == INVALID_FRAGMENT
    );
    assert!(rt; irikit_resolve(URI, b"http://A/b/c", b"../%7e", &mut out, &mut detail) == 0);
    assert!(rt; out.starts_with(b"http://A/%7e"));
    assert!(rt;
        irikit_normalize(URI, BY_SCHEME, b"HTTP://a:80", &mut out, &mut detail) == 0 && detail == 9
    );
    assert!(rt; out.starts_with(b"http://a/"));
}

#[test]
fn hosts(rt: HostRuntime) {
    let mut out = [b'.'; 64];
    let mut detail = 9;
    let text = b"http://u@192.0.2.16:80/?q";
    assert!(rt; irikit_replace_host(URI, text, b"[2001:db8::7]", &mut out, &mut detail) == 0);
    assert!(rt; detail == 28 && out.starts_with(b"http://u@[2001:db8::7]:80/?q."));
    assert!(rt;
        irikit_replace_reg_name(URI, text, b"h", &mut out, &mut detail) == 9 && detail == 0
    );
    assert!(rt; irikit_replace_reg_name(URI, b"//a/", b"h", &mut out, &mut detail) == 0);
    assert!(rt; detail == 4 && out.starts_with(b"//h/"));
    assert!(rt; irikit_replace_host(URI, b"a:b", b"h", &mut out, &mut detail) == 9);
    assert!(rt;
        irikit_replace_host(URI, b"//a", b"[", &mut out, &mut detail) == 8 && detail == INVALID_HOST
    );
    assert!(rt;
        irikit_replace_host(URI, b"//a", b"\xff", &mut out, &mut detail) == 8
            && detail == INVALID_UTF8
    );
    assert!(rt;
        irikit_replace_host(URI, b"%", b"[", &mut out, &mut detail) == 3 && detail == INVALID_PATH
    );
    assert!(rt; irikit_replace_host(NORMAL, b"//a", b"h", &mut out, &mut detail) == 6);
}

// The example of RFC 3986 section 3.
#[test]
fn built(rt: HostRuntime) {
    let mut out = [b'.'; 64];
    let mut detail = 9;
    let rows: [(usize, &[u8]); 7] = [
        (FRAGMENT, b"nose"),
        (SCHEME, b"foo"),
        (PATH, b"no path"),
        (HOST, b"example.com"),
        (PORT, b"8042"),
        (QUERY, b"name=ferret"),
        (PATH, b"/over/there"),
    ];
    let parts = rows.map(|row| Part {
        part: row.0,
        text: Text { bytes: row.1 },
    });
    let text = b"foo://example.com:8042/over/there?name=ferret#nose";
    assert!(rt; irikit_build(URI, WITH_SCHEME, &parts, &mut out, &mut detail) == 0 && detail == 50);
    assert!(rt; out.starts_with(text));
    assert!(rt;
        irikit_build(URI, ABSOLUTE, &parts, &mut out, &mut detail) == 8
            && detail == UNEXPECTED_FRAGMENT
    );
    assert!(rt;
        irikit_build(URI, WITH_SCHEME, &parts[..1], &mut out, &mut detail) == 8
            && detail == UNEXPECTED_RELATIVE
    );
    assert!(rt;
        irikit_build(URI, REFERENCE, &parts[2..3], &mut out, &mut detail) == 8
            && detail == INVALID_PATH
    );
    assert!(rt;
        irikit_build(URI, REFERENCE, &parts[3..4], &mut out, &mut detail) == 0 && detail == 13
    );
    assert!(rt; irikit_build(URI, REFERENCE, &[], &mut out, &mut detail) == 0 && detail == 0);
    assert!(rt; irikit_build(URI, 304, &parts, &mut out, &mut detail) == 6 && detail == 0);
    let none = [Part {
        part: 807,
        text: Text { bytes: b"\xff" },
    }];
    assert!(rt; irikit_build(URI, REFERENCE, &none, &mut out, &mut detail) == 6);
    let no_text = [Part {
        part: HOST,
        text: Text { bytes: b"\xff" },
    }];
    assert!(rt;
        irikit_build(NORMAL, REFERENCE, &no_text, &mut out, &mut detail) == 8
            && detail == INVALID_UTF8
    );
}

// The example of RFC 6570 section 1.1, with a name twice; operators, modifiers, and slots that lack or stay.
#[test]
fn names(rt: HostRuntime) {
    let mut slots = [HERE; 5];
    let (mut detail, mut place) = (9, 9);
    let text = b"http://example.com/~{username}/{term:1}/{term}{?q*,lang}";
    let status = irikit_template_variables(text, &mut slots, &mut detail, &mut place);
    assert!(rt; status == 0 && detail == 5 && place == 0);
    assert!(rt; is_slot(slots[0], 21, 8) && is_slot(slots[1], 32, 4) && is_slot(slots[2], 41, 4));
    assert!(rt; is_slot(slots[3], 48, 1) && is_slot(slots[4], 51, 4));
    let status = irikit_template_variables(b"ab{", &mut slots, &mut detail, &mut place);
    assert!(rt;
        status == 3 && detail == EXPRESSION_NOT_CLOSED && place == 2 && is_slot(slots[0], 21, 8)
    );
    let status = irikit_template_variables(b"ab", &mut [], &mut detail, &mut place);
    assert!(rt; status == 0 && detail == 0 && place == 0);
    let text = "{&.}%7b\u{e9}".as_bytes();
    assert!(rt;
        irikit_template_variables(text, &mut [], &mut detail, &mut place) == 3 && place == 2
    );
    let text = "%7b\u{e9}{.a%41.b:12,c}{d}".as_bytes();
    let room = &mut slots[..2];
    let status = irikit_template_variables(text, room, &mut detail, &mut place);
    assert!(rt; status == 1 && detail == 3 && place == 0);
    assert!(rt; is_slot(slots[0], 7, 6) && is_slot(slots[1], 17, 1) && is_slot(slots[2], 41, 4));
}

// The example of RFC 3986 section 6.2.2; hosts and ports; the rules of schemes; what only IRIs decode.
#[test]
fn steps(rt: HostRuntime) {
    let mut out = [b'.'; 128];
    let mut detail = 9;
    let example = b"exAmple://a/./b/../b/%63/%7bfoo%7d";
    let words =
        b"scheme letter 2\ndecode path 10\nhex digit path 14\nhex digit path 20\ndot segments\n.";
    assert!(rt; irikit_steps(URI, NORMAL, example, &mut out, &mut detail) == 0 && detail == 80);
    assert!(rt; out.starts_with(words));
    assert!(rt;
        irikit_steps(URI, NORMAL, example, &mut out[..5], &mut detail) == 1 && detail == 80
    );
    let host = b"host letter 3\ndecode authority 4\nhost letter 4\nempty port\n";
    let rows: [(u32, u32, &[u8], &[u8]); 8] = [
        (URI, NORMAL, b"http://a:80", b""),
        (
            URI,
            BY_SCHEME,
            b"http://a:80",
            b"default port\nempty path\n",
        ),
        (URI, BY_SCHEME, b"http://a:", b"empty port\nempty path\n"),
        (URI, NORMAL, b"a://u@bC%41:", host),
        (URI, NORMAL, b"a:?%7e", b"decode query 0\n"),
        (URI, BY_SCHEME, b"a:#%3a", b"hex digit fragment 2\n"),
        (IRI, BY_SCHEME, b"a:/%c3%a9", b"decode path 1\n"),
        (IRI, NORMAL, b"a:/..//b", b"dot segments\n"),
    ];
    for &(grammar, mode, text, wanted) in &rows {
        assert!(rt; irikit_steps(grammar, mode, text, &mut out, &mut detail) == 0);
        assert!(rt; detail == wanted.len() && out.starts_with(wanted));
    }
    assert!(rt;
        irikit_steps(URI, NORMAL, b"a", &mut out, &mut detail) == 3 && detail == UNEXPECTED_RELATIVE
    );
    assert!(rt; irikit_steps(URI, PRESERVING, b"a:", &mut out, &mut detail) == 6 && detail == 0);
    assert!(rt; irikit_steps(NORMAL, NORMAL, b"a:", &mut out, &mut detail) == 6);
}

// Targets keep dot segments (RFC 3986 section 5.2.2).
#[test]
fn targets(rt: HostRuntime) {
    let mut out = [b'.'; 64];
    let mut detail = 9;
    let base = b"HTTP://a/b/c/d;p?q";
    assert!(rt; irikit_target(URI, base, b"../%7eg", &mut out, &mut detail) == 0 && detail == 20);
    assert!(rt; out.starts_with(b"HTTP://a/b/c/../%7eg."));
    assert!(rt; irikit_target(URI, base, b"", &mut out, &mut detail) == 0 && detail == 18);
    assert!(rt; out.starts_with(base));
    assert!(rt; irikit_target(IRI, base, "/\u{e9}".as_bytes(), &mut out, &mut detail) == 0);
    assert!(rt; detail == 11 && out.starts_with("HTTP://a/\u{e9}".as_bytes()));
    assert!(rt;
        irikit_target(URI, base, b"%", &mut out, &mut detail) == 5 && detail == INVALID_PATH
    );
    assert!(rt;
        irikit_target(URI, b"a", b"%", &mut out, &mut detail) == 4 && detail == UNEXPECTED_RELATIVE
    );
    assert!(rt; irikit_target(NORMAL, base, b"", &mut out, &mut detail) == 6 && detail == 0);
}
