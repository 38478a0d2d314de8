// What the calls for robots files answer: the examples of RFC 9309, rooms, tokens and numbers that are none.
use iri_calls::fault::{INVALID_PATH, INVALID_UTF8, UNEXPECTED_RELATIVE};
use iri_calls::grammar::{IRI, NORMAL, URI};
use iri_robots_calls::robots::{irikit_robots_allows, irikit_robots_rules};
use iri_robots_calls::status::{BAD_TOKEN, DISALLOWED};

// RFC 9309 section 5.1, with each end of a line.
const FILE: &[u8] =
    b"User-Agent: *\nDisallow: *.gif$ # images\rDisallow: /example/\r\nAllow: /publications/\n\n\
    User-Agent: foobot\nDisallow:/\nAllow:/example/page.html\nAllow:/example/allowed.gif\n\n\
    User-Agent: barbot\nUser-Agent: bazbot\nDisallow: /example/page.html\n\nUser-Agent: quxbot";

#[test]
fn rules_of_a_file(rt: HostRuntime) {
    let mut out = [b'.'; 128];
    let mut detail = 9;
    let rows: [(&[u8], &[u8]); 5] = [
        (
            b"anybot",
            b"disallow *.gif$\ndisallow /example/\nallow /publications/\n",
        ),
        (
            b"FooBot",
            b"disallow /\nallow /example/page.html\nallow /example/allowed.gif\n",
        ),
        (b"barbot", b"disallow /example/page.html\n"),
        (b"bazbot", b"disallow /example/page.html\n"),
        (b"quxbot", b""),
    ];
    for &(token, wanted) in &rows {
        assert!(rt; irikit_robots_rules(rt.alloc(), token, FILE, &mut out, &mut detail) == 0);
        assert!(rt; detail == wanted.len() && out.starts_with(wanted));
    }
    let file = "user-agent: b\u{f6}t\nallow: /\u{e9}%7e%2a\n".as_bytes();
    assert!(rt; irikit_robots_rules(rt.alloc(), b"b", file, &mut out, &mut detail) == 0);
    assert!(rt; detail == 18 && out.starts_with(b"allow /%C3%A9~%2A\n"));
}

#[test]
fn rooms_for_rules(rt: HostRuntime) {
    let mut detail = 9;
    let mut out = [b'.'; 9];
    assert!(rt; irikit_robots_rules(rt.alloc(), b"barbot", FILE, &mut out, &mut detail) == 1);
    assert!(rt; detail == 28 && out == *b"disallow ");
}

#[test]
fn no_tokens(rt: HostRuntime) {
    let mut out = [b'.'; 4];
    for token in [&b""[..], b"*", b"bot/1.0", b"b\xc3\xb6t", b"b\xff"] {
        let mut detail = 9;
        let status = irikit_robots_rules(rt.alloc(), token, FILE, &mut out, &mut detail);
        assert!(rt; status == BAD_TOKEN && detail == 0 && out == [b'.'; 4]);
    }
}

#[test]
fn verdicts(rt: HostRuntime) {
    let mut detail = 9;
    let rules =
        b"disallow /\nallow /example/\nnothing\ndisallow /example/*.gif$\nallow /example/*.gif$";
    let rows: [(&[u8], u8); 7] = [
        (b"http://a", DISALLOWED),
        (b"http://a/robots.txt", 0),
        (b"http://a/robots.txt?q", DISALLOWED),
        (b"http://a/example/page.html#f", 0),
        (b"http://a/%65xample/", 0),
        (b"http://a/example/image.gif", 0),
        (b"a:b", 0),
    ];
    for &(target, status) in &rows {
        assert!(rt; irikit_robots_allows(rt.alloc(), URI, rules, target, &mut detail) == status);
        assert!(rt; detail == 0);
    }
    let target = "http://a/\u{e9}".as_bytes();
    let rules = b"disallow /%C3%A9";
    assert!(rt; irikit_robots_allows(rt.alloc(), IRI, rules, target, &mut detail) == DISALLOWED);
    assert!(rt; irikit_robots_allows(rt.alloc(), IRI, b"", target, &mut detail) == 0);
}

#[test]
fn no_targets(rt: HostRuntime) {
    let rows: [(u32, &[u8], u8, usize); 5] = [
        (URI, b"/a", 3, UNEXPECTED_RELATIVE),
        (URI, b"a:%", 3, INVALID_PATH),
        (IRI, b"a:\xff", 3, INVALID_UTF8),
        (NORMAL, b"a:", 6, 0),
        (URI + 256, b"a:", 6, 0),
    ];
    for &(grammar, target, status, fault) in &rows {
        let mut detail = 9;
        assert!(rt; irikit_robots_allows(rt.alloc(), grammar, b"", target, &mut detail) == status);
        assert!(rt; detail == fault);
    }
}
