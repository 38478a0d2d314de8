use crate::same::{same, same_at};
use iri_grammar::spec::{IriSpec, Spec, UriSpec};
use iri_grammar::validate::{authority, host, query};
use iri_percent::{NormalizedAuthority, NormalizedHost, PctCaseNormalized, laws};
use iri_text::{Show, write_to_slice};
use std::alloc::{AllocError, Global};
use std::test::Fail;

// A copy is shown, so that the copying is tested too.
fn shown<'b, T: Show + Clone>(buf: &'b mut [u8], value: &T) -> &'b str {
    match value.clone() {
        Ok(copy) => write_to_slice(buf, &copy).unwrap_or("no room"),
        Err(_) => "no memory",
    }
}

fn part<'b, S: Spec>(buf: &'b mut [u8], text: &str) -> &'b str {
    match query::<S>(text) {
        Ok(()) => shown(buf, &PctCaseNormalized::<S>::new(text)),
        Err(_) => "no query",
    }
}

fn displayed_part(alloc: Global, text: &str) -> Result<String, AllocError> {
    match query::<UriSpec>(text) {
        Ok(()) => format!(in alloc; "{}", PctCaseNormalized::<UriSpec>::new(text)),
        Err(_) => format!(in alloc; "no query"),
    }
}

fn displayed_host(alloc: Global, text: &str) -> Result<String, AllocError> {
    match host::<UriSpec>(text) {
        Ok(()) => format!(in alloc; "{}", NormalizedHost::<UriSpec>::new(text)),
        Err(_) => format!(in alloc; "no host"),
    }
}

#[test]
fn displayed(rt: HostRuntime) -> Result<(), Fail> {
    same(
        &rt,
        displayed_part(rt.alloc(), "%7ea%2f")?.as_str(),
        "~a%2F",
    );
    same(&rt, displayed_host(rt.alloc(), "A%2D.B")?.as_str(), "a-.b");
    Ok(())
}

const UNRESERVED: &[u8] = b"ABCDEFGHIJKLMNOPQRSTUVWXYZabcdefghijklmnopqrstuvwxyz0123456789-._~";

// Of all percent-encoded octets those of unreserved characters are decoded (RFC 3986 section 2.3).
#[test]
fn all_triplets(rt: HostRuntime) {
    let small = b"0123456789abcdef";
    let capital = b"0123456789ABCDEF";
    for octet in 0..=255u8 {
        let (high, low) = (usize::from(octet / 16), usize::from(octet % 16));
        let spelled = [b'%', small[high], small[low]];
        let raised = [b'%', capital[high], capital[low]];
        let itself = [octet];
        let want = if UNRESERVED.contains(&octet) {
            &itself[..]
        } else {
            &raised[..]
        };
        let Ok(text) = str::from_utf8(&spelled) else {
            continue;
        };
        let mut buf = [0u8; 8];
        same_at(&rt, octet, part::<UriSpec>(&mut buf, text).as_bytes(), want);
        same_at(&rt, octet, part::<IriSpec>(&mut buf, text).as_bytes(), want);
    }
}

// Rows of percent-encoded octets of all lengths, also such as are put in several pieces.
#[test]
fn long_rows(rt: HostRuntime) -> Result<(), Fail> {
    let mut text = String::new(rt.alloc());
    let mut uri = String::new(rt.alloc());
    let mut iri = String::new(rt.alloc());
    for _ in 0..40 {
        text.push_str("%41%ce%b1%2f")?;
        uri.push_str("A%CE%B1%2F")?;
        iri.push_str("A\u{3b1}%2F")?;
        let mut buf = [0u8; 512];
        same(&rt, part::<UriSpec>(&mut buf, text.as_str()), uri.as_str());
        same(&rt, part::<IriSpec>(&mut buf, text.as_str()), iri.as_str());
    }
    Ok(())
}

fn displayed_authority(alloc: Global, text: &str) -> Result<String, AllocError> {
    match authority::<UriSpec>(text) {
        Ok(()) => format!(in alloc; "{}", NormalizedAuthority::<UriSpec>::new(text, Some("80"))),
        Err(_) => format!(in alloc; "no authority"),
    }
}

#[test]
fn authorities_displayed(rt: HostRuntime) -> Result<(), Fail> {
    same(
        &rt,
        displayed_authority(rt.alloc(), "u%7e@A:80")?.as_str(),
        "u~@a",
    );
    Ok(())
}

// The laws of one spec, where they speak of it.
fn laws_of<S: Spec>() {
    laws::units_of_characters::<S>();
    laws::decoding_undoes_encoding::<S>();
    laws::triplet_form_is_stable::<S>();
    laws::decoding_makes_no_new_character::<S>();
    laws::delimiters_part_triplet_forms::<S>();
    laws::parts_have_whole_triplets::<S>();
    laws::triplet_forms_keep_their_class::<S>();
}

#[test]
fn what_the_laws_say(rt: HostRuntime) {
    laws::units_of_texts();
    laws_of::<UriSpec>();
    laws_of::<IriSpec>();
    let (mut once, mut twice) = ([0u8; 64], [0u8; 64]);
    let text = part::<IriSpec>(&mut once, "%2541%41%ce%B1%C3");
    same(&rt, part::<IriSpec>(&mut twice, text), text);
}
