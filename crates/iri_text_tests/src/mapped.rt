use crate::same::{same, same_at};
use iri_grammar::spec::{IriSpec, Spec, UriSpec};
use iri_owned::owned::{IriFragmentString, IriQueryString, IriString, Owned};
use iri_percent::{IntoUri, MappedKind, MappedToUri, ToUri, laws};
use iri_text::{Show, ToDedicatedString, write_to_slice};
use iri_types::kind::Iri;
use iri_types::view::{IriQueryStr, IriStr, UriStr, View};
use std::alloc::{AllocError, Global};
use std::test::Fail;

fn shown<'b, T: Show>(buf: &'b mut [u8], value: &T) -> &'b str {
    write_to_slice(buf, value).unwrap_or("no room")
}

fn mapped<'b, S: Spec, K: MappedKind>(buf: &'b mut [u8], text: &str) -> &'b str {
    match View::<'_, S, K>::new(text) {
        Ok(view) => {
            let mapped = MappedToUri::of(view);
            let copy = mapped;
            shown(buf, &copy)
        }
        Err(_) => "not in the production",
    }
}

const ALPHA: &str = "http://example.com/?alpha=\u{3b1}";

const ENCODED: &str = "http://example.com/?alpha=%CE%B1";

#[test]
fn three_ways(rt: HostRuntime) -> Result<(), Fail> {
    let mut iri = IriString::try_from_str(rt.alloc(), ALPHA)?;
    let mapped = iri.as_slice().encode_to_uri();
    let uri = mapped.try_to_dedicated_string(rt.alloc())?;
    same(&rt, uri.as_str(), ENCODED);
    same(&rt, format!(in rt.alloc(); "{mapped}")?.as_str(), ENCODED);
    let copy = iri.try_clone(rt.alloc())?;
    let uri = as_owned_uri(rt.alloc(), copy, ALPHA)?;
    same(&rt, uri.as_str(), ENCODED);
    if iri.try_encode_to_uri_inline(rt.alloc()).is_err() {
        same(&rt, iri.as_str(), ALPHA);
        return Err(AllocError)?;
    }
    same(&rt, iri.as_str(), ENCODED);
    iri.try_encode_to_uri_inline(rt.alloc())?;
    same(&rt, iri.as_str(), ENCODED);
    Ok(())
}

#[test]
fn in_ascii_or_not(rt: HostRuntime) -> Result<(), Fail> {
    let alpha = IriStr::new(ALPHA)?;
    assert!(rt; alpha.as_uri().is_none());
    let encoded = IriStr::new(ENCODED)?.as_uri().ok_or("none")?;
    assert!(rt; encoded == UriStr::new(ENCODED)?);
    assert!(rt; IriQueryStr::new("")?.as_uri().is_some());
    assert!(rt; IriQueryStr::new("\u{a0}")?.as_uri().is_none());

    let iri = IriString::try_from_str(rt.alloc(), ALPHA)?;
    let back = iri.try_into_uri().err().ok_or("taken")?;
    same(&rt, back.as_str(), ALPHA);
    let iri = IriString::try_from_str(rt.alloc(), ENCODED)?;
    let uri = iri.try_into_uri().ok().ok_or("handed back")?;
    same(&rt, uri.as_str(), ENCODED);
    let iri = uri.into_iri_spec();
    let uri = iri
        .try_encode_into_uri(rt.alloc())
        .ok()
        .ok_or("handed back")?;
    same(&rt, uri.as_str(), ENCODED);
    Ok(())
}

// The text encoded. Where allocation fails it is handed back as it was given.
fn as_owned_uri<K: MappedKind>(
    alloc: Global,
    text: Owned<IriSpec, K>,
    given: &str,
) -> Result<Owned<UriSpec, K>, Fail> {
    match text.try_encode_into_uri(alloc) {
        Ok(uri) => Ok(uri),
        Err(back) if back.as_str() == given => Err(AllocError)?,
        Err(_) => Err("another text is handed back")?,
    }
}

#[test]
fn owned_parts(rt: HostRuntime) -> Result<(), Fail> {
    let query = IriQueryString::try_from_str(rt.alloc(), "\u{e000}")?;
    let uri = as_owned_uri(rt.alloc(), query, "\u{e000}")?;
    same(&rt, uri.as_str(), "%EE%80%80");
    let fragment = IriFragmentString::try_from_str(rt.alloc(), "\u{e9}%C3")?;
    let uri = as_owned_uri(rt.alloc(), fragment, "\u{e9}%C3")?;
    same(&rt, uri.as_str(), "%C3%A9%C3");
    Ok(())
}

#[test]
fn what_the_laws_of_mapping_say(rt: HostRuntime) {
    laws::mapping_of_texts();
    laws::mapped_texts_are_uris::<UriSpec>();
    laws::mapped_texts_are_uris::<IriSpec>();
    let mut buf = [0u8; 64];
    let text = mapped::<IriSpec, Iri>(&mut buf, "a:\u{3b1}");
    same_at(&rt, text, UriStr::new(text).is_ok(), true);
}
