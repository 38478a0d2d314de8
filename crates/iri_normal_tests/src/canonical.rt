use crate::same::same;
use iri_grammar::spec::{IriSpec, UriSpec};
use iri_normal::to_uri::canonicalize_to_uri;
use iri_resolve::canonical::{CanonError, canonicalize, canonicalize_in};
use iri_resolve::mapping_laws::canonicalize_commutes_with_mapping;
use iri_resolve::mode::CanonMode;
use iri_resolve::replay::ReplayError;
use iri_resolve::resolver::FixedBaseResolver;
use iri_types::view::{IriAbsoluteStr, IriReferenceStr, UriAbsoluteStr, UriReferenceStr};
use std::test::Fail;

#[test]
fn other_refusals_in_words(rt: HostRuntime) -> Result<(), Fail> {
    let memory = CanonError::Memory;
    same(
        &rt,
        format!(in rt.alloc(); "{memory}")?.as_str(),
        "out of memory",
    );
    let illegal = ReplayError::Illegal(3);
    same(
        &rt,
        format!(in rt.alloc(); "{illegal}")?.as_str(),
        "step 3 is no step from the parts reached",
    );
    let replay = ReplayError::Memory;
    same(
        &rt,
        format!(in rt.alloc(); "{replay}")?.as_str(),
        "out of memory",
    );
    Ok(())
}

#[test]
fn canonical_texts(rt: HostRuntime) -> Result<(), Fail> {
    let text = canonicalize::<UriSpec>(rt.alloc(), b"http://h:80", b"")?;
    same(&rt, text.as_str(), "http://h:80");
    let text = canonicalize_in::<UriSpec>(rt.alloc(), CanonMode::Scheme, b"http://h:80", b"")?;
    same(&rt, text.as_str(), "http://h/");
    let base = IriAbsoluteStr::new("http://a/")?;
    let reference = IriReferenceStr::new("\u{e9}")?;
    let both = canonicalize_commutes_with_mapping(rt.alloc(), base, reference)?;
    same(&rt, both.0.as_str(), "http://a/%C3%A9");
    same(&rt, both.1.as_str(), "http://a/%C3%A9");
    Ok(())
}

// Examples of RFC 3987 section 3.1, and octets that were sent as octets.
#[test]
fn canonical_texts_mapped(rt: HostRuntime) -> Result<(), Fail> {
    let base = b"http://example.org/a/";
    for &(reference, wanted) in &[
        (
            "http://r\u{e9}sum\u{e9}.example.org",
            "http://r%C3%A9sum%C3%A9.example.org",
        ),
        (
            "../red%09ros\u{e9}#red",
            "http://example.org/red%09ros%C3%A9#red",
        ),
        (
            "r%C3%A9sum%c3%a9.html",
            "http://example.org/a/r%C3%A9sum%C3%A9.html",
        ),
    ] {
        let uri = canonicalize_to_uri::<IriSpec>(
            rt.alloc(),
            CanonMode::Default,
            base,
            reference.as_bytes(),
        )?;
        same(&rt, uri.as_str(), wanted);
    }
    let refused = canonicalize_to_uri::<IriSpec>(rt.alloc(), CanonMode::Scheme, base, b"%");
    assert!(rt; matches!(refused, Err(CanonError::BadReference(_))));
    Ok(())
}

#[test]
fn targets(rt: HostRuntime) -> Result<(), Fail> {
    let Ok(base) = UriAbsoluteStr::new("http://a/b/") else {
        return Err("a valid base is refused")?;
    };
    let Ok(reference) = UriReferenceStr::new("../c") else {
        return Err("a valid reference is refused")?;
    };
    let resolver = FixedBaseResolver::<UriSpec>::new(base).clone()?;
    assert!(rt; resolver.base().as_str() == "http://a/b/");
    let target = resolver.target(rt.alloc(), reference)?;
    assert!(rt; target.scheme() == "http");
    assert!(rt; target.authority() == Some("a"));
    assert!(rt; target.path() == "/b/../c");
    assert!(rt; target.query().is_none());
    assert!(rt; target.fragment().is_none());
    Ok(())
}
