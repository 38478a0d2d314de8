use crate::same::same;
use iri_grammar::spec::{Spec, UriSpec};
use iri_resolve::resolver::FixedBaseResolver;
use iri_resolve::views::{Normalize, ResolveAgainst};
use iri_text::{Show, ToDedicatedString, ToStringFallible, write_to_slice};
use iri_types::view::{RiAbsoluteStr, RiReferenceStr, RiRelativeStr, RiStr};
use std::test::Fail;

pub(crate) fn base<S: Spec>(text: &str) -> Result<RiAbsoluteStr<'_, S>, Fail> {
    match RiAbsoluteStr::new(text) {
        Ok(view) => Ok(view),
        Err(_) => Err("a valid base is refused")?,
    }
}

pub(crate) fn reference<S: Spec>(text: &str) -> Result<RiReferenceStr<'_, S>, Fail> {
    match RiReferenceStr::new(text) {
        Ok(view) => Ok(view),
        Err(_) => Err("a valid reference is refused")?,
    }
}

pub(crate) fn iri<S: Spec>(text: &str) -> Result<RiStr<'_, S>, Fail> {
    match RiStr::new(text) {
        Ok(view) => Ok(view),
        Err(_) => Err("a valid IRI is refused")?,
    }
}

// The base's path stays where it is taken whole, until the text is put into normal form.
#[test]
fn a_base_taken_whole(rt: HostRuntime) -> Result<(), Fail> {
    let resolver = FixedBaseResolver::new(base::<UriSpec>("http://a/b/c/d/e/../..")?);
    let mut text = resolver.resolve(reference("")?);
    let owned = text.try_to_dedicated_string(rt.alloc())?;
    same(&rt, owned.as_str(), "http://a/b/c/d/e/../..");
    let owned = text.and_normalize().try_to_dedicated_string(rt.alloc())?;
    same(&rt, owned.as_str(), "http://a/b/c/");
    text.enable_normalization();
    same(
        &rt,
        text.try_to_string(rt.alloc())?.as_str(),
        "http://a/b/c/",
    );
    Ok(())
}

#[test]
fn an_absolute_text(rt: HostRuntime) -> Result<(), Fail> {
    let view = base::<UriSpec>("HTTP://A/")?;
    let owned = view.normalize().try_to_dedicated_string(rt.alloc())?;
    same(&rt, owned.as_str(), "http://a/");
    same(
        &rt,
        format!(in rt.alloc(); "{}", view.normalize())?.as_str(),
        "http://a/",
    );
    Ok(())
}

// A path that would be read as an authority, and what RFC 3986 has no normal form of.
#[test]
fn a_relative_path_preserved(rt: HostRuntime) -> Result<(), Fail> {
    let view = iri::<UriSpec>("scheme:relative/..//foo")?;
    let mut text = view.normalize();
    same(
        &rt,
        text.try_to_dedicated_string(rt.alloc())?.as_str(),
        "scheme:/.//foo",
    );
    text.enable_normalization_preserving_authorityless_relative_path();
    same(
        &rt,
        text.try_to_string(rt.alloc())?.as_str(),
        "scheme:relative/..//foo",
    );
    let kept = view.normalize_but_preserve_authorityless_relative_path();
    same(
        &rt,
        kept.try_to_string(rt.alloc())?.as_str(),
        "scheme:relative/..//foo",
    );
    match view.ensure_rfc3986_normalizable() {
        Ok(()) => assert!(rt; false),
        Err(error) => {
            let words = format!(in rt.alloc(); "{error}")?;
            same(&rt, words.as_str(), "unresolvable IRI");
        }
    }
    assert!(rt; kept.ensure_rfc3986_normalizable().is_err());
    Ok(())
}

// A slice of exactly the length of the text takes it, and a shorter one doesn't.
#[test]
fn a_slice(rt: HostRuntime) -> Result<(), Fail> {
    let resolver = FixedBaseResolver::new(base::<UriSpec>("http://a/b/c/d;p?q")?);
    let text = resolver.resolve(reference("../../../g")?).and_normalize();
    let mut room = [0u8; 10];
    same(
        &rt,
        write_to_slice(&mut room, &text).unwrap_or("no room"),
        "http://a/g",
    );
    let mut room = [0u8; 9];
    assert!(rt; write_to_slice(&mut room, &text).is_err());
    Ok(())
}

#[test]
fn a_relative_reference(rt: HostRuntime) -> Result<(), Fail> {
    let Ok(view) = RiRelativeStr::<UriSpec>::new("../x") else {
        return Err("a valid reference is refused")?;
    };
    let text = view.resolve_against(base("http://a/b/c")?).clone()?;
    same(&rt, text.try_to_string(rt.alloc())?.as_str(), "http://a/x");
    Ok(())
}

#[test]
fn the_parts_of_a_base(rt: HostRuntime) -> Result<(), Fail> {
    let resolver = FixedBaseResolver::new(base::<UriSpec>("http://a:1/b?q")?);
    same(&rt, resolver.scheme_str(), "http");
    assert!(rt; resolver.authority_str() == Some("a:1"));
    same(&rt, resolver.path_str(), "/b");
    assert!(rt; resolver.query_str() == Some("q"));
    let Some(query) = resolver.query() else {
        return Err("a query is missed")?;
    };
    same(&rt, query.as_str(), "q");
    Ok(())
}
