// Normalization by scheme rules (RFC 3986 section 6.2.3).
use crate::same::same;
use iri_grammar::spec::UriSpec;
use iri_resolve::join::{join_steps, join_steps_in};
use iri_resolve::mode::CanonMode;
use iri_resolve::normal_steps::steps_to_normal_in;
use iri_resolve::owned_target::Target;
use iri_resolve::replay::replay_in;
use iri_resolve::resolver::FixedBaseResolver;
use iri_resolve::views::Normalize;
use iri_text::{ToStringFallible, write_to_slice};
use iri_types::view::{RiReferenceStr, UriAbsoluteStr, UriStr};
use std::alloc::Global;
use std::test::Fail;

#[test]
fn shown_by_scheme(rt: HostRuntime) -> Result<(), Fail> {
    let mut buffer = [0u8; 14];
    let Ok(uri) = UriStr::new("HTTP://H:80?q") else {
        return Err("a valid URI is refused")?;
    };
    let mut normal = uri.normalize();
    assert!(rt; write_to_slice(&mut buffer, &normal).is_ok_and(|text| text == "http://h:80?q"));
    normal.enable_scheme_normalization();
    assert!(rt; write_to_slice(&mut buffer, &normal).is_ok_and(|text| text == "http://h/?q"));
    assert!(rt; write_to_slice(&mut buffer[..10], &normal).is_err());
    let Ok(base) = UriAbsoluteStr::new("wss://h:443") else {
        return Err("a valid base is refused")?;
    };
    let shown = base.normalize().and_normalize_by_scheme();
    same(&rt, shown.try_to_string(rt.alloc())?.as_str(), "wss://h/");
    // A resolver whose base's prefix is in normal form uses it in no mode where it would be wrong.
    let resolver = FixedBaseResolver::new(base);
    let Ok(reference) = RiReferenceStr::<UriSpec>::new("a/..") else {
        return Err("a valid reference is refused")?;
    };
    let resolved = resolver.resolve(reference);
    let text = resolved.and_normalize().try_to_string(rt.alloc())?;
    same(&rt, text.as_str(), "wss://h:443/");
    let text = resolved
        .and_normalize_by_scheme()
        .try_to_string(rt.alloc())?;
    same(&rt, text.as_str(), "wss://h/");
    Ok(())
}

// The target of a reference against `HTTP://a:80`.
fn target(alloc: Global, reference: &str) -> Result<Target<UriSpec>, Fail> {
    let Ok(base) = UriAbsoluteStr::new("HTTP://a:80") else {
        return Err("a valid base is refused")?;
    };
    let Ok(reference) = RiReferenceStr::<UriSpec>::new(reference) else {
        return Err("a valid reference is refused")?;
    };
    Ok(FixedBaseResolver::new(base).target(alloc, reference)?)
}

#[test]
fn joined_by_scheme(rt: HostRuntime) -> Result<(), Fail> {
    let empty = target(rt.alloc(), "")?;
    let slash = target(rt.alloc(), "/")?;
    let joined = join_steps_in(rt.alloc(), CanonMode::Scheme, &empty, &slash)?;
    assert!(rt; joined.is_some());
    let steps = steps_to_normal_in(rt.alloc(), CanonMode::Scheme, &empty)?;
    let after = replay_in(rt.alloc(), CanonMode::Scheme, &empty, &steps)?;
    same(&rt, after.path(), "/");
    assert!(rt; join_steps(rt.alloc(), &empty, &slash)?.is_none());
    let other = target(rt.alloc(), "//a:8")?;
    assert!(rt; join_steps_in(rt.alloc(), CanonMode::Scheme, &empty, &other)?.is_none());
    Ok(())
}
