use crate::same::same;
use iri_grammar::spec::{IriSpec, UriSpec};
use iri_types::kind::{Absolute, Reference};
use iri_types::split::SplitView;
use iri_types::view::IriAbsoluteStr;
use std::test::Fail;

// RFC 3986 section 3.
const URL: &str = "foo://example.com:8042/over/there?name=ferret#nose";

#[test]
fn cut_once(rt: HostRuntime) -> Result<(), Fail> {
    let Ok(whole) = SplitView::<'_, UriSpec, Reference>::try_from_bytes(URL.as_bytes()) else {
        return Err("a reference is refused")?;
    };
    let again = whole.clone()?;
    same(&rt, again.view().as_str(), URL);
    same(&rt, again.parts().scheme(), Some("foo"));
    same(&rt, again.parts().authority(), Some("example.com:8042"));
    same(&rt, again.parts().path(), "/over/there");
    same(&rt, again.parts().query(), Some("name=ferret"));
    same(&rt, again.parts().fragment(), Some("nose"));
    let Ok(base) = IriAbsoluteStr::new("urn:\u{3B1}") else {
        return Err("a base is refused")?;
    };
    let base = SplitView::of(base);
    same(&rt, base.parts().path(), "\u{3B1}");
    assert!(rt; base.parts().authority().is_none());
    Ok(())
}

// RFC 3986 section 4.3.
#[test]
fn absolute_texts(rt: HostRuntime) -> Result<(), Fail> {
    let Ok(base) = SplitView::<'_, IriSpec, Absolute>::absolute("http://a/b?\u{3B1}") else {
        return Err("a base is refused")?;
    };
    assert_eq!(rt; base.view().as_str(), "http://a/b?\u{3B1}");
    assert_eq!(rt; base.parts().authority(), Some("a"));
    assert_eq!(rt; base.parts().query(), Some("\u{3B1}"));
    Ok(())
}
