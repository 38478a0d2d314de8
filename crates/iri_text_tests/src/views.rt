use crate::same::same;
use iri_grammar::error::{Error, ErrorKind};
use iri_text::write_to_slice;
use iri_types::authority::AuthorityComponents;
use iri_types::laws::{equal_as_texts, hashed_as_texts, ordered_as_texts};
use iri_types::view::{
    IriReferenceStr, IriStr, UriAbsoluteStr, UriReferenceStr, UriRelativeStr, UriStr,
};
use std::cmp::Ordering;
use std::convert::{AsStr, TryFrom};
use std::hash::{DefaultHasher, Hash, Hasher};
use std::test::Fail;

fn fault<T>(answer: Result<T, Error>) -> Option<ErrorKind>
where
    T: Drop,
{
    match answer {
        Ok(_) => None,
        Err(error) => Some(error.kind()),
    }
}

#[test]
fn kinds(rt: HostRuntime) {
    match UriReferenceStr::new("http://a/?q#f") {
        Ok(reference) => match reference.to_iri() {
            Ok(iri) => {
                same(&rt, iri.scheme_str(), "http");
                same(&rt, iri.fragment_str(), Some("f"));
                same(&rt, iri.as_reference(), reference);
                same(&rt, iri.to_absolute().as_str(), "http://a/?q");
                let (absolute, fragment) = iri.to_absolute_and_fragment();
                same(&rt, absolute.scheme_str(), "http");
                same(&rt, absolute.query_str(), Some("q"));
                same(&rt, absolute.as_iri().as_str(), "http://a/?q");
                assert!(rt; absolute.as_iri().to_absolute_and_fragment().1.is_none());
                match fragment {
                    Some(fragment) => same(&rt, fragment.to_iri_spec().as_str(), "f"),
                    None => assert!(rt; false),
                }
                same(&rt, iri.to_iri_spec().as_str(), "http://a/?q#f");
                let text = iri.as_str();
                same(&rt, UriStr::from_valid(text), iri);
                same(
                    &rt,
                    UriReferenceStr::from_valid(reference.as_str()).len(),
                    13,
                );
            }
            Err(_) => assert!(rt; false),
        },
        Err(_) => assert!(rt; false),
    }
    match IriReferenceStr::new("//a/b?q#f") {
        Ok(reference) => match reference.to_relative_iri() {
            Ok(relative) => {
                same(&rt, relative.authority_str(), Some("a"));
                same(&rt, relative.path_str(), "/b");
                same(&rt, relative.fragment_str(), Some("f"));
                same(&rt, relative.as_reference().len(), 9);
            }
            Err(_) => assert!(rt; false),
        },
        Err(_) => assert!(rt; false),
    }
}

fn hash_of<T: Hash>(x: &T) -> u64 {
    let mut state = DefaultHasher::new();
    x.hash(&mut state);
    state.finish()
}

#[test]
fn views_as_texts(rt: HostRuntime) -> Result<(), Fail> {
    match (UriStr::new("a:b"), UriStr::new("a:c")) {
        (Ok(a), Ok(b)) => {
            let again = a.clone()?;
            same(&rt, again, a);
            assert!(rt; !equal_as_texts(a, b));
            same(&rt, ordered_as_texts(a, b), Ordering::Less);
            assert!(rt; a < b);
            let mut state = DefaultHasher::new();
            hashed_as_texts(again, &mut state);
            same(&rt, state.finish(), hash_of(&a));
            let told = format!(in rt.alloc(); "<{a}>")?;
            same(&rt, told.as_str(), "<a:b>");
            let told = format!(in rt.alloc(); "{a:?}")?;
            assert!(rt; told.as_str().contains("\"a:b\""));
            let mut three = [0u8; 3];
            match write_to_slice(&mut three, &a) {
                Ok(text) => same(&rt, text, "a:b"),
                Err(_) => assert!(rt; false),
            }
        }
        _ => assert!(rt; false),
    }
    match (UriStr::new("a://b"), UriStr::new("c://b/d")) {
        (Ok(a), Ok(b)) => match (a.authority_components(), b.authority_components()) {
            (Some(x), Some(y)) => {
                let copy = x.clone()?;
                assert!(rt; copy == y);
                same(&rt, hash_of(&x), hash_of(&y));
            }
            _ => assert!(rt; false),
        },
        _ => assert!(rt; false),
    }
    Ok(())
}

fn length_of<T: AsStr>(value: &T) -> usize {
    value.as_str().len()
}

#[test]
fn by_the_traits_of_std(rt: HostRuntime) -> Result<(), Fail> {
    // RFC 3986 section 1.1.2.
    let url = "http://www.ietf.org/rfc/rfc2396.txt";
    let link = UriStr::try_from(url)?;
    same(&rt, length_of(&link), 35);
    same(&rt, UriStr::try_from(url.as_bytes())?, link);
    same(&rt, <&str>::from(link), url);
    let reference = UriReferenceStr::from(link);
    same(&rt, UriStr::try_from(reference)?, link);
    let absolute = UriAbsoluteStr::try_from(link)?;
    same(&rt, UriStr::from(absolute), link);
    same(&rt, UriReferenceStr::from(absolute), reference);
    let relative = UriRelativeStr::try_from("../g")?;
    same(&rt, UriReferenceStr::from(relative).as_str(), "../g");
    same(&rt, IriStr::from(link).as_str(), url);
    same(
        &rt,
        fault(UriStr::try_from("//a")),
        Some(ErrorKind::UnexpectedRelative),
    );
    same(
        &rt,
        fault(UriStr::try_from(b"a:\xFF" as &[u8])),
        Some(ErrorKind::InvalidUtf8),
    );
    same(
        &rt,
        fault(UriRelativeStr::try_from(reference)),
        Some(ErrorKind::InvalidPath),
    );
    same(
        &rt,
        fault(UriAbsoluteStr::try_from(UriStr::new("a:#")?)),
        Some(ErrorKind::UnexpectedFragment),
    );
    Ok(())
}

#[test]
fn printed_for_a_programmer(rt: HostRuntime) -> Result<(), Fail> {
    let link = UriReferenceStr::new("//u@a:1/")?;
    let told = format!(in rt.alloc(); "{link:?}")?;
    assert!(rt; told.as_str().contains("\"//u@a:1/\""));
    let authority = AuthorityComponents::from_iri(link).ok_or("an authority")?;
    let told = format!(in rt.alloc(); "{authority:?}")?;
    let want = "AuthorityComponents { userinfo: Some(\"u\"), host: \"a\", port: Some(\"1\") }";
    same(&rt, told.as_str(), want);
    Ok(())
}
