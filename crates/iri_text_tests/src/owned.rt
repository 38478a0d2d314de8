use crate::same::same;
use iri_grammar::error::ErrorKind;
use iri_owned::error::CreateError;
use iri_owned::owned::{
    IriReferenceString, IriString, UriAbsoluteString, UriFragmentString, UriQueryString,
    UriReferenceString, UriRelativeString, UriString,
};
use iri_text::ToStringFallible;
use iri_types::view::UriStr;
use std::alloc::{AllocError, Global};
use std::cmp::Ordering;
use std::convert::{AsStr, TryFrom};
use std::error::Error;
use std::hash::{DefaultHasher, Hash, Hasher};
use std::test::Fail;

fn fault(error: CreateError) -> Option<ErrorKind> {
    match error {
        CreateError::Invalid(error) => Some(error.kind()),
        CreateError::Memory(_) => None,
    }
}

// What an error prints.
fn told<E: Error>(error: &E, alloc: Global) -> Result<String, Fail> {
    Ok(format!(in alloc; "{error}")?)
}

#[test]
fn made_and_refused(rt: HostRuntime) -> Result<(), Fail> {
    let iri = IriString::try_from_str(rt.alloc(), "http://a/#f")?;
    same(&rt, iri.as_str(), "http://a/#f");
    match IriString::try_from_bytes(rt.alloc(), &[0xFF]) {
        Ok(_) => assert!(rt; false),
        Err(error) => same(&rt, fault(error), Some(ErrorKind::InvalidUtf8)),
    }
    let bytes = IriString::try_from_bytes(rt.alloc(), b"a:b")?;
    same(&rt, bytes.as_str(), "a:b");
    let text = "a".to_string(rt.alloc())?;
    match UriString::try_from_string(text) {
        Ok(_) => assert!(rt; false),
        Err(error) => {
            let kind = error.validation_error().kind();
            same(&rt, kind, ErrorKind::UnexpectedRelative);
            let want = "invalid IRI: expected an absolute IRI but got a relative IRI";
            same(&rt, told(&error, rt.alloc())?.as_str(), want);
            same(&rt, error.into_source().as_str(), "a");
        }
    }
    match UriString::try_from_str(rt.alloc(), "a") {
        Ok(_) => assert!(rt; false),
        Err(error) => {
            let want = "invalid IRI: expected an absolute IRI but got a relative IRI";
            same(&rt, told(&error, rt.alloc())?.as_str(), want);
        }
    }
    let refused = CreateError::Memory(AllocError);
    same(
        &rt,
        told(&refused, rt.alloc())?.as_str(),
        "memory allocation failed",
    );
    Ok(())
}

#[test]
fn copies(rt: HostRuntime) -> Result<(), Fail> {
    let mut iri = UriString::try_from_str(rt.alloc(), "http://a/#f")?;
    let copy = UriString::from_view(rt.alloc(), iri.as_slice())?;
    let clone = iri.try_clone(rt.alloc())?;
    iri.shrink_to_fit()?;
    assert!(rt; iri.capacity() >= 11);
    for &same in &[&copy, &clone, &iri] {
        assert_eq!(rt; same.as_str(), "http://a/#f");
    }
    assert!(rt; copy == iri && clone == iri);
    Ok(())
}

// The text before the fragment, and the fragment. Where allocation fails, the text is handed back.
fn cut(
    alloc: Global,
    iri: UriString,
) -> Result<(UriAbsoluteString, Option<UriFragmentString>), Fail> {
    let copy = iri.try_clone(alloc)?;
    match iri.into_absolute_and_fragment(alloc) {
        Ok(both) => Ok(both),
        Err(iri) if iri == copy => Err(AllocError)?,
        Err(_) => Err("another text is handed back")?,
    }
}

#[test]
fn cut_at_the_fragment(rt: HostRuntime) -> Result<(), Fail> {
    let iri = UriString::try_from_str(rt.alloc(), "http://a/#f")?;
    let (absolute, fragment) = cut(rt.alloc(), iri)?;
    same(&rt, absolute.as_str(), "http://a/");
    let fragment = fragment.ok_or("no fragment")?;
    same(&rt, fragment.into_iri_spec().as_str(), "f");
    let absolute = absolute.into_iri().into_absolute();
    same(&rt, absolute.into_reference().as_str(), "http://a/");
    Ok(())
}

#[test]
fn kinds(rt: HostRuntime) -> Result<(), Fail> {
    let reference = UriReferenceString::try_from_str(rt.alloc(), "//a?q")?;
    let relative = reference.into_relative_iri().ok().ok_or("an iri")?;
    same(&rt, relative.as_str(), "//a?q");
    let reference = UriReferenceString::try_from_str(rt.alloc(), "a:")?;
    let iri = reference.into_iri().ok().ok_or("a relative reference")?;
    let absolute = UriAbsoluteString::try_from_iri(iri).ok().ok_or("refused")?;
    same(&rt, absolute.as_str(), "a:");
    let reference = UriReferenceString::try_from_str(rt.alloc(), "a:#")?;
    let error = UriAbsoluteString::try_from_reference(reference)
        .err()
        .ok_or("taken")?;
    same(
        &rt,
        error.validation_error().kind(),
        ErrorKind::UnexpectedFragment,
    );
    same(&rt, error.into_source().as_str(), "a:#");
    let reference = UriReferenceString::try_from_str(rt.alloc(), "a")?;
    let relative = UriRelativeString::try_from_reference(reference)
        .ok()
        .ok_or("refused")?;
    same(&rt, relative.as_str(), "a");
    Ok(())
}

fn hash_of<T: Hash>(x: &T) -> u64 {
    let mut state = DefaultHasher::new();
    x.hash(&mut state);
    state.finish()
}

#[test]
fn as_texts(rt: HostRuntime) -> Result<(), Fail> {
    let a = UriQueryString::try_from_str(rt.alloc(), "a")?;
    let b = UriQueryString::try_from_str(rt.alloc(), "b")?;
    let again = a.try_clone(rt.alloc())?;
    assert_eq!(rt; again, a);
    same(&rt, a.cmp(&b), Ordering::Less);
    assert!(rt; a < b && a != b);
    same(&rt, hash_of(&a), hash_of(&again));
    let told = format!(in rt.alloc(); "<{a}>")?;
    same(&rt, told.as_str(), "<a>");
    same(&rt, b.try_to_string(rt.alloc())?.as_str(), "b");
    Ok(())
}

fn length_of<T: AsStr>(value: &T) -> usize {
    value.as_str().len()
}

#[test]
fn by_the_traits_of_std(rt: HostRuntime) -> Result<(), Fail> {
    // RFC 3986 section 1.1.2.
    let link = UriString::try_from("urn:oasis:names".to_string(rt.alloc())?)?;
    same(&rt, length_of(&link), 15);
    same(&rt, UriStr::from(&link).path_str(), "oasis:names");
    let reference = UriReferenceString::from(link);
    let absolute = UriAbsoluteString::try_from(reference)?;
    let absolute = UriAbsoluteString::try_from(UriString::from(absolute))?;
    let reference = UriReferenceString::from(absolute);
    same(
        &rt,
        IriReferenceString::from(reference).as_str(),
        "urn:oasis:names",
    );
    let relative = UriRelativeString::try_from("../g".to_string(rt.alloc())?)?;
    let reference = UriReferenceString::from(relative);
    same(&rt, String::from(reference).as_str(), "../g");
    Ok(())
}

#[test]
fn refused_by_the_traits_of_std(rt: HostRuntime) -> Result<(), Fail> {
    let text = "http://a b".to_string(rt.alloc())?;
    let error = UriString::try_from(text).err().ok_or("taken")?;
    same(&rt, error.validation_error().kind(), ErrorKind::InvalidHost);
    same(&rt, error.into_source().as_str(), "http://a b");
    let reference = UriReferenceString::try_from_str(rt.alloc(), "//a")?;
    let error = UriString::try_from(reference).err().ok_or("taken")?;
    let kind = error.validation_error().kind();
    same(&rt, kind, ErrorKind::UnexpectedRelative);
    same(&rt, String::from(error.into_source()).as_str(), "//a");
    let link = UriString::try_from_str(rt.alloc(), "a:#")?;
    let error = UriAbsoluteString::try_from(link).err().ok_or("taken")?;
    let kind = error.validation_error().kind();
    same(&rt, kind, ErrorKind::UnexpectedFragment);
    let told = format!(in rt.alloc(); "{:?}", error.into_source())?;
    assert!(rt; told.as_str().contains("\"a:#\""));
    Ok(())
}
