// Borrowed and owned templates.
use crate::same::same;
use iri_template::creation::CreateTemplateError;
use iri_template::error::ErrorKind;
use iri_template::laws;
use iri_template::owned::UriTemplateString;
use iri_template::template::UriTemplateStr;
use iri_template::var_name::VarName;
use iri_text::ToStringFallible;
use std::alloc::{AllocError, Global};
use std::cmp::Ordering;
use std::error::Error;
use std::hash::{DefaultHasher, Hash, Hasher};
use std::test::Fail;

// What an error prints.
fn told<E: Error>(error: &E, alloc: Global) -> Result<String, Fail> {
    Ok(format!(in alloc; "{error}")?)
}

#[test]
fn made_and_joined(rt: HostRuntime) -> Result<(), Fail> {
    let mut template = UriTemplateString::try_from_str(rt.alloc(), "x")?;
    match UriTemplateStr::new("{a}") {
        Ok(other) => template.append(other)?,
        Err(_) => assert!(rt; false),
    }
    same(&rt, template.as_str(), "x{a}");
    let bytes = UriTemplateString::try_from_bytes(rt.alloc(), b"x{a}")?;
    same(&rt, bytes.as_str(), "x{a}");
    let copy = UriTemplateString::from_view(rt.alloc(), template.as_slice())?;
    same(&rt, copy.as_str(), "x{a}");
    let clone = template.try_clone(rt.alloc())?;
    same(&rt, clone.as_str(), "x{a}");
    template.shrink_to_fit()?;
    same(&rt, template.as_str(), "x{a}");
    assert!(rt; template.capacity() >= 4);
    assert!(rt; template == copy && copy == clone);
    let given = UriTemplateString::try_from_string("{b}".to_string(rt.alloc())?);
    match given {
        Ok(given) => same(&rt, given.into_string().as_str(), "{b}"),
        Err(_) => assert!(rt; false),
    }
    Ok(())
}

#[test]
fn refused(rt: HostRuntime) -> Result<(), Fail> {
    let want = "invalid URI template: expression not closed (at 1-th byte)";
    match UriTemplateString::try_from_string("x{a".to_string(rt.alloc())?) {
        Ok(_) => assert!(rt; false),
        Err(error) => {
            same(
                &rt,
                error.validation_error().kind(),
                ErrorKind::ExpressionNotClosed,
            );
            same(&rt, error.validation_error().location(), 1);
            same(&rt, told(&error, rt.alloc())?.as_str(), want);
            same(&rt, error.into_source().as_str(), "x{a");
        }
    }
    match UriTemplateString::try_from_str(rt.alloc(), "x{a") {
        Ok(_) => assert!(rt; false),
        Err(CreateTemplateError::Memory(error)) => return Err(error)?,
        Err(error) => same(&rt, told(&error, rt.alloc())?.as_str(), want),
    }
    match UriTemplateString::try_from_bytes(rt.alloc(), b"x\xFF") {
        Ok(_) => assert!(rt; false),
        Err(CreateTemplateError::Memory(error)) => return Err(error)?,
        Err(error) => {
            let want = "invalid URI template: invalid utf-8 byte sequence (at 1-th byte)";
            same(&rt, told(&error, rt.alloc())?.as_str(), want);
        }
    }
    let refused = CreateTemplateError::Memory(AllocError);
    same(
        &rt,
        told(&refused, rt.alloc())?.as_str(),
        "memory allocation failed",
    );
    Ok(())
}

fn hash_of<T: Hash>(value: &T) -> u64 {
    let mut state = DefaultHasher::new();
    value.hash(&mut state);
    state.finish()
}

#[test]
fn as_texts(rt: HostRuntime) -> Result<(), Fail> {
    let a = UriTemplateString::try_from_str(rt.alloc(), "{a}")?;
    let b = UriTemplateString::try_from_str(rt.alloc(), "{b}")?;
    same(&rt, a.as_slice().try_to_string(rt.alloc())?.as_str(), "{a}");
    same(&rt, a.try_to_string(rt.alloc())?.as_str(), "{a}");
    let (x, y) = (a.as_slice(), b.as_slice());
    same(&rt, format!(in rt.alloc(); "{x} {b}")?.as_str(), "{a} {b}");
    assert!(rt; x.len() == 3 && !x.is_empty() && x.as_str() == "{a}");
    assert!(rt; UriTemplateStr::from_valid(x.as_str()) == x && x != y && a != b);
    assert!(rt; x < y && a.cmp(&b) == Ordering::Less && a.partial_cmp(&b) == Some(Ordering::Less));
    assert!(rt; hash_of(&x) == hash_of(&a));
    assert!(rt; laws::equal_as_texts(x, x) && laws::ordered_as_texts(x, y) == Ordering::Less);
    let mut state = DefaultHasher::new();
    laws::hashed_as_texts(x, &mut state);
    assert!(rt; state.finish() == hash_of(&x));
    laws::no_fault_of_templates();
    laws::joined_templates();
    match VarName::new("a") {
        Ok(name) => {
            let mut state = DefaultHasher::new();
            laws::names_hashed_as_texts(name, &mut state);
            let copy = name;
            assert!(rt; copy == name && copy.as_str() == "a");
            assert!(rt; state.finish() == hash_of(&name) && laws::names_equal_as_texts(name, name));
        }
        Err(_) => assert!(rt; false),
    }
    Ok(())
}

// Where allocation fails the template is as it was.
#[test]
fn kept_where_memory_is_refused(rt: HostRuntime) -> Result<(), Fail> {
    let mut template = UriTemplateString::try_from_str(rt.alloc(), "x")?;
    let other = UriTemplateStr::new("{a_name_that_is_long}")?;
    if template.append(other).is_err() {
        same(&rt, template.as_str(), "x");
        return Err(AllocError)?;
    }
    same(&rt, template.as_str(), "x{a_name_that_is_long}");
    Ok(())
}
