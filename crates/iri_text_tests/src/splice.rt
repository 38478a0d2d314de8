ghost use Rattle.std.specs.Prelude.{◌≡◌, IfOk};
ghost use Rattle.std.specs.Str.{IsCharBoundary};
ghost use Rattle.std.specs.String.{string_bytes};
ghost use Rattle.iri_owned.specs.Spliced.{spliced};

use crate::same::same;
use iri_owned::owned::{IriString, UriAbsoluteString, UriString};
use iri_types::view::{IriStr, UriStr};
use std::alloc::{AllocError, Global};
use std::ops::Range;
use std::test::Fail;

// The text put together from what comes before the range, the new text and what comes after.
fn joined(
    alloc: Global,
    old: &str,
    start: usize,
    end: usize,
    new: &str,
) -> Result<String, AllocError>
    requires low { IsCharBoundary old.now start }
    requires high { IsCharBoundary old.now end }
    ensures { IfOk result (λ t. string_bytes t ≡ spliced old.now start end new.now) }
{
    let mut text = String::from_str(alloc, &old[..start])?;
    text.push_str(new)?;
    text.push_str(&old[end..])?;
    Ok(text)
}

// Splices where that may be done, and says whether it may. Where allocation fails the text is as it was.
fn splices(
    iri: &mut IriString,
    alloc: Global,
    range: Range<usize>,
    new: &str,
) -> Result<bool, Fail> {
    let old = iri.try_clone(alloc)?;
    let (start, end, text) = (range.start, range.end, iri.as_str());
    if start > end || !text.is_char_boundary(start) || !text.is_char_boundary(end) {
        return Ok(false);
    }
    let whole = joined(alloc, text, start, end, new)?;
    match IriStr::new(whole.as_str()) {
        Ok(_) => match iri.splice(range, new) {
            Ok(()) => Ok(true),
            Err(error) if *iri == old => Err(error)?,
            Err(_) => Ok(false),
        },
        Err(_) => Ok(false),
    }
}

#[test]
fn parts_replaced(rt: HostRuntime) -> Result<(), Fail> {
    // Longer, shorter and equally long; nothing taken out and nothing put in; past ASCII.
    for &(old, start, end, new, want) in &[
        ("http://a/", 7, 8, "bc", "http://bc/"),
        ("http://abc/d", 7, 10, "e", "http://e/d"),
        ("http://abc/d", 7, 10, "efg", "http://efg/d"),
        ("http://a/", 9, 9, "b?c", "http://a/b?c"),
        ("http://a/b?c#d", 10, 12, "", "http://a/b#d"),
        (
            "http://a/\u{3B1}/b",
            9,
            11,
            "\u{3B2}\u{20AC}",
            "http://a/\u{3B2}\u{20AC}/b",
        ),
        (
            "http://a/\u{20AC}/b",
            9,
            12,
            "\u{3B2}",
            "http://a/\u{3B2}/b",
        ),
    ] {
        let mut iri = IriString::try_from_str(rt.alloc(), old)?;
        assert!(rt; splices(&mut iri, rt.alloc(), start..end, new)?, "{old}");
        assert_eq!(rt; iri.as_str(), want);
    }
    Ok(())
}

#[test]
fn within_and_past_the_capacity(rt: HostRuntime) -> Result<(), Fail> {
    let mut text = String::with_capacity(rt.alloc(), 20)?;
    text.push_str("http://a/")?;
    let mut iri = IriString::try_from_string(text).ok().ok_or("refused")?;
    let capacity = iri.capacity();
    assert!(rt; splices(&mut iri, rt.alloc(), 7..8, "b.example")?);
    same(&rt, iri.as_str(), "http://b.example/");
    same(&rt, iri.capacity(), capacity);
    iri.shrink_to_fit()?;
    same(&rt, iri.as_str(), "http://b.example/");
    if iri.capacity() == capacity {
        // The smaller place was refused.
        Err(AllocError)?;
    }
    let capacity = iri.capacity();
    let new = "0123456789012345678901234567890123456789";
    assert!(rt; splices(&mut iri, rt.alloc(), 17..17, new)?);
    same(
        &rt,
        iri.as_str(),
        "http://b.example/0123456789012345678901234567890123456789",
    );
    assert!(rt; capacity < iri.capacity());
    Ok(())
}

#[test]
fn whole_texts_replaced(rt: HostRuntime) -> Result<(), Fail> {
    let mut iri = UriString::try_from_str(rt.alloc(), "http://a/#f")?;
    let text = "urn:b".to_string(rt.alloc())?;
    match UriStr::new(text.as_str()) {
        Ok(_) => {
            let old = iri.replace_text(text);
            same(&rt, iri.as_str(), "urn:b");
            same(&rt, old.as_str(), "http://a/#f");
        }
        Err(_) => assert!(rt; false),
    }
    let again = UriString::from_valid(iri.into_string());
    same(&rt, again.as_str(), "urn:b");
    let absolute = UriAbsoluteString::from_valid(again.into_absolute().into_string());
    same(&rt, absolute.as_str(), "urn:b");
    Ok(())
}
