// Paths against a stack of their segments (RFC 3986 section 5.2.4), with `%2e` as a dot (section 6.2.2.2).
use crate::rewriting::{Wanted, as_it_stands, compared_cuts, head, is_path};
use std::alloc::{AllocError, Global};
use std::test::Fail;

// How many dots a dot segment has, or 0.
fn dots_in(segment: &str) -> usize {
    if segment == "." || segment == "%2e" {
        return 1;
    }
    if segment == ".." || segment == ".%2e" || segment == "%2e." || segment == "%2e%2e" {
        return 2;
    }
    0
}

// A segment more. Tells whether a slash stays after it where it is the last one.
fn put<'a>(stack: &mut Vec<&'a str>, segment: &'a str) -> Result<bool, AllocError> {
    let dots = dots_in(segment);
    if dots == 0 {
        stack.push(segment)?;
        return Ok(false);
    }
    if stack.is_empty() {
        return Ok(false);
    }
    if dots == 2 {
        stack.pop();
        if stack.is_empty() {
            stack.push("")?;
        }
    }
    Ok(true)
}

// The segments that stay.
fn stack_of<'a>(alloc: Global, path: &'a str) -> Result<Vec<&'a str>, AllocError> {
    let mut stack = Vec::new(alloc);
    let mut closed = false;
    for segment in path.split('/') {
        closed = put(&mut stack, segment)?;
    }
    if closed {
        stack.push("")?;
    }
    Ok(stack)
}

// The text of segments after a head, guarded where no authority stands.
fn text_of(alloc: Global, stack: &[&str], authority_stands: bool) -> Result<Vec<u8>, AllocError> {
    let mut path = Vec::new(alloc);
    for (i, segment) in stack.iter().enumerate() {
        if i > 0 {
            path.push(b'/')?;
        }
        path.extend_from_slice(segment.as_bytes())?;
    }
    let mut text = Vec::new(alloc);
    text.extend_from_slice(head(authority_stands).as_bytes())?;
    if !authority_stands && path.as_slice().starts_with(b"//") {
        text.extend_from_slice(b"/.")?;
    }
    text.extend_from_slice(path.as_slice())?;
    Ok(text)
}

// Of a path and the same path with its triplets decoded, how many forms of it, however it is cut, were those of its
// segments; none where one was another.
fn compared(
    alloc: Global,
    path: &str,
    decoded: &str,
    authority_stands: bool,
) -> Result<Option<usize>, AllocError> {
    if !is_path(path.as_bytes(), authority_stands) {
        return Ok(Some(0));
    }
    let plain = text_of(alloc, stack_of(alloc, path)?.as_slice(), authority_stands)?;
    let normal = text_of(
        alloc,
        stack_of(alloc, decoded)?.as_slice(),
        authority_stands,
    )?;
    let stands = as_it_stands(alloc, path.as_bytes(), authority_stands)?;
    let kept = as_it_stands(alloc, decoded.as_bytes(), authority_stands)?;
    let preserves = !authority_stands && !path.as_bytes().starts_with(b"/");
    let wanted = Wanted {
        plain: plain.as_slice(),
        normal: normal.as_slice(),
        preserving: if preserves {
            kept.as_slice()
        } else {
            normal.as_slice()
        },
    };
    let whole = Wanted {
        plain: stands.as_slice(),
        ..wanted
    };
    compared_cuts(alloc, path, authority_stands, wanted, whole)
}

static UNITS: [&str; 4] = ["/", ".", "a", "%2e"];

static DECODED: [&str; 4] = ["/", ".", "a", "."];

// The join of so many units, by a number of as many digits below four.
fn join(
    text: &mut String,
    units: &[&str; 4],
    count: usize,
    number: usize,
) -> Result<(), AllocError> {
    text.clear();
    let mut rest = number;
    for _ in 0..count {
        text.push_str(units[rest % 4])?;
        rest /= 4;
    }
    Ok(())
}

const LONGEST: usize = 8;

// All joins of so many units that have at most `LONGEST` bytes.
fn compared_joins(
    alloc: Global,
    count: usize,
    authority_stands: bool,
) -> Result<Option<usize>, AllocError> {
    let mut path = String::new(alloc);
    let mut decoded = String::new(alloc);
    let mut forms = 0usize;
    for number in 0..1usize << (2 * count.min(LONGEST)) {
        join(&mut path, &UNITS, count, number)?;
        if path.len() > LONGEST {
            continue;
        }
        join(&mut decoded, &DECODED, count, number)?;
        match compared(alloc, path.as_str(), decoded.as_str(), authority_stands)? {
            Some(more) => forms = forms.saturating_add(more),
            None => return Ok(None),
        }
    }
    Ok(Some(forms))
}

fn compared_all(alloc: Global, authority_stands: bool) -> Result<usize, AllocError> {
    let mut forms = 0usize;
    for count in 0..=LONGEST {
        match compared_joins(alloc, count, authority_stands)? {
            Some(more) => forms = forms.saturating_add(more),
            None => return Ok(0),
        }
    }
    Ok(forms)
}

// Every text of `/`, `.`, `a` and `%2e` of up to `LONGEST` bytes, however it is cut into base and reference.
#[test]
fn short_texts_without_authority(rt: HostRuntime) -> Result<(), Fail> {
    let forms = compared_all(rt.alloc(), false)?;
    assert!(rt; forms > 70_000, "{forms} forms were compared");
    Ok(())
}

#[test]
fn short_texts_after_an_authority(rt: HostRuntime) -> Result<(), Fail> {
    let forms = compared_all(rt.alloc(), true)?;
    assert!(rt; forms > 30_000, "{forms} forms were compared");
    Ok(())
}
