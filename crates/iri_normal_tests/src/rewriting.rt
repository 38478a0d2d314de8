// Paths against the rewriting of RFC 3986 section 5.2.4, done step by step.
use iri_grammar::spec::UriSpec;
use iri_resolve::normalized::Normalized;
use iri_resolve::resolver::FixedBaseResolver;
use iri_text::{ToStringFallible, write_to_slice};
use iri_types::view::{UriAbsoluteStr, UriReferenceStr};
use std::alloc::{AllocError, Global};
use std::str;
use std::test::Fail;

// The last segment goes, with the slash before it.
fn remove_last(output: &mut Vec<u8>) {
    for _ in 0..output.len() {
        if output.pop() == Some(b'/') {
            return;
        }
    }
}

// How many bytes the first segment has, with the slash before it.
fn first_segment(input: &[u8]) -> usize {
    for (i, b) in input.iter().enumerate() {
        if i > 0 && *b == b'/' {
            return i;
        }
    }
    input.len()
}

// One step, 2A to 2E: what is left of the input.
fn step<'a>(output: &mut Vec<u8>, input: &'a [u8]) -> Result<&'a [u8], AllocError> {
    match input {
        [b'.', b'.', b'/', rest @ ..] => Ok(rest),
        [b'.', b'/', rest @ ..] => Ok(rest),
        [b'/', b'.', b'/', ..] => Ok(&input[2..]),
        [b'/', b'.'] => Ok(&input[..1]),
        [b'/', b'.', b'.', b'/', ..] => {
            remove_last(output);
            Ok(&input[3..])
        }
        [b'/', b'.', b'.'] => {
            remove_last(output);
            Ok(&input[..1])
        }
        [b'.'] | [b'.', b'.'] => Ok(&input[input.len()..]),
        _ => {
            let n = first_segment(input).min(input.len());
            output.extend_from_slice(&input[..n])?;
            Ok(&input[n..])
        }
    }
}

// Each step makes input and output together no longer, and the input shorter.
fn rewritten(alloc: Global, path: &[u8]) -> Result<Vec<u8>, AllocError> {
    let mut output = Vec::new(alloc);
    let mut input = path;
    for _ in 0..path.len() {
        input = step(&mut output, input)?;
    }
    Ok(output)
}

// The texts that are wanted of a path in three modes.
#[derive(Clone, Copy)]
pub(crate) struct Wanted<'a> {
    pub(crate) plain: &'a [u8],
    pub(crate) normal: &'a [u8],
    pub(crate) preserving: &'a [u8],
}

// What is written before a path.
pub(crate) fn head(authority_stands: bool) -> &'static str {
    if authority_stands { "s://h" } else { "s:" }
}

// The text with a path as it stands.
pub(crate) fn as_it_stands(
    alloc: Global,
    path: &[u8],
    authority_stands: bool,
) -> Result<Vec<u8>, AllocError> {
    let mut text = Vec::new(alloc);
    text.extend_from_slice(head(authority_stands).as_bytes())?;
    text.extend_from_slice(path)?;
    Ok(text)
}

// The text with a path rewritten and guarded.
fn guarded(alloc: Global, path: &[u8], authority_stands: bool) -> Result<Vec<u8>, AllocError> {
    let path = rewritten(alloc, path)?;
    let mut text = Vec::new(alloc);
    text.extend_from_slice(head(authority_stands).as_bytes())?;
    if !authority_stands && path.as_slice().starts_with(b"//") {
        text.extend_from_slice(b"/.")?;
    }
    text.extend_from_slice(path.as_slice())?;
    Ok(text)
}

fn is_text(shown: &Normalized<'_, UriSpec>, text: &[u8]) -> bool {
    let mut buf = [0u8; 64];
    match write_to_slice(&mut buf, shown) {
        Ok(written) => written.as_bytes() == text,
        Err(_) => false,
    }
}

// Whether the three forms are those that are wanted.
fn are_wanted(plain: Normalized<'_, UriSpec>, wanted: Wanted<'_>) -> bool {
    let preserving = plain.and_normalize_but_preserve_authorityless_relative_path();
    is_text(&plain, wanted.plain)
        && is_text(&plain.and_normalize(), wanted.normal)
        && is_text(&preserving, wanted.preserving)
}

// The text of a base with this path.
fn base_text(alloc: Global, path: &str, authority_stands: bool) -> Result<String, AllocError> {
    let mut text = String::from_str(alloc, head(authority_stands))?;
    text.push_str(path)?;
    Ok(text)
}

// How many forms were compared, or none where one isn't the wanted one. What is no base or no reference is passed over.
fn compared(
    alloc: Global,
    prefix: &str,
    reference: &str,
    authority_stands: bool,
    wanted: Wanted<'_>,
) -> Result<Option<usize>, AllocError> {
    let base = base_text(alloc, prefix, authority_stands)?;
    let Ok(base) = UriAbsoluteStr::new(base.as_str()) else {
        return Ok(Some(0));
    };
    let Ok(reference) = UriReferenceStr::new(reference) else {
        return Ok(Some(0));
    };
    if are_wanted(FixedBaseResolver::new(base).resolve(reference), wanted) {
        Ok(Some(3))
    } else {
        Ok(None)
    }
}

// Whether a base can have the path: beside an authority it begins with a slash, and without one not with two.
pub(crate) fn is_path(path: &[u8], authority_stands: bool) -> bool {
    if authority_stands {
        path.starts_with(b"/")
    } else {
        !path.starts_with(b"//")
    }
}

// A path cut after each of its slashes, where what follows is a reference of its own, and not cut at all.
pub(crate) fn compared_cuts(
    alloc: Global,
    path: &str,
    authority_stands: bool,
    wanted: Wanted<'_>,
    whole: Wanted<'_>,
) -> Result<Option<usize>, AllocError> {
    let bytes = path.as_bytes();
    let Some(mut count) = compared(alloc, path, "", authority_stands, whole)? else {
        return Ok(None);
    };
    for i in 1..bytes.len() {
        if bytes[i - 1] != b'/' || bytes[i] == b'/' {
            continue;
        }
        let (Ok(prefix), Ok(rest)) = (str::from_utf8(&bytes[..i]), str::from_utf8(&bytes[i..]))
        else {
            return Ok(None);
        };
        match compared(alloc, prefix, rest, authority_stands, wanted)? {
            Some(more) => count = count.saturating_add(more),
            None => return Ok(None),
        }
    }
    Ok(Some(count))
}

// The same against the rewriting.
fn compared_rewriting(
    alloc: Global,
    path: &str,
    authority_stands: bool,
) -> Result<Option<usize>, AllocError> {
    let bytes = path.as_bytes();
    if !is_path(bytes, authority_stands) {
        return Ok(Some(0));
    }
    let stands = as_it_stands(alloc, bytes, authority_stands)?;
    let guarded = guarded(alloc, bytes, authority_stands)?;
    let preserves = !authority_stands && !bytes.starts_with(b"/");
    let preserved = if preserves { &stands } else { &guarded };
    let wanted = Wanted {
        plain: guarded.as_slice(),
        normal: guarded.as_slice(),
        preserving: preserved.as_slice(),
    };
    let whole = Wanted {
        plain: stands.as_slice(),
        ..wanted
    };
    compared_cuts(alloc, path, authority_stands, wanted, whole)
}

static PIECES: [&str; 7] = ["/", "a", ".", "..", "/..", "/../", "a/"];

// The join of five pieces, by a number of five digits below seven.
fn join(text: &mut String, number: usize) -> Result<(), AllocError> {
    text.clear();
    let mut rest = number;
    for _ in 0..5 {
        text.push_str(PIECES[rest % 7])?;
        rest /= 7;
    }
    Ok(())
}

fn compared_joins(alloc: Global, authority_stands: bool) -> Result<Option<usize>, AllocError> {
    let mut path = String::new(alloc);
    let mut count = 0usize;
    for number in 0..16_807 {
        join(&mut path, number)?;
        match compared_rewriting(alloc, path.as_str(), authority_stands)? {
            Some(more) => count = count.saturating_add(more),
            None => return Ok(None),
        }
    }
    Ok(Some(count))
}

// Every join of five pieces, without an authority.
#[test]
fn joins_without_authority(rt: HostRuntime) -> Result<(), Fail> {
    let count = compared_joins(rt.alloc(), false)?.unwrap_or(0);
    assert!(rt; count > 100_000, "{count} forms were compared");
    Ok(())
}

// Every join of five pieces that may follow an authority.
#[test]
fn joins_after_an_authority(rt: HostRuntime) -> Result<(), Fail> {
    let count = compared_joins(rt.alloc(), true)?.unwrap_or(0);
    assert!(rt; count > 50_000, "{count} forms were compared");
    Ok(())
}

// Whether a path in two pieces, of a base and of a reference, is put into normal form as it is rewritten.
fn is_rewritten(alloc: Global, prefix: &str, rest: &str) -> Result<bool, AllocError> {
    let mut path = String::from_str(alloc, prefix)?;
    path.push_str(rest)?;
    let want = guarded(alloc, path.as_bytes(), true)?;
    let text = base_text(alloc, prefix, true)?;
    let (Ok(base), Ok(reference)) = (
        UriAbsoluteStr::new(text.as_str()),
        UriReferenceStr::new(rest),
    ) else {
        return Ok(false);
    };
    let normal = FixedBaseResolver::new(base)
        .resolve(reference)
        .and_normalize();
    Ok(normal.try_to_string(alloc)?.as_bytes() == want.as_slice())
}

// The same of a long path, taken whole.
fn is_long_rewritten(alloc: Global, unit: &str) -> Result<bool, AllocError> {
    let mut path = String::from_str(alloc, "/")?;
    for _ in 0..4000 {
        path.push_str(unit)?;
    }
    path.push_str("../x")?;
    is_rewritten(alloc, path.as_str(), "")
}

#[test]
fn long_paths(rt: HostRuntime) -> Result<(), Fail> {
    for &unit in &["a/", "a/../", "a/a/../", "../", "a/a/a/a/../../", "/"] {
        assert!(rt; is_long_rewritten(rt.alloc(), unit)?, "at {unit}");
    }
    Ok(())
}

// The same of a path taken whole, and cut after a slash before half of it.
fn are_both_rewritten(alloc: Global, path: &str, cut: usize) -> Result<bool, AllocError> {
    let (Some(prefix), Some(rest)) = (path.get(..cut), path.get(cut..)) else {
        return Ok(false);
    };
    if !rest.as_bytes().starts_with(b"/") && !is_rewritten(alloc, prefix, rest)? {
        return Ok(false);
    }
    is_rewritten(alloc, path, "")
}

// The same of paths of a unit again and again, of so many lengths from the first one on.
fn are_rewritten_from(
    alloc: Global,
    unit: &str,
    from: usize,
    count: usize,
) -> Result<bool, AllocError> {
    let mut path = String::from_str(alloc, "/")?;
    for _ in 0..from.saturating_add(count) {
        path.push_str(unit)?;
    }
    let half = path.as_str().get(..from / 2).unwrap_or("/");
    let cut = half.rfind('/').unwrap_or(0).saturating_add(1);
    for more in 0..count {
        let Some(path) = path.as_str().get(..from.saturating_add(more)) else {
            return Ok(false);
        };
        if !are_both_rewritten(alloc, path, cut)? {
            return Ok(false);
        }
    }
    Ok(true)
}

static REPEATED: [&str; 8] = [
    "a/",
    "a/./",
    "a/../",
    "a/b/../",
    "a/b/c/.././",
    "../",
    "/",
    "/../b/",
];

// Around the length up to which a path goes into the buffer.
#[test]
fn paths_around_the_short_length(rt: HostRuntime) -> Result<(), Fail> {
    for unit in REPEATED {
        assert!(rt; are_rewritten_from(rt.alloc(), unit, 500, 30)?, "at {unit}");
    }
    Ok(())
}

#[test]
fn paths_around_two_short_lengths(rt: HostRuntime) -> Result<(), Fail> {
    for unit in REPEATED {
        assert!(rt;
            are_rewritten_from(rt.alloc(), unit, 1_012, 30)?,
            "at {unit}"
        );
    }
    Ok(())
}

#[test]
fn paths_around_64_kib(rt: HostRuntime) -> Result<(), Fail> {
    for unit in REPEATED {
        assert!(rt;
            are_rewritten_from(rt.alloc(), unit, 65_534, 5)?,
            "at {unit}"
        );
    }
    Ok(())
}
