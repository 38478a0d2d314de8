//! The target of a reference, owned.
ghost use Rattle.std.specs.Prelude.{◌≡◌, ◌++◌, IfOk, IsSome, Some, string_bytes, true};
ghost use Rattle.iri_grammar.specs.Parts.{Fits};
ghost use Rattle.iri_grammar.specs.OptionalSlices.{now_of};
ghost use Rattle.iri_normal.specs.Resolver.{bytes_of};
ghost use Rattle.iri_normal.specs.Slices.{slices};

use crate::merged_path::MergedPath;
use crate::target::TargetSlices;
use iri_grammar::spec::Spec;
use std::alloc::{AllocError, Global};
use std::marker::{Model, PhantomData};

/// Five parts with a scheme that fit the grammar of `S`: they recompose to a URI of `S`, and are its split (RFC 3986
/// section 5.2.2). It is seen as these parts.
///
/// ```
/// use iri::resolve::FixedBaseResolver;
/// use iri::types::{UriAbsoluteStr, UriReferenceStr};
/// let page = FixedBaseResolver::new(UriAbsoluteStr::new("http://a/b/c/d;p?q")?);
/// let target = page.target(rt.alloc(), UriReferenceStr::new("g?y#s")?)?;
/// assert_eq!(rt; target.scheme(), "http");
/// assert_eq!(rt; target.authority(), Some("a"));
/// assert_eq!(rt; target.path(), "/b/c/g");
/// assert_eq!(rt; target.query(), Some("y"));
/// assert_eq!(rt; target.fragment(), Some("s"));
/// ```
#[derive(Drop)]
#[derive_where(Debug)]
pub struct Target<S: Spec> {
    scheme: String,
    authority: Option<String>,
    path: String,
    query: Option<String>,
    fragment: Option<String>,
    #[derive_where(skip(Debug))]
    spec: PhantomData<S>,
}

impl<S: Spec> Model for Target<S> {
    ghost use Rattle.std.specs.Prelude.{Some, string_bytes};
    ghost use Rattle.iri_grammar.specs.Parts.{Parts, Fits};
    ghost use Rattle.iri_normal.specs.Resolver.{bytes_of};

    ghost Value = { Parts };

    ghost view = { λ t. record {
      scheme = Some (string_bytes t.scheme);
      authority = bytes_of t.authority;
      path = string_bytes t.path;
      query = bytes_of t.query;
      fragment = bytes_of t.fragment;
    } };

    ghost invariant = { λ t. Fits S.tests (record {
      scheme = Some (string_bytes t.scheme);
      authority = bytes_of t.authority;
      path = string_bytes t.path;
      query = bytes_of t.query;
      fragment =
          bytes_of t.fragment;
    }) };
}

// A copy of a part that may be absent.
fn copied(alloc: Global, part: Option<&str>) -> Result<Option<String>, AllocError>
    ensures { IfOk result (λ copy. bytes_of copy ≡ now_of part.entry) }
{
    match part {
        Some(part) => Ok(Some(String::from_str(alloc, part)?)),
        None => Ok(None),
    }
}

// The path in one text.
fn joined(alloc: Global, base: &str, path: &str) -> Result<String, AllocError>
    ensures { IfOk result (λ text. string_bytes text ≡ base.now ++ path.now) }
{
    let mut text = String::from_str(alloc, base)?;
    text.push_str(path)?;
    Ok(text)
}

#[tactic(auto, using(crate::proofs::Borrowed::borrowed))]
impl<S: Spec> Target<S> {
    /// Copies of slices. It has conditions, which the slices of each target meet: they fit the grammar of `S`, and
    /// there is a scheme (`TargetSlices::of` of a split view has such).
    ///
    /// # Errors
    ///
    /// Where allocation fails.
    pub fn of(alloc: Global, parts: &TargetSlices<'_>) -> Result<Self, AllocError>
        requires fits { Fits S.tests (slices parts.now) }
        requires scheme { IsSome (slices parts.now).scheme }
        ensures { IfOk result (λ t. t ≡ slices parts.now) }
    {
        let scheme = String::from_str(alloc, parts.scheme.unwrap())?;
        let authority = copied(alloc, parts.authority)?;
        let path = joined(alloc, parts.path.base, parts.path.reference)?;
        let query = copied(alloc, parts.query)?;
        let fragment = copied(alloc, parts.fragment)?;
        Ok(Target {
            scheme,
            authority,
            path,
            query,
            fragment,
            spec: PhantomData,
        })
    }

    /// The parts, borrowed.
    pub fn slices(&self) -> TargetSlices<'_>
        ensures parts { slices result ≡ self.now }
        ensures fits { Fits S.tests self.now }
        ensures scheme { IsSome self.now.scheme }
    {
        TargetSlices {
            scheme: Some(self.scheme.as_str()),
            authority: self.authority.as_deref(),
            path: MergedPath::of(self.path.as_str()),
            query: self.query.as_deref(),
            fragment: self.fragment.as_deref(),
        }
    }

    /// The scheme, without its `:`. The parts fit the grammar of `S`.
    pub fn scheme(&self) -> &str
        ensures scheme { Some result.now ≡ self.now.scheme }
        ensures fits { Fits S.tests self.now }
    {
        self.scheme.as_str()
    }

    /// The authority, without the `//` before it; `None` exactly where there is none.
    pub fn authority(&self) -> Option<&str>
        ensures { now_of result ≡ self.now.authority }
    {
        self.authority.as_deref()
    }

    /// The path with its dot segments, which may be empty.
    pub fn path(&self) -> &str
        ensures { result.now ≡ self.now.path }
    {
        self.path.as_str()
    }

    /// The query, without its `?`; `None` exactly where there is none.
    pub fn query(&self) -> Option<&str>
        ensures { now_of result ≡ self.now.query }
    {
        self.query.as_deref()
    }

    /// The fragment, without its `#`; `None` exactly where there is none.
    pub fn fragment(&self) -> Option<&str>
        ensures { now_of result ≡ self.now.fragment }
    {
        self.fragment.as_deref()
    }
}
