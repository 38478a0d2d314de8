// The target of a reference against a base.
ghost use Rattle.std.specs.Prelude.{◌≡◌, ◌++◌, ◌||◌, cond, is_some, None, false, true};
ghost use Rattle.memchr.specs.Find.{IsLastByte, is_byte};
ghost use Rattle.iri_grammar.specs.Parts.{starts_with_slash};
ghost use Rattle.iri_grammar.specs.Splitters.{parts};
ghost use Rattle.iri_grammar.specs.OptionalSlices.{now_of};
ghost use Rattle.iri_normal.specs.Target.{takes_base_path, target, target_under, to_last_slash, merge_prefix};
ghost use Rattle.iri_normal.specs.Target.{ends_at_slash, last_segment};
ghost use Rattle.iri_normal.specs.Slices.{merged, slices};
ghost use Rattle.iri_grammar.specs.Characters.{slash};

use crate::directory::Directory;
use crate::merged_path::MergedPath;
use iri_grammar::splitter::Splitter;
use memchr::memrchr;

/// A target as slices of the base and the reference.
///
/// ```
/// use iri::resolve::FixedBaseResolver;
/// use iri::types::{UriAbsoluteStr, UriReferenceStr};
/// let page = FixedBaseResolver::new(UriAbsoluteStr::new("http://a/b/c/d;p?q")?);
/// let target = page.target(rt.alloc(), UriReferenceStr::new("//g?y")?)?;
/// let slices = target.slices();
/// assert_eq!(rt; slices.scheme, Some("http"));
/// assert_eq!(rt; slices.authority, Some("g"));
/// assert_eq!(rt; slices.query, Some("y"));
/// ```
#[derive(Clone, Copy, Debug)]
pub struct TargetSlices<'a> {
    pub scheme: Option<&'a str>,
    pub authority: Option<&'a str>,
    pub path: MergedPath<'a>,
    pub query: Option<&'a str>,
    pub fragment: Option<&'a str>,
}

// Where the last slash is.
pub(crate) fn last_slash(path: &str) -> Option<usize>
    ensures { IsLastByte (is_byte slash) path.now result }
{
    memrchr(b'/', path.as_bytes())
}

/// A path up to and with its last slash, or nothing where it has none, and its last segment.
pub fn cut_last_segment(path: &str) -> (&str, &str)
    ensures ends { ends_at_slash result.0.now ≡ true }
    ensures directory { result.0.now ≡ to_last_slash path.now }
    ensures last { result.1.now ≡ last_segment path.now }
{
    match last_slash(path) {
        Some(i) => (&path[..i + 1], &path[i + 1..]),
        None => ("", path),
    }
}

/// The prefix that a relative path is put after.
pub fn merge_prefix<'a>(base: &Splitter<'a>) -> &'a str
    ensures ends { ends_at_slash result.now ≡ true }
    ensures prefix { result.now ≡ merge_prefix (parts base.now) }
{
    if base.authority().is_some() && base.path().is_empty() {
        "/"
    } else {
        cut_last_segment(base.path()).0
    }
}

// Whether a path begins with a slash.
pub(crate) fn starts_with_slash(path: &str) -> bool
    ensures { result ≡ starts_with_slash path.now }
{
    matches!(path.as_bytes(), [b'/', ..])
}

// The path of a reference that has one, with neither scheme nor authority (section 5.2.3).
#[inline(always)]
fn merge<'a>(directory: &Directory<'a>, path: &'a str) -> MergedPath<'a>
    ensures { merged result ≡ cond (starts_with_slash path.now) path.now (directory.now.text.now ++ path.now) }
{
    if starts_with_slash(path) {
        return MergedPath::of(path);
    }
    MergedPath {
        base: directory.text,
        reference: path,
        plain: directory.plain,
        bare: directory.bare,
        parent: directory.known_before(path),
    }
}

// The target of a reference with neither scheme nor authority.
#[tactic(auto, unfolding(crate::specs::Target::target))]
#[inline(always)]
fn after_base<'a>(
    base: &Splitter<'a>,
    directory: &Directory<'a>,
    reference: &Splitter<'a>,
) -> TargetSlices<'a>
    requires prefix { directory.now.text.now ≡ merge_prefix (parts base.now) }
    ensures parts { slices result ≡ target_under (parts base.now) (parts reference.now) None None }
{
    let path = reference.path();
    let fragment = reference.fragment();
    if path.is_empty() {
        TargetSlices {
            scheme: base.scheme(),
            authority: base.authority(),
            path: MergedPath::of(base.path()),
            query: reference.query().or(base.query()),
            fragment,
        }
    } else {
        TargetSlices {
            scheme: base.scheme(),
            authority: base.authority(),
            path: merge(directory, path),
            query: reference.query(),
            fragment,
        }
    }
}

// A reference's own parts under a scheme.
fn under_scheme<'a>(scheme: Option<&'a str>, reference: &Splitter<'a>) -> TargetSlices<'a>
    ensures parts { slices result ≡ record (parts reference.now) { scheme = now_of scheme.entry } }
{
    TargetSlices {
        scheme,
        authority: reference.authority(),
        path: MergedPath::of(reference.path()),
        query: reference.query(),
        fragment: reference.fragment(),
    }
}

/// The target of a reference against a base (RFC 3986 sections 5.2.2 and 5.2.3), with its dot segments kept. `directory` is the base's.
#[tactic(auto, unfolding(crate::specs::Target::target))]
#[inline(always)]
pub fn target<'a>(
    base: &Splitter<'a>,
    directory: &Directory<'a>,
    reference: &Splitter<'a>,
) -> TargetSlices<'a>
    requires prefix { directory.now.text.now ≡ merge_prefix (parts base.now) }
    ensures parts { slices result ≡ target (parts base.now) (parts reference.now) }
{
    match (reference.scheme(), reference.authority()) {
        (Some(scheme), _) => under_scheme(Some(scheme), reference),
        (None, Some(_)) => under_scheme(base.scheme(), reference),
        (None, None) => after_base(base, directory, reference),
    }
}

/// Whether a reference takes the base's path whole.
pub fn takes_base_path(reference: &Splitter<'_>) -> bool
    ensures { result ≡ takes_base_path (parts reference.now) }
{
    reference.scheme().is_none() && reference.authority().is_none() && reference.path().is_empty()
}

impl<'a> TargetSlices<'a> {
    /// The parts of a text.
    pub fn of(text: &Splitter<'a>) -> Self
        ensures parts { slices result ≡ parts text.now }
    {
        under_scheme(text.scheme(), text)
    }
}
