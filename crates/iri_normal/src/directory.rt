// What a base puts before relative paths (RFC 3986 section 5.2.3).
ghost use Rattle.std.specs.Prelude.{◌≡◌, false, true};
ghost use Rattle.iri_grammar.specs.Characters.{percent_sign, slash};
ghost use Rattle.iri_grammar.specs.Cut.{lacks};
ghost use Rattle.iri_grammar.specs.Pieces.{pieces};
ghost use Rattle.iri_grammar.specs.Splitters.{parts};
ghost use Rattle.iri_normal.specs.Dots.{has_dot_segment};
ghost use Rattle.iri_normal.specs.Target.{ends_at_slash, merge_prefix};
ghost use Rattle.iri_normal.specs.inside.Kept.{taken};
ghost use Rattle.iri_normal.specs.inside.Parents.{AreParents, IsLengthOf, IsParent};

use crate::dots::has_dot_segment;
use crate::remove_dot_segments::{popped_times, taken};
use crate::target::merge_prefix;
use iri_grammar::cutting::lacks;
use iri_grammar::splitter::Splitter;

// A shorter one is read again for each path: that costs less than to keep its parents.
const LONG: usize = 512;

// A base's path up to and with its last slash. `plain` says that it has no dot segment, and `bare` that it has no percent-encoded octet.
// Where it is long, `parents` are how many bytes it has without none, one, two and more of its last segments, found once: so a path whose
// dot segments take some away costs no look at their bytes. 0 says nothing. As slices they would cost each base, also a short one, 40
// instructions more (2026-12-01).
#[derive(Clone, Copy, Debug)]
pub struct Directory<'a> {
    pub text: &'a str,
    pub plain: bool,
    pub bare: bool,
    pub parents: [u32; 8],
    pub ghost ends: { ends_at_slash text.now ≡ true },
    pub ghost noted: { plain ≡ true → has_dot_segment text.now ≡ false },
    pub ghost bared: { bare ≡ true → lacks percent_sign text.now ≡ true },
    pub ghost above: { AreParents parents text.now },
}

// How many bytes a text has. 0 says nothing.
fn len_of(text: &str) -> u32
    ensures { IsLengthOf result text.now }
{
    match u32::try_from(text.len()) {
        Ok(len) => len,
        Err(_) => 0,
    }
}

#[inline(never)]
fn every_parent(directory: &str) -> [u32; 8]
    requires ends { ends_at_slash directory.now ≡ true }
    ensures { AreParents result directory.now }
{
    let mut parents = [0; 8];
    let mut rest = directory;
    'parents: for i in 0..8 {
        parents[i] = len_of(rest);
        rest = popped_times(rest, 1);
    }
    parents
}

// Whether it has no dot segment. The scan of most bases says so.
fn is_plain(base: &Splitter<'_>, directory: &str) -> bool
    requires { directory.now ≡ merge_prefix (parts base.now) }
    ensures { result ≡ true → has_dot_segment directory.now ≡ false }
{
    !base.seen().dots || !has_dot_segment(directory)
}

// Whether it has no percent-encoded octet.
fn is_bare(base: &Splitter<'_>, directory: &str) -> bool
    requires { directory.now ≡ merge_prefix (parts base.now) }
    ensures { result ≡ true → lacks percent_sign directory.now ≡ true }
{
    !base.seen().path_triplets || lacks(directory, b'%')
}

// Those of a long one.
#[inline(always)]
fn long_parents(directory: &str) -> [u32; 8]
    requires ends { ends_at_slash directory.now ≡ true }
    ensures { AreParents result directory.now }
{
    if directory.len() < LONG {
        [0; 8]
    } else {
        every_parent(directory)
    }
}

// How much stays of it before a path, whose dot segments take some of its last segments away.
#[inline(never)]
fn parent_before(parents: &[u32; 8], directory: &str, path: &str) -> u32
    requires ends { ends_at_slash directory.now ≡ true }
    requires parents { AreParents parents.now directory.now }
    ensures { IsParent result (taken (pieces slash path.now) 0) directory.now }
{
    let count = taken(path, 0);
    match parents.get(count) {
        Some(len) => *len,
        None => len_of(popped_times(directory, count)),
    }
}

impl<'a> Directory<'a> {
    // That of a base.
    #[inline(always)]
    pub(crate) fn of(base: &Splitter<'a>) -> Self
        ensures { result.text.now ≡ merge_prefix (parts base.now) }
    {
        let text = merge_prefix(base);
        Directory {
            text,
            plain: is_plain(base, text),
            bare: is_bare(base, text),
            parents: long_parents(text),
        }
    }

    // How much stays of it before a path, where that is known. 0 says nothing.
    #[inline(always)]
    pub(crate) fn known_before(&self, path: &str) -> u32
        ensures { IsParent result (taken (pieces slash path.now) 0) self.now.text.now }
    {
        if self.parents[0] == 0 {
            return 0;
        }
        parent_before(&self.parents, self.text, path)
    }
}
