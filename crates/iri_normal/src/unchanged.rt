// References whose text ends their canonical text: nothing in them changes but their percent-encoded octets.
ghost use Rattle.std.specs.Prelude.{◌≡◌, ◌≤◌, ◌++◌, length, true, MatchOption};
ghost use Rattle.std.specs.Str.{IsAscii};
ghost use Rattle.iri_grammar.specs.Components.{if_there};
ghost use Rattle.iri_grammar.specs.Cut.{lacks};
ghost use Rattle.iri_grammar.specs.Characters.{percent_sign};
ghost use Rattle.iri_grammar.specs.Parts.{Fits};
ghost use Rattle.iri_grammar.specs.Split.{split_of};
ghost use Rattle.iri_grammar.specs.Splitters.{parts};
ghost use Rattle.iri_percent.specs.Triplets.{pct};
ghost use Rattle.iri_percent.specs.Units.{whole_triplets};
ghost use Rattle.iri_normal.specs.inside.Unchanged.{IsLowered, KeepsPrefix, LacksTriplets, is_plain_prefix};
ghost use Rattle.iri_normal.specs.NormalForm.{lowered};
ghost use Rattle.iri_types.specs.SplitText.{split_text};
ghost use Rattle.iri_text.specs.Shown.{Shows};

use crate::directory::Directory;
use crate::prefix::cut_prefix;
use iri_grammar::spec::Spec;
use iri_grammar::splitter::Splitter;
use iri_percent::PctCaseNormalized;
use iri_text::{Show, Stop, TextSink};
use iri_types::kind::{Absolute, Reference};
use iri_types::split::SplitView;

// What comes before such a reference: the prefix of the base and the path that relative ones are put after, or nothing.
#[derive(Clone, Copy)]
pub(crate) struct Before<'a> {
    pub prefix: &'a str,
    pub directory: &'a str,
}

// Whether the scan saw no percent-encoded octet after the authority.
#[inline(always)]
pub(crate) fn lacks_triplets(reference: &Splitter<'_>) -> bool
    ensures { result ≡ true → LacksTriplets (parts reference.now) }
{
    let seen = reference.seen();
    !(seen.path_triplets | seen.query_triplets | seen.fragment_triplets)
}

// Whether scheme and authority are in normal form as they are. Others may be too.
#[inline(always)]
pub(crate) fn keeps_prefix<S: Spec>(reference: &Splitter<'_>) -> bool
    requires { Fits S.tests (parts reference.now) }
    ensures { result ≡ true → KeepsPrefix S.tests (parts reference.now) }
{
    let seen = reference.seen();
    !(seen.capitals | seen.other_authority)
}

// Whether the path of a base beside an authority stays as it is. Others may too.
pub(crate) fn keeps_path<S: Spec>(base: &SplitView<'_, S, Absolute>) -> bool
    ensures { result ≡ true → is_plain_prefix (split_of (split_text base.now)) (split_of (split_text base.now)).path ≡ true }
{
    let parts = base.parts();
    let seen = parts.seen();
    parts.authority().is_some() && !(seen.dots | seen.path_triplets)
}

// Whether a directory stays as it is beside the authority of a base. Others may too.
pub(crate) fn keeps_directory<S: Spec>(
    base: &SplitView<'_, S, Absolute>,
    directory: &Directory<'_>,
) -> bool
    ensures { result ≡ true → is_plain_prefix (split_of (split_text base.now)) directory.now.text.now ≡ true }
{
    base.parts().authority().is_some() && directory.plain && directory.bare
}

// Whether the query of a base has no percent-encoded octet, or there is none.
pub(crate) fn keeps_query<S: Spec>(base: &SplitView<'_, S, Absolute>) -> bool
    ensures { result ≡ true → if_there (lacks percent_sign) (split_of (split_text base.now)).query ≡ true }
{
    !base.parts().seen().query_triplets
}

// A text, where it isn't empty.
#[inline(always)]
fn show_some<W: TextSink>(sink: &mut W, text: &str) -> Result<(), Stop>
    ensures { Shows W.puts W.halts W.stops sink.old text.now sink.new result }
{
    if text.is_empty() {
        return Ok(());
    }
    sink.put(text)
}

// A text with its percent-encoded octets in normal form. `bare` says that it has none.
#[inline(always)]
fn show_text<S: Spec, W: TextSink>(sink: &mut W, text: &str, bare: bool) -> Result<(), Stop>
    requires whole { whole_triplets text.now ≡ true }
    requires bare { bare ≡ true → lacks percent_sign text.now ≡ true }
    ensures { Shows W.puts W.halts W.stops sink.old (pct S.tests text.now) sink.new result }
{
    if bare {
        return sink.put(text);
    }
    PctCaseNormalized::<S>::new(text).show(sink)
}

// Shows a text, its percent-encoded octets in normal form, after what comes before it, of which one or both are often empty.
#[inline(always)]
pub(crate) fn show_after<S: Spec, W: TextSink>(
    sink: &mut W,
    before: Before<'_>,
    text: &str,
    bare: bool,
) -> Result<(), Stop>
    requires whole { whole_triplets text.now ≡ true }
    requires bare { bare ≡ true → lacks percent_sign text.now ≡ true }
    ensures { Shows W.puts W.halts W.stops sink.old
        (before.entry.prefix.now ++ (before.entry.directory.now ++ pct S.tests text.now)) sink.new result }
{
    show_some(sink, before.prefix)?;
    show_some(sink, before.directory)?;
    show_text::<S, W>(sink, text, bare)
}

// The same by a call of its own: within the other ways it would cost a reference that goes one of them 25 instructions (2026-12-01).
#[inline(never)]
pub(crate) fn show_after_apart<S: Spec, W: TextSink>(
    sink: &mut W,
    before: Before<'_>,
    text: &str,
    bare: bool,
) -> Result<(), Stop>
    requires whole { whole_triplets text.now ≡ true }
    requires bare { bare ≡ true → lacks percent_sign text.now ≡ true }
    ensures { Shows W.puts W.halts W.stops sink.old
        (before.entry.prefix.now ++ (before.entry.directory.now ++ pct S.tests text.now)) sink.new result }
{
    show_after::<S, W>(sink, before, text, bare)
}

// A reference with a scheme that changes in nothing but its percent-encoded octets and the case of letters before its path: scheme
// and authority, and what follows them. `None` says nothing.
pub(crate) fn cut_lowered<'a, S: Spec>(
    reference: &SplitView<'a, S, Reference>,
) -> Option<(&'a str, &'a str)>
    ensures { MatchOption result (Unit {0}) (λ p. IsLowered S.tests (split_text reference.now) p.0.now p.1.now) }
{
    let parts = reference.parts();
    let seen = parts.seen();
    let Some(_) = parts.scheme() else {
        return None;
    };
    if seen.dots | seen.other_authority {
        return None;
    }
    let (prefix, rest) = cut_prefix(reference);
    if prefix.len() > 64 {
        return None;
    }
    Some((prefix, rest))
}

// A text of at most 64 ASCII characters in lower case.
fn show_in_lower_case<W: TextSink>(sink: &mut W, text: &str) -> Result<(), Stop>
    requires ascii { IsAscii text.now }
    requires short { length text.now ≤ 64 }
    ensures { Shows W.puts W.halts W.stops sink.old (lowered text.now) sink.new result }
{
    let mut buffer = [0u8; 64];
    let lower = &mut buffer[..text.len()];
    lower.copy_from_slice(text.as_bytes());
    lower.make_ascii_lowercase();
    sink.put(unsafe { str::from_utf8_unchecked(lower) })
}

// Shows the first piece in lower case, and the second with its percent-encoded octets in normal form. `bare` says that it has none.
#[inline(never)]
pub(crate) fn show_lowered<S: Spec, W: TextSink>(
    sink: &mut W,
    first: &str,
    second: &str,
    bare: bool,
) -> Result<(), Stop>
    requires ascii { IsAscii first.now }
    requires short { length first.now ≤ 64 }
    requires whole { whole_triplets second.now ≡ true }
    requires bare { bare ≡ true → lacks percent_sign second.now ≡ true }
    ensures { Shows W.puts W.halts W.stops sink.old (lowered first.now ++ pct S.tests second.now) sink.new result }
{
    show_in_lower_case(sink, first)?;
    show_text::<S, W>(sink, second, bare)
}
