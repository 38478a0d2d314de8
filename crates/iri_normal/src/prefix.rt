// The prefix of a base: its scheme with the colon, and `//` with its authority.
ghost use Rattle.std.specs.Prelude.{◌≡◌, ◌<◌, ◌^◌, ◌++◌, false, true, length};
ghost use Rattle.iri_grammar.specs.Parts.{scheme_text, authority_text};
ghost use Rattle.iri_grammar.specs.Split.{split_of};
ghost use Rattle.iri_grammar.specs.OptionalSlices.{now_of};
ghost use Rattle.iri_types.specs.SplitText.{split_text};
ghost use Rattle.iri_normal.specs.Prefix.{IsPrefix, prefix_in};

use crate::comparison::is_text;
use crate::form::show_prefix;
use crate::unchanged::keeps_prefix;
use iri_grammar::spec::Spec;
use iri_text::{Show, Stop, TextSink};
use iri_types::kind::{Absolute, WholeKind};
use iri_types::split::SplitView;

/// The prefix of a base in normal form: its scheme in lower case with the colon, and `//` with its authority.
#[derive(Drop)]
pub struct NormalPrefix<'a, S: Spec> {
    pub base: SplitView<'a, S, Absolute>,
}

impl<S: Spec> Show for NormalPrefix<'_, S> {
    ghost text = { λ p. prefix_in S.tests true (split_of (split_text p.base)) };

    fn show<W: TextSink>(&self, sink: &mut W) -> Result<(), Stop> {
        let parts = self.base.parts();
        show_prefix::<S, W>(sink, parts.scheme(), parts.authority(), true)
    }
}

fn scheme_len(scheme: Option<&str>) -> usize
    ensures { result ≡ length (scheme_text (now_of scheme.entry)) }
{
    match scheme {
        Some(scheme) => scheme.len() + 1,
        None => 0,
    }
}

fn authority_len(authority: Option<&str>) -> usize
    ensures { result ≡ length (authority_text (now_of authority.entry)) }
{
    match authority {
        Some(authority) => authority.len() + 2,
        None => 0,
    }
}

// How many bytes a prefix has.
fn prefix_len(scheme: Option<&str>, authority: Option<&str>) -> usize
    requires { length (scheme_text (now_of scheme) ++ authority_text (now_of authority)) < 2 ^ 64 }
    ensures { result ≡ length (scheme_text (now_of scheme.entry) ++ authority_text (now_of authority.entry)) }
{
    scheme_len(scheme) + authority_len(authority)
}

// The prefix of a text as it is, and what follows it.
pub(crate) fn cut_prefix<'a, S: Spec, K: WholeKind>(
    text: &SplitView<'a, S, K>,
) -> (&'a str, &'a str)
    ensures whole { split_text text.now ≡ result.0.now ++ result.1.now }
    ensures prefix { result.0.now ≡ prefix_in S.tests false (split_of (split_text text.now)) }
{
    let whole = text.view().as_str();
    let parts = text.parts();
    let len = prefix_len(parts.scheme(), parts.authority());
    (&whole[..len], &whole[len..])
}

// The prefix of a text, where its scan says that it is in normal form, as that of most does.
#[inline(always)]
pub(crate) fn kept_prefix<'a, S: Spec, K: WholeKind>(text: &SplitView<'a, S, K>) -> Option<&'a str>
    ensures { IsPrefix S.tests (split_of (split_text text.now)) (now_of result) }
{
    if keeps_prefix::<S>(text.parts()) {
        let (prefix, _) = cut_prefix(text);
        Some(prefix)
    } else {
        None
    }
}

// The prefix of a base, where it is its own normal form.
#[inline(never)]
fn compared_prefix<'a, S: Spec>(base: &SplitView<'a, S, Absolute>) -> Option<&'a str>
    ensures { IsPrefix S.tests (split_of (split_text base.now)) (now_of result) }
{
    let (text, _) = cut_prefix(base);
    if is_text(&NormalPrefix { base: *base }, text) {
        Some(text)
    } else {
        None
    }
}

/// The prefix of a base, where it is in normal form.
#[inline(always)]
pub fn normal_prefix<'a, S: Spec>(base: &SplitView<'a, S, Absolute>) -> Option<&'a str>
    ensures { IsPrefix S.tests (split_of (split_text base.now)) (now_of result) }
{
    match kept_prefix(base) {
        Some(prefix) => Some(prefix),
        None => compared_prefix(base),
    }
}
