// A line that is a page and a link.
ghost use Rattle.std.specs.Prelude.{◌≡◌, ◌∷◌, ◌++◌, None, Some, MatchOption};
ghost use Rattle.iri_grammar.specs.Cut.{after, before};
ghost use Rattle.iri_normal.specs.Pairs.{tab};

use iri_grammar::cutting::find_byte;

// A page, and a link on it.
#[derive(Clone, Copy)]
pub(crate) struct Pair<'a> {
    pub(crate) page: &'a [u8],
    pub(crate) link: &'a [u8],
}

/// What stands before the first tab of a line, and what after it; none exactly where there is no tab.
pub(crate) fn pair_of(line: &[u8]) -> Option<Pair<'_>>
    ensures { MatchOption result (after tab line.now ≡ None)
        (λ p. (p.page.now ≡ before tab line.now) × (after tab line.now ≡ Some p.link.now)) }
{
    match find_byte(line, b'\t') {
        Some(i) => Some(Pair {
            page: &line[..i],
            link: &line[i + 1..],
        }),
        None => None,
    }
}

// What follows a tab at the start.
#[inline(always)]
fn after_tab(bytes: &[u8]) -> Option<&[u8]>
    ensures { MatchOption result (Unit {0}) (λ rest. bytes.now ≡ tab ∷ rest.now) }
{
    match bytes {
        [b'\t', rest @ ..] => Some(rest),
        _ => None,
    }
}

/// The link of a line that has this page. Where that isn't the line's page, or it has none, there is none.
#[tactic(auto, using(crate::proofs::PairsLemmas::line_is))]
#[inline(always)]
pub(crate) fn link_on<'a>(line: &'a [u8], page: &str) -> Option<&'a [u8]>
    ensures { MatchOption result (Unit {0}) (λ link. line.now ≡ page.now ++ tab ∷ link.now) }
{
    if line.len() < page.len() {
        return None;
    }
    let (prefix, rest) = line.split_at(page.len());
    let link = after_tab(rest)?;
    if prefix == page.as_bytes() {
        Some(link)
    } else {
        None
    }
}
