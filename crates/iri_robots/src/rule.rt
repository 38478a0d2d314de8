// Rules, and which of those that match decides.
ghost use Rattle.std.specs.Prelude.{◌≡◌, ◌↔◌, ◌++◌, ◌∷◌, [], List, Option, true};
ghost use Rattle.iri_robots.specs.Allowed.{IsAllowed};
ghost use Rattle.iri_robots.specs.Records.{FileRule};
ghost use Rattle.iri_robots.specs.inside.BestRule.{IsBestOf};
ghost use Rattle.iri_robots.specs.inside.SecondBytes.{IsApart, second_of};

use crate::groups::Groups;
use crate::pattern::matches;

// A rule of a robots file: it allows or disallows what its pattern matches.
#[derive(Drop)]
pub(crate) struct Rule {
    pub(crate) allows: bool,
    pub(crate) groups: Groups,
    pub(crate) pattern: String,
}

// The longest patterns that match have so many bytes, and an allow rule is among them or not.
#[derive(Clone, Copy)]
pub(crate) struct Best {
    pub(crate) bytes: usize,
    pub(crate) allows: bool,
}

// The second byte of a text, or a `*` where it has none.
pub(crate) fn second_of(text: &[u8]) -> u8
    ensures { result ≡ second_of text.now }
{
    if text.len() < 2 { b'*' } else { text[1] }
}

// Whether the second byte of a pattern that begins with a slash tells that no text with this second byte is matched.
#[inline(always)]
pub(crate) fn is_apart(pattern: &[u8], second: u8) -> bool
    ensures { result ≡ true → IsApart pattern.now second }
{
    if pattern.len() < 2 || pattern[0] != b'/' {
        return false;
    }
    let byte = pattern[1];
    if byte == second || byte == b'*' || byte == b'%' || byte == b'$' {
        return false;
    }
    true
}

// What decides with one rule more. A rule that is too short to decide isn't matched.
pub(crate) fn judge(best: Option<Best>, allows: bool, pattern: &[u8], text: &[u8]) -> Option<Best>
    ensures { (rules : List FileRule) → IsBestOf rules text.now best
        → IsBestOf (rules ++ (record { allows = allows; pattern = pattern.now }) ∷ []) text.now result }
{
    let bytes = pattern.len();
    let Some(old) = best else {
        if matches(pattern, text) {
            return Some(Best { bytes, allows });
        }
        return best;
    };
    if bytes < old.bytes {
        return best;
    }
    if !matches(pattern, text) {
        return best;
    }
    if old.bytes < bytes {
        return Some(Best { bytes, allows });
    }
    Some(Best {
        bytes,
        allows: allows || old.allows,
    })
}

// The longest pattern decides, and an allow rule decides where patterns are equally long.
pub(crate) fn decides(best: Option<Best>, text: &[u8]) -> bool
    ensures { (rules : List FileRule) → IsBestOf rules text.now best → ((result ≡ true) ↔ IsAllowed rules text.now) }
{
    if text == b"/robots.txt".as_slice() {
        return true;
    }
    match best {
        Some(best) => best.allows,
        None => true,
    }
}
