// IPv6 texts (RFC 3986 section 3.2.2).
ghost use Rattle.std.specs.Prelude.{◌≡◌, [], ◌∷◌, ◌==◌, cond, nat_lt};
ghost use Rattle.iri_grammar.specs.Ipv6.{is_group};
ghost use Rattle.iri_grammar.specs.Ipv6Test.{is_ipv6};
ghost use Rattle.iri_grammar.specs.inside.Ipv6Reading.{is_whole, completes};

use crate::cutting::cut;
use crate::digits::all_hex;
use crate::ipv4::is_ipv4;

// Whether the text is one to four hex digits.
#[tactic(auto, unfolding(crate::specs::Ipv6::is_group))]
fn is_group(s: &str) -> bool
    ensures { result ≡ is_group s.now }
{
    all_hex(s.as_bytes()) && 0 < s.len() && s.len() < 5
}

// Whether a `::` and so many more groups, or so many alone, are what an IPv6 text has before its last part.
fn is_count(n: usize, most: usize, shortened: bool) -> bool
    ensures { result ≡ cond shortened (nat_lt n most) (n == most) }
{
    if shortened { n < most } else { n == most }
}

// Whether the last part makes an IPv6 text whole, after so many groups and, where that is said, a `::`.
fn is_last(part: &str, n: usize, shortened: bool) -> bool
    ensures { result ≡ is_whole shortened n (part.now ∷ []) }
{
    if is_group(part) {
        is_count(n, 7, shortened)
    } else {
        is_ipv4(part) && is_count(n, 6, shortened)
    }
}

// Whether the groups from the left on complete an IPv6 text; a `::`, which stands for all groups that are missing and for one
// at least, may come before them, where that is said, or after one of them.
fn completes(s: &str, shortened: bool) -> bool
    ensures { result ≡ completes shortened 0 s.now }
{
    let mut rest = s;
    let mut shortened = shortened;
    let mut n = 0usize;
    'groups: loop {
        let (group, more) = cut(rest, b':');
        let Some(next) = more else {
            return is_last(group, n, shortened);
        };
        if !is_group(group) {
            return false;
        }
        n += 1;
        let Some(back) = next.strip_prefix(":") else {
            rest = next;
            continue;
        };
        if shortened {
            return false;
        }
        if back.is_empty() {
            return n < 8;
        }
        shortened = true;
        rest = back;
    }
}

// Whether the text is eight groups parted by colons, or at most seven around one `::`, an IPv4 text
// at the end counting as two.
pub(crate) fn is_ipv6(s: &str) -> bool
    ensures { result ≡ is_ipv6 s.now }
{
    match s.strip_prefix("::") {
        Some(back) => back.is_empty() || completes(back, true),
        None => completes(s, false),
    }
}
