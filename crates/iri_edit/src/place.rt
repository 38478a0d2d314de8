// Where parts of an authority are in a whole text, in bytes (RFC 3986 section 3.2).
ghost use Rattle.std.specs.Prelude.{◌≡◌, ◌+◌, drop, length, take, MatchOption, None, Some, true};
ghost use Rattle.std.specs.Str.{IsCharBoundary};
ghost use Rattle.iri_edit.specs.Password.{password_of};
ghost use Rattle.iri_edit.specs.inside.Places.{IsAuthorityAt, IsHostAt, IsPasswordAt};
ghost use Rattle.iri_grammar.specs.Authority.{authority_parts, is_authority, userinfo_text};
ghost use Rattle.iri_grammar.specs.Parts.{scheme_text};
ghost use Rattle.iri_grammar.specs.Split.{split_of};
ghost use Rattle.iri_grammar.specs.OptionalSlices.{now_of};
ghost use Rattle.iri_types.specs.Texts.{text};

use iri_grammar::authority::AuthoritySpan;
use iri_grammar::cutting::cut;
use iri_grammar::spec::Spec;
use iri_grammar::splitter::Splitter;
use iri_types::view::RiReferenceStr;

// How many bytes come before an authority: the scheme and its colon, and the slashes.
fn bytes_before(scheme: Option<&str>) -> usize
    ensures { result ≡ length (scheme_text (now_of scheme.entry)) + 2 }
{
    match scheme {
        Some(scheme) => scheme.len() + 3,
        None => 2,
    }
}

// The authority, and where it begins.
fn authority_at<'a, S: Spec>(reference: RiReferenceStr<'a, S>) -> Option<(usize, &'a str)>
    ensures { MatchOption result ((split_of (text reference.entry)).authority ≡ None)
        (λ r. IsAuthorityAt (text reference.entry) r.1.now r.0 × (is_authority S.tests r.1.now ≡ true)) }
{
    let parts = Splitter::of::<S>(reference.as_str());
    match parts.authority() {
        Some(authority) => Some((bytes_before(parts.scheme()), authority)),
        None => None,
    }
}

// Where the colon before the password is, and where the password ends.
pub(crate) fn password_at<S: Spec>(reference: RiReferenceStr<'_, S>) -> Option<(usize, usize)>
    ensures { MatchOption result (password_of (text reference.entry) ≡ None)
        (λ r. IsPasswordAt (text reference.entry) r.0 r.1) }
{
    let Some((start, authority)) = authority_at(reference) else {
        return None;
    };
    let Some(userinfo) = AuthoritySpan::of::<S>(authority).userinfo() else {
        return None;
    };
    let (user, after) = cut(userinfo, b':');
    let Some(password) = after else {
        return None;
    };
    let colon = start + user.len();
    Some((colon, colon + 1 + password.len()))
}

// How many bytes the userinfo and its `@` have.
fn userinfo_bytes(userinfo: Option<&str>) -> usize
    ensures { result ≡ length (userinfo_text (now_of userinfo.entry)) }
{
    match userinfo {
        Some(userinfo) => userinfo.len() + 1,
        None => 0,
    }
}

// The host, and where it begins.
pub(crate) fn host_at<'a, S: Spec>(reference: RiReferenceStr<'a, S>) -> Option<(usize, &'a str)>
    ensures { MatchOption result ((split_of (text reference.entry)).authority ≡ None)
        (λ r. IsHostAt S.tests (text reference.entry) r.1.now r.0) }
{
    let Some((start, authority)) = authority_at(reference) else {
        return None;
    };
    let span = AuthoritySpan::of::<S>(authority);
    Some((start + userinfo_bytes(span.userinfo()), span.host()))
}

// What comes before the one position, and what comes from the other on.
pub(crate) fn around(text: &str, start: usize, end: usize) -> (&str, &str)
    requires low { IsCharBoundary text.now start }
    requires high { IsCharBoundary text.now end }
    ensures prefix { result.0.now ≡ take start text.now }
    ensures back { result.1.now ≡ drop end text.now }
{
    (&text[..start], &text[end..])
}
