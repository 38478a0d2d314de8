//! The split of a reference into its five parts (RFC 3986 section 3).
ghost use Rattle.std.specs.Prelude.{◌≡◌, ◌≤◌, ◌∷◌, None, Some, IfOk, MatchOption, false, length, not, take};
ghost use Rattle.std.specs.List.{list_all};
ghost use Rattle.std.specs.Str.{is_utf8};
ghost use Rattle.iri_grammar.specs.Characters.{colon, slash};
ghost use Rattle.iri_grammar.specs.Components.{is_scheme, is_scheme_char};
ghost use Rattle.iri_grammar.specs.Fault.{Answers, bytes_fault};
ghost use Rattle.iri_grammar.specs.Cut.{before_any, from_any, lacks};
ghost use Rattle.iri_grammar.specs.inside.Delimiters.{scheme_kind, ends_scheme, SchemeAt, NoScheme, ends_authority};
ghost use Rattle.iri_grammar.specs.inside.Delimiters.{EndsAuthority, IsPastAuthority, ends_at_start};
ghost use Rattle.iri_grammar.specs.inside.Scans.{fault_after};
ghost use Rattle.iri_grammar.specs.inside.CutNotes.{KeepsAuthorityNotes, KeepsSchemeNotes};
ghost use Rattle.iri_grammar.specs.Parts.{Splits, starts_with_slashes};
ghost use Rattle.iri_grammar.specs.Runs.{run_of};
ghost use Rattle.iri_grammar.specs.Split.{split_of, relative_split_of, parts_of, scheme_of, after_scheme, authority_of};
ghost use Rattle.iri_grammar.specs.Split.{hier_of};
ghost use Rattle.iri_grammar.specs.Seen.{Promises, is_small};
ghost use Rattle.std.proofs.Props.{props};
ghost use Rattle.iri_grammar.specs.OptionalSlices.{now_of};
ghost use Rattle.iri_grammar.specs.WholeFault.{absolute_fault, reference_fault, relative_fault};

use crate::authority::cut_plain;
use crate::dots::may_have_dots;
use crate::error::{Error, ErrorKind};
use crate::seen::Seen;
use crate::spec::Spec;
use crate::tail::Tail;
use crate::validate::{authority_and_colon, scheme_in_place, stopped, without_fragment};
use memchr::memchr3;
use std::alloc::AllocError;
use std::str;

/// The five parts of a reference, as slices of its text (RFC 3986 section 3).
///
/// ```
/// use iri::components::Splitter;
/// use iri::spec::UriSpec;
/// let parts = Splitter::new::<UriSpec>("//a:8/b?c")?;
/// assert_eq!(rt; parts.authority(), Some("a:8"));
/// assert_eq!(rt; parts.path(), "/b");
/// assert_eq!(rt; parts.query(), Some("c"));
/// assert_eq!(rt; parts.fragment(), None);
/// ```
#[derive(Debug)]
pub struct Splitter<'a> {
    scheme: Option<&'a str>,
    authority: Option<&'a str>,
    path: &'a str,
    query: Option<&'a str>,
    fragment: Option<&'a str>,
    seen: Seen,
    pub ghost told: { Promises seen (record {
      scheme = now_of scheme;
      authority = now_of authority;
      path = path.now;
      query = now_of query;
      fragment = now_of fragment;
    }) } by { Prim.hlevel props },
}

impl Clone for Splitter<'_> {
    ghost is_clone = { λ a b. b ≡ a };

    ghost is_infallible = { λ _. Unit {0} };

    fn clone(&self) -> Result<Self, AllocError> {
        Ok(*self)
    }
}

impl Copy for Splitter<'_> {}

// For each byte `1` where it is a capital letter, `0` where it is another that may be in a scheme, and otherwise `.`.
// With it `canon` takes 18.3 instructions for a byte of links, without 19.6; of IRIs 31.6 and 32.5 (2026-12-01).
static SCHEME_BYTES: [u8; 256] = *b"\
    ................................\
    ...........0.00.0000000000......\
    .11111111111111111111111111.....\
    .00000000000000000000000000.....\
    ................................\
    ................................\
    ................................\
    ................................";

// What the table says of a byte.
#[inline(always)]
fn scheme_kind(b: u8) -> u8
    ensures { result ≡ scheme_kind b }
{
    SCHEME_BYTES[usize::from(b)]
}

// How many bytes at the start may be in a scheme, and whether a capital letter is among them.
#[derive(Clone, Copy)]
struct SchemeRun {
    len: usize,
    capitals: bool,
}

// The bytes at the start that may be in a scheme.
#[inline(always)]
fn scheme_run(bytes: &[u8]) -> SchemeRun
    ensures len { result.len ≡ run_of is_scheme_char bytes.now }
    ensures within { result.len ≤ length bytes.now }
    ensures capitals { result.capitals ≡ not (list_all is_small (take result.len bytes.now)) }
{
    let mut seen = b'0';
    for (i, b) in bytes.iter().enumerate() {
        let kind = scheme_kind(*b);
        if kind == b'.' {
            return SchemeRun {
                len: i,
                capitals: seen == b'1',
            };
        }
        seen |= kind;
    }
    SchemeRun {
        len: bytes.len(),
        capitals: seen == b'1',
    }
}

// Whether each byte may be in a scheme.
#[tactic(auto, using(crate::proofs::splits::PartEnds::run_of_all))]
fn all_scheme_bytes(bytes: &[u8]) -> bool
    ensures { result ≡ list_all is_scheme_char bytes.now }
{
    scheme_run(bytes).len == bytes.len()
}

// Whether the text is a scheme.
#[tactic(auto, unfolding(crate::specs::Components::is_letter))]
pub(crate) fn is_scheme(s: &str) -> bool
    ensures { result ≡ is_scheme s.now }
{
    match s.as_bytes() {
        [] => false,
        [first, rest @ ..] => first.is_ascii_alphabetic() && all_scheme_bytes(rest),
    }
}

// Whether the colon after a scheme is here.
#[tactic(auto, unfolding(crate::specs::inside::Delimiters::ends_scheme))]
fn ends_scheme(bytes: &[u8], end: usize) -> bool
    ensures { result ≡ ends_scheme bytes.now end }
{
    end < bytes.len() && bytes[end] == b':' && bytes[0].is_ascii_alphabetic()
}

// Where the colon after the scheme is; the run of bytes that may be in one ends there.
#[tactic(auto, using(crate::proofs::splits::PartEnds::scheme_at, crate::proofs::splits::PartEnds::no_scheme))]
fn scheme_end(bytes: &[u8], run: usize) -> Option<usize>
    requires { run ≡ run_of is_scheme_char bytes.now }
    ensures { MatchOption result (NoScheme bytes.now) (λ k. SchemeAt bytes.now k) }
{
    if ends_scheme(bytes, run) {
        Some(run)
    } else {
        None
    }
}

// Whether the byte ends an authority.
#[inline(always)]
fn ends_authority(b: u8) -> bool
    ensures { result ≡ ends_authority b }
{
    b == b'/' || b == b'?' || b == b'#'
}

// Whether no colon comes before the first `/`, `?` or `#`.
#[inline(always)]
fn lacks_first_colon(s: &[u8]) -> bool
    ensures { result ≡ lacks colon (before_any ends_authority s.now) }
{
    let mut rest = s;
    'prefix: while let [b, next @ ..] = rest {
        if ends_authority(*b) {
            return true;
        }
        if *b == b':' {
            return false;
        }
        rest = next;
    }
    true
}

// The scheme, where there is one, and what follows it and its colon, or all.
#[derive(Clone, Copy)]
struct SchemeCut<'a> {
    scheme: Option<&'a str>,
    rest: &'a [u8],
    // The scheme may have a capital letter.
    capitals: bool,
    // No colon stands in a first segment that may have none.
    colon_allowed: bool,
}

// Bytes cut after the scheme and its colon.
#[inline(always)]
fn cut_scheme(s: &[u8]) -> SchemeCut<'_>
    ensures scheme { now_of result.scheme ≡ scheme_of s.now }
    ensures rest { result.rest.now ≡ after_scheme s.now }
    ensures text { is_utf8 s.now ≡ is_utf8 result.rest.now }
    ensures notes { KeepsSchemeNotes result }
{
    let run = scheme_run(s);
    match scheme_end(s, run.len) {
        Some(i) => {
            let scheme = unsafe { str::from_utf8_unchecked(&s[..i]) };
            SchemeCut {
                scheme: Some(scheme),
                rest: &s[i + 1..],
                capitals: run.capitals,
                colon_allowed: true,
            }
        }
        None => SchemeCut {
            scheme: None,
            rest: s,
            capitals: false,
            colon_allowed: lacks_first_colon(&s[run.len..]),
        },
    }
}

// Where the first `/`, `?` or `#` is, which ends an authority.
#[tactic(auto, using(crate::proofs::splits::PartEnds::authority_end))]
fn authority_end(bytes: &[u8]) -> Option<usize>
    ensures { MatchOption result (EndsAuthority bytes.now (length bytes.now)) (λ k. EndsAuthority bytes.now k) }
{
    memchr3(b'/', b'?', b'#', bytes)
}

// Whether an authority ends at the start.
#[inline(always)]
fn ends_at_start(bytes: &[u8]) -> bool
    ensures { result ≡ ends_at_start bytes.now }
{
    match bytes {
        [b, ..] => ends_authority(*b),
        [] => true,
    }
}

// The authority, where there is one, what follows it, and what was noted of it.
#[derive(Clone, Copy)]
struct AuthorityCut<'a> {
    authority: Option<&'a str>,
    rest: &'a [u8],
    capitals: bool,
    other: bool,
}

// How many bytes come before the end of an authority.
fn authority_len(s: &[u8]) -> usize
    ensures { EndsAuthority s.now result }
{
    match authority_end(s) {
        Some(i) => i,
        None => s.len(),
    }
}

// What comes before the end of an authority, and the rest from it on. `None` where the first is no text.
#[inline(never)]
fn text_before_end(s: &[u8]) -> Option<(&str, &[u8])>
    ensures { MatchOption result (is_utf8 s.now ≡ false) (λ r. (r.0.now ≡ before_any ends_authority s.now)
        × (r.1.now ≡ from_any ends_authority s.now) × (is_utf8 s.now ≡ is_utf8 r.1.now)) }
{
    let end = authority_len(s);
    match str::from_utf8(&s[..end]) {
        Ok(prefix) => Some((prefix, &s[end..])),
        Err(_) => None,
    }
}

// What comes before the end of an authority, the rest from it on, and what was noted of the first.
#[inline(always)]
fn cut_before_end(s: &[u8]) -> Option<AuthorityCut<'_>>
    ensures { MatchOption result (is_utf8 s.now ≡ false)
        (λ r. (now_of r.authority ≡ Some (before_any ends_authority s.now))
        × (r.rest.now ≡ from_any ends_authority s.now) × KeepsAuthorityNotes r × (is_utf8 s.now ≡ is_utf8 r.rest.now)) }
{
    // Most are a name and perhaps a port: one look, and no search for the end.
    let plain = cut_plain(s);
    if ends_at_start(plain.rest) {
        return Some(AuthorityCut {
            authority: Some(plain.authority),
            rest: plain.rest,
            capitals: plain.capitals,
            other: false,
        });
    }
    let (prefix, rest) = text_before_end(s)?;
    Some(AuthorityCut {
        authority: Some(prefix),
        rest,
        capitals: true,
        other: true,
    })
}

// What follows two slashes at the start.
#[inline(always)]
fn after_slashes(s: &[u8]) -> Option<&[u8]>
    ensures { MatchOption result (starts_with_slashes s.now ≡ false) (λ r. s.now ≡ slash ∷ slash ∷ r.now) }
{
    match s {
        [b'/', b'/', rest @ ..] => Some(rest),
        _ => None,
    }
}

// The authority, where there is one, and what follows it, or all. `None` where it is no text.
#[inline(always)]
fn cut_authority(s: &[u8]) -> Option<AuthorityCut<'_>>
    ensures { MatchOption result (is_utf8 s.now ≡ false) (λ r. (now_of r.authority ≡ authority_of (hier_of s.now))
        × IsPastAuthority s.now r.rest.now × KeepsAuthorityNotes r × (is_utf8 s.now ≡ is_utf8 r.rest.now)) }
{
    match after_slashes(s) {
        Some(rest) => cut_before_end(rest),
        None => Some(AuthorityCut {
            authority: None,
            rest: s,
            capitals: false,
            other: false,
        }),
    }
}

impl<'a> Splitter<'a> {
    ghost use Rattle.iri_grammar.specs.Splitters.{parts};

    /// The split of a text that is a reference of `S`: the same as `validate::iri_reference` and `of`, in one scan of
    /// the text.
    ///
    /// # Errors
    ///
    /// Exactly where the text is none: the first fault from the left.
    #[inline(always)]
    pub fn new<S: Spec>(text: &'a str) -> Result<Splitter<'a>, Error>
        ensures fault { Answers result (reference_fault S.tests text.now) }
        ensures value { IfOk result (λ p. parts p ≡ split_of text.now) }
    {
        Splitter::from_bytes::<S>(text.as_bytes())
    }

    /// The split of bytes that are the UTF-8 of a reference of `S`, in one scan of them.
    ///
    /// # Errors
    ///
    /// - `InvalidUtf8` where the bytes aren't UTF-8, which is tested first.
    /// - Otherwise the first fault of the text, exactly where it is no reference.
    #[tactic(auto, unfolding(crate::specs::Split::split_of))]
    #[inline(always)]
    pub fn from_bytes<S: Spec>(bytes: &'a [u8]) -> Result<Splitter<'a>, Error>
        ensures fault { Answers result (bytes_fault (reference_fault S.tests) bytes.now) }
        ensures value { IfOk result (λ p. parts p ≡ split_of bytes.now) }
    {
        Splitter::after::<S>(cut_scheme(bytes))
    }

    /// The split of a text that is an absolute URI of `S`: the same as `validate::absolute_iri` and `of`, in one scan of
    /// the text.
    ///
    /// # Errors
    ///
    /// Exactly where the text is none: the first fault from the left.
    #[tactic(auto, unfolding(crate::specs::WholeFault::parts_fault))]
    pub fn absolute<S: Spec>(text: &'a str) -> Result<Splitter<'a>, Error>
        ensures fault { Answers result (absolute_fault S.tests text.now) }
        ensures value { IfOk result (λ p. parts p ≡ split_of text.now) }
    {
        let cut = Splitter::new::<S>(text);
        scheme_in_place::<S>(&cut, text)?;
        without_fragment(cut)
    }

    // The split of a relative reference of `S`.
    #[tactic(auto, unfolding(crate::specs::Split::relative_split_of))]
    pub(crate) fn relative<S: Spec>(text: &'a str) -> Result<Splitter<'a>, Error>
        ensures fault { Answers result (relative_fault S.tests text.now) }
        ensures value { IfOk result (λ p. parts p ≡ relative_split_of text.now) }
    {
        let bytes = text.as_bytes();
        Splitter::after::<S>(SchemeCut {
            scheme: None,
            rest: bytes,
            capitals: false,
            colon_allowed: lacks_first_colon(bytes),
        })
    }

    /// The split of a reference of `S`. It has a condition: the text is one, which `validate::iri_reference` tests.
    pub fn of<S: Spec>(text: &'a str) -> Splitter<'a>
        requires { reference_fault S.tests text.now ≡ None }
        ensures split { Splits S.tests text.now (parts result) }
        ensures value { parts result ≡ split_of text.now }
    {
        match Splitter::new::<S>(text) {
            Ok(parts) => parts,
            Err(_) => unreachable!(),
        }
    }

    // A scheme, and the parts of what follows it.
    #[inline(always)]
    fn after<S: Spec>(start: SchemeCut<'a>) -> Result<Splitter<'a>, Error>
        requires { KeepsSchemeNotes start }
        ensures fault { Answers result
            (bytes_fault (fault_after S.tests (now_of start.entry.scheme)) start.entry.rest.now) }
        ensures value { IfOk result (λ p. parts p ≡ parts_of (now_of start.entry.scheme) start.entry.rest.now) }
    {
        let cut = match cut_authority(start.rest) {
            Some(cut) => cut,
            None => return Err(Error::new(ErrorKind::InvalidUtf8)),
        };
        let tail = Tail::scan::<S>(cut.rest);
        let judged = authority_and_colon::<S>(cut.authority, cut.other, start.colon_allowed);
        if !tail.rest.is_empty() {
            return Err(stopped(tail.rest, judged, tail.part_left()));
        }
        match judged {
            Ok(()) => Ok(Splitter {
                scheme: start.scheme,
                authority: cut.authority,
                path: tail.path,
                query: tail.query,
                fragment: tail.fragment,
                seen: Seen {
                    path_triplets: tail.path_triplets,
                    query_triplets: tail.query_triplets,
                    fragment_triplets: tail.fragment_triplets,
                    dots: may_have_dots(tail.path.as_bytes()),
                    capitals: start.capitals | cut.capitals,
                    other_authority: cut.other,
                },
            }),
            Err(error) => Err(error),
        }
    }

    /// What the scan noted.
    pub fn seen(&self) -> Seen
        ensures promises { Promises result (parts self.now) }
    {
        self.seen
    }

    /// The scheme, without its `:`; `None` exactly where there is none (RFC 3986 section 3.1).
    pub fn scheme(&self) -> Option<&'a str>
        ensures { now_of result ≡ (parts self.now).scheme }
    {
        self.scheme
    }

    /// The authority, without the `//` before it; `None` exactly where there is none (section 3.2).
    pub fn authority(&self) -> Option<&'a str>
        ensures { now_of result ≡ (parts self.now).authority }
    {
        self.authority
    }

    /// The path, which may be empty (section 3.3).
    pub fn path(&self) -> &'a str
        ensures { result.now ≡ (parts self.now).path }
    {
        self.path
    }

    /// The query, without its `?`; `None` exactly where there is none (section 3.4).
    pub fn query(&self) -> Option<&'a str>
        ensures { now_of result ≡ (parts self.now).query }
    {
        self.query
    }

    /// The fragment, without its `#`; `None` exactly where there is none (section 3.5).
    pub fn fragment(&self) -> Option<&'a str>
        ensures { now_of result ≡ (parts self.now).fragment }
    {
        self.fragment
    }
}
