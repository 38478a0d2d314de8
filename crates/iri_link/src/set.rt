// The link-values of a field value.
ghost use Rattle.std.specs.Prelude.{◌≡◌, None, MatchResult};
ghost use Rattle.iri_normal.specs.Resolver.{base_text};
ghost use Rattle.iri_types.specs.Texts.{text};
ghost use Rattle.iri_link.specs.Fault.{field_fault};
ghost use Rattle.iri_link.specs.Refusals.{RefusedBy};
ghost use Rattle.iri_link.specs.Resolved.{IsRead, IsReadIn};

use crate::error::LinkError;
use crate::field::check_field;
use crate::link::{Link, read_text};
use crate::param::Param;
use crate::written::show_links;
use iri_grammar::spec::Spec;
use iri_normal::mode::CanonMode;
use iri_normal::resolver::FixedBaseResolver;
use iri_text::{FormatSink, Show, Stop, TextSink};
use iri_types::view::RiAbsoluteStr;
use std::alloc::Global;
use std::fmt;
use std::marker::{Model, PhantomData};

/// The link-values of a field value, in their order (RFC 8288 section 3). Each has a target, in canonical form, and
/// parameters, each of which has a name in lower case and may have a value. It is seen as their list.
///
/// ```
/// use iri::link::read_links;
/// use iri::types::UriAbsoluteStr;
/// let page = UriAbsoluteStr::new("http://example.com/")?;
/// let field = b"</TheBook/chapter2>; rel=\"previous\", </TheBook/chapter4>; rel=\"next\"";
/// let links = read_links(rt.alloc(), page, field)?;
/// assert_eq!(rt; links.len(), 2);
/// assert_eq!(rt; links.target(1), Some("http://example.com/TheBook/chapter4"));
/// assert_eq!(rt; links.param_value(1, 0), Some("next"));
/// ```
#[derive(Drop)]
#[derive_where(Debug)]
pub struct LinkSet<S: Spec> {
    links: Vec<Link>,
    #[derive_where(skip(Debug))]
    spec: PhantomData<S>,
}

impl<S: Spec> Model for LinkSet<S> {
    ghost use Rattle.std.specs.Prelude.{List};
    ghost use Rattle.iri_link.specs.Field.{LinkValue};
    ghost use Rattle.iri_link.specs.Stored.{links_of};

    ghost Value = { List LinkValue };

    ghost view = { λ t. links_of t.links.items };
}

// The link-values of a text without a fault.
fn read_valid<S: Spec>(
    alloc: Global,
    mode: CanonMode,
    resolver: &FixedBaseResolver<'_, S>,
    field: &str,
) -> Result<LinkSet<S>, LinkError>
    requires { field_fault S.tests field.now ≡ None }
    ensures { MatchResult result (IsReadIn S.tests mode (base_text resolver.now) field.now) (RefusedBy S.tests field.now) }
{
    match read_text(alloc, mode, resolver, field) {
        Ok(links) => Ok(LinkSet {
            links,
            spec: PhantomData,
        }),
        Err(_) => Err(LinkError::Memory),
    }
}

/// The link-values of the value of a `Link` field (RFC 8288 section 3), each with its target's canonical text against a
/// base (RFC 3986 sections 5.2 and 6.2.2).
///
/// # Errors
///
/// - `Fault` exactly where the bytes aren't UTF-8 or have no link-values whose targets are URI-references of `S`: the
///   first fault from the left, and its place in bytes.
/// - `Memory` where allocation fails, only where the bytes have no fault, and have a link-value.
///
/// ```
/// use iri::link::read_links;
/// use iri::types::UriAbsoluteStr;
/// let page = UriAbsoluteStr::new("http://example.com/TheBook/chapter3")?;
/// let field = b"<chapter2>; rel=\"previous\"; title=\"previous chapter\"";
/// let links = read_links(rt.alloc(), page, field)?;
/// assert_eq!(rt; links.len(), 1);
/// assert_eq!(rt; links.target(0), Some("http://example.com/TheBook/chapter2"));
/// assert_eq!(rt; links.param_name(0, 1), Some("title"));
/// assert_eq!(rt; links.param_value(0, 1), Some("previous chapter"));
/// ```
pub fn read_links<S: Spec>(
    alloc: Global,
    base: RiAbsoluteStr<'_, S>,
    field: &[u8],
) -> Result<LinkSet<S>, LinkError>
    ensures { MatchResult result (IsRead S.tests (text base.entry) field.now) (RefusedBy S.tests field.now) }
{
    read_links_in(alloc, CanonMode::Default, base, field)
}

/// The same by the rules of a mode (RFC 3986 section 6.2.3).
///
/// # Errors
///
/// Those of [`read_links`].
///
/// ```
/// use iri::link::read_links_in;
/// use iri::normalize::CanonMode;
/// use iri::types::UriAbsoluteStr;
/// let page = UriAbsoluteStr::new("http://example.com/TheBook/chapter3")?;
/// let links = read_links_in(rt.alloc(), CanonMode::Scheme, page, b"<//example.com:80>; rel=start")?;
/// assert_eq!(rt; links.target(0), Some("http://example.com/"));
/// ```
pub fn read_links_in<S: Spec>(
    alloc: Global,
    mode: CanonMode,
    base: RiAbsoluteStr<'_, S>,
    field: &[u8],
) -> Result<LinkSet<S>, LinkError>
    ensures { MatchResult result (IsReadIn S.tests mode (text base.entry) field.now) (RefusedBy S.tests field.now) }
{
    read_links_against_in(alloc, mode, &FixedBaseResolver::new(base), field)
}

/// The same against a resolver's base, which a program that reads many field values prepares once.
///
/// # Errors
///
/// Those of [`read_links`].
///
/// ```
/// use iri::link::read_links_against;
/// use iri::resolve::FixedBaseResolver;
/// use iri::types::UriAbsoluteStr;
/// let page = FixedBaseResolver::new(UriAbsoluteStr::new("http://example.com/TheBook/chapter3")?);
/// for (field, target) in [("<chapter2>", "http://example.com/TheBook/chapter2"), ("</>", "http://example.com/")] {
///     let links = read_links_against(rt.alloc(), &page, field.as_bytes())?;
///     assert_eq!(rt; links.target(0), Some(target));
/// }
/// ```
pub fn read_links_against<S: Spec>(
    alloc: Global,
    resolver: &FixedBaseResolver<'_, S>,
    field: &[u8],
) -> Result<LinkSet<S>, LinkError>
    ensures { MatchResult result (IsRead S.tests (base_text resolver.now) field.now) (RefusedBy S.tests field.now) }
{
    read_links_against_in(alloc, CanonMode::Default, resolver, field)
}

/// The same against a resolver's base, by the rules of a mode.
///
/// # Errors
///
/// Those of [`read_links`].
///
/// ```
/// use iri::link::read_links_against_in;
/// use iri::normalize::CanonMode;
/// use iri::resolve::FixedBaseResolver;
/// use iri::types::UriAbsoluteStr;
/// let page = FixedBaseResolver::new(UriAbsoluteStr::new("http://example.com/TheBook/chapter3")?);
/// let links = read_links_against_in(rt.alloc(), CanonMode::Scheme, &page, b"<//example.com:80>; rel=start")?;
/// assert_eq!(rt; links.target(0), Some("http://example.com/"));
/// ```
pub fn read_links_against_in<S: Spec>(
    alloc: Global,
    mode: CanonMode,
    resolver: &FixedBaseResolver<'_, S>,
    field: &[u8],
) -> Result<LinkSet<S>, LinkError>
    ensures { MatchResult result (IsReadIn S.tests mode (base_text resolver.now) field.now) (RefusedBy S.tests field.now) }
{
    match check_field::<S>(field) {
        Ok(text) => read_valid(alloc, mode, resolver, text),
        Err((kind, place)) => Err(LinkError::Fault(kind, place)),
    }
}

impl<S: Spec> LinkSet<S> {
    ghost use Rattle.std.specs.Prelude.{length, map};
    ghost use Rattle.iri_grammar.specs.OptionalSlices.{now_of};
    ghost use Rattle.iri_link.specs.At.{target_at, params_at, name_at, value_at};
    ghost use Rattle.iri_link.specs.Stored.{param_of};

    /// How many link-values there are.
    pub fn len(&self) -> usize
        ensures { result ≡ length self.now }
    {
        self.links.len()
    }

    /// The target of the link-value at `i`, from 0: `None` exactly where there are no more than `i`.
    pub fn target(&self, i: usize) -> Option<&str>
        ensures { now_of result ≡ target_at self.now i }
    {
        match self.links.get(i) {
            Some(link) => Some(link.target.as_str()),
            None => None,
        }
    }

    // The parameters of the link-value at `i`; none where there are no more than `i`.
    fn params(&self, i: usize) -> &[Param]
        ensures { map param_of result.now ≡ params_at self.now i }
    {
        match self.links.get(i) {
            Some(link) => link.params.as_slice(),
            None => &[],
        }
    }

    /// How many parameters the link-value at `i` has: 0 where there are no more than `i`.
    pub fn param_count(&self, i: usize) -> usize
        ensures { result ≡ length (params_at self.now i) }
    {
        self.params(i).len()
    }

    /// The name of the parameter at `j` of the link-value at `i`, both from 0, in lower case: `None` exactly where
    /// there are no more than `i` or `j`.
    pub fn param_name(&self, i: usize, j: usize) -> Option<&str>
        ensures { now_of result ≡ name_at self.now i j }
    {
        match self.params(i).get(j) {
            Some(param) => Some(param.name.as_str()),
            None => None,
        }
    }

    /// The value of the parameter at `j` of the link-value at `i`, both from 0: `None` exactly where there are no more
    /// than `i` or `j`, or the parameter has none.
    pub fn param_value(&self, i: usize, j: usize) -> Option<&str>
        ensures { now_of result ≡ value_at self.now i j }
    {
        match self.params(i).get(j) {
            Some(param) => param.value.as_deref(),
            None => None,
        }
    }
}

impl<S: Spec> Show for LinkSet<S> {
    ghost use Rattle.iri_link.specs.Written.{written};

    ghost text = { written };

    fn show<W: TextSink>(&self, sink: &mut W) -> Result<(), Stop> {
        show_links(sink, &self.links)
    }
}

impl<S: Spec> fmt::Display for LinkSet<S> {
    ghost use Rattle.std.specs.Prelude.{Some};
    ghost use Rattle.iri_link.specs.Written.{written};

    ghost output = { λ l. Some (written l) };

    ghost styled_output = { λ l _. Some (written l) };

    fn fmt<W: fmt::Write>(&self, f: &mut fmt::Formatter<W>) -> fmt::Result {
        FormatSink::new(f).display(self)
    }
}
