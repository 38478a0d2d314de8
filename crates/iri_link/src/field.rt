// Field values that are checked, and shown without being kept.
ghost use Rattle.std.specs.Prelude.{◌≡◌, None, Some, map, MatchResult};
ghost use Rattle.iri_text.specs.Shown.{Shows};
ghost use Rattle.iri_normal.specs.Resolver.{base_text};
ghost use Rattle.iri_link.specs.Fault.{fault_from, field_fault, place_in};
ghost use Rattle.iri_link.specs.LaxReadings.{lax_links_in};
ghost use Rattle.iri_link.specs.Phases.{before_link};
ghost use Rattle.iri_link.specs.Readings.{links_in};
ghost use Rattle.iri_link.specs.Resolved.{resolved, resolved_in};
ghost use Rattle.iri_link.specs.Written.{written};

use crate::error::LinkKind;
use crate::fault::check_text;
use crate::shown_text::show_text;
use iri_grammar::spec::Spec;
use iri_normal::mode::CanonMode;
use iri_normal::resolver::FixedBaseResolver;
use iri_text::{Stop, TextSink};

// A text that is a field value whose targets are URI-references; or its first fault, and the place of that.
fn check_valid<S: Spec>(text: &str) -> Result<&str, (LinkKind, usize)>
    ensures { MatchResult result (λ t. (t.now ≡ text.now) × (fault_from S.tests before_link text.now ≡ None))
        (λ e. place_in text.now (fault_from S.tests before_link text.now) ≡ Some (record { kind = e.0; place = e.1 })) }
{
    match check_text::<S>(text) {
        Ok(()) => Ok(text),
        Err((kind, rest)) => {
            let place = text.len().saturating_sub(rest.len());
            Err((kind, place))
        }
    }
}

/// The text of a field value whose targets are URI-references of `S` (RFC 8288 section 3). It allocates nothing:
/// [`show_links_against`] shows its links, however many they are and however long the base.
///
/// # Errors
///
/// Exactly where the bytes aren't UTF-8 or have no link-values whose targets are URI-references: the first fault from the
/// left, and its place in bytes.
///
/// ```
/// use iri::format::SliceSink;
/// use iri::link::{LinkKind, check_field, show_links_against};
/// use iri::resolve::FixedBaseResolver;
/// use iri::spec::UriSpec;
/// use iri::types::UriAbsoluteStr;
/// let page = FixedBaseResolver::new(UriAbsoluteStr::new("http://example.com/TheBook/chapter3")?);
/// let mut buffer = [0; 64];
/// let mut sink = SliceSink::new(&mut buffer);
/// if let Ok(field) = check_field::<UriSpec>(b"<chapter2>;REL=prev") {
///     assert!(rt; show_links_against(&mut sink, &page, field).is_ok());
/// }
/// assert_eq!(rt; sink.as_str(), "<http://example.com/TheBook/chapter2>; rel=\"prev\"");
/// assert!(rt; matches!(check_field::<UriSpec>(b"<a"), Err((LinkKind::OpenTarget, 0))));
/// ```
pub fn check_field<S: Spec>(field: &[u8]) -> Result<&str, (LinkKind, usize)>
    ensures { MatchResult result (λ t. (t.now ≡ field.now) × (field_fault S.tests field.now ≡ None))
        (λ e. field_fault S.tests field.now ≡ Some (record { kind = e.0; place = e.1 })) }
{
    match str::from_utf8(field) {
        Ok(text) => check_valid::<S>(text),
        Err(error) => Err((LinkKind::NotUtf8, error.valid_up_to())),
    }
}

/// Shows the link-values of a field value in their written form, each with its target's canonical text against a
/// resolver's base (RFC 3986 sections 5.2 and 6.2.2). It allocates nothing. It has a condition: the field has no fault,
/// which [`check_field`] tests.
///
/// # Errors
///
/// Only where the sink's count of stops rises; the sink has stopped within the written form then.
pub fn show_links_against<S: Spec, W: TextSink>(
    sink: &mut W,
    resolver: &FixedBaseResolver<'_, S>,
    field: &str,
) -> Result<(), Stop>
    requires { field_fault S.tests field.now ≡ None }
    ensures { Shows W.puts W.halts W.stops sink.old
        (written (map (resolved S.tests (base_text resolver.now)) (links_in field.now))) sink.new result }
{
    show_links_against_in(sink, CanonMode::Default, resolver, field)
}

/// The same by the rules of a mode (RFC 3986 section 6.2.3). It allocates nothing, and has the same condition.
///
/// # Errors
///
/// As [`show_links_against`]: only where the sink's count of stops rises.
///
/// ```
/// use iri::format::SliceSink;
/// use iri::link::{check_field, show_links_against_in};
/// use iri::normalize::CanonMode;
/// use iri::resolve::FixedBaseResolver;
/// use iri::spec::UriSpec;
/// use iri::types::UriAbsoluteStr;
/// let page = FixedBaseResolver::new(UriAbsoluteStr::new("http://example.com/TheBook/chapter3")?);
/// let mut buffer = [0; 64];
/// let mut sink = SliceSink::new(&mut buffer);
/// if let Ok(field) = check_field::<UriSpec>(b"<//example.com:80>; rel=start") {
///     assert!(rt; show_links_against_in(&mut sink, CanonMode::Scheme, &page, field).is_ok());
/// }
/// assert_eq!(rt; sink.as_str(), "<http://example.com/>; rel=\"start\"");
/// ```
pub fn show_links_against_in<S: Spec, W: TextSink>(
    sink: &mut W,
    mode: CanonMode,
    resolver: &FixedBaseResolver<'_, S>,
    field: &str,
) -> Result<(), Stop>
    requires { field_fault S.tests field.now ≡ None }
    ensures { Shows W.puts W.halts W.stops sink.old
        (written (map (resolved_in S.tests mode (base_text resolver.now)) (links_in field.now))) sink.new result }
{
    show_lax_links_against_in(sink, mode, resolver, field)
}

/// Shows the link-values of a text in their written form as [`show_links_against_in`] does, read laxly (RFC 8288 appendix
/// B.2 to B.4): a value that is no quoted string goes up to a `;` or `,`, blanks at its end aside, and a quoted string
/// that isn't closed to the end; a parameter that can't be written is left out; and what is no link-value, a link-value
/// whose target is no URI-reference, and what stands after one and is no parameter, up to a comma outside quotes, are
/// passed over. It allocates nothing. What has no fault is shown alike (a law).
///
/// # Errors
///
/// Only where the sink's count of stops rises; the sink has stopped within the written form then.
///
/// ```
/// use iri::format::SliceSink;
/// use iri::link::show_lax_links_against_in;
/// use iri::normalize::CanonMode;
/// use iri::resolve::FixedBaseResolver;
/// use iri::types::UriAbsoluteStr;
/// let page = FixedBaseResolver::new(UriAbsoluteStr::new("http://example.com/")?);
/// let mut buffer = [0; 64];
/// let mut sink = SliceSink::new(&mut buffer);
/// let field = "</a.woff2>; type=font/woff2, bar, <%>; rel=x";
/// assert!(rt; show_lax_links_against_in(&mut sink, CanonMode::Default, &page, field).is_ok());
/// assert_eq!(rt; sink.as_str(), "<http://example.com/a.woff2>; type=\"font/woff2\"");
/// ```
pub fn show_lax_links_against_in<S: Spec, W: TextSink>(
    sink: &mut W,
    mode: CanonMode,
    resolver: &FixedBaseResolver<'_, S>,
    field: &str,
) -> Result<(), Stop>
    ensures { Shows W.puts W.halts W.stops sink.old
        (written (map (resolved_in S.tests mode (base_text resolver.now)) (lax_links_in S.tests field.now))) sink.new result }
{
    show_text(sink, mode, resolver, field)
}
