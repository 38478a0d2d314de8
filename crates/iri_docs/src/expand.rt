//! The canonical texts of documents.
ghost use Rattle.std.specs.Prelude.{◌≡◌, IfOk, string_bytes};
ghost use Rattle.iri_percent.specs.declared.canon_mode.CanonMode.TheVariants.{Default};
ghost use Rattle.iri_normal.specs.Resolver.{base_text};
ghost use Rattle.iri_types.specs.Texts.{text as text_of};
ghost use Rattle.iri_template.specs.Contexts.{value_in};
ghost use Rattle.iri_docs.specs.Answered.{AnswersBut, TellsFault};
ghost use Rattle.iri_docs.specs.Expanded.{canonical_or_fault, expansion_within, expanded, IsExpanded};
ghost use Rattle.iri_docs.specs.Held.{held};

use crate::document::Document;
use crate::expand_error::DocExpandError;
use iri_grammar::spec::Spec;
use iri_normal::mode::CanonMode;
use iri_normal::resolver::FixedBaseResolver;
use iri_owned::owned::RiString;
use iri_template::expanded::Expanded;
use iri_template::simple_context::SimpleContext;
use iri_text::LARGEST_LINE_LIMIT;
use iri_types::kind::Reference;
use iri_types::split::SplitView;
use iri_types::view::RiAbsoluteStr;
use std::alloc::Global;

/// How many bytes an expansion may have.
pub const EXPANSION_LIMIT: usize = LARGEST_LINE_LIMIT;

// The expansion of a template, which is within the limit.
fn expand<S: Spec>(
    alloc: Global,
    template: &str,
    context: &SimpleContext,
) -> Result<String, DocExpandError>
    ensures answer { AnswersBut DocExpandError.Memory string_bytes result
        (expansion_within S.tests (value_in context.now) template.now) }
    ensures fault { TellsFault result (expansion_within S.tests (value_in context.now) template.now) }
{
    match Expanded::<'_, S, SimpleContext>::try_from_bytes(template.as_bytes(), context) {
        Ok(expanded) => match expanded.try_into_text_within(alloc, EXPANSION_LIMIT) {
            Ok(Some(text)) => Ok(text),
            Ok(None) => Err(DocExpandError::TooLong),
            Err(_) => Err(DocExpandError::Memory),
        },
        Err(error) => Err(DocExpandError::Template(error)),
    }
}

// The canonical text of a text by the rules of a mode.
fn canonicalize<S: Spec>(
    alloc: Global,
    mode: CanonMode,
    resolver: &FixedBaseResolver<'_, S>,
    text: &str,
) -> Result<RiString<S>, DocExpandError>
    ensures { AnswersBut DocExpandError.Memory (λ t. t.text) result
        (canonical_or_fault S.tests mode (base_text resolver.now) text.now) }
{
    match SplitView::<S, Reference>::new(text) {
        Ok(reference) => {
            let mut canonical = String::new(alloc);
            match resolver.canonical_into_in(&mut canonical, mode, &reference) {
                Ok(()) => Ok(RiString::from_valid(canonical)),
                Err(_) => Err(DocExpandError::Memory),
            }
        }
        Err(error) => Err(DocExpandError::Invalid(error)),
    }
}

/// The canonical text (RFC 3986 sections 5.2 and 6.2.2) of the expansion of a document's template with its values (RFC
/// 6570 section 3), against a base. `S` is the spec of the expansion and of the base.
///
/// # Errors
///
/// The first of these:
///
/// - `Template` where the text is no template, or a varspec with a length has a list or an associative array that isn't
///   empty.
/// - `TooLong` where the expansion has more than [`EXPANSION_LIMIT`] bytes.
/// - `Invalid` where it is no reference.
/// - `Memory` where allocation fails, only where the template has no fault and the expansion isn't too long; it says
///   nothing of what that expansion is.
///
/// ```
/// use iri::docs::{expand_document, read_document};
/// use iri::types::UriAbsoluteStr;
/// let page = UriAbsoluteStr::new("http://a/")?;
/// let document = read_document(rt.alloc(), b"{\"template\":\"x{?q}\",\"vars\":{\"q\":7}}")?;
/// assert_eq!(rt; expand_document(rt.alloc(), page, &document)?.as_str(), "http://a/x?q=7");
/// ```
pub fn expand_document<S: Spec>(
    alloc: Global,
    base: RiAbsoluteStr<'_, S>,
    document: &Document,
) -> Result<RiString<S>, DocExpandError>
    ensures expanded { IfOk result (λ t. IsExpanded S.tests Default (text_of base.entry) (held document.now) t.text) }
    ensures answer { AnswersBut DocExpandError.Memory (λ t. t.text) result
        (expanded S.tests Default (text_of base.entry) (held document.now).value_of (held document.now).template) }
    ensures fault { TellsFault result
        (expansion_within S.tests (held document.now).value_of (held document.now).template) }
{
    expand_document_in(alloc, CanonMode::Default, base, document)
}

/// The same by the rules of a mode.
///
/// # Errors
///
/// Those of [`expand_document`].
///
/// ```
/// use iri::docs::{expand_document_in, read_document};
/// use iri::normalize::CanonMode;
/// use iri::types::UriAbsoluteStr;
/// let page = UriAbsoluteStr::new("http://a/")?;
/// let document = read_document(rt.alloc(), b"{\"template\":\"//h:80\"}")?;
/// let text = expand_document_in(rt.alloc(), CanonMode::Scheme, page, &document)?;
/// assert_eq!(rt; text.as_str(), "http://h/");
/// ```
pub fn expand_document_in<S: Spec>(
    alloc: Global,
    mode: CanonMode,
    base: RiAbsoluteStr<'_, S>,
    document: &Document,
) -> Result<RiString<S>, DocExpandError>
    ensures expanded { IfOk result (λ t. IsExpanded S.tests mode (text_of base.entry) (held document.now) t.text) }
    ensures answer { AnswersBut DocExpandError.Memory (λ t. t.text) result
        (expanded S.tests mode (text_of base.entry) (held document.now).value_of (held document.now).template) }
    ensures fault { TellsFault result
        (expansion_within S.tests (held document.now).value_of (held document.now).template) }
{
    expand_document_against_in(alloc, mode, &FixedBaseResolver::new(base), document)
}

/// The canonical text of the expansion of a document's template with its values, as [`expand_document`] has it, against
/// the base of a resolver, which a program that expands many documents prepares once.
///
/// # Errors
///
/// Those of [`expand_document`].
///
/// ```
/// use iri::docs::{expand_document_against, read_document};
/// use iri::resolve::FixedBaseResolver;
/// use iri::types::UriAbsoluteStr;
/// let page = FixedBaseResolver::new(UriAbsoluteStr::new("http://a/")?);
/// for (line, text) in [("{\"template\":\"x\"}", "http://a/x"), ("{\"template\":\"%79\"}", "http://a/y")] {
///     let document = read_document(rt.alloc(), line.as_bytes())?;
///     assert_eq!(rt; expand_document_against(rt.alloc(), &page, &document)?.as_str(), text);
/// }
/// ```
pub fn expand_document_against<S: Spec>(
    alloc: Global,
    resolver: &FixedBaseResolver<'_, S>,
    document: &Document,
) -> Result<RiString<S>, DocExpandError>
    ensures expanded { IfOk result (λ t. IsExpanded S.tests Default (base_text resolver.now) (held document.now) t.text) }
    ensures answer { AnswersBut DocExpandError.Memory (λ t. t.text) result
        (expanded S.tests Default (base_text resolver.now) (held document.now).value_of (held document.now).template) }
    ensures fault { TellsFault result
        (expansion_within S.tests (held document.now).value_of (held document.now).template) }
{
    expand_document_against_in(alloc, CanonMode::Default, resolver, document)
}

/// The same by the rules of a mode.
///
/// # Errors
///
/// Those of [`expand_document`].
///
/// ```
/// use iri::docs::{expand_document_against_in, read_document};
/// use iri::normalize::CanonMode;
/// use iri::resolve::FixedBaseResolver;
/// use iri::types::UriAbsoluteStr;
/// let page = FixedBaseResolver::new(UriAbsoluteStr::new("ftp://a:21")?);
/// let document = read_document(rt.alloc(), b"{\"template\":\"?x\"}")?;
/// let text = expand_document_against_in(rt.alloc(), CanonMode::Scheme, &page, &document)?;
/// assert_eq!(rt; text.as_str(), "ftp://a/?x");
/// ```
pub fn expand_document_against_in<S: Spec>(
    alloc: Global,
    mode: CanonMode,
    resolver: &FixedBaseResolver<'_, S>,
    document: &Document,
) -> Result<RiString<S>, DocExpandError>
    ensures expanded { IfOk result (λ t. IsExpanded S.tests mode (base_text resolver.now) (held document.now) t.text) }
    ensures answer { AnswersBut DocExpandError.Memory (λ t. t.text) result
        (expanded S.tests mode (base_text resolver.now) (held document.now).value_of (held document.now).template) }
    ensures fault { TellsFault result
        (expansion_within S.tests (held document.now).value_of (held document.now).template) }
{
    match expand::<S>(alloc, document.template(), document.context()) {
        Ok(text) => canonicalize::<S>(alloc, mode, resolver, text.as_str()),
        Err(error) => Err(error),
    }
}
