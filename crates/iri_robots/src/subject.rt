// What of a reference is matched against patterns.
ghost use Rattle.std.specs.Prelude.{◌≡◌, ◌++◌, true, IfOk, MatchOption, OnOk, string_bytes};
ghost use Rattle.iri_grammar.specs.Characters.{number_sign};
ghost use Rattle.iri_grammar.specs.Cut.{before};
ghost use Rattle.iri_grammar.specs.OptionalSlices.{now_of};
ghost use Rattle.iri_grammar.specs.Parts.{starts_with_slash};
ghost use Rattle.iri_grammar.specs.Split.{split_of};
ghost use Rattle.iri_types.specs.SplitText.{split_text};
ghost use Rattle.iri_types.specs.Texts.{text};
ghost use Rattle.iri_robots.specs.Compared.{compared, path_text, query_text, subject};

use crate::compared::push_form;
use iri_grammar::class::Class;
use iri_grammar::cutting::cut_before;
use iri_grammar::over::past_run;
use iri_grammar::spec::Spec;
use iri_text::Text;
use iri_types::kind::Iri;
use iri_types::split::SplitView;
use iri_types::view::RiStr;
use std::alloc::{AllocError, Global};

// Writes a part in the form in which it is compared. One that stays is written at once: so a question of a link takes 150
// instructions fewer (2026-12-01).
fn push_part(form: &mut String, part: &str) -> Result<(), AllocError>
    ensures { OnOk result (string_bytes form.new ≡ string_bytes form.old ++ compared part.now) }
{
    if past_run(Class::Query, part).is_empty() {
        return form.push_str(part);
    }
    push_form(form, part.as_bytes())
}

fn push_path(form: &mut String, path: &str) -> Result<(), AllocError>
    ensures { OnOk result (string_bytes form.new ≡ string_bytes form.old ++ compared (path_text path.now)) }
{
    if path.is_empty() {
        push_part(form, "/")
    } else {
        push_part(form, path)
    }
}

fn push_query(form: &mut String, query: Option<&str>) -> Result<(), AllocError>
    ensures { OnOk result (string_bytes form.new
        ≡ string_bytes form.old ++ compared (query_text (now_of query.entry))) }
{
    match query {
        Some(query) => {
            form.push('?')?;
            push_part(form, query)
        }
        None => Ok(()),
    }
}

/// What of a text from its path on the rules speak of, up to its fragment, where that is written there as it is: it begins with
/// a slash, and each of its characters is an ASCII character of a query. `None` says nothing of the text. It allocates nothing.
///
/// ```
/// use iri::robots::subject_in;
/// assert_eq!(rt; subject_in("/foo?a#b"), Some("/foo?a"));
/// assert_eq!(rt; subject_in("/foo/%7e"), None);
/// ```
pub fn subject_in(text: &str) -> Option<&str>
    ensures { MatchOption result (Unit {0}) (λ s. (starts_with_slash text.now ≡ true)
        × (s.now ≡ compared (before number_sign text.now))) }
{
    if text.is_empty() || text.as_bytes()[0] != b'/' {
        return None;
    }
    let rest = past_run(Class::Query, text);
    if rest.is_empty() {
        return Some(text);
    }
    if rest.as_bytes()[0] != b'#' {
        return None;
    }
    let (subject, _) = cut_before(text, b'#');
    Some(subject)
}

/// What of a target the rules speak of (RFC 9309 section 2.2.2): its path, or `/` where it is empty, and after it `?`
/// and its query, where it has one. The text is mapped to URIs (RFC 3987 section 3.1) and in triplet normal form (RFC
/// 3986 section 6.2.2).
///
/// # Errors
///
/// Where allocation fails.
///
/// ```
/// use iri::robots::subject_of;
/// use iri::types::IriStr;
/// let subject = subject_of(rt.alloc(), IriStr::new("http://example.com/foo/bar/ツ?%7e")?)?;
/// assert_eq!(rt; subject.as_str(), "/foo/bar/%E3%83%84?~");
/// ```
pub fn subject_of<S: Spec>(alloc: Global, target: RiStr<'_, S>) -> Result<Text, AllocError>
    ensures { IfOk result (λ t. t ≡ subject (split_of (text target.entry))) }
{
    subject_of_split(alloc, &SplitView::of(target))
}

/// What of a target the rules speak of, as [`subject_of`], where the target was split into its parts before.
///
/// # Errors
///
/// Those of [`subject_of`].
///
/// ```
/// use iri::robots::subject_of_split;
/// use iri::types::{SplitView, UriStr};
/// let target = SplitView::of(UriStr::new("http://example.com?a#b")?);
/// assert_eq!(rt; subject_of_split(rt.alloc(), &target)?.as_str(), "/?a");
/// ```
#[tactic(auto, using(crate::proofs::Forms::query_form))]
pub fn subject_of_split<S: Spec>(
    alloc: Global,
    target: &SplitView<'_, S, Iri>,
) -> Result<Text, AllocError>
    ensures { IfOk result (λ t. t ≡ subject (split_of (split_text target.now))) }
{
    let parts = target.parts();
    let mut form = String::with_capacity(alloc, target.view().len())?;
    push_path(&mut form, parts.path())?;
    push_query(&mut form, parts.query())?;
    Ok(Text::from_string(form))
}
