// What scheme rules may change (RFC 3986 section 6.2.3).
ghost use Rattle.std.specs.Prelude.{◌≡◌, ◌<◌, ◌≤◌, false, true};
ghost use Rattle.iri_grammar.specs.OptionalSlices.{now_of};
ghost use Rattle.iri_grammar.specs.Parts.{is_empty};
ghost use Rattle.iri_grammar.specs.Split.{split_of};
ghost use Rattle.iri_types.specs.SplitText.{split_text};
ghost use Rattle.iri_normal.specs.inside.SchemeRules.{colon_before_end, ends_in_port};

use iri_grammar::spec::Spec;
use iri_types::kind::Absolute;
use iri_types::split::SplitView;

// Whether a colon stands so many bytes before the end.
fn has_colon_before_end(text: &[u8], count: usize) -> bool
    requires { 0 < count }
    ensures { result ≡ colon_before_end count text.now }
{
    let len = text.len();
    len >= count && text[len - count] == b':'
}

// Whether two or three bytes after a colon end an authority, as many as a scheme's default port has.
fn may_end_in_port(authority: Option<&str>) -> bool
    ensures { result ≡ ends_in_port (now_of authority.entry) }
{
    let Some(authority) = authority else {
        return false;
    };
    let bytes = authority.as_bytes();
    has_colon_before_end(bytes, 3) || has_colon_before_end(bytes, 4)
}

// Whether no such port ends an authority, and no empty path stands beside it.
pub(crate) fn stays_by_scheme(authority: Option<&str>, path: &str) -> bool
    ensures { result ≡ true → (ends_in_port (now_of authority.entry) ≡ false) × (is_empty path.now ≡ false) }
{
    !path.is_empty() && !may_end_in_port(authority)
}

// Whether no such port ends the authority of a base.
pub(crate) fn keeps_port<S: Spec>(base: &SplitView<'_, S, Absolute>) -> bool
    ensures { result ≡ true → ends_in_port (split_of (split_text base.now)).authority ≡ false }
{
    !may_end_in_port(base.parts().authority())
}
