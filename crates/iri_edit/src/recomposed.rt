// Parts written one after the other (RFC 3986 section 5.3), and the normal form of a text.
ghost use Rattle.std.specs.Prelude.{◌≡◌, [], ◌∷◌, ◌||◌, IfOk, None, string_bytes, unwrap_or};
ghost use Rattle.iri_edit.specs.inside.Rules.{ended, rules_by};
ghost use Rattle.iri_grammar.specs.Authority.{recompose_authority};
ghost use Rattle.iri_grammar.specs.Cut.{delimited};
ghost use Rattle.iri_grammar.specs.Parts.{recompose, starts_with_slash, starts_with_slashes, is_empty};
ghost use Rattle.iri_grammar.specs.Split.{split_of};
ghost use Rattle.iri_grammar.specs.OptionalSlices.{now_of};
ghost use Rattle.iri_grammar.specs.WholeFault.{iri_fault};
ghost use Rattle.iri_normal.specs.NormalForm.{normal_form};
ghost use Rattle.iri_text.specs.Shown.{Shows};

use iri_grammar::cutting::{cut_before, lacks};
use iri_grammar::spec::Spec;
use iri_normal::views::Normalize;
use iri_text::{Stop, TextSink, ToStringFallible};
use iri_types::view::RiStr;
use std::alloc::{AllocError, Global};

// A part and the delimiter after it, where there is one.
pub(crate) fn show_ended<W: TextSink>(
    sink: &mut W,
    part: Option<&str>,
    delimiter: &str,
    code: u8,
) -> Result<(), Stop>
    requires { delimiter.now ≡ code ∷ [] }
    ensures { Shows W.puts W.halts W.stops sink.old (ended code (now_of part.entry)) sink.new result }
{
    let Some(part) = part else {
        return Ok(());
    };
    sink.put(part)?;
    sink.put(delimiter)
}

// A delimiter and the part after it, where there is one.
pub(crate) fn show_delimited<W: TextSink>(
    sink: &mut W,
    delimiter: &str,
    code: u8,
    part: Option<&str>,
) -> Result<(), Stop>
    requires { delimiter.now ≡ code ∷ [] }
    ensures { Shows W.puts W.halts W.stops sink.old (delimited code (now_of part.entry)) sink.new result }
{
    let Some(part) = part else {
        return Ok(());
    };
    sink.put(delimiter)?;
    sink.put(part)
}

// A part that may be absent, or the empty text.
pub(crate) fn or_nothing(part: Option<&str>) -> &str
    ensures { result.now ≡ unwrap_or (now_of part.entry) [] }
{
    match part {
        Some(part) => part,
        None => "",
    }
}

fn begins_with_slash(path: &str) -> bool
    ensures { result ≡ starts_with_slash path.now }
{
    match path.as_bytes().first() {
        Some(b) => *b == b'/',
        None => false,
    }
}

fn begins_with_slashes(path: &str) -> bool
    ensures { result ≡ starts_with_slashes path.now }
{
    match path.as_bytes().split_first() {
        Some((b, rest)) => *b == b'/' && rest.first() == Some(&b'/'),
        None => false,
    }
}

// Whether a path keeps the rules of its place.
pub(crate) fn keeps_rules(scheme: bool, authority: bool, path: &str) -> bool
    ensures { result ≡ rules_by scheme authority path.now }
{
    if authority {
        path.is_empty() || begins_with_slash(path)
    } else {
        !begins_with_slashes(path) && (scheme || lacks(cut_before(path, b'/').0, b':'))
    }
}

// The normal form of a URI.
pub(crate) fn normal_text<S: Spec>(alloc: Global, text: &str) -> Result<String, AllocError>
    requires { iri_fault S.tests text.now ≡ None }
    ensures { IfOk result (λ normal. string_bytes normal ≡ recompose (normal_form S.tests (split_of text.now))) }
{
    RiStr::<'_, S>::from_valid(text)
        .normalize()
        .try_to_string(alloc)
}
