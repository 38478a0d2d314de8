// Code that knows nothing of a type but its trait still knows which text is shown: by the trait's clauses and its law `shows`.
ghost use Rattle.std.specs.Prelude.{◌≡◌, ◌↔◌, IfOk, false, true, string_bytes};
ghost use Rattle.iri_grammar.specs.Split.{split_of};
ghost use Rattle.iri_normal.specs.NormalForm.{IsInMode};
ghost use Rattle.iri_normal.specs.Normalized.{written_text};
ghost use Rattle.iri_normal.specs.Target.{takes_base_path, target};
ghost use Rattle.iri_normal.specs.declared.mode.Mode.TheVariants.{Normal, Plain};

use crate::normalized::{base, iri, reference};
use crate::same::same;
use iri_grammar::spec::{IriSpec, UriSpec};
use iri_resolve::is_normalized::IsNormalized;
use iri_resolve::views::{Normalize, ResolveAgainst};
use iri_text::ToStringFallible;
use iri_types::view::RiRelativeStr;
use std::alloc::{AllocError, Global};
use std::test::Fail;

// The normal form of a value, as a string.
fn normal_text<T: Normalize>(alloc: Global, value: T) -> Result<String, AllocError>
where
    T::Text: Drop,
    ensures { IfOk result (λ s. string_bytes s ≡ written_text T.tests
        (record { parts = split_of (T.text value); whole = false; mode = Normal })) }
{
    value.normalize().try_to_string(alloc)
}

// A value resolved against a base, as a string.
fn resolved_text<T: ResolveAgainst>(
    alloc: Global,
    value: T,
    base: T::Base,
) -> Result<String, AllocError>
where
    T::Text: Drop,
    ensures { IfOk result (λ s. string_bytes s ≡ written_text T.tests (record {
      parts = target (split_of (T.Base.text base)) (split_of (T.text value));
      whole = takes_base_path (split_of (T.text value));
      mode = Plain;
    })) }
{
    value.resolve_against(base).try_to_string(alloc)
}

// Whether a value is in normal form.
fn is_normal<T: IsNormalized>(value: T) -> bool
    ensures { (result ≡ true) ↔ IsInMode T.tests Normal (T.text value) }
{
    value.is_normalized()
}

// RFC 3986 section 6.2.2.
#[test]
fn normal_texts(rt: HostRuntime) -> Result<(), Fail> {
    let view = iri::<UriSpec>("eXAMPLE://a/./b/../b/%63/%7bfoo%7d")?;
    let text = normal_text(rt.alloc(), view)?;
    same(&rt, text.as_str(), "example://a/b/c/%7Bfoo%7D");
    assert!(rt; !is_normal(view));
    assert!(rt; is_normal(iri::<UriSpec>("example://a/b/c/%7Bfoo%7D")?));
    Ok(())
}

// RFC 3986 section 5.4.
#[test]
fn resolved_texts(rt: HostRuntime) -> Result<(), Fail> {
    let base = base::<IriSpec>("http://a/b/c/d;p?q")?;
    let text = resolved_text(rt.alloc(), reference("../g")?, base)?;
    same(&rt, text.as_str(), "http://a/b/g");
    let Ok(view) = RiRelativeStr::<IriSpec>::new("g;x=1/../y") else {
        return Err("a valid reference is refused")?;
    };
    let text = resolved_text(rt.alloc(), view, base)?;
    same(&rt, text.as_str(), "http://a/b/c/y");
    Ok(())
}
