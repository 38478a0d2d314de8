//! References against one base (RFC 3986 section 5.2).
ghost use Rattle.std.specs.Prelude.{◌≡◌, ◌++◌, ◌&&◌, ℕ, List, IfOk, IsSome, MatchOption, None, Some, false, true};
ghost use Rattle.iri_grammar.specs.Characters.{percent_sign};
ghost use Rattle.iri_grammar.specs.Components.{if_there};
ghost use Rattle.iri_grammar.specs.Cut.{lacks};
ghost use Rattle.iri_grammar.specs.Parts.{Fits, Parts, is_empty};
ghost use Rattle.iri_grammar.specs.Split.{split_of};
ghost use Rattle.iri_grammar.specs.Splitters.{parts};
ghost use Rattle.iri_grammar.specs.OptionalSlices.{now_of};
ghost use Rattle.iri_types.specs.SplitText.{split_text};
ghost use Rattle.iri_types.specs.Texts.{text, text_of};
ghost use Rattle.iri_normal.specs.Prefix.{IsPrefix, prefix_in};
ghost use Rattle.iri_normal.specs.NormalForm.{canonical, canonical_in};
ghost use Rattle.iri_normal.specs.inside.SchemeRules.{StaysByScheme, ends_in_port};
ghost use Rattle.iri_normal.specs.inside.Unchanged.{EndsCanonical, EndsParts, PutsPath, StandBefore, is_plain_prefix};
ghost use Rattle.iri_normal.specs.Slices.{slices};
ghost use Rattle.iri_normal.specs.Target.{merge_prefix, target, takes_base_path};
ghost use Rattle.std.proofs.Props.{props};
ghost use Rattle.iri_normal.specs.declared.mode.Mode.TheVariants.{Plain};

use crate::directory::Directory;
use crate::mode::{CanonMode, Mode};
use crate::normalized::{Normalized, NormalizedText};
use crate::owned_target::Target;
use crate::prefix::{cut_prefix, normal_prefix};
use crate::scheme_rules::{keeps_port, stays_by_scheme};
use crate::target::{TargetSlices, starts_with_slash, takes_base_path, target};
use crate::unchanged::{Before, keeps_directory, keeps_path, keeps_prefix, keeps_query};
use iri_grammar::spec::Spec;
use iri_grammar::splitter::Splitter;
use iri_types::kind::{Absolute, Reference};
use iri_types::split::SplitView;
use iri_types::view::{RiAbsoluteStr, RiQueryStr, RiReferenceStr};
use std::alloc::{AllocError, Global};

/// A base, against which references are resolved (RFC 3986 section 5.2). It is split into its parts once; whether its
/// scheme and authority are in normal form is found once, and so is the prefix that relative paths come after.
///
/// ```
/// use iri::prelude::ToStringFallible;
/// use iri::resolve::FixedBaseResolver;
/// use iri::types::{UriAbsoluteStr, UriReferenceStr};
/// let page = FixedBaseResolver::new(UriAbsoluteStr::new("http://a/b/c/d;p?q")?);
/// for (link, target) in [("g:h", "g:h"), ("//g", "http://g"), ("?y", "http://a/b/c/d;p?y"), ("../g", "http://a/b/g")] {
///     let resolved = page.resolve(UriReferenceStr::new(link)?);
///     assert_eq!(rt; resolved.try_to_string(rt.alloc())?.as_str(), target);
/// }
/// ```
#[derive_where(Debug)]
pub struct FixedBaseResolver<'a, S: Spec> {
    base: SplitView<'a, S, Absolute>,
    directory: Directory<'a>,
    // Nothing in the directory changes.
    plain: bool,
    prefix: Option<&'a str>,
    // The path stays as it is in normal form, and so does the query.
    path_stays: bool,
    query_stays: bool,
    // No scheme's default port ends the authority.
    keeps_port: bool,
    pub ghost prepared: { (directory.text.now ≡ merge_prefix (split_of (split_text base)))
        × IsPrefix S.tests (split_of (split_text base)) (now_of prefix)
        × (plain ≡ true → is_plain_prefix (split_of (split_text base)) directory.text.now ≡ true)
        × (path_stays ≡ true → is_plain_prefix (split_of (split_text base)) (split_of (split_text base)).path ≡ true)
        × (query_stays ≡ true → if_there (lacks percent_sign) (split_of (split_text base)).query ≡ true)
        × (keeps_port ≡ true → ends_in_port (split_of (split_text base)).authority ≡ false) } by { Prim.hlevel props },
}

// What comes before a reference with a scheme, of which nothing changes but its percent-encoded octets: nothing.
fn own_before<'a, S: Spec>(reference: &Splitter<'_>) -> Option<Before<'a>>
    requires fits { Fits S.tests (parts reference.now) }
    requires scheme { IsSome (parts reference.now).scheme }
    ensures { MatchOption result (Unit {0}) (λ b. (base : List ℕ) → EndsParts S.tests base (parts reference.now)
        b.prefix.now b.directory.now) }
{
    if keeps_prefix::<S>(reference) {
        Some(Before {
            prefix: "",
            directory: "",
        })
    } else {
        None
    }
}

impl<S: Spec> Clone for FixedBaseResolver<'_, S> {
    ghost is_clone = { λ a b. b ≡ a };

    ghost is_infallible = { λ _. Unit {0} };

    fn clone(&self) -> Result<Self, AllocError> {
        Ok(*self)
    }
}

impl<S: Spec> Copy for FixedBaseResolver<'_, S> {}

impl<'a, S: Spec> FixedBaseResolver<'a, S> {
    ghost use Rattle.iri_normal.specs.Resolver.{base_text};
    ghost use Rattle.iri_normal.specs.NormalizedText.{written};

    /// The resolver of a base.
    pub fn new(base: RiAbsoluteStr<'a, S>) -> Self
        ensures { base_text result ≡ text base.entry }
    {
        FixedBaseResolver::of_split(SplitView::of(base))
    }

    /// The resolver of a base that was split into its parts before. The notes of a scan spare it work.
    ///
    /// ```
    /// use iri::prelude::ToStringFallible;
    /// use iri::resolve::FixedBaseResolver;
    /// use iri::spec::UriSpec;
    /// use iri::types::{SplitView, UriReferenceStr};
    /// let page = SplitView::<UriSpec, _>::absolute_from_bytes(b"http://a/b/c/d;p?q")?;
    /// let target = FixedBaseResolver::of_split(page).resolve(UriReferenceStr::new("../g")?);
    /// assert_eq!(rt; target.try_to_string(rt.alloc())?.as_str(), "http://a/b/g");
    /// ```
    #[inline(always)]
    pub fn of_split(base: SplitView<'a, S, Absolute>) -> Self
        ensures { base_text result ≡ split_text base.entry }
    {
        let directory = Directory::of(base.parts());
        let plain = keeps_directory(&base, &directory);
        let prefix = normal_prefix(&base);
        FixedBaseResolver {
            base,
            directory,
            plain,
            prefix,
            path_stays: keeps_path(&base),
            query_stays: keeps_query(&base),
            keeps_port: keeps_port(&base),
        }
    }

    /// The base.
    pub fn base(&self) -> RiAbsoluteStr<'a, S>
        ensures { text result ≡ base_text self.now }
    {
        self.base.view()
    }

    /// The scheme of the base, without its `:`.
    pub fn scheme_str(&self) -> &'a str
        ensures { Some result.now ≡ (split_of (base_text self.now)).scheme }
    {
        self.base.parts().scheme().unwrap()
    }

    /// The authority of the base, without the `//` before it; `None` exactly where there is none.
    pub fn authority_str(&self) -> Option<&'a str>
        ensures { now_of result ≡ (split_of (base_text self.now)).authority }
    {
        self.base.parts().authority()
    }

    /// The path of the base, which may be empty.
    pub fn path_str(&self) -> &'a str
        ensures { result.now ≡ (split_of (base_text self.now)).path }
    {
        self.base.parts().path()
    }

    /// The query of the base, without its `?`; `None` exactly where there is none.
    pub fn query_str(&self) -> Option<&'a str>
        ensures { now_of result ≡ (split_of (base_text self.now)).query }
    {
        self.base.parts().query()
    }

    /// The query of the base as a view; `None` exactly where there is none.
    pub fn query(&self) -> Option<RiQueryStr<'a, S>>
        ensures { text_of result ≡ (split_of (base_text self.now)).query }
    {
        match self.base.parts().query() {
            Some(query) => Some(RiQueryStr::from_valid(query)),
            None => None,
        }
    }

    // The target of a reference, as slices of the base and the reference.
    #[inline(always)]
    pub(crate) fn slices(&self, reference: &SplitView<'a, S, Reference>) -> TargetSlices<'a>
        ensures fits { Fits S.tests (slices result) }
        ensures scheme { IsSome (slices result).scheme }
        ensures parts { slices result ≡ target (split_of (base_text self.now)) (split_of (split_text reference.now)) }
    {
        target(self.base.parts(), &self.directory, reference.parts())
    }

    // The prefix of a reference's target, where it is the base's and in normal form.
    #[inline(always)]
    fn prefix(&self, reference: &SplitView<'a, S, Reference>) -> Option<&'a str>
        ensures { IsPrefix S.tests (target (split_of (base_text self.now)) (split_of (split_text reference.now)))
            (now_of result) }
    {
        let parts = reference.parts();
        match (parts.scheme(), parts.authority()) {
            (None, None) => self.prefix,
            _ => None,
        }
    }

    // What the base puts before a path that isn't empty and has no dot segments, of a reference with neither scheme nor authority.
    fn before_path(&self, path: &str) -> Option<Before<'a>>
        requires { is_empty path.now ≡ false }
        ensures { MatchOption result (Unit {0}) (λ b. (r : Parts) → r.path ≡ path.now → r.scheme ≡ None → r.authority ≡ None
            → Fits S.tests r → StandBefore S.tests (split_of (base_text self.now)) r b.prefix.now b.directory.now
            (prefix_in S.tests false r)) }
    {
        let prefix = self.prefix?;
        if starts_with_slash(path) {
            return Some(Before {
                prefix,
                directory: "",
            });
        }
        if self.plain {
            let directory = self.directory.text;
            Some(Before { prefix, directory })
        } else {
            None
        }
    }

    // What the base puts before the query or the fragment of a reference that has nothing before them: its path, and its query where the
    // reference has none.
    fn before_query(&self, has_query: bool) -> Option<Before<'a>>
        ensures { MatchOption result (Unit {0}) (λ b. PutsPath S.tests (split_of (base_text self.now)) has_query
            b.prefix.now b.directory.now) }
    {
        let prefix = self.prefix?;
        if !self.path_stays {
            return None;
        }
        if has_query {
            let directory = self.base.parts().path();
            return Some(Before { prefix, directory });
        }
        if self.query_stays {
            let (_, directory) = cut_prefix(&self.base);
            Some(Before { prefix, directory })
        } else {
            None
        }
    }

    // What the base puts before a reference with neither scheme nor authority, of which nothing changes but its percent-encoded octets.
    fn base_before(&self, reference: &Splitter<'_>) -> Option<Before<'a>>
        requires fits { Fits S.tests (parts reference.now) }
        requires scheme { (parts reference.now).scheme ≡ None }
        requires authority { (parts reference.now).authority ≡ None }
        ensures { MatchOption result (Unit {0}) (λ b. EndsParts S.tests (base_text self.now) (parts reference.now)
            b.prefix.now b.directory.now) }
    {
        let path = reference.path();
        if path.is_empty() {
            self.before_query(reference.query().is_some())
        } else {
            self.before_path(path)
        }
    }

    // Whether a path and the base's are empty.
    fn lacks_path(&self, path: &str) -> bool
        ensures { result ≡ (is_empty path.now && is_empty (split_of (base_text self.now)).path) }
    {
        path.is_empty() && self.base.parts().path().is_empty()
    }

    // Whether scheme rules (RFC 3986 section 6.2.3) change nothing in the target of a reference. `false` says nothing.
    fn stays_by_scheme(&self, reference: &Splitter<'_>) -> bool
        requires { Fits S.tests (parts reference.now) }
        ensures { result ≡ true → StaysByScheme (target (split_of (base_text self.now)) (parts reference.now)) }
    {
        match (reference.scheme(), reference.authority()) {
            (Some(_), authority) => stays_by_scheme(authority, reference.path()),
            (None, None) => self.keeps_port && !self.lacks_path(reference.path()),
            (None, Some(authority)) => stays_by_scheme(Some(authority), reference.path()),
        }
    }

    // Whether the canonical text of a reference is the same in a mode as by the rules of every scheme. `false` says nothing.
    #[inline(always)]
    pub(crate) fn is_alike(&self, mode: CanonMode, reference: &SplitView<'a, S, Reference>) -> bool
        ensures { result ≡ true → canonical_in S.tests mode (base_text self.now) (split_text reference.now)
            ≡ canonical S.tests (base_text self.now) (split_text reference.now) }
    {
        match mode {
            CanonMode::Default => true,
            CanonMode::Scheme => self.stays_by_scheme(reference.parts()),
        }
    }

    // What comes before a reference in its canonical text, where nothing in the reference changes but its percent-encoded octets:
    // after these two its own text follows. `None` says nothing.
    #[inline(always)]
    pub(crate) fn before_unchanged(
        &self,
        reference: &SplitView<'a, S, Reference>,
    ) -> Option<Before<'a>>
        ensures { MatchOption result (Unit {0}) (λ b. EndsCanonical S.tests (base_text self.now) (split_text reference.now)
            b.prefix.now b.directory.now) }
    {
        let parts = reference.parts();
        if parts.seen().dots {
            return None;
        }
        match (parts.scheme(), parts.authority()) {
            (Some(_), _) => own_before::<S>(parts),
            (None, None) => self.base_before(parts),
            _ => None,
        }
    }

    // The same of a reference with an authority and no scheme: the base's scheme, and the colon after it.
    #[inline(always)]
    pub(crate) fn before_authority(
        &self,
        reference: &SplitView<'a, S, Reference>,
    ) -> Option<Before<'a>>
        ensures { MatchOption result (Unit {0}) (λ b. EndsCanonical S.tests (base_text self.now) (split_text reference.now)
            b.prefix.now b.directory.now) }
    {
        let parts = reference.parts();
        let (None, Some(_)) = (parts.scheme(), parts.authority()) else {
            return None;
        };
        if parts.seen().dots || !keeps_prefix::<S>(parts) || self.base.parts().seen().capitals {
            return None;
        }
        Some(Before {
            prefix: self.scheme_str(),
            directory: ":",
        })
    }

    // The target of a reference without a normal form. `whole` says that its path stays as it is.
    #[inline(always)]
    pub(crate) fn shown(
        &self,
        reference: &SplitView<'a, S, Reference>,
        whole: bool,
    ) -> Normalized<'a, S>
        ensures { written result ≡ record {
          parts = target (split_of (base_text self.now))
              (split_of (split_text reference.now));
          whole = whole;
          mode = Plain;
        } }
    {
        let prefix = self.prefix(reference);
        NormalizedText::after(prefix, self.slices(reference), whole, Mode::Plain)
    }

    /// The text of a reference resolved against the base (RFC 3986 section 5.2): its dot segments are removed, but the
    /// base's path stays as it is where the reference's is empty. Where the path would be read as an authority, `/.`
    /// comes before it. Allocates nothing.
    ///
    /// ```
    /// use iri::prelude::ToDedicatedString;
    /// use iri::resolve::FixedBaseResolver;
    /// use iri::types::{IriAbsoluteStr, IriReferenceStr};
    /// let page = FixedBaseResolver::new(IriAbsoluteStr::new("http://a/b/c/d;p?q")?);
    /// let target = page.resolve(IriReferenceStr::new("./../g/rosé")?).try_to_dedicated_string(rt.alloc())?;
    /// assert_eq!(rt; target.as_str(), "http://a/b/g/rosé");
    /// ```
    pub fn resolve(&self, reference: RiReferenceStr<'a, S>) -> Normalized<'a, S>
        ensures { written result ≡ record {
          parts = target (split_of (base_text self.now))
              (split_of (text reference.entry));
          whole =
              takes_base_path (split_of (text reference.entry));
          mode = Plain;
        } }
    {
        self.resolve_split(&SplitView::of(reference))
    }

    /// The target of a reference that was split into its parts before, against the base.
    #[inline(always)]
    pub fn resolve_split(&self, reference: &SplitView<'a, S, Reference>) -> Normalized<'a, S>
        ensures { written result ≡ record {
          parts = target (split_of (base_text self.now))
              (split_of (split_text reference.now));
          whole =
              takes_base_path (split_of (split_text reference.now));
          mode = Plain;
        } }
    {
        self.shown(reference, takes_base_path(reference.parts()))
    }

    /// The target of a reference (RFC 3986 section 5.2.2), with its dot segments kept.
    ///
    /// # Errors
    ///
    /// Where allocation fails.
    ///
    /// ```
    /// use iri::resolve::FixedBaseResolver;
    /// use iri::types::{UriAbsoluteStr, UriReferenceStr};
    /// let page = FixedBaseResolver::new(UriAbsoluteStr::new("http://a/b/c/d;p?q")?);
    /// let target = page.target(rt.alloc(), UriReferenceStr::new("../g")?)?;
    /// assert_eq!(rt; target.path(), "/b/c/../g");
    /// ```
    pub fn target(
        &self,
        alloc: Global,
        reference: RiReferenceStr<'a, S>,
    ) -> Result<Target<S>, AllocError>
        ensures { IfOk result (λ t. t ≡ target (split_of (base_text self.now)) (split_of (text reference.entry))) }
    {
        Target::of(alloc, &self.slices(&SplitView::of(reference)))
    }
}
