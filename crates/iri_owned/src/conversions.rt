//! Conversions between kinds by value: they keep the text, or cut it at the fragment, and keep the capacity.
ghost use Rattle.std.specs.Prelude.{◌≡◌, ◌++◌, IsNone, IsSome, MatchResult, None, Some};
ghost use Rattle.std.specs.String.{string_bytes, string_capacity};
ghost use Rattle.iri_grammar.specs.Cut.{before, delimited};
ghost use Rattle.iri_grammar.specs.Split.{split_of};
ghost use Rattle.iri_grammar.specs.WholeFault.{absolute_fault};
ghost use Rattle.iri_types.specs.Texts.{text_of};
ghost use Rattle.iri_owned.specs.OwnedText.{text_within};
ghost use Rattle.iri_grammar.specs.Characters.{number_sign};

use crate::error::CreationError;
use crate::owned::{
    Owned, RiAbsoluteString, RiFragmentString, RiReferenceString, RiRelativeString, RiString,
};
use iri_grammar::cutting::find;
use iri_grammar::spec::{IriSpec, Spec, UriSpec};
use iri_types::kind::{Absolute, Iri, Kind, Reference, WholeKind};
use iri_types::view::RiFragmentStr;
use std::alloc::{AllocError, Global};

impl<S: Spec> Owned<S, Reference> {
    /// The text as an IRI of its grammar, which has a scheme. It allocates nothing.
    ///
    /// # Errors
    ///
    /// Gives the text as a relative reference, exactly where it has no scheme.
    ///
    /// ```
    /// use iri::types::UriReferenceString;
    /// let link = UriReferenceString::try_from_str(rt.alloc(), "g:h")?;
    /// assert_eq!(rt; link.into_iri().ok().ok_or("a scheme")?.as_str(), "g:h");
    /// ```
    pub fn into_iri(self) -> Result<RiString<S>, RiRelativeString<S>>
        ensures text { MatchResult result (λ iri. iri ≡ self) (λ relative. relative ≡ self) }
        ensures scheme { MatchResult result (λ _. IsSome (split_of self.text).scheme)
            (λ _. IsNone (split_of self.text).scheme) }
    {
        match self.as_slice().scheme_str() {
            Some(_) => Ok(Owned::from_valid(self.into_string())),
            None => Err(Owned::from_valid(self.into_string())),
        }
    }

    /// The text as a relative reference, which has no scheme. It allocates nothing.
    ///
    /// # Errors
    ///
    /// Gives the text as an IRI of its grammar, exactly where it has a scheme.
    pub fn into_relative_iri(self) -> Result<RiRelativeString<S>, RiString<S>>
        ensures text { MatchResult result (λ relative. relative ≡ self) (λ iri. iri ≡ self) }
        ensures scheme { MatchResult result (λ _. IsNone (split_of self.text).scheme)
            (λ _. IsSome (split_of self.text).scheme) }
    {
        match self.into_iri() {
            Ok(iri) => Err(iri),
            Err(relative) => Ok(relative),
        }
    }
}

// The text before the number sign, or all. It allocates nothing.
fn cut_at_fragment(text: String) -> String
    ensures text { string_bytes result ≡ before number_sign (string_bytes text) }
    ensures capacity { string_capacity result ≡ string_capacity text }
{
    let mut text = text;
    if let Some(i) = find(text.as_str(), b'#') {
        text.truncate(i);
    }
    text
}

// A copy of the fragment, where there is one.
fn copy_of<S: Spec>(
    alloc: Global,
    fragment: Option<RiFragmentStr<'_, S>>,
) -> Result<Option<RiFragmentString<S>>, AllocError>
    ensures { MatchResult result (λ copy. text_within copy ≡ text_of fragment.entry)
        (λ _. IsSome (text_of fragment.entry)) }
{
    match fragment {
        Some(fragment) => match Owned::from_view(alloc, fragment) {
            Ok(copy) => Ok(Some(copy)),
            Err(error) => Err(error),
        },
        None => Ok(None),
    }
}

impl<S: Spec> Owned<S, Iri> {
    /// The text before the `#`, or all of it where there is none. It allocates nothing.
    ///
    /// ```
    /// use iri::types::UriString;
    /// let link = UriString::try_from_str(rt.alloc(), "http://a/b/c/d;p?q#s")?;
    /// assert_eq!(rt; link.into_absolute().as_str(), "http://a/b/c/d;p?q");
    /// ```
    pub fn into_absolute(self) -> RiAbsoluteString<S>
        ensures text { result.text ≡ before number_sign self.text }
        ensures capacity { result.capacity ≡ self.capacity }
    {
        Owned::from_valid(cut_at_fragment(self.into_string()))
    }

    /// The text before the `#`, or all of it, and the fragment, where there is one.
    ///
    /// # Errors
    ///
    /// The text handed back where allocation fails, and only where there is a fragment.
    pub fn into_absolute_and_fragment(
        self,
        alloc: Global,
    ) -> Result<(RiAbsoluteString<S>, Option<RiFragmentString<S>>), RiString<S>>
        ensures cut { MatchResult result (λ r. (r.0.text ≡ before number_sign self.text)
            × (text_within r.1 ≡ (split_of self.text).fragment))
            (λ iri. (iri ≡ self) × IsSome (split_of self.text).fragment) }
        ensures joined { MatchResult result (λ r. r.0.text ++ delimited number_sign (text_within r.1) ≡ self.text)
            (λ _. Unit {0}) }
        ensures capacity { MatchResult result (λ r. r.0.capacity ≡ self.capacity) (λ _. Unit {0}) }
    {
        match copy_of(alloc, self.as_slice().fragment()) {
            Ok(fragment) => Ok((self.into_absolute(), fragment)),
            Err(_) => Err(self),
        }
    }
}

impl<S: Spec> Owned<S, Absolute> {
    /// The text as an IRI of its grammar, which may have a fragment. It allocates nothing.
    pub fn into_iri(self) -> RiString<S>
        ensures { result ≡ self }
    {
        Owned::from_valid(self.into_string())
    }

    /// The text of an IRI that has no fragment. It allocates nothing.
    ///
    /// # Errors
    ///
    /// Exactly where it has one: `UnexpectedFragment`, with the IRI handed back.
    ///
    /// ```
    /// use iri::types::{UriAbsoluteString, UriString};
    /// let link = UriString::try_from_str(rt.alloc(), "http://a/b#s")?;
    /// let error = UriAbsoluteString::try_from_iri(link).err().ok_or("a fragment")?;
    /// assert_eq!(rt; error.into_source().as_str(), "http://a/b#s");
    /// ```
    pub fn try_from_iri(s: RiString<S>) -> Result<Self, CreationError<RiString<S>>>
        ensures { MatchResult result (λ t. t ≡ s)
            (λ e. (e.source ≡ s) × (absolute_fault S.tests s.text ≡ Some e.error.kind)) }
    {
        downcast(s)
    }
}

// The text as one of another kind: otherwise its first fault, with the text handed back.
fn downcast<S: Spec, J: Kind, K: Kind>(
    s: Owned<S, J>,
) -> Result<Owned<S, K>, CreationError<Owned<S, J>>>
    ensures { MatchResult result (λ t. t ≡ s) (λ e. (e.source ≡ s) × (K.fault S.tests s.text ≡ Some e.error.kind)) }
{
    match K::validate::<S>(s.as_str()) {
        Ok(()) => Ok(Owned::from_valid(s.into_string())),
        Err(error) => Err(CreationError { source: s, error }),
    }
}

impl<S: Spec, K: WholeKind> Owned<S, K> {
    /// The text as a reference. It allocates nothing.
    pub fn into_reference(self) -> RiReferenceString<S>
        ensures { result ≡ self }
    {
        Owned::from_valid(self.into_string())
    }

    /// The text of a reference that is of the kind. It allocates nothing.
    ///
    /// # Errors
    ///
    /// Exactly where it isn't: its first fault, with the reference handed back.
    pub fn try_from_reference(
        s: RiReferenceString<S>,
    ) -> Result<Self, CreationError<RiReferenceString<S>>>
        ensures { MatchResult result (λ t. t ≡ s) (λ e. (e.source ≡ s) × (K.fault S.tests s.text ≡ Some e.error.kind)) }
    {
        downcast(s)
    }
}

impl<K: Kind> Owned<UriSpec, K> {
    /// The text of URIs as one of IRIs: each URI is an IRI (RFC 3987 section 3). It allocates nothing.
    pub fn into_iri_spec(self) -> Owned<IriSpec, K>
        ensures { result ≡ self }
    {
        Owned::from_valid(self.into_string())
    }
}
