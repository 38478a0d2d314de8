// IRIs as URIs.
ghost use Rattle.std.specs.Prelude.{◌≡◌, ℕ, IfOk, MatchOption, MatchResult, OnErr, OnOk};
ghost use Rattle.std.specs.Str.{IsAscii, IsNotAscii};
ghost use Rattle.iri_percent.specs.Mapping.{mapped};

use crate::mapped::MappedToUri;
use crate::mapped_kind::MappedKind;
use iri_grammar::spec::{IriSpec, UriSpec};
use iri_owned::owned::Owned;
use iri_text::{Show, ToDedicatedString};
use iri_types::view::View;
use std::alloc::{AllocError, Global};

/// Views of IRIs as URIs (RFC 3987 section 3.1).
pub trait ToUri: Show {
    /// What shows itself mapped.
    type Mapped: Show;

    /// The view of URIs of the same kind.
    type Uri: Show;

    /// The view mapped to a URI. Nothing is done yet.
    ///
    /// ```
    /// use iri::prelude::{ToDedicatedString, ToUri};
    /// use iri::types::IriStr;
    /// let uri = IriStr::new("http://www.example.org/red%09rosé#red")?.encode_to_uri();
    /// assert_eq!(rt; uri.try_to_dedicated_string(rt.alloc())?.as_str(), "http://www.example.org/red%09ros%C3%A9#red");
    /// ```
    fn encode_to_uri(self) -> Self::Mapped
        ensures { Self.Mapped.text result ≡ mapped (Self.text self) };

    /// Gives the text as a URI, exactly where it is in ASCII. It allocates nothing.
    ///
    /// ```
    /// use iri::prelude::ToUri;
    /// use iri::types::IriStr;
    /// assert_eq!(rt; IriStr::new("http://a/ros%C3%A9")?.as_uri().ok_or("ASCII")?.as_str(), "http://a/ros%C3%A9");
    /// assert!(rt; IriStr::new("http://a/rosé")?.as_uri().is_none());
    /// ```
    fn as_uri(self) -> Option<Self::Uri>
        ensures { MatchOption result (IsNotAscii (Self.text self))
            (λ uri. IsAscii (Self.text self) × (Self.Uri.text uri ≡ Self.text self)) };
}

impl<'a, K: MappedKind> ToUri for View<'a, IriSpec, K> {
    type Mapped = MappedToUri<'a, View<'a, IriSpec, K>>;

    type Uri = View<'a, UriSpec, K>;

    fn encode_to_uri(self) -> MappedToUri<'a, View<'a, IriSpec, K>> {
        MappedToUri::of(self)
    }

    fn as_uri(self) -> Option<View<'a, UriSpec, K>> {
        K::mapped_is_valid();
        let text = self.as_str();
        if text.is_ascii() {
            Some(View::from_valid(text))
        } else {
            None
        }
    }
}

/// Owned IRIs as URIs (RFC 3987 section 3.1).
pub trait IntoUri: Show + Sized {
    /// The owned text of URIs of the same kind.
    type Uri: Show;

    /// How many bytes the text can have before it needs more memory.
    ghost capacity: { Self → ℕ };

    /// How many bytes the URI can have before it needs more memory.
    ghost uri_capacity: { Self.Uri → ℕ };

    /// Maps the text in place; it stays an IRI, and is in ASCII. Where it was in ASCII it stays as it is, with its
    /// capacity.
    ///
    /// # Errors
    ///
    /// Where allocation fails, only where the text isn't in ASCII; the text and its capacity are as they were then.
    ///
    /// ```
    /// use iri::convert::IntoUri;
    /// use iri::types::IriString;
    /// let mut link = IriString::try_from_str(rt.alloc(), "http://a/rosé")?;
    /// link.try_encode_to_uri_inline(rt.alloc())?;
    /// assert_eq!(rt; link.as_str(), "http://a/ros%C3%A9");
    /// ```
    fn try_encode_to_uri_inline(&mut self, alloc: Global) -> Result<(), AllocError>
        ensures text { OnOk result (Self.text self.new ≡ mapped (Self.text self.old)) }
        ensures err { OnErr result (self.new ≡ self.old) }
        ensures memory { OnErr result (IsNotAscii (Self.text self.old)) }
        ensures stays { IsAscii (Self.text self.old) → self.new ≡ self.old };

    /// The mapped text, as a URI. A text in ASCII keeps its capacity.
    ///
    /// # Errors
    ///
    /// The text handed back where allocation fails, only where it isn't in ASCII.
    ///
    /// ```
    /// use iri::convert::IntoUri;
    /// use iri::types::IriString;
    /// let link = IriString::try_from_str(rt.alloc(), "http://a/rosé")?;
    /// let uri = link.try_encode_into_uri(rt.alloc()).ok().ok_or("memory")?;
    /// assert_eq!(rt; uri.as_str(), "http://a/ros%C3%A9");
    /// ```
    fn try_encode_into_uri(self, alloc: Global) -> Result<Self::Uri, Self>
        ensures uri { MatchResult result (λ uri. Self.Uri.text uri ≡ mapped (Self.text self))
            (λ iri. (iri ≡ self) × IsNotAscii (Self.text self)) }
        ensures capacity { IfOk result (λ uri. IsAscii (Self.text self) → uri_capacity uri ≡ capacity self) };

    /// Gives the text as a URI, where it is in ASCII, with its capacity. It allocates nothing.
    ///
    /// # Errors
    ///
    /// The text handed back, exactly where it isn't in ASCII.
    ///
    /// ```
    /// use iri::convert::IntoUri;
    /// use iri::types::IriString;
    /// let link = IriString::try_from_str(rt.alloc(), "http://a/rosé")?;
    /// assert_eq!(rt; link.try_into_uri().err().ok_or("past ASCII")?.as_str(), "http://a/rosé");
    /// ```
    fn try_into_uri(self) -> Result<Self::Uri, Self>
        ensures uri { MatchResult result (λ uri. IsAscii (Self.text self) × (Self.Uri.text uri ≡ Self.text self))
            (λ iri. (iri ≡ self) × IsNotAscii (Self.text self)) }
        ensures capacity { IfOk result (λ uri. uri_capacity uri ≡ capacity self) };
}

impl<K: MappedKind> IntoUri for Owned<IriSpec, K> {
    type Uri = Owned<UriSpec, K>;

    ghost capacity = { λ t. t.capacity };

    ghost uri_capacity = { λ t. t.capacity };

    fn try_encode_to_uri_inline(&mut self, alloc: Global) -> Result<(), AllocError> {
        if self.as_str().is_ascii() {
            return Ok(());
        }
        let uri = MappedToUri::of(self.as_slice()).try_to_dedicated_string(alloc)?;
        self.replace_text(uri.into_string());
        Ok(())
    }

    fn try_encode_into_uri(self, alloc: Global) -> Result<Owned<UriSpec, K>, Self> {
        if self.as_str().is_ascii() {
            return self.try_into_uri();
        }
        match MappedToUri::of(self.as_slice()).try_to_dedicated_string(alloc) {
            Ok(uri) => Ok(uri),
            Err(_) => Err(self),
        }
    }

    fn try_into_uri(self) -> Result<Owned<UriSpec, K>, Self> {
        K::mapped_is_valid();
        if self.as_str().is_ascii() {
            Ok(Owned::from_valid(self.into_string()))
        } else {
            Err(self)
        }
    }
}
