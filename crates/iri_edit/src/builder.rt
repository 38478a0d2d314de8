//! Whole texts built from parts (RFC 3986 section 5.3).
ghost use Rattle.std.specs.Prelude.{◌≡◌, ◌||◌, ◌&&◌, IfOk, MatchResult, None, Some, is_some, string_bytes};
ghost use Rattle.std.specs.Prelude.{true, false};
ghost use Rattle.iri_edit.specs.Built.{absolute_refusal, built_fault, built_text, components_fault, given_authority};
ghost use Rattle.iri_edit.specs.Built.{given_parts, iri_refusal, nothing_given, reference_refusal, relative_refusal};
ghost use Rattle.iri_grammar.specs.Fault.{Answers, part_fault};
ghost use Rattle.iri_grammar.specs.Parts.{Fits, authority_text, recompose};
ghost use Rattle.iri_grammar.specs.OptionalSlices.{now_of};
ghost use Rattle.iri_text.specs.Shown.{Shows};

use crate::build_kind::{BuildKind, Host, Port, Scheme, Userinfo};
use crate::recomposed::{keeps_rules, normal_text, or_nothing, show_delimited, show_ended};
use iri_grammar::error::{Error, ErrorKind};
use iri_grammar::spec::Spec;
use iri_grammar::validate;
use iri_owned::owned::{Owned, RiAbsoluteString, RiReferenceString, RiRelativeString, RiString};
use iri_text::{Show, Stop, TextSink, ToStringFallible};
use iri_types::kind::{Absolute, Fragment, Iri, Kind, Query, Reference, Relative};
use std::alloc::{AllocError, Global};

/// The parts of a text that is to be built (RFC 3986 section 5.3). Setting a part validates nothing; `build_reference`
/// and its kin validate all parts. It has no `Debug`, so that none shows a password.
///
/// ```
/// use iri::build::Builder;
/// use iri::spec::UriSpec;
/// let mut parts = Builder::new();
/// parts.scheme("foo");
/// parts.host("example.com");
/// parts.port("8042");
/// parts.path("/over/there");
/// parts.query("name=ferret");
/// parts.fragment("nose");
/// let link = parts.build_iri::<UriSpec>(rt.alloc())?;
/// assert_eq!(rt; link.as_str(), "foo://example.com:8042/over/there?name=ferret#nose");
/// ```
#[derive(Clone, Copy)]
pub struct Builder<'a> {
    scheme: Option<&'a str>,
    userinfo: Option<&'a str>,
    host: Option<&'a str>,
    port: Option<&'a str>,
    path: &'a str,
    query: Option<&'a str>,
    fragment: Option<&'a str>,
    normal: bool,
}

/// Why no text was built.
///
/// ```
/// use iri::build::{BuildError, Builder};
/// use iri::spec::UriSpec;
/// use iri::validate::ErrorKind;
/// let mut parts = Builder::new();
/// parts.scheme("1a");
/// match parts.build_iri::<UriSpec>(rt.alloc()) {
///     Err(BuildError::Invalid(error)) => assert_eq!(rt; error.kind(), ErrorKind::InvalidScheme),
///     _ => assert!(rt; false),
/// }
/// ```
#[derive(Debug, Drop, thiserror::Error)]
pub enum BuildError {
    /// The parts make no text of the kind: the first fault.
    #[error(transparent)]
    Invalid(Error),
    /// Allocation failed. The parts make a text of the kind.
    #[error(transparent)]
    Memory(AllocError),
}

impl<'a> Builder<'a> {
    ghost use Rattle.iri_edit.specs.Builders.{given, RefusedFor};

    /// A builder with nothing set and an empty path.
    pub fn new() -> Self
        ensures { given result ≡ nothing_given }
    {
        Builder {
            scheme: None,
            userinfo: None,
            host: None,
            port: None,
            path: "",
            query: None,
            fragment: None,
            normal: false,
        }
    }

    /// Sets the scheme, without its `:`.
    pub fn scheme(&mut self, text: &'a str)
        ensures { given self.new ≡ record (given self.old) { scheme = Some text.now } }
    {
        self.scheme = Some(text);
    }

    /// Sets the userinfo, without the `@` after it.
    pub fn userinfo(&mut self, text: &'a str)
        ensures { given self.new ≡ record (given self.old) { userinfo = Some text.now } }
    {
        self.userinfo = Some(text);
    }

    /// Sets the host, an IP literal with its brackets.
    pub fn host(&mut self, text: &'a str)
        ensures { given self.new ≡ record (given self.old) { host = Some text.now } }
    {
        self.host = Some(text);
    }

    /// Sets the port, without its `:`.
    pub fn port(&mut self, text: &'a str)
        ensures { given self.new ≡ record (given self.old) { port = Some text.now } }
    {
        self.port = Some(text);
    }

    /// Sets the path.
    pub fn path(&mut self, text: &'a str)
        ensures { given self.new ≡ record (given self.old) { path = text.now } }
    {
        self.path = text;
    }

    /// Sets the query, without its `?`.
    pub fn query(&mut self, text: &'a str)
        ensures { given self.new ≡ record (given self.old) { query = Some text.now } }
    {
        self.query = Some(text);
    }

    /// Sets the fragment, without its `#`.
    pub fn fragment(&mut self, text: &'a str)
        ensures { given self.new ≡ record (given self.old) { fragment = Some text.now } }
    {
        self.fragment = Some(text);
    }

    /// Takes back the scheme.
    pub fn unset_scheme(&mut self)
        ensures { given self.new ≡ record (given self.old) { scheme = None } }
    {
        self.scheme = None;
    }

    /// Takes back the userinfo.
    pub fn unset_userinfo(&mut self)
        ensures { given self.new ≡ record (given self.old) { userinfo = None } }
    {
        self.userinfo = None;
    }

    /// Takes back the port.
    pub fn unset_port(&mut self)
        ensures { given self.new ≡ record (given self.old) { port = None } }
    {
        self.port = None;
    }

    /// Takes back userinfo, host and port.
    pub fn unset_authority(&mut self)
        ensures { given self.new ≡ record (given self.old) { userinfo = None; host = None; port = None } }
    {
        self.userinfo = None;
        self.host = None;
        self.port = None;
    }

    /// Takes back the query.
    pub fn unset_query(&mut self)
        ensures { given self.new ≡ record (given self.old) { query = None } }
    {
        self.query = None;
    }

    /// Takes back the fragment.
    pub fn unset_fragment(&mut self)
        ensures { given self.new ≡ record (given self.old) { fragment = None } }
    {
        self.fragment = None;
    }

    /// Asks for the normal form of the text (RFC 3986 section 6.2.2). Without a scheme it is built as it is.
    ///
    /// ```
    /// use iri::build::Builder;
    /// use iri::spec::UriSpec;
    /// let mut parts = Builder::new();
    /// parts.scheme("eXAMPLE");
    /// parts.host("a");
    /// parts.path("/./b/../b/%63/%7bfoo%7d");
    /// parts.normalize();
    /// assert_eq!(rt; parts.build_iri::<UriSpec>(rt.alloc())?.as_str(), "example://a/b/c/%7Bfoo%7D");
    /// ```
    pub fn normalize(&mut self)
        ensures { given self.new ≡ record (given self.old) { normal = true } }
    {
        self.normal = true;
    }

    /// Takes `normalize` back.
    pub fn unset_normalize(&mut self)
        ensures { given self.new ≡ record (given self.old) { normal = false } }
    {
        self.normal = false;
    }

    /// Whether the parts make a text of the kind `K`. Allocates nothing; what is shown of the builder is that text then.
    ///
    /// # Errors
    ///
    /// Exactly where they make none: the first fault, in the order of `build`.
    ///
    /// ```
    /// use iri::build::Builder;
    /// use iri::format::ToStringFallible;
    /// use iri::spec::UriSpec;
    /// use iri::types::kind::Reference;
    /// let mut parts = Builder::new();
    /// parts.host("a");
    /// parts.path("/b");
    /// parts.validate::<UriSpec, Reference>()?;
    /// assert_eq!(rt; parts.try_to_string(rt.alloc())?.as_str(), "//a/b");
    /// ```
    pub fn validate<S: Spec, K: BuildKind>(&self) -> Result<(), Error>
        ensures { Answers result (built_fault S.tests K.refusal (given self.now)) }
    {
        self.judge_components::<S>()?;
        if let Some(kind) = K::refuse(self.scheme.is_some(), self.fragment.is_some()) {
            return Err(Error::new(kind));
        }
        if keeps_rules(self.scheme.is_some(), self.has_authority(), self.path) {
            Ok(())
        } else {
            Err(Error::new(ErrorKind::InvalidPath))
        }
    }

    /// The text of the kind `K` that the parts make.
    ///
    /// # Errors
    ///
    /// - `Invalid` exactly where they make none, with the first fault in this order: the parts one by one, scheme,
    ///   userinfo, host, port, path, query, fragment; what the kind refuses (`build_iri` and its kin say it);
    ///   `InvalidPath` where the path breaks the rules of its place (RFC 3986 section 3.3).
    /// - `Memory` where allocation fails; the parts have no fault then.
    pub fn build<S: Spec, K: BuildKind>(self, alloc: Global) -> Result<Owned<S, K>, BuildError>
        ensures { MatchResult result (λ t. (built_fault S.tests K.refusal (given self.entry) ≡ None)
            × (t.text ≡ built_text S.tests (given self.entry)))
            (λ e. RefusedFor e (built_fault S.tests K.refusal (given self.entry))) }
    {
        match self.validate::<S, K>() {
            Ok(()) => self.text_of::<S, K>(alloc).map_err(BuildError::Memory),
            Err(error) => Err(BuildError::Invalid(error)),
        }
    }

    /// The reference that the parts make.
    ///
    /// # Errors
    ///
    /// Those of `build`: `Invalid` with the first faulty part, or with `InvalidPath` where the path breaks the rules of
    /// its place; `Memory`.
    ///
    /// ```
    /// use iri::build::Builder;
    /// use iri::spec::UriSpec;
    /// let mut parts = Builder::new();
    /// parts.path("//g");
    /// assert!(rt; parts.build_reference::<UriSpec>(rt.alloc()).is_err());
    /// parts.host("h");
    /// assert_eq!(rt; parts.build_reference::<UriSpec>(rt.alloc())?.as_str(), "//h//g");
    /// ```
    pub fn build_reference<S: Spec>(self, alloc: Global) -> Result<RiReferenceString<S>, BuildError>
        ensures { MatchResult result (λ t. (built_fault S.tests reference_refusal (given self.entry) ≡ None)
            × (t.text ≡ built_text S.tests (given self.entry)))
            (λ e. RefusedFor e (built_fault S.tests reference_refusal (given self.entry))) }
    {
        self.build::<S, Reference>(alloc)
    }

    /// The IRI of the grammar that the parts make.
    ///
    /// # Errors
    ///
    /// Those of `build`; after the parts one by one, `UnexpectedRelative` where no scheme is set.
    ///
    /// ```
    /// use iri::build::Builder;
    /// use iri::spec::IriSpec;
    /// let mut parts = Builder::new();
    /// parts.path("rosé");
    /// assert!(rt; parts.build_iri::<IriSpec>(rt.alloc()).is_err());
    /// parts.scheme("urn");
    /// assert_eq!(rt; parts.build_iri::<IriSpec>(rt.alloc())?.as_str(), "urn:rosé");
    /// ```
    pub fn build_iri<S: Spec>(self, alloc: Global) -> Result<RiString<S>, BuildError>
        ensures { MatchResult result (λ t. (built_fault S.tests iri_refusal (given self.entry) ≡ None)
            × (t.text ≡ built_text S.tests (given self.entry)))
            (λ e. RefusedFor e (built_fault S.tests iri_refusal (given self.entry))) }
    {
        self.build::<S, Iri>(alloc)
    }

    /// The IRI without a fragment that the parts make.
    ///
    /// # Errors
    ///
    /// Those of `build`; after the parts one by one, `UnexpectedRelative` where no scheme is set, and then
    /// `UnexpectedFragment` where a fragment is.
    ///
    /// ```
    /// use iri::build::{BuildError, Builder};
    /// use iri::spec::UriSpec;
    /// use iri::validate::ErrorKind;
    /// let mut parts = Builder::new();
    /// parts.scheme("urn");
    /// parts.path("a");
    /// parts.fragment("s");
    /// match parts.build_absolute::<UriSpec>(rt.alloc()) {
    ///     Err(BuildError::Invalid(error)) => assert_eq!(rt; error.kind(), ErrorKind::UnexpectedFragment),
    ///     _ => assert!(rt; false),
    /// }
    /// ```
    pub fn build_absolute<S: Spec>(self, alloc: Global) -> Result<RiAbsoluteString<S>, BuildError>
        ensures { MatchResult result (λ t. (built_fault S.tests absolute_refusal (given self.entry) ≡ None)
            × (t.text ≡ built_text S.tests (given self.entry)))
            (λ e. RefusedFor e (built_fault S.tests absolute_refusal (given self.entry))) }
    {
        self.build::<S, Absolute>(alloc)
    }

    /// The relative reference that the parts make.
    ///
    /// # Errors
    ///
    /// Those of `build`; after the parts one by one, `InvalidScheme` where a scheme is set.
    ///
    /// ```
    /// use iri::build::Builder;
    /// use iri::spec::UriSpec;
    /// let mut parts = Builder::new();
    /// parts.path("g");
    /// parts.query("y");
    /// assert_eq!(rt; parts.build_relative::<UriSpec>(rt.alloc())?.as_str(), "g?y");
    /// parts.scheme("http");
    /// assert!(rt; parts.build_relative::<UriSpec>(rt.alloc()).is_err());
    /// ```
    pub fn build_relative<S: Spec>(self, alloc: Global) -> Result<RiRelativeString<S>, BuildError>
        ensures { MatchResult result (λ t. (built_fault S.tests relative_refusal (given self.entry) ≡ None)
            × (t.text ≡ built_text S.tests (given self.entry)))
            (λ e. RefusedFor e (built_fault S.tests relative_refusal (given self.entry))) }
    {
        self.build::<S, Relative>(alloc)
    }

    // The first fault of the parts, each alone.
    #[tactic(auto, unfolding(crate::specs::Built::components_fault))]
    fn judge_components<S: Spec>(&self) -> Result<(), Error>
        ensures { Answers result (components_fault S.tests (given self.now)) }
    {
        judge::<S, Scheme>(self.scheme)?;
        judge::<S, Userinfo>(self.userinfo)?;
        judge::<S, Host>(self.host)?;
        judge::<S, Port>(self.port)?;
        validate::path::<S>(self.path)?;
        judge::<S, Query>(self.query)?;
        judge::<S, Fragment>(self.fragment)
    }

    // `//` and the authority, where there is one.
    #[tactic(auto, unfolding(iri_grammar::specs::Authority::recompose_authority))]
    fn show_authority<W: TextSink>(&self, sink: &mut W) -> Result<(), Stop>
        ensures { Shows W.puts W.halts W.stops sink.old (authority_text (given_authority (given self.now))) sink.new result }
    {
        if !self.has_authority() {
            return Ok(());
        }
        sink.put("//")?;
        show_ended(sink, self.userinfo, "@", b'@')?;
        sink.put(or_nothing(self.host))?;
        show_delimited(sink, ":", b':', self.port)
    }

    // Whether the normal form is asked for, and a scheme is set.
    fn is_normal(&self) -> bool
        ensures { result ≡ ((given self.now).normal && is_some (given self.now).scheme) }
    {
        self.normal && self.scheme.is_some()
    }

    // The recomposed parts, or their normal form.
    fn normal_where_asked<S: Spec>(&self, alloc: Global, text: String) -> Result<String, AllocError>
        requires text { string_bytes text ≡ recompose (given_parts (given self.now)) }
        requires fits { Fits S.tests (given_parts (given self.now)) }
        ensures { IfOk result (λ t. string_bytes t ≡ built_text S.tests (given self.now)) }
    {
        if self.is_normal() {
            normal_text::<S>(alloc, &text)
        } else {
            Ok(text)
        }
    }

    // The text that the parts make.
    fn text_of<S: Spec, K: BuildKind>(&self, alloc: Global) -> Result<Owned<S, K>, AllocError>
        requires { built_fault S.tests K.refusal (given self.now) ≡ None }
        ensures { IfOk result (λ t. t.text ≡ built_text S.tests (given self.now)) }
    {
        let plain = self.try_to_string(alloc)?;
        let text = self.normal_where_asked::<S>(alloc, plain)?;
        Ok(Owned::from_valid(text))
    }

    fn has_authority(&self) -> bool
        ensures { result ≡ (is_some (given self.now).userinfo
            || (is_some (given self.now).host || is_some (given self.now).port)) }
    {
        self.userinfo.is_some() || self.host.is_some() || self.port.is_some()
    }
}

/// What is shown are the parts recomposed (RFC 3986 section 5.3), whether they make a text or not, and never their normal form.
impl Show for Builder<'_> {
    ghost use Rattle.iri_edit.specs.Builders.{given};

    ghost text = { λ b. recompose (given_parts (given b)) };

    #[tactic(auto, unfolding(iri_grammar::specs::Parts::recompose))]
    fn show<W: TextSink>(&self, sink: &mut W) -> Result<(), Stop> {
        show_ended(sink, self.scheme, ":", b':')?;
        self.show_authority(sink)?;
        sink.put(self.path)?;
        show_delimited(sink, "?", b'?', self.query)?;
        show_delimited(sink, "#", b'#', self.fragment)
    }
}

impl Default for Builder<'_> {
    ghost use Rattle.iri_edit.specs.Builders.{given};

    ghost is_default = { λ b. given b ≡ nothing_given };

    fn default() -> Self {
        Builder::new()
    }
}

// The fault of a part that may be set.
fn judge<S: Spec, K: Kind>(part: Option<&str>) -> Result<(), Error>
    ensures { Answers result (part_fault (K.fault S.tests) (now_of part.entry)) }
{
    match part {
        Some(part) => K::validate::<S>(part),
        None => Ok(()),
    }
}
