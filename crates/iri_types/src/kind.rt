//! The kinds of texts (RFC 3986 sections 3 and 4, RFC 3987 section 2.2).
ghost use Rattle.std.specs.Prelude.{◌≡◌, ℕ, Bool, List, Option, None, IsSome, is_some, refl, true};
ghost use Rattle.iri_grammar.specs.Classes.{Tests, IsSpec, uri_tests};
ghost use Rattle.iri_grammar.specs.Fault.{Answers, query_fault, fragment_fault};
ghost use Rattle.iri_grammar.specs.Parts.{Parts, Fits, recompose};
ghost use Rattle.iri_grammar.specs.Split.{split_of};
ghost use Rattle.iri_grammar.specs.WholeFault.{reference_fault, iri_fault, absolute_fault, relative_fault};
ghost use Rattle.iri_grammar.specs.declared.error.ErrorKind.{ErrorKind};
ghost use Rattle.iri_types.specs.Allowed.{allows_reference, allows_iri, allows_absolute, allows_relative};
ghost use Rattle.iri_types.specs.inside.AllowedLaws.{reference-made, iri-made, absolute-made, relative-made};
ghost use Rattle.iri_types.specs.inside.AllowedLaws.{reference-allowed, iri-allowed, absolute-allowed};
ghost use Rattle.iri_types.specs.inside.AllowedLaws.{relative-allowed};
ghost use Rattle.iri_types.specs.inside.KindLaws.{reference-within, iri-within, absolute-within, relative-within};
ghost use Rattle.iri_types.specs.inside.KindLaws.{query-within, fragment-within, reference-whole, iri-whole};
ghost use Rattle.iri_types.specs.inside.KindLaws.{absolute-whole, relative-whole, absolute-scheme};
ghost use Rattle.iri_grammar.proofs.faults.KindLaws.{iri-has_scheme as iri-scheme};

use iri_grammar::error::Error;
use iri_grammar::spec::Spec;
use iri_grammar::validate;

/// A kind of text: a production in each grammar.
///
/// ```
/// use iri::spec::{IriSpec, Spec, UriSpec};
/// use iri::types::View;
/// use iri::types::kind::{Fragment, Kind};
/// fn is_of<S: Spec, K: Kind>(text: &str) -> bool {
///     View::<S, K>::new(text).is_ok()
/// }
/// assert!(rt; is_of::<IriSpec, Fragment>("é"));
/// assert!(rt; !is_of::<UriSpec, Fragment>("é"));
/// ```
pub trait Kind {
    /// The first fault of a text; none where the text is in the production.
    ghost fault: { Tests → List ℕ → Option ErrorKind };

    /// Whether the text is in the production of `S`.
    ///
    /// # Errors
    ///
    /// Exactly where it isn't: the first fault from the left.
    fn validate<S: Spec>(s: &str) -> Result<(), Error>
        ensures { Answers result (fault S.tests s.now) };

    /// What is in the production of URIs is in that of every grammar.
    ghost within: { (s : Tests) → IsSpec s → (t : List ℕ) → fault uri_tests t ≡ None → fault s t ≡ None };
}

/// A kind whose texts are references, and so have five parts.
///
/// ```
/// use iri::spec::UriSpec;
/// use iri::types::kind::WholeKind;
/// use iri::types::{UriReferenceStr, UriStr, View};
/// fn path_of<'a, K: WholeKind>(link: View<'a, UriSpec, K>) -> &'a str {
///     link.path_str()
/// }
/// assert_eq!(rt; path_of(UriStr::new("urn:example:animal:ferret:nose")?), "example:animal:ferret:nose");
/// assert_eq!(rt; path_of(UriReferenceStr::new("../g?y")?), "../g");
/// ```
pub trait WholeKind: Kind {
    /// Each text of the kind is a reference.
    ghost whole: { (s : Tests) → IsSpec s → (t : List ℕ) → Self.fault s t ≡ None → reference_fault s t ≡ None };

    /// Whether a text of the kind may have parts of which these stand: a scheme, a fragment.
    ghost allows: { Bool → Bool → Bool };

    /// Valid parts, with a path that keeps the rules of its place, make a text of the kind where it allows what stands.
    ghost made: { (s : Tests) → IsSpec s → (p : Parts) → Fits s p
        → allows (is_some p.scheme) (is_some p.fragment) ≡ true → Self.fault s (recompose p) ≡ None };

    /// The kind allows what stands in each of its texts.
    ghost allowed: { (s : Tests) → IsSpec s → (t : List ℕ) → Self.fault s t ≡ None
        → allows (is_some (split_of t).scheme) (is_some (split_of t).fragment) ≡ true };
}

/// A whole kind whose texts have a scheme.
///
/// ```
/// use iri::spec::UriSpec;
/// use iri::types::kind::SchemeKind;
/// use iri::types::{UriAbsoluteStr, UriStr, View};
/// fn scheme_of<'a, K: SchemeKind>(link: View<'a, UriSpec, K>) -> &'a str {
///     link.scheme_str()
/// }
/// assert_eq!(rt; scheme_of(UriStr::new("urn:example:animal:ferret:nose")?), "urn");
/// assert_eq!(rt; scheme_of(UriAbsoluteStr::new("http://a/b/c/d;p?q")?), "http");
/// ```
pub trait SchemeKind: WholeKind {
    /// Each text of the kind has a scheme.
    ghost has_scheme: { (s : Tests) → IsSpec s → (t : List ℕ) → Self.fault s t ≡ None → IsSome (split_of t).scheme };
}

/// A whole kind whose texts may have a fragment.
///
/// ```
/// use iri::spec::UriSpec;
/// use iri::types::kind::FragmentKind;
/// use iri::types::{UriReferenceStr, UriStr, View};
/// fn fragment_of<'a, K: FragmentKind>(link: View<'a, UriSpec, K>) -> Option<&'a str> {
///     link.fragment_str()
/// }
/// assert_eq!(rt; fragment_of(UriStr::new("foo://example.com:8042/over/there?name=ferret#nose")?), Some("nose"));
/// assert_eq!(rt; fragment_of(UriReferenceStr::new("g?y")?), None);
/// ```
pub trait FragmentKind: WholeKind {
    /// The kind allows a fragment wherever it allows none, and none wherever it allows one.
    ghost free_fragment: { (scheme fragment other : Bool) → Self.allows scheme fragment ≡ Self.allows scheme other };
}

/// `URI-reference` (RFC 3986 section 4.1).
///
/// ```
/// use iri::spec::UriSpec;
/// use iri::types::View;
/// use iri::types::kind::Reference;
/// assert!(rt; View::<UriSpec, Reference>::new("../g?y#s").is_ok());
/// assert!(rt; View::<UriSpec, Reference>::new("../g?y##").is_err());
/// ```
#[derive(Clone, Copy)]
pub enum Reference {}

/// `URI` (section 3).
///
/// ```
/// use iri::spec::UriSpec;
/// use iri::types::View;
/// use iri::types::kind::Iri;
/// assert!(rt; View::<UriSpec, Iri>::new("urn:example:animal:ferret:nose").is_ok());
/// assert!(rt; View::<UriSpec, Iri>::new("../g").is_err());
/// ```
#[derive(Clone, Copy)]
pub enum Iri {}

/// `absolute-URI` (section 4.3).
///
/// ```
/// use iri::spec::UriSpec;
/// use iri::types::View;
/// use iri::types::kind::Absolute;
/// assert!(rt; View::<UriSpec, Absolute>::new("http://a/b/c/d;p?q").is_ok());
/// assert!(rt; View::<UriSpec, Absolute>::new("http://a/b#s").is_err());
/// ```
#[derive(Clone, Copy)]
pub enum Absolute {}

/// `relative-ref` (section 4.2).
///
/// ```
/// use iri::spec::UriSpec;
/// use iri::types::View;
/// use iri::types::kind::Relative;
/// assert!(rt; View::<UriSpec, Relative>::new("//g?y").is_ok());
/// assert!(rt; View::<UriSpec, Relative>::new("g:h").is_err());
/// ```
#[derive(Clone, Copy)]
pub enum Relative {}

/// `query` (section 3.4).
///
/// ```
/// use iri::spec::UriSpec;
/// use iri::types::View;
/// use iri::types::kind::Query;
/// assert!(rt; View::<UriSpec, Query>::new("name=a/b?c").is_ok());
/// assert!(rt; View::<UriSpec, Query>::new("#").is_err());
/// ```
#[derive(Clone, Copy)]
pub enum Query {}

/// `fragment` (section 3.5).
///
/// ```
/// use iri::spec::UriSpec;
/// use iri::types::View;
/// use iri::types::kind::Fragment;
/// assert!(rt; View::<UriSpec, Fragment>::new("s/../x?y").is_ok());
/// assert!(rt; View::<UriSpec, Fragment>::new("#").is_err());
/// ```
#[derive(Clone, Copy)]
pub enum Fragment {}

impl Kind for Reference {
    ghost fault = { reference_fault };

    ghost within = { reference-within };

    fn validate<S: Spec>(s: &str) -> Result<(), Error> {
        validate::iri_reference::<S>(s)
    }
}

impl Kind for Iri {
    ghost fault = { iri_fault };

    ghost within = { iri-within };

    fn validate<S: Spec>(s: &str) -> Result<(), Error> {
        validate::iri::<S>(s)
    }
}

impl Kind for Absolute {
    ghost fault = { absolute_fault };

    ghost within = { absolute-within };

    fn validate<S: Spec>(s: &str) -> Result<(), Error> {
        validate::absolute_iri::<S>(s)
    }
}

impl Kind for Relative {
    ghost fault = { relative_fault };

    ghost within = { relative-within };

    fn validate<S: Spec>(s: &str) -> Result<(), Error> {
        validate::relative_ref::<S>(s)
    }
}

impl Kind for Query {
    ghost fault = { query_fault };

    ghost within = { query-within };

    fn validate<S: Spec>(s: &str) -> Result<(), Error> {
        validate::query::<S>(s)
    }
}

impl Kind for Fragment {
    ghost fault = { fragment_fault };

    ghost within = { fragment-within };

    fn validate<S: Spec>(s: &str) -> Result<(), Error> {
        validate::fragment::<S>(s)
    }
}

impl WholeKind for Reference {
    ghost whole = { reference-whole };

    ghost allows = { allows_reference };

    ghost made = { reference-made };

    ghost allowed = { reference-allowed };
}

impl WholeKind for Iri {
    ghost whole = { iri-whole };

    ghost allows = { allows_iri };

    ghost made = { iri-made };

    ghost allowed = { iri-allowed };
}

impl WholeKind for Absolute {
    ghost whole = { absolute-whole };

    ghost allows = { allows_absolute };

    ghost made = { absolute-made };

    ghost allowed = { absolute-allowed };
}

impl WholeKind for Relative {
    ghost whole = { relative-whole };

    ghost allows = { allows_relative };

    ghost made = { relative-made };

    ghost allowed = { relative-allowed };
}

impl SchemeKind for Iri {
    ghost has_scheme = { iri-scheme };
}

impl SchemeKind for Absolute {
    ghost has_scheme = { absolute-scheme };
}

impl FragmentKind for Reference {
    ghost free_fragment = { λ scheme fragment other. refl };
}

impl FragmentKind for Iri {
    ghost free_fragment = { λ scheme fragment other. refl };
}

impl FragmentKind for Relative {
    ghost free_fragment = { λ scheme fragment other. refl };
}
