//! The kinds of texts that a builder makes, and the components that it validates.
ghost use Rattle.std.specs.Prelude.{◌≡◌, Bool, ℕ, List, None, Option, true};
ghost use Rattle.iri_edit.specs.inside.BuildKinds.{reference-allows, iri-allows, absolute-allows, relative-allows};
ghost use Rattle.iri_edit.specs.inside.BuildKinds.{host-within, userinfo-within};
ghost use Rattle.iri_edit.specs.Built.{reference_refusal, iri_refusal, absolute_refusal, relative_refusal};
ghost use Rattle.iri_grammar.specs.Fault.{host_fault, port_fault, scheme_fault, userinfo_fault};
ghost use Rattle.iri_grammar.specs.declared.error.ErrorKind.{ErrorKind};

use iri_grammar::error::{Error, ErrorKind};
use iri_grammar::spec::Spec;
use iri_grammar::validate;
use iri_types::kind::{Absolute, Iri, Kind, Reference, Relative, WholeKind};

/// A kind of whole text that a builder can make.
///
/// ```
/// use iri::build::BuildKind;
/// use iri::types::kind::{Absolute, Reference};
/// assert!(rt; Reference::refuse(false, true).is_none());
/// assert!(rt; Absolute::refuse(true, true).is_some());
/// ```
pub trait BuildKind: WholeKind {
    /// What the kind refuses, by whether a scheme and a fragment are given.
    ghost refusal: { Bool → Bool → Option ErrorKind };

    /// What the kind refuses of parts that are each in their production, by whether a scheme and a fragment are given;
    /// `None` exactly where it refuses nothing.
    fn refuse(scheme: bool, fragment: bool) -> Option<ErrorKind>
        ensures { result ≡ refusal scheme fragment };

    /// What isn't refused is allowed.
    ghost unrefused: { (scheme fragment : Bool) → refusal scheme fragment ≡ None → Self.allows scheme fragment ≡ true };
}

impl BuildKind for Reference {
    ghost refusal = { reference_refusal };

    ghost unrefused = { reference-allows };

    fn refuse(_scheme: bool, _fragment: bool) -> Option<ErrorKind> {
        None
    }
}

impl BuildKind for Iri {
    ghost refusal = { iri_refusal };

    ghost unrefused = { iri-allows };

    fn refuse(scheme: bool, _fragment: bool) -> Option<ErrorKind> {
        if scheme {
            None
        } else {
            Some(ErrorKind::UnexpectedRelative)
        }
    }
}

impl BuildKind for Absolute {
    ghost refusal = { absolute_refusal };

    ghost unrefused = { absolute-allows };

    fn refuse(scheme: bool, fragment: bool) -> Option<ErrorKind> {
        if !scheme {
            Some(ErrorKind::UnexpectedRelative)
        } else if fragment {
            Some(ErrorKind::UnexpectedFragment)
        } else {
            None
        }
    }
}

impl BuildKind for Relative {
    ghost refusal = { relative_refusal };

    ghost unrefused = { relative-allows };

    fn refuse(scheme: bool, _fragment: bool) -> Option<ErrorKind> {
        if scheme {
            Some(ErrorKind::InvalidScheme)
        } else {
            None
        }
    }
}

// `scheme` (RFC 3986 section 3.1).
#[derive(Clone, Copy)]
pub(crate) enum Scheme {}

// `userinfo` (section 3.2.1).
#[derive(Clone, Copy)]
pub(crate) enum Userinfo {}

// `host` (section 3.2.2).
#[derive(Clone, Copy)]
pub(crate) enum Host {}

// `port` (section 3.2.3).
#[derive(Clone, Copy)]
pub(crate) enum Port {}

impl Kind for Scheme {
    ghost fault = { λ _. scheme_fault };

    ghost within = { λ s k t h. h };

    fn validate<S: Spec>(s: &str) -> Result<(), Error> {
        validate::scheme(s)
    }
}

impl Kind for Userinfo {
    ghost fault = { userinfo_fault };

    ghost within = { userinfo-within };

    fn validate<S: Spec>(s: &str) -> Result<(), Error> {
        validate::userinfo::<S>(s)
    }
}

impl Kind for Host {
    ghost fault = { host_fault };

    ghost within = { host-within };

    fn validate<S: Spec>(s: &str) -> Result<(), Error> {
        validate::host::<S>(s)
    }
}

impl Kind for Port {
    ghost fault = { λ _. port_fault };

    ghost within = { λ s k t h. h };

    fn validate<S: Spec>(s: &str) -> Result<(), Error> {
        validate::port(s)
    }
}
