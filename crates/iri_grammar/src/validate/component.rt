// The validators of single components (RFC 3986 section 3, RFC 3987 section 2.2).
ghost use Rattle.std.specs.Prelude.{◌≡◌};
ghost use Rattle.iri_grammar.specs.Fault.{Answers, unless, scheme_fault, userinfo_fault, host_fault, reg_name_fault};
ghost use Rattle.iri_grammar.specs.Fault.{port_fault, path_fault, path_segment_fault, query_fault, fragment_fault};
ghost use Rattle.iri_grammar.specs.Fault.{authority_fault};

use crate::authority::{AuthoritySpan, is_port};
use crate::class::Class;
use crate::error::{Error, ErrorKind};
use crate::host::is_host;
use crate::ipv4::is_ipv4;
use crate::over::{is_over, is_run};
use crate::spec::Spec;
use crate::splitter::is_scheme;

// Ok where the test passed, otherwise the fault.
fn ok_where(passed: bool, fault: ErrorKind) -> Result<(), Error>
    ensures { Answers result (unless passed fault) }
{
    if passed {
        Ok(())
    } else {
        Err(Error::new(fault))
    }
}

/// Whether the text is a `scheme` (RFC 3986 section 3.1).
///
/// # Errors
///
/// `InvalidScheme` exactly where it is none.
///
/// ```
/// use iri::validate;
/// assert!(rt; validate::scheme("view-source").is_ok());
/// assert!(rt; validate::scheme("1a").is_err());
/// ```
pub fn scheme(s: &str) -> Result<(), Error>
    ensures { Answers result (scheme_fault s.now) }
{
    ok_where(is_scheme(s), ErrorKind::InvalidScheme)
}

/// Whether the text is a `userinfo` (RFC 3986 section 3.2.1).
///
/// # Errors
///
/// `InvalidUserInfo` exactly where it is none.
///
/// ```
/// use iri::spec::UriSpec;
/// use iri::validate;
/// assert!(rt; validate::userinfo::<UriSpec>("user:password").is_ok());
/// assert!(rt; validate::userinfo::<UriSpec>("user@example").is_err());
/// ```
pub fn userinfo<S: Spec>(s: &str) -> Result<(), Error>
    ensures { Answers result (userinfo_fault S.tests s.now) }
{
    ok_where(is_over::<S>(Class::Userinfo, s), ErrorKind::InvalidUserInfo)
}

/// Whether the text is a `host` (RFC 3986 section 3.2.2).
///
/// # Errors
///
/// `InvalidHost` exactly where it is none.
///
/// ```
/// use iri::spec::UriSpec;
/// use iri::validate;
/// assert!(rt; validate::host::<UriSpec>("[2001:db8::7]").is_ok());
/// assert!(rt; validate::host::<UriSpec>("[1::2::3]").is_err());
/// ```
pub fn host<S: Spec>(s: &str) -> Result<(), Error>
    ensures { Answers result (host_fault S.tests s.now) }
{
    ok_where(is_host::<S>(s), ErrorKind::InvalidHost)
}

/// Whether the text is a `reg-name` and no IPv4 address (RFC 3986 section 3.2.2).
///
/// # Errors
///
/// `InvalidRegName` exactly where it isn't.
///
/// ```
/// use iri::spec::UriSpec;
/// use iri::validate;
/// assert!(rt; validate::reg_name::<UriSpec>("www.example.com").is_ok());
/// assert!(rt; validate::reg_name::<UriSpec>("192.0.2.16").is_err());
/// ```
pub fn reg_name<S: Spec>(s: &str) -> Result<(), Error>
    ensures { Answers result (reg_name_fault S.tests s.now) }
{
    ok_where(
        is_over::<S>(Class::RegName, s) && !is_ipv4(s),
        ErrorKind::InvalidRegName,
    )
}

/// Whether the text is a `port`: digits, possibly none (RFC 3986 section 3.2.3).
///
/// # Errors
///
/// `InvalidPort` exactly where it is none.
///
/// ```
/// use iri::validate;
/// assert!(rt; validate::port("8042").is_ok());
/// assert!(rt; validate::port("80a").is_err());
/// ```
pub fn port(s: &str) -> Result<(), Error>
    ensures { Answers result (port_fault s.now) }
{
    ok_where(is_port(s), ErrorKind::InvalidPort)
}

/// Whether the text is made of the characters of a path, in any place of them (RFC 3986 section 3.3). What a path may
/// be beside the other parts, the calls for whole texts test.
///
/// # Errors
///
/// `InvalidPath` exactly where it isn't.
///
/// ```
/// use iri::spec::UriSpec;
/// use iri::validate;
/// assert!(rt; validate::path::<UriSpec>("/over/there").is_ok());
/// assert!(rt; validate::path::<UriSpec>("/over?there").is_err());
/// ```
pub fn path<S: Spec>(s: &str) -> Result<(), Error>
    ensures { Answers result (path_fault S.tests s.now) }
{
    ok_where(is_over::<S>(Class::Path, s), ErrorKind::InvalidPath)
}

/// Whether the text is a `segment` of a path (RFC 3986 section 3.3).
///
/// # Errors
///
/// `InvalidPath` exactly where it is none.
///
/// ```
/// use iri::spec::UriSpec;
/// use iri::validate;
/// assert!(rt; validate::path_segment::<UriSpec>("name;v=1.1").is_ok());
/// assert!(rt; validate::path_segment::<UriSpec>("a/b").is_err());
/// ```
pub fn path_segment<S: Spec>(s: &str) -> Result<(), Error>
    ensures { Answers result (path_segment_fault S.tests s.now) }
{
    ok_where(is_over::<S>(Class::Pchar, s), ErrorKind::InvalidPath)
}

/// Whether the text is a `query` (RFC 3986 section 3.4, RFC 3987 section 2.2).
///
/// # Errors
///
/// `InvalidQuery` exactly where it is none.
///
/// ```
/// use iri::spec::UriSpec;
/// use iri::validate;
/// assert!(rt; validate::query::<UriSpec>("name=ferret").is_ok());
/// assert!(rt; validate::query::<UriSpec>("a#b").is_err());
/// ```
pub fn query<S: Spec>(s: &str) -> Result<(), Error>
    ensures { Answers result (query_fault S.tests s.now) }
{
    ok_where(is_over::<S>(Class::Query, s), ErrorKind::InvalidQuery)
}

/// Whether the text is a `fragment` (RFC 3986 section 3.5).
///
/// # Errors
///
/// `InvalidFragment` exactly where it is none.
///
/// ```
/// use iri::spec::UriSpec;
/// use iri::validate;
/// assert!(rt; validate::fragment::<UriSpec>("nose").is_ok());
/// assert!(rt; validate::fragment::<UriSpec>("%4").is_err());
/// ```
pub fn fragment<S: Spec>(s: &str) -> Result<(), Error>
    ensures { Answers result (fragment_fault S.tests s.now) }
{
    ok_where(is_over::<S>(Class::Fragment, s), ErrorKind::InvalidFragment)
}

/// Whether the text is an `authority` (RFC 3986 section 3.2).
///
/// # Errors
///
/// Exactly where it is none: `InvalidUserInfo` where what comes before the first `@` is no userinfo, and otherwise
/// `InvalidHost`.
///
/// ```
/// use iri::spec::UriSpec;
/// use iri::validate::{self, ErrorKind};
/// assert!(rt; validate::authority::<UriSpec>("example.com:8042").is_ok());
/// let error = validate::authority::<UriSpec>("[user]@[host").err().ok_or("a fault")?;
/// assert_eq!(rt; error.kind(), ErrorKind::InvalidUserInfo);
/// ```
#[tactic(auto, using(crate::proofs::faults::PlainTails::plain_name))]
pub fn authority<S: Spec>(s: &str) -> Result<(), Error>
    ensures { Answers result (authority_fault S.tests s.now) }
{
    // Most are a name alone: one look, and no search for an `@` and a colon.
    if is_run(Class::RegName, s) {
        return Ok(());
    }
    let parts = AuthoritySpan::cut(s);
    if let Some(u) = parts.userinfo() {
        userinfo::<S>(u)?;
    }
    host::<S>(parts.host())
}
