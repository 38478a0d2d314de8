//! The parts of a text (RFC 3986 section 3) and of its authority (section 3.2).
//!
//! ```
//! use iri::class::is_unreserved;
//! use iri::components::{AuthoritySpan, Splitter, host_is_reg_name};
//! use iri::spec::UriSpec;
//! let parts = Splitter::new::<UriSpec>("foo://example.com:8042/over/there?name=ferret#nose")?;
//! assert_eq!(rt; parts.path(), "/over/there");
//! let authority = AuthoritySpan::of::<UriSpec>(parts.authority().ok_or("an authority")?);
//! assert_eq!(rt; authority.host(), "example.com");
//! assert!(rt; host_is_reg_name::<UriSpec>(authority.host()));
//! assert!(rt; is_unreserved::<UriSpec>('~'));
//! ```

pub use iri_grammar::authority::AuthoritySpan;
pub use iri_grammar::host::host_is_reg_name;
pub use iri_grammar::seen::Seen;
pub use iri_grammar::splitter::Splitter;
pub use iri_types::authority::AuthorityComponents;
