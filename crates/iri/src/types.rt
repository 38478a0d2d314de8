//! Texts of a kind, borrowed and owned (RFC 3986 section 4, RFC 3987 section 2.2).

pub use iri_owned::error::{CreateError, CreationError};
pub use iri_owned::owned::{
    IriAbsoluteString, IriFragmentString, IriQueryString, IriReferenceString, IriRelativeString,
    IriString, Owned, RiAbsoluteString, RiFragmentString, RiQueryString, RiReferenceString,
    RiRelativeString, RiString, UriAbsoluteString, UriFragmentString, UriQueryString,
    UriReferenceString, UriRelativeString, UriString,
};
pub use iri_types::kind;
pub use iri_types::split::SplitView;
pub use iri_types::view::{
    IriAbsoluteStr, IriFragmentStr, IriQueryStr, IriReferenceStr, IriRelativeStr, IriStr,
    RiAbsoluteStr, RiFragmentStr, RiQueryStr, RiReferenceStr, RiRelativeStr, RiStr, UriAbsoluteStr,
    UriFragmentStr, UriQueryStr, UriReferenceStr, UriRelativeStr, UriStr, View,
};
