//! Percent-encoded octets: normal forms, encoding, decoding, and the mapping of IRIs to URIs (RFC 3986 sections 2.1 and
//! 6.2.2, RFC 3987 section 3.1, the URL Standard, section 1.3).
//!
//! [`PercentEncoded`] shows a raw value encoded for its place in a reference. [`PctCaseNormalized`], [`NormalizedHost`] and
//! [`NormalizedAuthority`] show a part, a host and an authority in normal form; [`CanonMode`] says whether a scheme's default port goes
//! (RFC 3986 section 6.2.3). [`decode_whatwg_bytes`] decodes bytes.
//! [`MappedToUri`] shows a view mapped to a URI; [`ToUri`] and [`IntoUri`] have the calls on views and owned texts of IRIs.
//! `laws` has what holds of all texts.
//!
//! Proved: each shows exactly its definition, and allocates nothing. A percent-encoded octet is decoded, a stray `%` stays,
//! and the fragments, joined, are the decoded bytes. A mapped text is a text of the same kind of URIs; a text that couldn't
//! be mapped after an allocation failure is left as it was or handed back, and one in ASCII keeps its capacity.
//!
//! Not proved: the words of `DecodeTextError`'s `Display`, which `thiserror` makes; that memory is allocated, which tests show.
#![tactic(auto)]

mod authority;
pub mod canon_mode;
mod change;
pub mod character;
mod context;
mod decode;
mod encode;
mod encoder;
mod encoder_sink;
mod fragments;
mod host;
pub mod laws;
mod mapped;
mod mapped_kind;
mod mapper;
mod normal;
mod octets;
mod percent_encoded;
mod spelling;
mod triplets;
mod uris;

pub use authority::{NormalizedAuthority, is_dropped};
pub use canon_mode::CanonMode;
pub use decode::{DecodeTextError, PercentDecodedWhatwgBytes, decode_whatwg_bytes};
pub use fragments::{DecodedFragment, PercentDecodedBytesFragments};
pub use host::{NormalizedHost, is_ascii_host, is_plain};
pub use mapped::{MappedToUri, show_mapped_to_uri};
pub use mapped_kind::MappedKind;
pub use percent_encoded::{PercentEncoded, PercentEncodedForIri, PercentEncodedForUri};
pub use spelling::capital_digit;
pub use triplets::PctCaseNormalized;
pub use uris::{IntoUri, ToUri};
