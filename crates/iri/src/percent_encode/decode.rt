//! Bytes percent-decoded (the URL Standard, section 1.3).

pub use iri_percent::{
    DecodeTextError, DecodedFragment, PercentDecodedBytesFragments, PercentDecodedWhatwgBytes,
    decode_whatwg_bytes,
};
