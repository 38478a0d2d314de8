//! References resolved against a base (RFC 3986 section 5.2).

pub use iri_normal::resolver::FixedBaseResolver;
pub use iri_normal::target_text::show_target;
pub use iri_normal::views::ResolveAgainst;
