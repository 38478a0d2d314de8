//! What the scan of a reference notes on its way.

/// The notes of a scan. A note that is false promises what it says of the parts; one that is true promises nothing.
///
/// ```
/// use iri::components::Splitter;
/// use iri::spec::UriSpec;
/// let seen = Splitter::new::<UriSpec>("../g?%7e")?.seen();
/// assert!(rt; seen.dots);
/// assert!(rt; seen.query_triplets);
/// ```
#[derive(Clone, Copy, Debug)]
pub struct Seen {
    /// The path may have percent-encoded octets.
    pub path_triplets: bool,
    /// The query may have some.
    pub query_triplets: bool,
    /// The fragment may have some.
    pub fragment_triplets: bool,
    /// A segment of the path may begin with a dot, in any spelling: one that doesn't is no dot segment.
    pub dots: bool,
    /// Scheme or authority may have a capital letter.
    pub capitals: bool,
    /// The authority may be other than a registered name in ASCII without percent-encoded octets, with a port that isn't
    /// empty or without one.
    pub other_authority: bool,
}
