// What a replay has reached. Each text stands on its own, so that a step changes one of them in place.

// The parts of an authority, and whether its host is ASCII, which no step changes.
#[derive(Drop)]
pub(crate) struct ReachedAuthority {
    pub(crate) userinfo: Option<String>,
    pub(crate) host: String,
    pub(crate) in_ascii: bool,
    pub(crate) port: Option<String>,
}

// The parts of a target.
#[derive(Drop)]
pub(crate) struct Reached {
    pub(crate) scheme: String,
    pub(crate) authority: Option<ReachedAuthority>,
    pub(crate) path: String,
    pub(crate) query: Option<String>,
    pub(crate) fragment: Option<String>,
}
