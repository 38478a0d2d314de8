// What the calls return besides the statuses of `iri_calls`.

/// Allocation failed.
pub const MEMORY: u8 = 10;

/// The crawler's product token is none.
pub const BAD_TOKEN: u8 = 11;

/// The rules don't allow the target.
pub const DISALLOWED: u8 = 12;
