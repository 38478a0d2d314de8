// What the calls return.

/// Done.
pub const OK: u8 = 0;

/// The text has more bytes than the buffer.
pub const SHORT: u8 = 1;

/// The text isn't its own normal form.
pub const NOT_NORMAL: u8 = 2;

/// The text is refused.
pub const BAD_TEXT: u8 = 3;

/// The base is refused.
pub const BAD_BASE: u8 = 4;

/// The base is valid, and the reference is refused.
pub const BAD_REFERENCE: u8 = 5;

/// A number that stands for a grammar, a mode, a kind of text or a kind of fault stands for none.
pub const UNKNOWN: u8 = 6;

/// A variable hasn't as many texts as its kind asks, or has one that isn't UTF-8.
pub const BAD_VARIABLE: u8 = 7;

/// The text is valid, or there is none yet, and what is to stand in it is refused.
pub const BAD_PART: u8 = 8;

/// The text has no host, or none of the kind that may be replaced.
pub const NO_HOST: u8 = 9;
