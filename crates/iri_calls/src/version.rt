// The version of the library that runs.
ghost use Rattle.std.specs.Prelude.{◌≡◌, ◌+◌, ◌*◌};

/// The number before the first dot of the version.
pub const MAJOR: u32 = 0;

/// That between its dots.
pub const MINOR: u32 = 2;

/// That after its last dot.
pub const PATCH: u32 = 0;

/// The version as one number, in which each of its three has two digits.
pub fn irikit_version() -> u32
    ensures { result ≡ 10000 * MAJOR + 100 * MINOR + PATCH }
{
    10_000 * MAJOR + 100 * MINOR + PATCH
}
