// The version of the library that runs.
ghost use Rattle.std.specs.Prelude.{◌*◌, ◌+◌, ◌≡◌};

use iri_calls::version::{self, MAJOR, MINOR, PATCH};

/// The version as one number, in which each of its three has two digits.
#[unsafe(no_mangle)]
pub extern "C" fn irikit_version() -> u32
    ensures { result ≡ 10000 * MAJOR + 100 * MINOR + PATCH }
{
    version::irikit_version()
}
