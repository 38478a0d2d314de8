// The page's address.
ghost use Rattle.iri.specs.types.Texts.{text};
ghost use Rattle.std.specs.Prelude.{◌≡◌, IfOk};

use iri::types::UriAbsoluteStr;
use iri::validate::Error;

/// The bytes as a page's address, or their first fault.
pub fn page_of(bytes: &[u8]) -> Result<UriAbsoluteStr<'_>, Error>
    ensures text { IfOk result (λ page. text page ≡ bytes.now) }
{
    UriAbsoluteStr::try_from_bytes(bytes)
}
