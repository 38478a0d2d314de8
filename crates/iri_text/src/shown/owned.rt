// Texts that own their memory.
ghost use Rattle.std.specs.Prelude.{◌≡◌, IfOk, string_bytes};

use crate::{Show, try_append_to_string};
use std::alloc::{AllocError, Global};

/// What can be made a string.
///
/// ```
/// use iri::format::ToStringFallible;
/// assert_eq!(rt; 8042u16.try_to_string(rt.alloc())?.as_str(), "8042");
/// ```
pub trait ToStringFallible: Show {
    /// The text as a string.
    ///
    /// # Errors
    ///
    /// Where allocation fails.
    fn try_to_string(&self, alloc: Global) -> Result<String, AllocError>
        ensures { IfOk result (λ s. string_bytes s ≡ Self.text self.now) };
}

impl<T: Show> ToStringFallible for T {
    fn try_to_string(&self, alloc: Global) -> Result<String, AllocError> {
        let mut text = String::new(alloc);
        try_append_to_string(&mut text, self)?;
        Ok(text)
    }
}

/// What can be made a value of a type that owns its text, as a resolved reference can be made an owned URI.
///
/// ```
/// use iri::prelude::{ResolveAgainst, ToDedicatedString};
/// use iri::types::{UriAbsoluteStr, UriReferenceStr, UriString};
/// let base = UriAbsoluteStr::new("http://a/b/c/d;p?q")?;
/// let target: UriString = UriReferenceStr::new("../g")?.resolve_against(base).try_to_dedicated_string(rt.alloc())?;
/// assert_eq!(rt; target.as_str(), "http://a/b/g");
/// ```
pub trait ToDedicatedString: Show {
    /// The type that owns the text.
    type Target: Show;

    /// The same text, owned.
    ///
    /// # Errors
    ///
    /// Where allocation fails.
    fn try_to_dedicated_string(&self, alloc: Global) -> Result<Self::Target, AllocError>
        ensures { IfOk result (λ t. Self.Target.text t ≡ Self.text self.now) };
}
