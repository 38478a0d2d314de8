//! Hosts of owned texts replaced in place (RFC 3986 section 3.2.2).
ghost use Rattle.std.specs.Borrow.{sem, follows_so};
ghost use Rattle.std.specs.Prelude.{◌≡◌, ℕ, ◌&&◌, ◌||◌, not, true, false, ⊤};
ghost use mathlib.Core.Option.{none};
ghost use Rattle.iri_edit.specs.Host.{HostChange};
ghost use Rattle.iri_edit.specs.inside.Places.{HostReplaced};
ghost use Rattle.iri_owned.specs.contracts.owned.Owned.{the_row};
ghost use Rattle.iri_grammar.specs.Classes.{Tests};
ghost use Rattle.iri_grammar.specs.Host.{is_host};
ghost use Rattle.iri_types.specs.Components.{is_named};

use crate::change::reference_of;
use crate::place::host_at;
use iri_grammar::host::host_is_reg_name;
use iri_grammar::spec::Spec;
use iri_grammar::validate;
use iri_owned::owned::Owned;
use iri_text::Show;
use iri_types::kind::WholeKind;
use std::alloc::AllocError;

/// Owned whole texts whose host can be replaced (RFC 3986 section 3.2.2).
pub trait ReplaceHost: Show {
    /// The classes of its characters.
    ghost tests: { Tests };

    /// How many bytes the text can have before it needs more memory.
    ghost capacity: { Self → ℕ };

    /// Puts another host in place of the text's, and answers the new host's slice. `None`, with no change, exactly
    /// where there is no authority or the new host is no host. The capacity never becomes less.
    ///
    /// # Errors
    ///
    /// Where allocation fails, and only where the host would be replaced and what comes out is longer than the capacity;
    /// the text is as it was then.
    ///
    /// ```
    /// use iri::edit::ReplaceHost;
    /// use iri::types::UriString;
    /// let mut link = UriString::try_from_str(rt.alloc(), "http://192.0.2.16:80/")?;
    /// assert_eq!(rt; link.try_replace_host("[2001:db8::7]")?, Some("[2001:db8::7]"));
    /// assert_eq!(rt; link.as_str(), "http://[2001:db8::7]:80/");
    /// ```
    fn try_replace_host(&mut self, new_host: &str) -> Result<Option<&str>, AllocError>
        ensures* host { sem 𝓛 (follows_so Self.row Self.row self.entry.ghost_name none (λ _ _. ⊤)
            (λ after. HostChange tests false Self.text capacity self.old after new_host.now result)) };

    /// Replaces the host where the old one is a registered name; `None` also where it is an IP literal or an IPv4 address.
    ///
    /// # Errors
    ///
    /// Where allocation fails, and only where the host would be replaced and what comes out is longer than the capacity;
    /// the text is as it was then.
    ///
    /// ```
    /// use iri::edit::ReplaceHost;
    /// use iri::types::UriString;
    /// let mut link = UriString::try_from_str(rt.alloc(), "http://192.0.2.16:80/")?;
    /// assert_eq!(rt; link.try_replace_host_reg_name("example.com")?, None);
    /// ```
    fn try_replace_host_reg_name(&mut self, new_host: &str) -> Result<Option<&str>, AllocError>
        ensures* host { sem 𝓛 (follows_so Self.row Self.row self.entry.ghost_name none (λ _ _. ⊤)
            (λ after. HostChange tests true Self.text capacity self.old after new_host.now result)) };
}

// Whether the host may be replaced by the new one.
pub(crate) fn may_replace<S: Spec>(host: &str, new_host: &str, names_only: bool) -> bool
    requires { is_host S.tests host.now ≡ true }
    ensures { result ≡ (is_host S.tests new_host.now && (not names_only || is_named host.now)) }
{
    match validate::host::<S>(new_host) {
        Ok(()) => !names_only || host_is_reg_name::<S>(host),
        Err(_) => false,
    }
}

// Replaces the host, and answers where the new one begins.
fn put_host<S: Spec, K: WholeKind>(
    owned: &mut Owned<S, K>,
    new_host: &str,
    names_only: bool,
) -> Result<Option<usize>, AllocError>
    ensures { HostReplaced S.tests names_only owned.old owned.new new_host.now result }
{
    let Some((start, host)) = host_at(reference_of(owned)) else {
        return Ok(None);
    };
    if !may_replace::<S>(host, new_host, names_only) {
        return Ok(None);
    }
    let end = start + host.len();
    owned.splice(start..end, new_host)?;
    Ok(Some(start))
}

// Replaces the host, and answers the new one's slice.
fn replace_host<'a, S: Spec, K: WholeKind>(
    owned: &'a mut Owned<S, K>,
    new_host: &str,
    names_only: bool,
) -> Result<Option<&'a str>, AllocError>
    ensures* { sem 𝓛 (follows_so (the_row S.row K.row S.Spec K.Kind)
        (the_row S.row K.row S.Spec K.Kind) owned.entry.ghost_name none (λ _ _. ⊤)
        (λ after. HostChange S.tests names_only (λ t. t.text) (λ t. t.capacity) owned.old after new_host.now result)) }
{
    match put_host(owned, new_host, names_only) {
        Ok(Some(start)) => Ok(Some(&owned.as_str()[start..start + new_host.len()])),
        Ok(None) => Ok(None),
        Err(error) => Err(error),
    }
}

impl<S: Spec, K: WholeKind> ReplaceHost for Owned<S, K> {
    ghost tests = { S.tests };

    ghost capacity = { λ t. t.capacity };

    fn try_replace_host(&mut self, new_host: &str) -> Result<Option<&str>, AllocError>
        ensures* host { sem 𝓛 (follows_so (the_row S.row K.row S.Spec K.Kind)
            (the_row S.row K.row S.Spec K.Kind) self.entry.ghost_name none (λ _ _. ⊤)
            (λ after. HostChange S.tests false (λ t. t.text) (λ t. t.capacity) self.old after new_host.now result)) }
    {
        replace_host(self, new_host, false)
    }

    fn try_replace_host_reg_name(&mut self, new_host: &str) -> Result<Option<&str>, AllocError>
        ensures* host { sem 𝓛 (follows_so (the_row S.row K.row S.Spec K.Kind)
            (the_row S.row K.row S.Spec K.Kind) self.entry.ghost_name none (λ _ _. ⊤)
            (λ after. HostChange S.tests true (λ t. t.text) (λ t. t.capacity) self.old after new_host.now result)) }
    {
        replace_host(self, new_host, true)
    }
}
