//! Fragments of owned texts changed in place (RFC 3986 section 3.5).
ghost use Rattle.std.specs.Prelude.{◌≡◌, ℕ, ◌<◌, ◌≤◌, IsSome, None, OnErr, OnOk, Some, length, option_map};
ghost use Rattle.iri_edit.specs.Fragment.{with_fragment};
ghost use Rattle.iri_edit.specs.inside.Places.{IsFragmentAt};
ghost use Rattle.iri_types.specs.Texts.{text};

use crate::change::{cut_out, put_in_room, reference_of};
use iri_grammar::cutting::cut_before;
use iri_grammar::spec::Spec;
use iri_owned::owned::Owned;
use iri_text::Show;
use iri_types::kind::FragmentKind;
use iri_types::view::{RiFragmentStr, RiReferenceStr};
use std::alloc::AllocError;

// Where the fragment's `#` is, or the end of the text where there is none; and the end.
fn fragment_at<S: Spec>(reference: RiReferenceStr<'_, S>) -> (usize, usize)
    ensures { IsFragmentAt (text reference.entry) result.0 result.1 }
{
    let text = reference.as_str();
    (cut_before(text, b'#').0.len(), text.len())
}

// Takes out the fragment and its number sign.
fn remove_fragment<S: Spec, K: FragmentKind>(owned: &mut Owned<S, K>)
    ensures text { owned.new.text ≡ with_fragment owned.old.text None }
    ensures capacity { owned.new.capacity ≡ owned.old.capacity }
{
    let (start, end) = fragment_at(reference_of(owned));
    cut_out(owned, start, end);
}

// Puts a fragment in place of the text's, or after a text that has none.
fn put_fragment<S: Spec, K: FragmentKind>(
    owned: &mut Owned<S, K>,
    fragment: RiFragmentStr<'_, S>,
) -> Result<(), AllocError>
    ensures ok { OnOk result (owned.new.text ≡ with_fragment owned.old.text (Some (text fragment.entry))) }
    ensures err { OnErr result (owned.new ≡ owned.old) }
    ensures full { OnErr result (owned.old.capacity
        < length (with_fragment owned.old.text (Some (text fragment.entry)))) }
    ensures room { owned.old.capacity ≤ owned.new.capacity }
{
    let (start, end) = fragment_at(reference_of(owned));
    owned.try_reserve(fragment.len().saturating_add(1).saturating_sub(end - start))?;
    put_in_room(owned, start, end, "#");
    let end = owned.as_str().len();
    put_in_room(owned, end, end, fragment.as_str());
    Ok(())
}

/// Owned texts that may have a fragment (RFC 3986 section 3.5).
pub trait SetFragment<F: Show>: Show {
    /// How many bytes the text can have before it needs more memory.
    ghost capacity: { Self → ℕ };

    /// Puts a fragment in place of the text's, or after a text that has none; `None` takes out the fragment and its
    /// `#`, and allocates nothing. The capacity never becomes less.
    ///
    /// # Errors
    ///
    /// Where allocation fails, and only where a fragment is given and what comes out is longer than the capacity; the
    /// text is as it was then.
    ///
    /// ```
    /// use iri::edit::SetFragment;
    /// use iri::types::{UriFragmentStr, UriString};
    /// let mut link = UriString::try_from_str(rt.alloc(), "http://a/b")?;
    /// link.set_fragment(Some(UriFragmentStr::new("s")?))?;
    /// assert_eq!(rt; link.as_str(), "http://a/b#s");
    /// link.set_fragment(None::<UriFragmentStr<'_>>)?;
    /// assert_eq!(rt; link.as_str(), "http://a/b");
    /// ```
    fn set_fragment(&mut self, fragment: Option<F>) -> Result<(), AllocError>
        ensures ok { OnOk result (Self.text self.new
            ≡ with_fragment (Self.text self.old) (option_map F.text fragment)) }
        ensures err { OnErr result (self.new ≡ self.old) }
        ensures some { OnErr result (IsSome fragment) }
        ensures full { OnErr result (capacity self.old
            < length (with_fragment (Self.text self.old) (option_map F.text fragment))) }
        ensures capacity { fragment ≡ None → capacity self.new ≡ capacity self.old }
        ensures room { capacity self.old ≤ capacity self.new };
}

impl<'f, S: Spec, K: FragmentKind> SetFragment<RiFragmentStr<'f, S>> for Owned<S, K> {
    ghost capacity = { λ t. t.capacity };

    fn set_fragment(&mut self, fragment: Option<RiFragmentStr<'f, S>>) -> Result<(), AllocError>
        ensures ok { OnOk result (self.new.text
            ≡ with_fragment self.old.text (option_map (λ f. text f) fragment.entry)) }
        ensures err { OnErr result (self.new ≡ self.old) }
        ensures some { OnErr result (IsSome fragment.entry) }
        ensures full { OnErr result (self.old.capacity
            < length (with_fragment self.old.text (option_map (λ f. text f) fragment.entry))) }
        ensures capacity { fragment.entry ≡ None → self.new.capacity ≡ self.old.capacity }
        ensures room { self.old.capacity ≤ self.new.capacity }
    {
        match fragment {
            Some(fragment) => put_fragment(self, fragment),
            None => {
                remove_fragment(self);
                Ok(())
            }
        }
    }
}
