//! Views of whole texts together with their one split (RFC 3986 section 3).
ghost use Rattle.std.specs.Prelude.{◌≡◌, IfOk};
ghost use Rattle.std.proofs.Props.{props};
ghost use Rattle.iri_grammar.specs.Fault.{Answers, bytes_fault};
ghost use Rattle.iri_grammar.specs.Parts.{Fits};
ghost use Rattle.iri_grammar.specs.Split.{split_of};
ghost use Rattle.iri_grammar.specs.Splitters.{parts};
ghost use Rattle.iri_grammar.specs.WholeFault.{absolute_fault, reference_fault};
ghost use Rattle.iri_types.specs.Texts.{text};

use crate::kind::{Absolute, Reference, WholeKind};
use crate::utf8::text_of;
use crate::view::View;
use iri_grammar::error::{Error, ErrorKind};
use iri_grammar::spec::Spec;
use iri_grammar::splitter::Splitter;
use std::alloc::AllocError;
use std::str;

/// A view and its five parts, which are split once. A program that asks for several parts of a text, or resolves many
/// references against one base, keeps this in place of the view.
///
/// ```
/// use iri::spec::UriSpec;
/// use iri::types::SplitView;
/// let link = SplitView::<UriSpec, _>::new("../g?y#s")?;
/// assert_eq!(rt; link.parts().path(), "../g");
/// assert_eq!(rt; link.parts().fragment(), Some("s"));
/// ```
#[derive_where(Debug)]
pub struct SplitView<'a, S: Spec, K: WholeKind> {
    view: View<'a, S, K>,
    cut: Splitter<'a>,
    pub ghost is_cut: { parts cut ≡ split_of (text view) } by { Prim.hlevel props },
}

impl<S: Spec, K: WholeKind> Clone for SplitView<'_, S, K> {
    ghost is_clone = { λ a b. b ≡ a };

    ghost is_infallible = { λ _. Unit {0} };

    fn clone(&self) -> Result<Self, AllocError> {
        Ok(*self)
    }
}

impl<S: Spec, K: WholeKind> Copy for SplitView<'_, S, K> {}

impl<'a, S: Spec, K: WholeKind> SplitView<'a, S, K> {
    ghost use Rattle.iri_types.specs.SplitText.{split_text};

    /// A view, split into its parts.
    pub fn of(view: View<'a, S, K>) -> Self
        ensures { split_text result ≡ text view.entry }
    {
        let cut = view.parts();
        SplitView { view, cut }
    }

    /// The view.
    pub fn view(&self) -> View<'a, S, K>
        ensures { text result ≡ split_text self.now }
    {
        self.view
    }

    /// The parts.
    pub fn parts(&self) -> &Splitter<'a>
        ensures split { parts result.now ≡ split_of (split_text self.now) }
        ensures fits { Fits S.tests (parts result.now) }
    {
        &self.cut
    }
}

impl<'a, S: Spec> SplitView<'a, S, Reference> {
    ghost use Rattle.iri_types.specs.SplitText.{split_text};

    /// The split view of bytes that are the UTF-8 of a reference: the same as `View::try_from_bytes` and `of`, in one
    /// scan of the text.
    ///
    /// # Errors
    ///
    /// - `InvalidUtf8` where the bytes aren't UTF-8, which is tested first.
    /// - Otherwise the first fault of the text, exactly where it is no reference.
    #[inline(always)]
    pub fn try_from_bytes(b: &'a [u8]) -> Result<Self, Error>
        ensures fault { Answers result (bytes_fault (reference_fault S.tests) b.now) }
        ensures text { IfOk result (λ v. split_text v ≡ b.now) }
    {
        match Splitter::from_bytes::<S>(b) {
            Ok(cut) => {
                let s = unsafe { str::from_utf8_unchecked(b) };
                Ok(SplitView {
                    view: View::from_valid(s),
                    cut,
                })
            }
            Err(error) => Err(error),
        }
    }

    /// The split view of a text that is a reference.
    ///
    /// # Errors
    ///
    /// Exactly where the text is none: the first fault from the left.
    #[inline(always)]
    pub fn new(s: &'a str) -> Result<Self, Error>
        ensures fault { Answers result (reference_fault S.tests s.now) }
        ensures text { IfOk result (λ v. split_text v ≡ s.now) }
    {
        match Splitter::new::<S>(s) {
            Ok(cut) => Ok(SplitView {
                view: View::from_valid(s),
                cut,
            }),
            Err(error) => Err(error),
        }
    }
}

impl<'a, S: Spec> SplitView<'a, S, Absolute> {
    ghost use Rattle.iri_types.specs.SplitText.{split_text};

    /// The split view of bytes that are the UTF-8 of an absolute URI: the same as `View::try_from_bytes` and `of`, in one
    /// scan of the text.
    ///
    /// # Errors
    ///
    /// - `InvalidUtf8` where the bytes aren't UTF-8, which is tested first.
    /// - Otherwise the first fault of the text, exactly where it is no absolute URI.
    ///
    /// ```
    /// use iri::spec::UriSpec;
    /// use iri::types::SplitView;
    /// let page = SplitView::<UriSpec, _>::absolute_from_bytes(b"http://a/b?c")?;
    /// assert_eq!(rt; page.parts().path(), "/b");
    /// assert!(rt; SplitView::<UriSpec, _>::absolute_from_bytes(b"b?c").is_err());
    /// ```
    pub fn absolute_from_bytes(b: &'a [u8]) -> Result<Self, Error>
        ensures fault { Answers result (bytes_fault (absolute_fault S.tests) b.now) }
        ensures text { IfOk result (λ v. split_text v ≡ b.now) }
    {
        match text_of(b) {
            Some(s) => SplitView::absolute(s),
            None => Err(Error::new(ErrorKind::InvalidUtf8)),
        }
    }

    /// The split view of a text that is an absolute URI.
    ///
    /// # Errors
    ///
    /// Exactly where the text is none: the first fault from the left.
    pub fn absolute(s: &'a str) -> Result<Self, Error>
        ensures fault { Answers result (absolute_fault S.tests s.now) }
        ensures text { IfOk result (λ v. split_text v ≡ s.now) }
    {
        match Splitter::absolute::<S>(s) {
            Ok(cut) => Ok(SplitView {
                view: View::from_valid(s),
                cut,
            }),
            Err(error) => Err(error),
        }
    }
}
