// Canonical texts at the end of strings (RFC 3986 sections 5.2, 6.2.2 and 6.2.3).
ghost use Rattle.std.specs.Prelude.{◌≡◌, ◌++◌, ◌+◌, ◌<◌, ◌≤◌, None, OnErr, OnOk, length, string_bytes};
ghost use Rattle.std.specs.Prelude.{string_capacity, string_len};
ghost use Rattle.iri_grammar.specs.WholeFault.{iri_fault};
ghost use Rattle.iri_text.specs.Prefix.{IsPrefixAfter};
ghost use Rattle.iri_types.specs.SplitText.{split_text};
ghost use Rattle.iri_normal.specs.NormalForm.{canonical, canonical_in};
ghost use Rattle.iri_normal.specs.Resolver.{base_text};

use crate::canonical::show_canonical_in;
use crate::mode::CanonMode;
use crate::resolver::FixedBaseResolver;
use iri_grammar::spec::Spec;
use iri_text::StringSink;
use iri_types::kind::Reference;
use iri_types::split::SplitView;
use std::alloc::AllocError;

// Puts a canonical text to the end of a string, or a prefix of it where allocation fails.
fn append<'a, S: Spec>(
    dest: &mut String,
    mode: CanonMode,
    resolver: &FixedBaseResolver<'a, S>,
    reference: &SplitView<'a, S, Reference>,
) -> Result<(), AllocError>
    ensures whole { OnOk result (string_bytes dest.new ≡ string_bytes dest.old
        ++ canonical_in S.tests mode (base_text resolver.now) (split_text reference.now)) }
    ensures prefix { OnErr result (IsPrefixAfter (string_bytes dest.old)
        (canonical_in S.tests mode (base_text resolver.now) (split_text reference.now)) (string_bytes dest.new)) }
    ensures full { OnErr result (string_capacity dest.old < string_len dest.old
        + length (canonical_in S.tests mode (base_text resolver.now) (split_text reference.now))) }
    ensures room { string_capacity dest.old ≤ string_capacity dest.new }
{
    let mut sink = StringSink::new(dest);
    match show_canonical_in(&mut sink, mode, resolver, reference) {
        Ok(()) => Ok(()),
        Err(_) => Err(AllocError),
    }
}

impl<'a, S: Spec> FixedBaseResolver<'a, S> {
    /// Puts the canonical text of a reference against the base (RFC 3986 sections 5.2 and 6.2.2) to the end of a string.
    /// The string's capacity is no less than before.
    ///
    /// # Errors
    ///
    /// Where allocation fails, and only where what comes out is longer than the string's capacity; its text is unchanged
    /// then.
    ///
    /// ```
    /// use iri::resolve::FixedBaseResolver;
    /// use iri::types::{SplitView, UriAbsoluteStr};
    /// let page = FixedBaseResolver::new(UriAbsoluteStr::new("http://a/b/c/d;p?q")?);
    /// let mut line = String::from_str(rt.alloc(), "GET ")?;
    /// page.canonical_into(&mut line, &SplitView::new("../%67")?)?;
    /// assert_eq!(rt; line.as_str(), "GET http://a/b/g");
    /// ```
    pub fn canonical_into(
        &self,
        dest: &mut String,
        reference: &SplitView<'a, S, Reference>,
    ) -> Result<(), AllocError>
        ensures text { OnOk result (string_bytes dest.new ≡ string_bytes dest.old
            ++ canonical S.tests (base_text self.now) (split_text reference.now)) }
        ensures valid { iri_fault S.tests (canonical S.tests (base_text self.now) (split_text reference.now)) ≡ None }
        ensures unchanged { OnErr result (string_bytes dest.new ≡ string_bytes dest.old) }
        ensures full { OnErr result (string_capacity dest.old < string_len dest.old
            + length (canonical S.tests (base_text self.now) (split_text reference.now))) }
        ensures room { string_capacity dest.old ≤ string_capacity dest.new }
    {
        self.canonical_into_in(dest, CanonMode::Default, reference)
    }

    /// Puts the canonical text of a reference, by the rules of a mode, at the end of a string.
    ///
    /// # Errors
    ///
    /// As [`canonical_into`](FixedBaseResolver::canonical_into).
    pub fn canonical_into_in(
        &self,
        dest: &mut String,
        mode: CanonMode,
        reference: &SplitView<'a, S, Reference>,
    ) -> Result<(), AllocError>
        ensures text { OnOk result (string_bytes dest.new ≡ string_bytes dest.old
            ++ canonical_in S.tests mode (base_text self.now) (split_text reference.now)) }
        ensures valid { iri_fault S.tests (canonical_in S.tests mode (base_text self.now) (split_text reference.now))
            ≡ None }
        ensures unchanged { OnErr result (string_bytes dest.new ≡ string_bytes dest.old) }
        ensures full { OnErr result (string_capacity dest.old < string_len dest.old
            + length (canonical_in S.tests mode (base_text self.now) (split_text reference.now))) }
        ensures room { string_capacity dest.old ≤ string_capacity dest.new }
    {
        let len = dest.as_str().len();
        match append(dest, mode, self, reference) {
            Ok(()) => Ok(()),
            Err(error) => {
                dest.truncate(len);
                Err(error)
            }
        }
    }
}
