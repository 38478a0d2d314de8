//! Owned templates.
ghost use Rattle.std.specs.Prelude.{◌≡◌, ◌≤◌, ◌<◌, ◌+◌, ◌++◌, length, MatchResult, None, Some, IfOk, OnOk, OnErr, IsOk};
ghost use Rattle.std.proofs.Common.{refl, rules};
ghost use Rattle.std.specs.Cmp.{partial_equiv_from_equiv};
ghost use Rattle.std.specs.Cmp.Rules.{hashing};
ghost use Rattle.std.specs.Hash as fed;
ghost use Rattle.std.specs.String.{string_bytes, string_capacity};
ghost use Rattle.iri_owned.specs.Laws.{text_eq_equiv, text_cmp_total, text_ties, text_po};
ghost use Rattle.iri_owned.specs.OwnedText.{owned_text, text_eq, text_cmp};
ghost use Rattle.iri_template.specs.Fault.{text_fault, template_fault};
ghost use Rattle.iri_template.specs.Refusals.{RefusedFor};
ghost use Rattle.iri_template.specs.Texts.{text};

use crate::creation::{CreateTemplateError, CreationError};
use crate::template::UriTemplateStr;
use iri_text::{FormatSink, Show, Stop, TextSink};
use std::alloc::{AllocError, Global};
use std::cmp::Ordering;
use std::fmt;
use std::hash::{Hash, Hasher};
use std::marker::Model;

/// A URI template, owned (RFC 6570 section 2). It is seen as its UTF-8 bytes and its capacity. Templates are equal,
/// ordered and hashed as their texts.
///
/// ```
/// use iri::template::{UriTemplateStr, UriTemplateString};
/// let mut template = UriTemplateString::try_from_str(rt.alloc(), "/search")?;
/// template.append(UriTemplateStr::new("{?q}")?)?;
/// assert_eq!(rt; template.as_str(), "/search{?q}");
/// ```
#[derive(Debug, Drop)]
pub struct UriTemplateString {
    text: String,
}

impl Model for UriTemplateString {
    ghost use Rattle.std.specs.Prelude.{◌≡◌, None};
    ghost use Rattle.std.specs.String.{string_bytes};
    ghost use Rattle.iri_owned.specs.OwnedText.{OwnedText, owned_text};
    ghost use Rattle.iri_template.specs.Fault.{text_fault};

    ghost Value = { OwnedText };

    ghost view = { λ t. owned_text t.text };

    ghost invariant = { λ t. text_fault (string_bytes t.text) ≡ None };
}

// Puts a template after a text that is one. What comes out is one, whether there is memory or not.
fn push_template(whole: &mut String, other: UriTemplateStr<'_>) -> Result<(), AllocError>
    requires { text_fault (string_bytes whole.old) ≡ None }
    ensures valid { text_fault (string_bytes whole.new) ≡ None }
    ensures text { OnOk result (string_bytes whole.new ≡ string_bytes whole.old ++ text other.entry) }
    ensures capacity { string_capacity whole.old ≤ string_capacity whole.new }
    ensures same { OnErr result (owned_text whole.new ≡ owned_text whole.old) }
    ensures full { OnErr result (string_capacity whole.old
        < length (string_bytes whole.old) + length (text other.entry)) }
{
    whole.try_reserve(other.len())?;
    whole.push_str(other.as_str())
}

impl UriTemplateString {
    /// A copy of a text that is a template.
    ///
    /// # Errors
    ///
    /// - `Invalid` exactly where it is none: its first fault.
    /// - `Memory` where allocation fails; the text has no fault then.
    pub fn try_from_str(alloc: Global, s: &str) -> Result<Self, CreateTemplateError>
        ensures { MatchResult result (λ t. t.text ≡ s.now) (λ e. RefusedFor e (text_fault s.now)) }
    {
        let view = UriTemplateStr::new(s).map_err(CreateTemplateError::Invalid)?;
        UriTemplateString::from_view(alloc, view).map_err(CreateTemplateError::Memory)
    }

    /// A copy of bytes that are the UTF-8 of a template.
    ///
    /// # Errors
    ///
    /// - `Invalid` with `InvalidUtf8` where the bytes aren't UTF-8, which is tested first.
    /// - `Invalid` exactly where the text is no template: its first fault.
    /// - `Memory` where allocation fails; the text has no fault then.
    pub fn try_from_bytes(alloc: Global, b: &[u8]) -> Result<Self, CreateTemplateError>
        ensures { MatchResult result (λ t. t.text ≡ b.now) (λ e. RefusedFor e (template_fault b.now)) }
    {
        let view = UriTemplateStr::try_from_bytes(b).map_err(CreateTemplateError::Invalid)?;
        UriTemplateString::from_view(alloc, view).map_err(CreateTemplateError::Memory)
    }

    /// A string whose text is a template. It allocates nothing.
    ///
    /// # Errors
    ///
    /// Exactly where it is none: its first fault, with the string handed back.
    pub fn try_from_string(s: String) -> Result<Self, CreationError<String>>
        ensures { MatchResult result (λ t. t ≡ owned_text s)
            (λ e. (e.source ≡ s) × (text_fault (string_bytes s) ≡ Some e.error)) }
    {
        match UriTemplateStr::new(s.as_str()) {
            Ok(_) => Ok(UriTemplateString { text: s }),
            Err(error) => Err(CreationError { source: s, error }),
        }
    }

    /// A copy of a borrowed template.
    ///
    /// # Errors
    ///
    /// Where allocation fails.
    pub fn from_view(alloc: Global, view: UriTemplateStr<'_>) -> Result<Self, AllocError>
        ensures { IfOk result (λ t. t.text ≡ text view.entry) }
    {
        let text = String::from_str(alloc, view.as_str())?;
        Ok(UriTemplateString { text })
    }

    /// The template, borrowed.
    pub fn as_slice(&self) -> UriTemplateStr<'_>
        ensures { text result ≡ self.now.text }
    {
        UriTemplateStr::from_valid(self.text.as_str())
    }

    /// The text.
    pub fn as_str(&self) -> &str
        ensures text { result.now ≡ self.now.text }
        ensures valid { text_fault result.now ≡ None }
    {
        self.text.as_str()
    }

    /// The text as a string. It allocates nothing.
    pub fn into_string(self) -> String
        ensures text { owned_text result ≡ self }
        ensures valid { text_fault (string_bytes result) ≡ None }
    {
        self.text
    }

    /// How many bytes the text can have before it needs more memory.
    pub fn capacity(&self) -> usize
        ensures capacity { result ≡ self.now.capacity }
        ensures room { length self.now.text ≤ result }
    {
        self.text.capacity()
    }

    /// Gives back memory that the text doesn't need, and all of it where the text is empty.
    ///
    /// # Errors
    ///
    /// None: where a smaller place is refused, the text stays in the one that it has.
    pub fn shrink_to_fit(&mut self) -> Result<(), AllocError>
        ensures succeeds { IsOk result }
        ensures text { self.new.text ≡ self.old.text }
        ensures capacity { self.new.capacity ≤ self.old.capacity }
        ensures frees { length self.old.text ≡ 0 → self.new.capacity ≡ 0 }
    {
        self.text.shrink_to_fit();
        Ok(())
    }

    /// Puts another template after this one.
    ///
    /// # Errors
    ///
    /// Where allocation fails, and only where both texts together are longer than the capacity; nothing changes then.
    pub fn append(&mut self, other: UriTemplateStr<'_>) -> Result<(), AllocError>
        ensures text { OnOk result (self.new.text ≡ self.old.text ++ text other.entry) }
        ensures capacity { self.old.capacity ≤ self.new.capacity }
        ensures same { OnErr result (self.new ≡ self.old) }
        ensures full { OnErr result (self.old.capacity < length self.old.text + length (text other.entry)) }
    {
        push_template(&mut self.text, other)
    }

    /// A copy.
    ///
    /// # Errors
    ///
    /// Where allocation fails.
    pub fn try_clone(&self, alloc: Global) -> Result<Self, AllocError>
        ensures { IfOk result (λ t. t.text ≡ self.now.text) }
    {
        UriTemplateString::from_view(alloc, self.as_slice())
    }
}

impl PartialEq for UriTemplateString {
    ghost eq = { text_eq };

    ghost laws = { partial_equiv_from_equiv text_eq_equiv };

    fn eq(&self, other: &Self) -> bool {
        self.as_str() == other.as_str()
    }
}

impl Eq for UriTemplateString {
    ghost laws = { text_eq_equiv };
}

impl PartialOrd for UriTemplateString {
    ghost partial_cmp = { λ x y. Some (text_cmp x y) };

    ghost laws = { text_po };

    fn partial_cmp(&self, other: &Self) -> Option<Ordering> {
        Some(self.cmp(other))
    }
}

impl Ord for UriTemplateString {
    ghost cmp = { text_cmp };

    ghost total = { text_cmp_total };

    ghost matches_partial_cmp = { λ x y. refl };

    ghost matches_eq = { text_ties };

    fn cmp(&self, other: &Self) -> Ordering {
        self.as_str().cmp(other.as_str())
    }
}

impl Hash for UriTemplateString {
    ghost hash_input = { λ t. fed.str t.text };

    ghost respects_eq = { Prim.search (hashing, rules) };

    fn hash<H: Hasher>(&self, state: &mut H) {
        self.as_str().hash(state);
    }
}

impl Show for UriTemplateString {
    ghost text = { λ t. t.text };

    fn show<W: TextSink>(&self, sink: &mut W) -> Result<(), Stop> {
        sink.put(self.as_str())
    }
}

impl fmt::Display for UriTemplateString {
    ghost output = { λ t. Some t.text };

    ghost styled_output = { λ t _. Some t.text };

    fn fmt<W: fmt::Write>(&self, f: &mut fmt::Formatter<W>) -> fmt::Result {
        FormatSink::new(f).display(self)
    }
}
