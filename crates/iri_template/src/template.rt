//! Borrowed templates (RFC 6570 section 2).
ghost use Rattle.std.specs.Prelude.{◌≡◌, ◌≤◌, ◌==◌, ◌+◌, ◌*◌, ⊤, length, IfErr, IfOk, OnOk, MatchResult, None, Some};
ghost use Rattle.iri_template.specs.Fault.{Answers, text_fault, template_fault};
ghost use Rattle.iri_template.specs.Places.{placed_names};
ghost use Rattle.iri_template.specs.Portions.{portions};
ghost use Rattle.iri_template.specs.Reading.{pieces_of};
ghost use Rattle.iri_template.specs.Tells.{WhereTold, MovesBy, Raises, later};
ghost use Rattle.iri_template.specs.Template.{names_of};
ghost use Rattle.iri_template.specs.TypeFaults.{type_fault};
ghost use Rattle.iri_template.specs.Variables.{names_left, places_left};
ghost use Rattle.iri_template.specs.Writings.{EndsAs, HasCause, CallsUpTo, IsString, IsOfString};

use crate::context::Context;
use crate::dynamic_context::DynamicContext;
use crate::error::{Error, ErrorKind};
use crate::expanded::Expanded;
use crate::expansion_writer::write_expansion;
use crate::fault::check_template;
use crate::type_check::check_types;
use crate::variables::UriTemplateVariables;
use iri_grammar::spec::Spec;
use iri_text::{FormatSink, Show, Stop, StringSink, TextSink};
use std::alloc::{AllocError, Global};
use std::marker::PhantomData;
use std::{fmt, str};

/// A URI template, borrowed (RFC 6570 section 2). It is as small as a `&str`. Templates are equal, ordered and hashed
/// as their texts.
///
/// ```
/// use iri::template::UriTemplateStr;
/// let template = UriTemplateStr::new("http://example.com/~{username}/{term:1}/{term}{?q*,lang}")?;
/// let mut names = template.variables();
/// for name in ["username", "term", "term", "q", "lang"] {
///     assert_eq!(rt; names.next().ok_or("a name")?.as_str(), name);
/// }
/// assert!(rt; names.next().is_none());
/// ```
#[derive(Debug, PartialEq, Eq, PartialOrd, Ord, Hash)]
pub struct UriTemplateStr<'a> {
    text: &'a str,
    pub ghost valid: { ∥ text_fault text.now ≡ None ∥₁ },
}

impl Clone for UriTemplateStr<'_> {
    ghost is_clone = { λ v w. w ≡ v };

    ghost is_infallible = { λ _. Unit {0} };

    fn clone(&self) -> Result<Self, AllocError> {
        Ok(*self)
    }
}

impl Copy for UriTemplateStr<'_> {}

impl<'a> UriTemplateStr<'a> {
    ghost use Rattle.iri_template.specs.Texts.{text};

    /// The template with this text.
    ///
    /// # Errors
    ///
    /// Exactly where it is none: its first fault, and the place of that in bytes.
    ///
    /// ```
    /// use iri::template::UriTemplateStr;
    /// let error = UriTemplateStr::new("/a/{b").err().ok_or("a fault")?;
    /// assert_eq!(rt; error.location(), 3);
    /// ```
    pub fn new(s: &'a str) -> Result<Self, Error>
        ensures fault { Answers result (text_fault s.now) }
        ensures text { IfOk result (λ v. text v ≡ s.now) }
    {
        match check_template(s) {
            Ok(()) => Ok(UriTemplateStr { text: s }),
            Err(error) => Err(error),
        }
    }

    /// The template of bytes that are the UTF-8 of its text.
    ///
    /// # Errors
    ///
    /// - `InvalidUtf8` where the bytes aren't UTF-8; its place is after the longest prefix that is.
    /// - Otherwise the first fault of the text, exactly where it is no template, and its place in bytes.
    ///
    /// ```
    /// use iri::template::{ErrorKind, UriTemplateStr};
    /// let error = UriTemplateStr::try_from_bytes(b"a\xFF").err().ok_or("a fault")?;
    /// assert_eq!(rt; error.kind(), ErrorKind::InvalidUtf8);
    /// assert_eq!(rt; error.location(), 1);
    /// ```
    #[tactic(auto, using(crate::proofs::FaultLemmas::of_text, crate::proofs::FaultLemmas::of_bytes))]
    pub fn try_from_bytes(b: &'a [u8]) -> Result<Self, Error>
        ensures fault { Answers result (template_fault b.now) }
        ensures text { IfOk result (λ v. text v ≡ b.now) }
    {
        match str::from_utf8(b) {
            Ok(s) => UriTemplateStr::new(s),
            Err(error) => Err(Error::new(ErrorKind::InvalidUtf8, error.valid_up_to())),
        }
    }

    /// The template with this text, without a test. It has a condition: the text is a template, which `new` tests.
    pub fn from_valid(s: &'a str) -> Self
        requires { text_fault s.now ≡ None }
        ensures { text result ≡ s.now }
    {
        UriTemplateStr { text: s }
    }

    /// The text.
    pub fn as_str(self) -> &'a str
        ensures text { result.now ≡ text self.entry }
        ensures valid { text_fault result.now ≡ None }
    {
        self.text
    }

    /// How many bytes the text has.
    pub fn len(self) -> usize
        ensures { result ≡ length (text self.entry) }
    {
        self.text.len()
    }

    /// Whether the text has no bytes.
    pub fn is_empty(self) -> bool
        ensures { result ≡ (length (text self.entry) == 0) }
    {
        self.text.is_empty()
    }

    /// The names of the variables, from left to right, each as often as it stands there.
    pub fn variables(self) -> UriTemplateVariables<'a>
        ensures names { names_left result ≡ names_of (pieces_of (text self.entry)) }
        ensures places { places_left result ≡ placed_names 0 (pieces_of (text self.entry)) }
    {
        UriTemplateVariables::of(self.text)
    }

    /// The expansion for URIs or IRIs, with the values of a context (RFC 6570 section 3). Nothing is written and no
    /// memory is taken.
    ///
    /// # Errors
    ///
    /// `UnexpectedValueType` exactly where a variable with a prefix length has a list or an associative array that
    /// isn't empty (RFC 6570 section 2.4.1); its place is the first byte of the first such varspec.
    ///
    /// ```
    /// use iri::format::{Text, ToStringFallible};
    /// use iri::spec::UriSpec;
    /// use iri::template::UriTemplateStr;
    /// use iri::template::simple_context::{SimpleContext, Value};
    /// let mut values = SimpleContext::new(rt.alloc());
    /// let name = String::from_str(rt.alloc(), "var")?;
    /// let value = Text::from_string(String::from_str(rt.alloc(), "value")?);
    /// assert!(rt; values.insert(name, Value::String(value)).is_ok());
    /// for (template, text) in [("{var}", "value"), ("{var:3}", "val"), ("{?var}", "?var=value"), ("{;var:3}", ";var=val")] {
    ///     let expanded = UriTemplateStr::new(template)?.expand::<UriSpec, SimpleContext>(&values)?;
    ///     assert_eq!(rt; expanded.try_to_string(rt.alloc())?.as_str(), text);
    /// }
    /// ```
    pub fn expand<S: Spec, C: Context>(self, context: &'a C) -> Result<Expanded<'a, S, C>, Error>
        ensures fault { Answers result (type_fault (C.value_of context.now) (pieces_of (text self.entry))) }
        ensures expanded { IfOk result (λ e. (text e.template ≡ text self.entry) × (e.context.now ≡ context.now)) }
    {
        match check_types(context, self) {
            Err(error) => Err(error),
            Ok(()) => Ok(Expanded {
                template: self,
                context,
                spec: PhantomData,
            }),
        }
    }

    /// Writes the expansion with the values of a context that may change from call to call, to any sink (RFC 6570
    /// section 3). Each varspec's value is looked at, and then written; it allocates nothing.
    ///
    /// # Errors
    ///
    /// Where the context says its values, no later varspec is visited then.
    ///
    /// - `UnexpectedValueType` exactly where a varspec with a prefix length was told a list or an associative array
    ///   that isn't empty, at either of the two, at its first byte; exactly the text before that varspec was written
    ///   then.
    /// - `WriteFailed` only where the sink stopped, at the first byte of the varspec, or of the literals and
    ///   percent-encoded octets between expressions, within whose text it stopped; all text before it was written.
    ///
    /// ```
    /// use iri::format::SliceSink;
    /// use iri::spec::UriSpec;
    /// use iri::template::UriTemplateStr;
    /// use iri::template::context::Fixed;
    /// use iri::template::simple_context::SimpleContext;
    /// let values = SimpleContext::new(rt.alloc());
    /// let mut fixed = Fixed::new(&values);
    /// let mut buffer = [0; 32];
    /// let mut sink = SliceSink::new(&mut buffer);
    /// UriTemplateStr::new("/search{?q}")?.expand_dynamic::<UriSpec, SliceSink<'_>, Fixed<'_, SimpleContext>>(&mut sink, &mut fixed)?;
    /// assert_eq!(rt; sink.as_str(), "/search");
    /// ```
    pub fn expand_dynamic<S: Spec, W: TextSink, C: DynamicContext>(
        self,
        writer: &mut W,
        context: &mut C,
    ) -> Result<(), Error>
        ensures written { WhereTold (C.tells context.old)
            (λ f. EndsAs W.puts W.halts (portions S.tests (later 1 f) (pieces_of (text self.entry))) writer.old writer.new
            result) }
        ensures cause { HasCause (W.stops writer.old) (W.stops writer.new) result }
        ensures later { W.stops writer.old ≤ W.stops writer.new }
        ensures started { Raises (C.starts context.old) (C.starts context.new) }
        ensures ended { Raises (C.ends context.old) (C.ends context.new) }
        ensures moves { OnOk result (MovesBy (2 * length (names_of (pieces_of (text self.entry))) + 2) (C.tells context.old)
            (C.tells context.new)) }
        ensures refused { IfErr result (λ e. WhereTold (C.tells context.old)
            (λ f. CallsUpTo (portions S.tests (later 1 f) (pieces_of (text self.entry))) e.location 2
            (C.tells context.old) (C.tells context.new))) }
    {
        context.on_expansion_start();
        let result = write_expansion::<C, S, W>(writer, context, self.text);
        context.on_expansion_end();
        result
    }

    /// That expansion as a string.
    ///
    /// # Errors
    ///
    /// - `UnexpectedValueType` as there.
    /// - `Memory` where allocation fails, at the places of `WriteFailed`, which never comes.
    ///
    /// ```
    /// use iri::spec::UriSpec;
    /// use iri::template::UriTemplateStr;
    /// use iri::template::context::Fixed;
    /// use iri::template::simple_context::SimpleContext;
    /// let values = SimpleContext::new(rt.alloc());
    /// let template = UriTemplateStr::new("/search{?q}")?;
    /// let mut fixed = Fixed::new(&values);
    /// let text = template.expand_dynamic_to_string::<UriSpec, Fixed<'_, SimpleContext>>(rt.alloc(), &mut fixed)?;
    /// assert_eq!(rt; text.as_str(), "/search");
    /// ```
    pub fn expand_dynamic_to_string<S: Spec, C: DynamicContext>(
        self,
        alloc: Global,
        context: &mut C,
    ) -> Result<String, Error>
        ensures written { WhereTold (C.tells context.old)
            (λ f. IsString (portions S.tests (later 1 f) (pieces_of (text self.entry))) result) }
        ensures kinds { MatchResult result (λ _. ⊤) (λ e. IsOfString e.kind) }
        ensures started { Raises (C.starts context.old) (C.starts context.new) }
        ensures ended { Raises (C.ends context.old) (C.ends context.new) }
        ensures moves { OnOk result (MovesBy (2 * length (names_of (pieces_of (text self.entry))) + 2) (C.tells context.old)
            (C.tells context.new)) }
        ensures refused { IfErr result (λ e. WhereTold (C.tells context.old)
            (λ f. CallsUpTo (portions S.tests (later 1 f) (pieces_of (text self.entry))) e.location 2
            (C.tells context.old) (C.tells context.new))) }
    {
        let mut dest = String::new(alloc);
        let mut sink = StringSink::new(&mut dest);
        match self.expand_dynamic::<S, StringSink<'_>, C>(&mut sink, context) {
            Ok(()) => Ok(dest),
            Err(error) => Err(error.in_memory()),
        }
    }
}

impl Show for UriTemplateStr<'_> {
    ghost use Rattle.iri_template.specs.Texts.{text};

    ghost text = { λ v. text v };

    fn show<W: TextSink>(&self, sink: &mut W) -> Result<(), Stop> {
        sink.put(self.text)
    }
}

impl fmt::Display for UriTemplateStr<'_> {
    ghost use Rattle.iri_template.specs.Texts.{text};

    ghost output = { λ v. Some (text v) };

    ghost styled_output = { λ v _. Some (text v) };

    fn fmt<W: fmt::Write>(&self, f: &mut fmt::Formatter<W>) -> fmt::Result {
        FormatSink::new(f).display(self)
    }
}
