// Views that show themselves mapped to URIs.
ghost use Rattle.std.specs.Prelude.{◌≡◌, drop, take};
ghost use Rattle.std.specs.Str.{IsAscii};
ghost use Rattle.iri_grammar.specs.Runs.{run_of};
ghost use Rattle.iri_text.specs.Shown.{Shows};
ghost use Rattle.iri_types.specs.Texts.{text};
ghost use Rattle.iri_percent.specs.Mapping.{mapped};
ghost use Rattle.iri_percent.specs.inside.MapRuns.{goes_on};

use crate::mapped_kind::MappedKind;
use crate::mapper::Mapper;
use crate::spelling::put_triplets;
use iri_grammar::cutting::run_len;
use iri_grammar::spec::{Spec, UriSpec};
use iri_owned::owned::Owned;
use iri_text::{FormatSink, Show, Stop, TextSink, ToDedicatedString, try_append_to_string};
use iri_types::view::View;
use std::alloc::{AllocError, Global};
use std::fmt;
use std::marker::PhantomData;

/// A view that shows itself mapped to a URI (RFC 3987 section 3.1): each character past ASCII is written as the
/// percent-encoded octets of its UTF-8, with capital hex digits; the rest stays. `V` is a view of any kind and any
/// grammar.
///
/// ```
/// use iri::convert::MappedToUri;
/// use iri::format::ToDedicatedString;
/// use iri::types::IriReferenceStr;
/// let shown = MappedToUri::of(IriReferenceStr::new("/rosé")?);
/// assert_eq!(rt; shown.try_to_dedicated_string(rt.alloc())?.as_str(), "/ros%C3%A9");
/// ```
#[derive(Clone, Copy, Debug)]
pub struct MappedToUri<'a, V> {
    view: V,
    lifetime: PhantomData<&'a ()>,
}

impl<'a, S: Spec, K: MappedKind> MappedToUri<'a, View<'a, S, K>> {
    /// The mapping of a view. Nothing is done yet.
    pub fn of(view: View<'a, S, K>) -> Self
        ensures { text result.view ≡ text view.entry }
    {
        MappedToUri {
            view,
            lifetime: PhantomData,
        }
    }
}

fn goes_on(b: u8, past: bool) -> bool
    ensures { result ≡ goes_on past b }
{
    (b < 128) != past
}

fn going_on_len(bytes: &[u8], past: bool) -> usize
    ensures { result ≡ run_of (goes_on past) bytes.now }
{
    run_len(bytes, |b| goes_on(b, past))
}

// The longest run at the start of ASCII bytes, or of bytes past ASCII, and the rest.
#[tactic(auto, using(iri_grammar::proofs::units::FirstUnits::run_of_le))]
fn split_run(bytes: &[u8], past: bool) -> (&[u8], &[u8])
    ensures run { result.0.now ≡ take (run_of (goes_on past) bytes.now) bytes.now }
    ensures rest { result.1.now ≡ drop (run_of (goes_on past) bytes.now) bytes.now }
{
    bytes.split_at(going_on_len(bytes, past))
}

#[tactic(auto, using(crate::proofs::coding::SpelledTriplets::spelled_texts))]
fn put_ascii<W: TextSink>(sink: &mut W, bytes: &[u8]) -> Result<(), Stop>
    requires { IsAscii bytes.now }
    ensures { Shows W.puts W.halts W.stops sink.old bytes.now sink.new result }
{
    sink.put(unsafe { str::from_utf8_unchecked(bytes) })
}

// Writes a text mapped, run by run.
fn put_runs<W: TextSink>(sink: &mut W, bytes: &[u8]) -> Result<(), Stop>
    ensures { Shows W.puts W.halts W.stops sink.old (mapped bytes.now) sink.new result }
{
    let mut rest = bytes;
    while !rest.is_empty() {
        let (plain, tail) = split_run(rest, false);
        put_ascii(sink, plain)?;
        let (octets, tail) = split_run(tail, true);
        put_triplets(sink, octets)?;
        rest = tail;
    }
    Ok(())
}

#[tactic(auto, using(crate::proofs::mapping::Runs::ascii_stays))]
fn show_mapped<W: TextSink>(sink: &mut W, text: &str) -> Result<(), Stop>
    ensures { Shows W.puts W.halts W.stops sink.old (mapped text.now) sink.new result }
{
    if text.is_ascii() {
        return sink.put(text);
    }
    put_runs(sink, text.as_bytes())
}

impl<'s, W: TextSink> TextSink for Mapper<'s, W> {
    ghost use Rattle.iri_percent.specs.inside.MapperText.{MapperPuts, MapperHalts, mapper_rules};

    ghost puts = { MapperPuts W.puts };

    ghost halts = { MapperHalts W.halts };

    ghost stops = { λ m. W.stops m.to.now };

    ghost rules = { mapper_rules W.rules };

    fn put(&mut self, piece: &str) -> Result<(), Stop> {
        show_mapped(&mut *self.to, piece)
    }
}

// Shows a value to the sink of a mapper.
fn show_to<T: Show, W: TextSink>(mapper: &mut Mapper<W>, value: &T) -> Result<(), Stop>
    ensures shows { Shows W.puts W.halts W.stops mapper.old.to.now (mapped (T.text value.now)) mapper.new.to.now result }
    ensures same { mapper.new.to.ghost_name ≡ mapper.old.to.ghost_name }
{
    value.show(mapper)
}

/// Shows a value mapped to a URI (RFC 3987 section 3.1): each character past ASCII is written as the percent-encoded octets of its
/// UTF-8; the rest stays. Allocates nothing.
///
/// # Errors
///
/// Only where the sink's count of stops rises; the sink has stopped within the mapped text then.
///
/// ```
/// use iri::convert::show_mapped_to_uri;
/// use iri::format::SliceSink;
/// use iri::prelude::Normalize;
/// use iri::types::IriStr;
/// let mut buffer = [0; 32];
/// let mut sink = SliceSink::new(&mut buffer);
/// assert!(rt; show_mapped_to_uri(&mut sink, &IriStr::new("http://a/b/../rosé")?.normalize()).is_ok());
/// assert_eq!(rt; sink.as_str(), "http://a/ros%C3%A9");
/// ```
pub fn show_mapped_to_uri<T: Show, W: TextSink>(sink: &mut W, value: &T) -> Result<(), Stop>
    ensures { Shows W.puts W.halts W.stops sink.old (mapped (T.text value.now)) sink.new result }
{
    show_to(&mut Mapper::new(sink), value)
}

impl<'a, S: Spec, K: MappedKind> Show for MappedToUri<'a, View<'a, S, K>> {
    ghost text = { λ m. mapped (text m.view) };

    fn show<W: TextSink>(&self, sink: &mut W) -> Result<(), Stop> {
        show_mapped(sink, self.view.as_str())
    }
}

impl<'a, S: Spec, K: MappedKind> fmt::Display for MappedToUri<'a, View<'a, S, K>> {
    ghost use Rattle.std.specs.Prelude.{Some};

    ghost output = { λ m. Some (mapped (text m.view)) };

    ghost styled_output = { λ m _. Some (mapped (text m.view)) };

    fn fmt<W: fmt::Write>(&self, f: &mut fmt::Formatter<W>) -> fmt::Result {
        FormatSink::new(f).display(self)
    }
}

impl<'a, S: Spec, K: MappedKind> ToDedicatedString for MappedToUri<'a, View<'a, S, K>> {
    type Target = Owned<UriSpec, K>;

    /// The mapped text, as an owned text of the same kind.
    ///
    /// # Errors
    ///
    /// Where allocation fails.
    fn try_to_dedicated_string(&self, alloc: Global) -> Result<Owned<UriSpec, K>, AllocError> {
        let mut text = String::with_capacity(alloc, self.view.as_str().len())?;
        try_append_to_string(&mut text, self)?;
        K::mapped_is_valid();
        Ok(Owned::from_valid(text))
    }
}
