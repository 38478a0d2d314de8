// Authorities in normal form.
ghost use Rattle.std.specs.Prelude.{◌≡◌, ◌++◌, true, Some};
ghost use Rattle.iri_grammar.specs.Authority.{FitsAuthority, is_authority, recompose_authority, userinfo_text};
ghost use Rattle.iri_grammar.specs.Characters.{colon};
ghost use Rattle.iri_grammar.specs.Components.{if_there};
ghost use Rattle.iri_grammar.specs.Cut.{delimited};
ghost use Rattle.iri_grammar.specs.Host.{is_host};
ghost use Rattle.iri_grammar.specs.OptionalSlices.{now_of};
ghost use Rattle.iri_grammar.specs.Spans.{span_parts};
ghost use Rattle.iri_percent.specs.NormalHost.{is_dropped, normal_authority_in, normal_authority_parts_in, normal_host};
ghost use Rattle.iri_percent.specs.NormalHost.{normal_port_in, normal_userinfo};
ghost use Rattle.iri_percent.specs.Units.{whole_triplets};
ghost use Rattle.iri_text.specs.Shown.{Shows};

use crate::host::NormalizedHost;
use crate::triplets::PctCaseNormalized;
use iri_grammar::authority::AuthoritySpan;
use iri_grammar::spec::Spec;
use iri_text::{FormatSink, Show, Stop, TextSink};
use std::alloc::AllocError;
use std::fmt;
use std::marker::PhantomData;

/// An authority that shows itself in normal form (RFC 3986 section 6.2.2): its userinfo in triplet normal form, its host in
/// normal form, and its port as it is. The port goes with its `:` where it is empty (section 6.2.3), or where it is the one
/// that is dropped, compared as text.
///
/// ```
/// use iri::format::ToStringFallible;
/// use iri::normalize::NormalizedAuthority;
/// use iri::spec::UriSpec;
/// let authority = NormalizedAuthority::<UriSpec>::new("%7eU@HOST:80", Some("80"));
/// assert_eq!(rt; authority.try_to_string(rt.alloc())?.as_str(), "~U@host");
/// ```
#[derive_where(Debug)]
pub struct NormalizedAuthority<'a, S: Spec> {
    authority: &'a str,
    dropped_port: Option<&'a str>,
    #[derive_where(skip(Debug))]
    spec: PhantomData<S>,
    pub ghost valid: { is_authority S.tests authority.now ≡ true },
}

impl<S: Spec> Clone for NormalizedAuthority<'_, S> {
    ghost is_clone = { λ v w. w ≡ v };

    ghost is_infallible = { λ _. Unit {0} };

    fn clone(&self) -> Result<Self, AllocError> {
        Ok(*self)
    }
}

impl<S: Spec> Copy for NormalizedAuthority<'_, S> {}

impl<'a, S: Spec> NormalizedAuthority<'a, S> {
    /// The normal form of an authority, without this port where one is given. It has a condition: the text is an
    /// authority of `S`, which `validate::authority` tests.
    pub fn new(authority: &'a str, dropped_port: Option<&'a str>) -> Self
        requires { is_authority S.tests authority.now ≡ true }
        ensures { (result.authority.now ≡ authority.now) × (now_of result.dropped_port ≡ now_of dropped_port.entry) }
    {
        NormalizedAuthority {
            authority,
            dropped_port,
            spec: PhantomData,
        }
    }
}

// The userinfo and its `@`, where there is one, in normal form.
fn show_userinfo<S: Spec, W: TextSink>(sink: &mut W, userinfo: Option<&str>) -> Result<(), Stop>
    requires { if_there whole_triplets (now_of userinfo) ≡ true }
    ensures { Shows W.puts W.halts W.stops sink.old
        (userinfo_text (normal_userinfo S.tests (now_of userinfo.entry))) sink.new result }
{
    let Some(userinfo) = userinfo else {
        return Ok(());
    };
    PctCaseNormalized::<S>::new(userinfo).show(sink)?;
    sink.put("@")
}

/// Whether the port is the one that is dropped; they are compared as text.
pub fn is_dropped(port: &str, dropped: Option<&str>) -> bool
    ensures { result ≡ is_dropped (now_of dropped.entry) port.now }
{
    match dropped {
        Some(dropped) => port == dropped,
        None => false,
    }
}

// The port, where it is neither empty nor the one that is dropped.
fn kept_port<'a>(port: Option<&'a str>, dropped: Option<&str>) -> Option<&'a str>
    ensures { now_of result ≡ normal_port_in (now_of dropped.entry) (now_of port.entry) }
{
    let Some(port) = port else {
        return None;
    };
    if port.is_empty() || is_dropped(port, dropped) {
        return None;
    }
    Some(port)
}

// The port and its colon, where there is one.
fn show_port<W: TextSink>(sink: &mut W, port: Option<&str>) -> Result<(), Stop>
    ensures { Shows W.puts W.halts W.stops sink.old (delimited colon (now_of port.entry)) sink.new result }
{
    let Some(port) = port else {
        return Ok(());
    };
    sink.put(":")?;
    sink.put(port)
}

// The host in normal form, and a port.
fn show_host_and_port<S: Spec, W: TextSink>(
    sink: &mut W,
    host: &str,
    port: Option<&str>,
) -> Result<(), Stop>
    requires { is_host S.tests host.now ≡ true }
    ensures { Shows W.puts W.halts W.stops sink.old
        (normal_host S.tests host.now ++ delimited colon (now_of port.entry)) sink.new result }
{
    NormalizedHost::<S>::new(host).show(sink)?;
    show_port(sink, port)
}

// The components of an authority in normal form.
#[tactic(auto, unfolding(iri_grammar::specs::Authority::recompose_authority))]
fn show_span<S: Spec, W: TextSink>(
    sink: &mut W,
    span: &AuthoritySpan<'_>,
    dropped: Option<&str>,
) -> Result<(), Stop>
    requires { FitsAuthority S.tests (span_parts span.now) }
    ensures { Shows W.puts W.halts W.stops sink.old
        (recompose_authority (normal_authority_parts_in S.tests (now_of dropped.entry) (span_parts span.now))) sink.new result }
{
    let port = kept_port(span.port(), dropped);
    show_userinfo::<S, W>(sink, span.userinfo())?;
    show_host_and_port::<S, W>(sink, span.host(), port)
}

impl<S: Spec> Show for NormalizedAuthority<'_, S> {
    ghost text = { λ a. normal_authority_in S.tests (now_of a.dropped_port) a.authority.now };

    fn show<W: TextSink>(&self, sink: &mut W) -> Result<(), Stop> {
        let span = AuthoritySpan::of::<S>(self.authority);
        show_span::<S, W>(sink, &span, self.dropped_port)
    }
}

impl<S: Spec> fmt::Display for NormalizedAuthority<'_, S> {
    ghost output = { λ a. Some (normal_authority_in S.tests (now_of a.dropped_port) a.authority.now) };

    ghost styled_output = { λ a _. Some (normal_authority_in S.tests (now_of a.dropped_port) a.authority.now) };

    fn fmt<W: fmt::Write>(&self, f: &mut fmt::Formatter<W>) -> fmt::Result {
        FormatSink::new(f).display(self)
    }
}
