// Changes of an authority at one place, in place.
ghost use Rattle.std.specs.Prelude.{◌≡◌, ◌∷◌, [], ◌<◌, ◌≤◌, ◌++◌, IfOk, None, OnOk, length, string_bytes, true};
ghost use Rattle.iri_grammar.specs.Authority.{is_authority, authority_parts, recompose_authority, userinfo_text};
ghost use Rattle.iri_grammar.specs.Components.{if_there};
ghost use Rattle.iri_grammar.specs.Cut.{delimited};
ghost use Rattle.iri_grammar.specs.OptionalSlices.{now_of};
ghost use Rattle.iri_normal.specs.Resolver.{bytes_of};
ghost use Rattle.iri_resolve.specs.inside.ChangeOf.{change_of};
ghost use Rattle.iri_resolve.specs.NormalSteps.{is_port_dropped};
ghost use Rattle.iri_resolve.specs.inside.Reached.{IsRead, IsReadThere, ReadOn, ReadOnThere, authority_of, authority_text};
ghost use Rattle.iri_resolve.specs.inside.Reached.{is_port_empty};
ghost use Rattle.iri_resolve.specs.Steps.{host_start, in_userinfo_or_host, with_small_letter_in_host};
ghost use Rattle.iri_resolve.specs.Steps.{without_dropped_port, without_empty_port};
ghost use Rattle.iri_grammar.specs.Characters.{colon};

use crate::change::{Change, changed, changed_there, small_host_letter};
use crate::reached::ReachedAuthority;
use iri_grammar::authority::AuthoritySpan;
use iri_grammar::spec::Spec;
use iri_percent::{is_ascii_host, is_dropped};
use std::alloc::{AllocError, Global};

// A part that may stand, borrowed.
#[tactic(auto, using(iri_normal::proofs::Borrowed::borrowed))]
pub(crate) fn borrowed(part: &Option<String>) -> Option<&str>
    ensures { now_of result ≡ bytes_of part.now }
{
    part.as_deref()
}

// A copy of a part that may stand.
pub(crate) fn copied(alloc: Global, part: Option<&str>) -> Result<Option<String>, AllocError>
    ensures { IfOk result (λ copy. bytes_of copy ≡ now_of part.entry) }
{
    match part {
        Some(part) => Ok(Some(String::from_str(alloc, part)?)),
        None => Ok(None),
    }
}

// The parts of an authority, each on its own.
fn read<S: Spec>(alloc: Global, authority: &str) -> Result<ReachedAuthority, AllocError>
    requires { is_authority S.tests authority.now ≡ true }
    ensures parts { IfOk result (λ a. authority_of a ≡ authority_parts authority.now) }
    ensures read { IfOk result (λ a. IsRead S.tests a) }
{
    let span = AuthoritySpan::of::<S>(authority);
    let in_ascii = is_ascii_host(span.host().as_bytes());
    let userinfo = copied(alloc, span.userinfo())?;
    let host = String::from_str(alloc, span.host())?;
    let port = copied(alloc, span.port())?;
    Ok(ReachedAuthority {
        userinfo,
        host,
        in_ascii,
        port,
    })
}

// The same of an authority that may stand.
pub(crate) fn read_there<S: Spec>(
    alloc: Global,
    authority: Option<&str>,
) -> Result<Option<ReachedAuthority>, AllocError>
    requires { if_there (is_authority S.tests) (now_of authority) ≡ true }
    ensures text { IfOk result (λ a. authority_text a ≡ now_of authority.entry) }
    ensures read { IfOk result (λ a. IsReadThere S.tests a) }
{
    let Some(authority) = authority else {
        return Ok(None);
    };
    let read = read::<S>(alloc, authority)?;
    Ok(Some(read))
}

// The userinfo and the `@` after it, where it stands.
fn push_userinfo(text: &mut String, userinfo: Option<&str>) -> Result<(), AllocError>
    ensures { OnOk result (string_bytes text.new ≡ string_bytes text.old ++ userinfo_text (now_of userinfo.entry)) }
{
    let Some(userinfo) = userinfo else {
        return Ok(());
    };
    text.push_str(userinfo)?;
    text.push_str("@")
}

// The port and the colon before it, where it stands.
fn push_port(text: &mut String, port: Option<&str>) -> Result<(), AllocError>
    ensures { OnOk result (string_bytes text.new ≡ string_bytes text.old ++ delimited colon (now_of port.entry)) }
{
    let Some(port) = port else {
        return Ok(());
    };
    text.push_str(":")?;
    text.push_str(port)
}

// The parts of an authority in one text.
#[tactic(auto, unfolding(iri_grammar::specs::Authority::recompose_authority))]
fn recomposed(alloc: Global, authority: &ReachedAuthority) -> Result<String, AllocError>
    ensures { IfOk result (λ text. string_bytes text ≡ recompose_authority (authority_of authority.now)) }
{
    let mut text = String::new(alloc);
    push_userinfo(&mut text, borrowed(&authority.userinfo))?;
    text.push_str(authority.host.as_str())?;
    push_port(&mut text, borrowed(&authority.port))?;
    Ok(text)
}

// The same of an authority that may stand.
pub(crate) fn recomposed_there(
    alloc: Global,
    authority: &Option<ReachedAuthority>,
) -> Result<Option<String>, AllocError>
    ensures { IfOk result (λ text. bytes_of text ≡ authority_text authority.now) }
{
    let Some(authority) = authority else {
        return Ok(None);
    };
    let text = recomposed(alloc, authority)?;
    Ok(Some(text))
}

// Where the host begins.
fn host_start(authority: &ReachedAuthority) -> usize
    ensures { result ≡ host_start (authority_of authority.now) }
{
    match borrowed(&authority.userinfo) {
        Some(userinfo) => userinfo.len() + 1,
        None => 0,
    }
}

// A change of percent-encoded octets at i, in the userinfo or the host.
fn changed_in_parts<S: Spec>(
    authority: &mut ReachedAuthority,
    change: Change,
    i: usize,
) -> Result<bool, AllocError>
    requires { IsRead S.tests authority.old }
    ensures { IfOk result (λ b. ReadOn S.tests (in_userinfo_or_host (change_of S.tests change) i) b authority.old
        authority.new) }
{
    let start = host_start(authority);
    if i < start {
        let went = changed_there::<S>(&mut authority.userinfo, change, i)?;
        return Ok(went);
    }
    let went = changed::<S>(&mut authority.host, change, i - start)?;
    Ok(went)
}

// The same in an authority that may stand.
pub(crate) fn changed_in_authority<S: Spec>(
    authority: &mut Option<ReachedAuthority>,
    change: Change,
    i: usize,
) -> Result<bool, AllocError>
    requires { IsReadThere S.tests authority.old }
    ensures { IfOk result (λ b. ReadOnThere S.tests (in_userinfo_or_host (change_of S.tests change) i) b authority.old
        authority.new) }
{
    let Some(authority) = authority else {
        return Ok(false);
    };
    let went = changed_in_parts::<S>(authority, change, i)?;
    Ok(went)
}

// The capital at i becomes small, in an ASCII host and outside percent-encoded octets.
fn small_letter_in_host<S: Spec>(authority: &mut ReachedAuthority, i: usize) -> bool
    requires { IsRead S.tests authority.old }
    ensures { ReadOn S.tests (with_small_letter_in_host i) result authority.old authority.new }
{
    let start = host_start(authority);
    if i < start {
        return false;
    }
    if !authority.in_ascii {
        return false;
    }
    small_host_letter(&mut authority.host, i - start)
}

// The same in an authority that may stand.
pub(crate) fn small_letter_in_authority<S: Spec>(
    authority: &mut Option<ReachedAuthority>,
    i: usize,
) -> bool
    requires { IsReadThere S.tests authority.old }
    ensures { ReadOnThere S.tests (with_small_letter_in_host i) result authority.old authority.new }
{
    let Some(authority) = authority else {
        return false;
    };
    small_letter_in_host::<S>(authority, i)
}

// Whether an empty port stands.
fn is_empty_port(port: Option<&str>) -> bool
    ensures { result ≡ is_port_empty (now_of port.entry) }
{
    match port {
        Some(port) => port.is_empty(),
        None => false,
    }
}

// The empty port goes with its colon.
pub(crate) fn without_empty_port<S: Spec>(authority: &mut Option<ReachedAuthority>) -> bool
    requires { IsReadThere S.tests authority.old }
    ensures { ReadOnThere S.tests (λ p. without_empty_port p p.port) result authority.old authority.new }
{
    let Some(authority) = authority else {
        return false;
    };
    if !is_empty_port(borrowed(&authority.port)) {
        return false;
    }
    authority.port = None;
    true
}

// Whether the port that is dropped stands.
fn is_dropped_port(port: Option<&str>, dropped: Option<&str>) -> bool
    ensures { result ≡ is_port_dropped (now_of dropped.entry) (now_of port.entry) }
{
    match port {
        Some(port) => is_dropped(port, dropped),
        None => false,
    }
}

// The port that is dropped goes with its colon.
pub(crate) fn without_dropped_port<S: Spec>(
    authority: &mut Option<ReachedAuthority>,
    dropped: Option<&str>,
) -> bool
    requires { IsReadThere S.tests authority.old }
    ensures { ReadOnThere S.tests (λ p. without_dropped_port (now_of dropped.entry) p p.port) result authority.old
        authority.new }
{
    let Some(authority) = authority else {
        return false;
    };
    if !is_dropped_port(borrowed(&authority.port), dropped) {
        return false;
    }
    authority.port = None;
    true
}
