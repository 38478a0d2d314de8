// The steps of parts to their normal form, put into a sink of steps.
ghost use Rattle.std.specs.Char.{is_ascii_uppercase};
ghost use Rattle.iri_resolve.specs.declared.step.Step.TheVariants.{SchemeLetter, DefaultPort, SlashPath, Dots};
ghost use Rattle.std.specs.Prelude.{◌≡◌, ◌<◌, ◌≤◌, ◌+◌, ◌^◌, ◌++◌, ◌&&◌, ◌||◌, IfOk, Some, is_some, length, not, true};
ghost use Rattle.iri_text.specs.Shown.{Shows};
ghost use Rattle.iri_grammar.specs.Authority.{is_authority, userinfo_text};
ghost use Rattle.iri_grammar.specs.Characters.{slash};
ghost use Rattle.iri_grammar.specs.Components.{if_there, is_path};
ghost use Rattle.iri_grammar.specs.Host.{is_host};
ghost use Rattle.iri_grammar.specs.OptionalSlices.{now_of};
ghost use Rattle.iri_grammar.specs.Parts.{Fits, is_empty, starts_with_slash, starts_with_slashes};
ghost use Rattle.iri_grammar.specs.Pieces.{pieces};
ghost use Rattle.iri_percent.specs.NormalHost.{normal_userinfo};
ghost use Rattle.iri_percent.specs.Units.{whole_triplets};
ghost use Rattle.iri_normal.specs.Dots.{is_two_dots};
ghost use Rattle.iri_normal.specs.Dots.{has_dot_segment, is_dot_segment};
ghost use Rattle.iri_normal.specs.Slices.{slices};
ghost use Rattle.iri_resolve.specs.NormalSteps.{authority_steps, has_port, host_steps, path_steps, step_if};
ghost use Rattle.iri_resolve.specs.NormalSteps.{plain_steps, port_steps, scheme_rule_steps, scheme_steps};
ghost use Rattle.iri_resolve.specs.NormalSteps.{steps_of, steps_there, triplet_steps};
ghost use Rattle.iri_resolve.specs.StepSinks.{done};
ghost use Rattle.iri_resolve.specs.inside.GuardAlone.{is_guard_alone, loses_dots};
ghost use Rattle.iri_resolve.specs.declared.step.Part.TheVariants.{Authority, Query, Fragment};

use crate::component_steps::push_component;
use crate::step::{Part, Step};
use crate::step_sink::StepSink;
use iri_grammar::authority::AuthoritySpan;
use iri_grammar::cutting::cut;
use iri_grammar::spec::Spec;
use iri_normal::mode::CanonMode;
use iri_normal::{TargetSlices, becomes_slash, has_dot_segment, is_dot_segment, is_two_dots};
use iri_percent::{is_ascii_host, is_dropped};
use iri_text::Stop;

// A letter of the scheme becomes small, where it is a capital.
fn push_scheme_letter<T: StepSink>(sink: &mut T, at: usize, letter: u8) -> Result<(), Stop>
    ensures { Shows T.puts T.halts T.stops sink.old (step_if (is_ascii_uppercase letter) (SchemeLetter at)) sink.new result }
{
    if !letter.is_ascii_uppercase() {
        return Ok(());
    }
    sink.push(Step::SchemeLetter(at))
}

// The steps of the letters of a scheme.
fn push_scheme_letters<T: StepSink>(sink: &mut T, scheme: &str) -> Result<(), Stop>
    ensures { Shows T.puts T.halts T.stops sink.old (scheme_steps 0 scheme.now) sink.new result }
{
    let letters = scheme.as_bytes();
    for i in 0..letters.len() {
        push_scheme_letter(sink, i, letters[i])?;
    }
    Ok(())
}

// The steps of a userinfo that may stand. The answer is where the host begins in normal form.
fn push_userinfo<S: Spec, T: StepSink>(sink: &mut T, userinfo: Option<&str>) -> Result<usize, Stop>
    requires { if_there whole_triplets (now_of userinfo) ≡ true }
    ensures steps { Shows T.puts T.halts T.stops sink.old
        (steps_there (triplet_steps S.tests Authority) (now_of userinfo.entry)) sink.new (done result) }
    ensures place { IfOk result (λ start. start
        ≡ length (userinfo_text (normal_userinfo S.tests (now_of userinfo.entry)))) }
    ensures shorter { IfOk result (λ start. start ≤ length (userinfo_text (now_of userinfo.entry))) }
{
    let Some(userinfo) = userinfo else {
        return Ok(0);
    };
    let end = push_component::<S, T>(sink, Part::Authority, false, 0, userinfo)?;
    Ok(end + 1)
}

// The steps of a host that begins at this place of the authority.
fn push_host<S: Spec, T: StepSink>(sink: &mut T, start: usize, host: &str) -> Result<(), Stop>
    requires host { is_host S.tests host.now ≡ true }
    requires room { start + length host.now < 2 ^ 64 }
    ensures { Shows T.puts T.halts T.stops sink.old (host_steps S.tests start host.now) sink.new result }
{
    let lower = is_ascii_host(host.as_bytes());
    push_component::<S, T>(sink, Part::Authority, lower, start, host)?;
    Ok(())
}

// The step of an empty port.
fn push_port<T: StepSink>(sink: &mut T, port: Option<&str>) -> Result<(), Stop>
    ensures { Shows T.puts T.halts T.stops sink.old (port_steps (now_of port.entry)) sink.new result }
{
    let Some(port) = port else {
        return Ok(());
    };
    if !port.is_empty() {
        return Ok(());
    }
    sink.push(Step::EmptyPort)
}

// The steps of an authority that may stand.
fn push_authority<S: Spec, T: StepSink>(sink: &mut T, authority: Option<&str>) -> Result<(), Stop>
    requires { if_there (is_authority S.tests) (now_of authority) ≡ true }
    ensures { Shows T.puts T.halts T.stops sink.old
        (steps_there (authority_steps S.tests) (now_of authority.entry)) sink.new result }
{
    let Some(authority) = authority else {
        return Ok(());
    };
    let span = AuthoritySpan::of::<S>(authority);
    let start = push_userinfo::<S, T>(sink, span.userinfo())?;
    push_host::<S, T>(sink, start, span.host())?;
    push_port(sink, span.port())
}

// Whether the segment is `.`, in any spelling.
fn is_one_dot(segment: &str) -> bool
    ensures { result ≡ (is_dot_segment segment.now && not (is_two_dots segment.now)) }
{
    is_dot_segment(segment) && !is_two_dots(segment)
}

// Whether a slash stands at the start, and no dot segment after it.
fn begins_plain(path: &str) -> bool
    ensures { result ≡ (starts_with_slash path.now && not (has_dot_segment path.now)) }
{
    path.as_bytes().first() == Some(&b'/') && !has_dot_segment(path)
}

// Whether these are the first segments of a guarded path, and what follows them has no dot segment.
fn is_guard(first: &str, dot: &str, rest: &str) -> bool
    ensures { result ≡ (is_empty first.now && (is_dot_segment dot.now && not (is_two_dots dot.now))
        && (starts_with_slash rest.now && not (has_dot_segment rest.now))) }
{
    first.is_empty() && is_one_dot(dot) && begins_plain(rest)
}

// Whether the path begins with its guard, which is `/.` before `//`, in any spelling, and has no other dot segment.
fn is_guard_alone(path: &str) -> bool
    ensures { result ≡ is_guard_alone (pieces slash path.now) }
{
    let (first, after) = cut(path, b'/');
    let Some(rest) = after else {
        return false;
    };
    let (dot, after) = cut(rest, b'/');
    let Some(rest) = after else {
        return false;
    };
    is_guard(first, dot, rest)
}

// Whether the path loses dot segments. A guard stays, where it is needed.
fn loses_dots(path: &str, authority_stands: bool) -> bool
    ensures { result ≡ loses_dots path.now authority_stands }
{
    has_dot_segment(path) && (authority_stands || !is_guard_alone(path))
}

// The steps of the percent-encoded octets of a part that may stand.
fn push_triplets<S: Spec, T: StepSink>(
    sink: &mut T,
    part: Part,
    text: Option<&str>,
) -> Result<(), Stop>
    requires { if_there whole_triplets (now_of text) ≡ true }
    ensures { Shows T.puts T.halts T.stops sink.old
        (steps_there (triplet_steps S.tests part) (now_of text.entry)) sink.new result }
{
    let Some(text) = text else {
        return Ok(());
    };
    push_component::<S, T>(sink, part, false, 0, text)?;
    Ok(())
}

// The step of dot segments that go.
fn push_dots<T: StepSink>(sink: &mut T, go: bool) -> Result<(), Stop>
    ensures { Shows T.puts T.halts T.stops sink.old (step_if go Dots) sink.new result }
{
    if !go {
        return Ok(());
    }
    sink.push(Step::Dots)
}

// The steps of a path: those of its percent-encoded octets on the path as it stands, and then that of its dot segments.
fn push_path<S: Spec, T: StepSink>(
    sink: &mut T,
    path: &str,
    authority_stands: bool,
) -> Result<(), Stop>
    requires path { is_path S.tests path.now ≡ true }
    requires unguarded { (authority_stands || not (starts_with_slashes path.now)) ≡ true }
    ensures { Shows T.puts T.halts T.stops sink.old (path_steps S.tests authority_stands path.now) sink.new result }
{
    push_component::<S, T>(sink, Part::Path, false, 0, path)?;
    push_dots(sink, loses_dots(path, authority_stands))
}

// Whether the authority has the port that is dropped.
fn has_port<S: Spec>(authority: &str, dropped: Option<&str>) -> bool
    requires { is_authority S.tests authority.now ≡ true }
    ensures { result ≡ has_port (now_of dropped.entry) (Some authority.now) }
{
    match AuthoritySpan::of::<S>(authority).port() {
        Some(port) => is_dropped(port, dropped),
        None => false,
    }
}

// The step of the port that is dropped.
fn push_default_port<S: Spec, T: StepSink>(
    sink: &mut T,
    authority: Option<&str>,
    dropped: Option<&str>,
) -> Result<(), Stop>
    requires { if_there (is_authority S.tests) (now_of authority) ≡ true }
    ensures { Shows T.puts T.halts T.stops sink.old
        (step_if (has_port (now_of dropped.entry) (now_of authority.entry)) DefaultPort) sink.new result }
{
    let Some(authority) = authority else {
        return Ok(());
    };
    if !has_port::<S>(authority, dropped) {
        return Ok(());
    }
    sink.push(Step::DefaultPort)
}

// The step of an empty path that becomes `/`.
fn push_slash<T: StepSink>(sink: &mut T, go: bool) -> Result<(), Stop>
    ensures { Shows T.puts T.halts T.stops sink.old (step_if go SlashPath) sink.new result }
{
    if !go {
        return Ok(());
    }
    sink.push(Step::SlashPath)
}

// The steps of a scheme that may stand.
fn push_scheme<T: StepSink>(sink: &mut T, scheme: Option<&str>) -> Result<(), Stop>
    ensures { Shows T.puts T.halts T.stops sink.old (steps_there (scheme_steps 0) (now_of scheme.entry)) sink.new result }
{
    let Some(scheme) = scheme else {
        return Ok(());
    };
    push_scheme_letters(sink, scheme)
}

// The steps of query and fragment.
fn push_tail<S: Spec, T: StepSink>(sink: &mut T, target: &TargetSlices<'_>) -> Result<(), Stop>
    requires fits { Fits S.tests (slices target.now) }
    ensures { Shows T.puts T.halts T.stops sink.old
        (steps_there (triplet_steps S.tests Query) (slices target.now).query
        ++ steps_there (triplet_steps S.tests Fragment) (slices target.now).fragment) sink.new result }
{
    push_triplets::<S, T>(sink, Part::Query, target.query)?;
    push_triplets::<S, T>(sink, Part::Fragment, target.fragment)
}

// The steps of a path, which is the target's in one text, and of what follows it.
fn push_from_path<S: Spec, T: StepSink>(
    sink: &mut T,
    target: &TargetSlices<'_>,
    path: &str,
) -> Result<(), Stop>
    requires fits { Fits S.tests (slices target.now) }
    requires path { path.now ≡ (slices target.now).path }
    ensures { Shows T.puts T.halts T.stops sink.old
        (path_steps S.tests (is_some (slices target.now).authority) (slices target.now).path
        ++ (steps_there (triplet_steps S.tests Query) (slices target.now).query
        ++ steps_there (triplet_steps S.tests Fragment) (slices target.now).fragment)) sink.new result }
{
    push_path::<S, T>(sink, path, target.authority.is_some())?;
    push_tail::<S, T>(sink, target)
}

// The steps of an authority that may stand, and of what follows it.
fn push_from_authority<S: Spec, T: StepSink>(
    sink: &mut T,
    target: &TargetSlices<'_>,
    path: &str,
) -> Result<(), Stop>
    requires fits { Fits S.tests (slices target.now) }
    requires path { path.now ≡ (slices target.now).path }
    ensures { Shows T.puts T.halts T.stops sink.old
        (steps_there (authority_steps S.tests) (slices target.now).authority
        ++ (path_steps S.tests (is_some (slices target.now).authority) (slices target.now).path
        ++ (steps_there (triplet_steps S.tests Query) (slices target.now).query
        ++ steps_there (triplet_steps S.tests Fragment) (slices target.now).fragment))) sink.new result }
{
    push_authority::<S, T>(sink, target.authority)?;
    push_from_path::<S, T>(sink, target, path)
}

// The steps of parts by the rules of every scheme.
#[tactic(auto, unfolding(crate::specs::NormalSteps::plain_steps))]
fn push_plain<S: Spec, T: StepSink>(
    sink: &mut T,
    target: &TargetSlices<'_>,
    path: &str,
) -> Result<(), Stop>
    requires fits { Fits S.tests (slices target.now) }
    requires path { path.now ≡ (slices target.now).path }
    ensures { Shows T.puts T.halts T.stops sink.old (plain_steps S.tests (slices target.now)) sink.new result }
{
    push_scheme(sink, target.scheme)?;
    push_from_authority::<S, T>(sink, target, path)
}

// The steps of parts by scheme rules, where a port is dropped.
fn push_scheme_rules<S: Spec, T: StepSink>(
    sink: &mut T,
    target: &TargetSlices<'_>,
    dropped: Option<&str>,
) -> Result<(), Stop>
    requires fits { Fits S.tests (slices target.now) }
    ensures { Shows T.puts T.halts T.stops sink.old
        (scheme_rule_steps (now_of dropped.entry) (slices target.now)) sink.new result }
{
    push_default_port::<S, T>(sink, target.authority, dropped)?;
    push_slash(sink, becomes_slash(target, dropped))
}

// Puts the steps from a target to its normal form in a mode, from left to right. The path is the target's, in one text.
#[tactic(auto, unfolding(crate::specs::NormalSteps::steps_of))]
pub(crate) fn push_steps<S: Spec, T: StepSink>(
    sink: &mut T,
    mode: CanonMode,
    target: &TargetSlices<'_>,
    path: &str,
) -> Result<(), Stop>
    requires fits { Fits S.tests (slices target.now) }
    requires path { path.now ≡ (slices target.now).path }
    ensures { Shows T.puts T.halts T.stops sink.old (steps_of S.tests mode (slices target.now)) sink.new result }
{
    push_plain::<S, T>(sink, target, path)?;
    push_scheme_rules::<S, T>(sink, target, mode.dropped_port(target.scheme))
}
