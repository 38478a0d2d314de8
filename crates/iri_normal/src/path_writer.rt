// The path of a target, in a mode, with `/.` before it where it would be read as an authority (RFC 3986 section 4.2).
ghost use Rattle.std.specs.Prelude.{◌≡◌, ◌++◌, ◌&&◌, not, true};
ghost use Rattle.iri_grammar.specs.Components.{is_path};
ghost use Rattle.iri_grammar.specs.Parts.{starts_with_slash, starts_with_slashes};
ghost use Rattle.iri_normal.specs.DotRemoval.{dots};
ghost use Rattle.iri_normal.specs.DotRemoval.{guard};
ghost use Rattle.iri_normal.specs.NormalForm.{is_unresolvable, normal_path, path_in, plain_path, preserved_path};
ghost use Rattle.iri_normal.specs.inside.PathForm.{in_form};
ghost use Rattle.iri_normal.specs.Slices.{merged, slices};
ghost use Rattle.iri_text.specs.Shown.{Shows};

use crate::beginning::{Beginning, Begun, is_slashes};
use crate::merged_path::MergedPath;
use crate::mode::Mode;
use crate::remove_dot_segments::{show_as_it_stands, show_without_dots};
use crate::target::TargetSlices;
use iri_grammar::spec::Spec;
use iri_text::{Stop, TextSink};

// Whether a path begins with two slashes without its dot segments.
fn begins_with_slashes<S: Spec>(path: &MergedPath<'_>) -> bool
    requires { is_path S.tests (merged path.now) ≡ true }
    ensures { result ≡ starts_with_slashes (dots (merged path.now)) }
{
    let mut sink = Beginning {
        begun: Begun::Nothing,
    };
    match show_without_dots::<S, Beginning>(&mut sink, path, false) {
        Ok(()) => is_slashes(sink.begun),
        Err(_) => false,
    }
}

// Whether the path needs `/.` before it.
fn is_guarded<S: Spec>(path: &MergedPath<'_>, authority_stands: bool) -> bool
    requires { is_path S.tests (merged path.now) ≡ true }
    ensures { result ≡ (not authority_stands && starts_with_slashes (dots (merged path.now))) }
{
    !authority_stands && begins_with_slashes::<S>(path)
}

/// Shows a path without its dot segments, and with `/.` before it where it would be read as an authority. It has a
/// condition: the text is a path of `S`, which `validate::path` tests.
///
/// # Errors
///
/// Only where the sink's count of stops rises; the sink has stopped within the text then.
#[inline(always)]
pub fn show_guarded<S: Spec, W: TextSink>(
    sink: &mut W,
    path: &MergedPath<'_>,
    authority_stands: bool,
    normal: bool,
) -> Result<(), Stop>
    requires { is_path S.tests (merged path.now) ≡ true }
    ensures { Shows W.puts W.halts W.stops sink.old
        (guard (in_form S.tests normal (dots (merged path.now))) authority_stands) sink.new result }
{
    if !is_guarded::<S>(path, authority_stands) {
        return show_without_dots::<S, W>(sink, path, normal);
    }
    sink.put("/.")?;
    show_without_dots::<S, W>(sink, path, normal)
}

// Whether a path begins with a slash.
fn is_rooted(path: &MergedPath<'_>) -> bool
    ensures { result ≡ starts_with_slash (merged path.now) }
{
    if path.base.is_empty() {
        matches!(path.reference.as_bytes(), [b'/', ..])
    } else {
        matches!(path.base.as_bytes(), [b'/', ..])
    }
}

/// Shows the path of a target in normal form. Allocates nothing.
#[inline(always)]
pub fn show_normal_path<S: Spec, W: TextSink>(
    sink: &mut W,
    target: &TargetSlices<'_>,
) -> Result<(), Stop>
    requires { is_path S.tests (slices target.now).path ≡ true }
    ensures { Shows W.puts W.halts W.stops sink.old
        (normal_path S.tests (slices target.now).authority (slices target.now).path) sink.new result }
{
    let stands = target.authority.is_some();
    show_guarded::<S, W>(sink, &target.path, stands, true)
}

// The same, but a path without authority that doesn't begin with a slash keeps its dot segments.
fn show_preserved<S: Spec, W: TextSink>(sink: &mut W, target: &TargetSlices<'_>) -> Result<(), Stop>
    requires { is_path S.tests (slices target.now).path ≡ true }
    ensures { Shows W.puts W.halts W.stops sink.old
        (preserved_path S.tests (slices target.now).authority (slices target.now).path) sink.new result }
{
    if target.authority.is_some() || is_rooted(&target.path) {
        return show_normal_path::<S, W>(sink, target);
    }
    show_as_it_stands::<S, W>(sink, &target.path, true)
}

// Without its dot segments, and as it is otherwise; or all as it is.
fn show_plain<S: Spec, W: TextSink>(
    sink: &mut W,
    target: &TargetSlices<'_>,
    whole: bool,
) -> Result<(), Stop>
    requires { is_path S.tests (slices target.now).path ≡ true }
    ensures { Shows W.puts W.halts W.stops sink.old
        (plain_path whole (slices target.now).authority (slices target.now).path) sink.new result }
{
    if whole {
        return show_as_it_stands::<S, W>(sink, &target.path, false);
    }
    let stands = target.authority.is_some();
    show_guarded::<S, W>(sink, &target.path, stands, false)
}

/// Shows the path of a target in a mode. Allocates nothing.
#[inline(always)]
pub fn show_path<S: Spec, W: TextSink>(
    sink: &mut W,
    target: &TargetSlices<'_>,
    mode: Mode,
    whole: bool,
) -> Result<(), Stop>
    requires { is_path S.tests (slices target.now).path ≡ true }
    ensures { Shows W.puts W.halts W.stops sink.old
        (path_in S.tests mode whole (slices target.now).authority (slices target.now).path) sink.new result }
{
    match mode {
        Mode::Normal | Mode::ByScheme => show_normal_path::<S, W>(sink, target),
        Mode::Preserving => show_preserved::<S, W>(sink, target),
        Mode::Plain => show_plain::<S, W>(sink, target, whole),
    }
}

/// Whether there is no authority, and the path without its dot segments begins as one would.
pub fn is_unresolvable<S: Spec>(target: &TargetSlices<'_>, whole: bool) -> bool
    requires { is_path S.tests (slices target.now).path ≡ true }
    ensures { result ≡ is_unresolvable whole (slices target.now) }
{
    if whole {
        return false;
    }
    is_guarded::<S>(&target.path, target.authority.is_some())
}
