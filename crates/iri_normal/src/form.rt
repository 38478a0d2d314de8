// The parts of a target, shown in a mode.
ghost use Rattle.std.specs.Prelude.{◌≡◌, ◌&&◌, ◌++◌, ◌∷◌, [], false, true, cond};
ghost use Rattle.iri_grammar.specs.Authority.{is_authority};
ghost use Rattle.iri_grammar.specs.Components.{if_there, is_path, is_scheme};
ghost use Rattle.iri_grammar.specs.Cut.{delimited};
ghost use Rattle.iri_grammar.specs.Parts.{Fits, is_empty, recompose, scheme_text, authority_text};
ghost use Rattle.iri_grammar.specs.OptionalSlices.{now_of};
ghost use Rattle.iri_percent.specs.NormalHost.{normal_authority, normal_authority_in};
ghost use Rattle.iri_percent.specs.Triplets.{pct};
ghost use Rattle.iri_percent.specs.Units.{whole_triplets};
ghost use Rattle.iri_normal.specs.Modes.{dropped_in, is_by_scheme, is_normalizing};
ghost use Rattle.iri_normal.specs.NormalForm.{lowered};
ghost use Rattle.iri_normal.specs.NormalForm.{becomes_slash, form, part_in, path_in, slash_or};
ghost use Rattle.iri_normal.specs.Prefix.{prefix_in};
ghost use Rattle.iri_normal.specs.Slices.{slices};
ghost use Rattle.iri_text.specs.Shown.{Shows};
ghost use Rattle.iri_grammar.specs.Characters.{number_sign, question_mark};

use crate::mode::{Mode, dropped_in, is_normalizing};
use crate::path_writer::show_path;
use crate::remove_dot_segments::show_part;
use crate::target::TargetSlices;
use iri_grammar::spec::Spec;
use iri_percent::{NormalizedAuthority, NormalizedHost};
use iri_text::{Show, Stop, TextSink};

// A scheme is a registered name too, and ASCII: as a host it is put into lower case.
fn show_scheme_name<S: Spec, W: TextSink>(
    sink: &mut W,
    scheme: &str,
    normal: bool,
) -> Result<(), Stop>
    requires { is_scheme scheme.now ≡ true }
    ensures { Shows W.puts W.halts W.stops sink.old (cond normal (lowered scheme.now) scheme.now) sink.new result }
{
    if normal {
        NormalizedHost::<S>::new(scheme).show(sink)
    } else {
        sink.put(scheme)
    }
}

// The scheme and its colon, where there is one.
fn show_scheme<S: Spec, W: TextSink>(
    sink: &mut W,
    scheme: Option<&str>,
    normal: bool,
) -> Result<(), Stop>
    requires { if_there is_scheme (now_of scheme) ≡ true }
    ensures { Shows W.puts W.halts W.stops sink.old
        (scheme_text (part_in normal lowered (now_of scheme.entry))) sink.new result }
{
    let Some(scheme) = scheme else {
        return Ok(());
    };
    show_scheme_name::<S, W>(sink, scheme, normal)?;
    sink.put(":")
}

// The authority, and in normal form without the port that is dropped.
fn show_authority_name<S: Spec, W: TextSink>(
    sink: &mut W,
    authority: &str,
    normal: bool,
    dropped: Option<&str>,
) -> Result<(), Stop>
    requires { is_authority S.tests authority.now ≡ true }
    ensures { Shows W.puts W.halts W.stops sink.old
        (cond normal (normal_authority_in S.tests (now_of dropped.entry) authority.now) authority.now) sink.new result }
{
    if normal {
        NormalizedAuthority::<S>::new(authority, dropped).show(sink)
    } else {
        sink.put(authority)
    }
}

// `//` and the authority, where there is one.
fn show_authority<S: Spec, W: TextSink>(
    sink: &mut W,
    authority: Option<&str>,
    normal: bool,
    dropped: Option<&str>,
) -> Result<(), Stop>
    requires { if_there (is_authority S.tests) (now_of authority) ≡ true }
    ensures { Shows W.puts W.halts W.stops sink.old
        (authority_text (part_in normal (normal_authority_in S.tests (now_of dropped.entry)) (now_of authority.entry)))
        sink.new result }
{
    let Some(authority) = authority else {
        return Ok(());
    };
    sink.put("//")?;
    show_authority_name::<S, W>(sink, authority, normal, dropped)
}

/// Shows a scheme with its colon, and `//` with an authority, each where there is one.
pub fn show_prefix<S: Spec, W: TextSink>(
    sink: &mut W,
    scheme: Option<&str>,
    authority: Option<&str>,
    normal: bool,
) -> Result<(), Stop>
    requires scheme { if_there is_scheme (now_of scheme) ≡ true }
    requires authority { if_there (is_authority S.tests) (now_of authority) ≡ true }
    ensures { Shows W.puts W.halts W.stops sink.old
        (scheme_text (part_in normal lowered (now_of scheme.entry))
        ++ authority_text (part_in normal (normal_authority S.tests) (now_of authority.entry))) sink.new result }
{
    show_scheme::<S, W>(sink, scheme, normal)?;
    show_authority::<S, W>(sink, authority, normal, None)
}

// A delimiter and the part after it, where there is one.
fn show_delimited<S: Spec, W: TextSink>(
    sink: &mut W,
    delimiter: &str,
    code: u8,
    part: Option<&str>,
    normal: bool,
) -> Result<(), Stop>
    requires delimiter { delimiter.now ≡ code ∷ [] }
    requires part { if_there whole_triplets (now_of part) ≡ true }
    ensures { Shows W.puts W.halts W.stops sink.old
        (delimited code (part_in normal (pct S.tests) (now_of part.entry))) sink.new result }
{
    let Some(part) = part else {
        return Ok(());
    };
    sink.put(delimiter)?;
    show_part::<S, W>(sink, part, normal)
}

// Query and fragment.
#[inline(always)]
fn show_tail<S: Spec, W: TextSink>(
    sink: &mut W,
    target: &TargetSlices<'_>,
    normal: bool,
) -> Result<(), Stop>
    requires { Fits S.tests (slices target.now) }
    ensures { Shows W.puts W.halts W.stops sink.old
        (delimited question_mark (part_in normal (pct S.tests) (slices target.now).query)
        ++ delimited number_sign (part_in normal (pct S.tests) (slices target.now).fragment)) sink.new result }
{
    show_delimited::<S, W>(sink, "?", b'?', target.query, normal)?;
    show_delimited::<S, W>(sink, "#", b'#', target.fragment, normal)
}

// Whether both texts are empty.
fn are_empty(base: &str, path: &str) -> bool
    ensures { result ≡ (is_empty base.now && is_empty path.now) }
{
    base.is_empty() && path.is_empty()
}

/// Whether the path is empty beside an authority, and the rules of the mode know a default port of the scheme.
pub fn becomes_slash(target: &TargetSlices<'_>, dropped: Option<&str>) -> bool
    ensures { result ≡ becomes_slash (now_of dropped.entry) (slices target.now).authority (slices target.now).path }
{
    let Some(_) = dropped else {
        return false;
    };
    let Some(_) = target.authority else {
        return false;
    };
    are_empty(target.path.base, target.path.reference)
}

// The path, or `/` in the place of an empty one.
#[inline(always)]
fn show_path_or_slash<S: Spec, W: TextSink>(
    sink: &mut W,
    target: &TargetSlices<'_>,
    mode: Mode,
    whole: bool,
    slashed: bool,
) -> Result<(), Stop>
    requires path { is_path S.tests (slices target.now).path ≡ true }
    ensures { Shows W.puts W.halts W.stops sink.old
        (slash_or slashed (path_in S.tests mode whole (slices target.now).authority (slices target.now).path))
        sink.new result }
{
    if slashed {
        sink.put("/")
    } else {
        show_path::<S, W>(sink, target, mode, whole)
    }
}

// Path, query and fragment.
#[inline(always)]
fn show_from_path<S: Spec, W: TextSink>(
    sink: &mut W,
    target: &TargetSlices<'_>,
    mode: Mode,
    whole: bool,
    dropped: Option<&str>,
) -> Result<(), Stop>
    requires fits { Fits S.tests (slices target.now) }
    ensures { Shows W.puts W.halts W.stops sink.old
        (slash_or (becomes_slash (now_of dropped.entry) (slices target.now).authority (slices target.now).path)
        (path_in S.tests mode whole (slices target.now).authority (slices target.now).path)
        ++ (delimited question_mark (part_in (is_normalizing mode) (pct S.tests) (slices target.now).query)
        ++ delimited number_sign (part_in (is_normalizing mode) (pct S.tests)
        (slices target.now).fragment))) sink.new result }
{
    let slashed = becomes_slash(target, dropped);
    show_path_or_slash::<S, W>(sink, target, mode, whole, slashed)?;
    show_tail::<S, W>(sink, target, is_normalizing(mode))
}

// All but the scheme.
fn show_from_authority<S: Spec, W: TextSink>(
    sink: &mut W,
    target: &TargetSlices<'_>,
    mode: Mode,
    whole: bool,
    dropped: Option<&str>,
) -> Result<(), Stop>
    requires fits { Fits S.tests (slices target.now) }
    ensures { Shows W.puts W.halts W.stops sink.old
        (authority_text (part_in (is_normalizing mode) (normal_authority_in S.tests (now_of dropped.entry))
        (slices target.now).authority)
        ++ (slash_or (becomes_slash (now_of dropped.entry) (slices target.now).authority (slices target.now).path)
        (path_in S.tests mode whole (slices target.now).authority (slices target.now).path)
        ++ (delimited question_mark (part_in (is_normalizing mode) (pct S.tests) (slices target.now).query)
        ++ delimited number_sign (part_in (is_normalizing mode) (pct S.tests)
        (slices target.now).fragment)))) sink.new result }
{
    show_authority::<S, W>(sink, target.authority, is_normalizing(mode), dropped)?;
    show_from_path::<S, W>(sink, target, mode, whole, dropped)
}

/// Shows the recomposition (RFC 3986 section 5.3) of a target's parts in a mode. `whole` says that the path is the
/// base's, taken whole. Allocates nothing. It has a condition: the parts fit the grammar of `S`, as those of a
/// `Target` and of a split view do.
///
/// # Errors
///
/// Only where the sink's count of stops rises; the sink has stopped within the text then.
#[tactic(auto, unfolding(crate::specs::NormalForm::form, iri_grammar::specs::Parts::recompose))]
pub fn show_form<S: Spec, W: TextSink>(
    sink: &mut W,
    target: &TargetSlices<'_>,
    mode: Mode,
    whole: bool,
) -> Result<(), Stop>
    requires fits { Fits S.tests (slices target.now) }
    ensures { Shows W.puts W.halts W.stops sink.old
        (recompose (form S.tests mode whole (slices target.now))) sink.new result }
{
    let dropped = dropped_in(mode, target.scheme);
    show_scheme::<S, W>(sink, target.scheme, is_normalizing(mode))?;
    show_from_authority::<S, W>(sink, target, mode, whole, dropped)
}

/// Shows parts in a mode without scheme rules, after a prefix that was put into the mode before.
#[tactic(auto, unfolding(crate::specs::NormalForm::form, iri_grammar::specs::Parts::recompose))]
#[inline(always)]
pub fn show_after<S: Spec, W: TextSink>(
    sink: &mut W,
    prefix: &str,
    target: &TargetSlices<'_>,
    mode: Mode,
    whole: bool,
) -> Result<(), Stop>
    requires mode { is_by_scheme mode ≡ false }
    requires prefix { prefix.now ≡ prefix_in S.tests (is_normalizing mode) (slices target.now) }
    requires fits { Fits S.tests (slices target.now) }
    ensures { Shows W.puts W.halts W.stops sink.old
        (recompose (form S.tests mode whole (slices target.now))) sink.new result }
{
    sink.put(prefix)?;
    show_from_path::<S, W>(sink, target, mode, whole, None)
}
