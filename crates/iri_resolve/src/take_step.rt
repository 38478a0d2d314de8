// A step from what a replay has reached.
ghost use Rattle.std.specs.Prelude.{◌≡◌, ◌∷◌, [], ◌++◌, IfOk, Some, string_bytes, true};
ghost use Rattle.iri_grammar.specs.Components.{is_path};
ghost use Rattle.iri_grammar.specs.OptionalSlices.{now_of};
ghost use Rattle.iri_percent.specs.SchemeRules.{dropped_port};
ghost use Rattle.iri_percent.specs.declared.canon_mode.CanonMode.TheVariants.{Default};
ghost use Rattle.iri_normal.specs.DotRemoval.{dots};
ghost use Rattle.iri_normal.specs.DotRemoval.{guard};
ghost use Rattle.iri_normal.specs.NormalForm.{becomes_slash};
ghost use Rattle.iri_normal.specs.Resolver.{bytes_of};
ghost use Rattle.iri_resolve.specs.inside.ChangeOf.{change_of};
ghost use Rattle.iri_resolve.specs.inside.Reached.{Holds, Reaches, other_than, parts_of, went};
ghost use Rattle.iri_resolve.specs.Steps.{at_place, step_in};
ghost use Rattle.iri_grammar.specs.Characters.{slash};
ghost use Rattle.iri_resolve.specs.declared.step.Step.TheVariants.{DefaultPort, Dots, SlashPath};

use crate::change::{Change, changed, changed_there, small_letter};
use crate::reached::Reached;
use crate::reached_authority::{
    changed_in_authority, small_letter_in_authority, without_dropped_port, without_empty_port,
};
use crate::step::{Part, Step};
use iri_grammar::spec::Spec;
use iri_normal::mode::CanonMode;
use iri_normal::{MergedPath, show_guarded};
use iri_text::StringSink;
use std::alloc::{AllocError, Global};

// The path without its dot segments, guarded.
fn guarded_path<S: Spec>(
    alloc: Global,
    path: &str,
    authority_stands: bool,
) -> Result<String, AllocError>
    requires { is_path S.tests path.now ≡ true }
    ensures { IfOk result (λ text. string_bytes text ≡ guard (dots path.now) authority_stands) }
{
    let mut text = String::with_capacity(alloc, path.len())?;
    let whole = MergedPath::of(path);
    let mut sink = StringSink::new(&mut text);
    match show_guarded::<S, StringSink<'_>>(&mut sink, &whole, authority_stands, false) {
        Ok(()) => {}
        Err(_) => return Err(AllocError),
    }
    Ok(text)
}

// The path loses its dot segments, and is guarded, where that is another path.
fn without_dots<S: Spec>(
    alloc: Global,
    path: &mut String,
    authority_stands: bool,
) -> Result<bool, AllocError>
    requires { is_path S.tests (string_bytes path.old) ≡ true }
    ensures { IfOk result (λ b. went b (string_bytes path.new)
        ≡ other_than (string_bytes path.old) (guard (dots (string_bytes path.old)) authority_stands)) }
{
    let text = guarded_path::<S>(alloc, path.as_str(), authority_stands)?;
    if text.as_str() == path.as_str() {
        return Ok(false);
    }
    *path = text;
    Ok(true)
}

// The empty path becomes `/`, where it does.
fn with_slash(alloc: Global, path: &mut String, becomes: bool) -> Result<bool, AllocError>
    ensures { IfOk result (λ b. went b (string_bytes path.new) ≡ went becomes (slash ∷ [])) }
{
    if !becomes {
        return Ok(false);
    }
    *path = String::from_str(alloc, "/")?;
    Ok(true)
}

// A change of percent-encoded octets at i of a part.
fn triplet_step<S: Spec>(
    reached: &mut Reached,
    change: Change,
    part: Part,
    i: usize,
) -> Result<bool, AllocError>
    requires { Holds S.tests reached.old }
    ensures { IfOk result (λ b. Reaches S.tests (at_place (change_of S.tests change) (parts_of reached.old) part i) b
        reached.new) }
{
    match part {
        Part::Authority => changed_in_authority::<S>(&mut reached.authority, change, i),
        Part::Path => changed::<S>(&mut reached.path, change, i),
        Part::Query => changed_there::<S>(&mut reached.query, change, i),
        Part::Fragment => changed_there::<S>(&mut reached.fragment, change, i),
    }
}

// The dot segments of the path go.
fn dots_step<S: Spec>(alloc: Global, reached: &mut Reached) -> Result<bool, AllocError>
    requires { Holds S.tests reached.old }
    ensures { IfOk result (λ b. Reaches S.tests (step_in S.tests Default (parts_of reached.old) Dots) b reached.new) }
{
    let stands = reached.authority.is_some();
    without_dots::<S>(alloc, &mut reached.path, stands)
}

// The default port goes.
fn default_port_step<S: Spec>(mode: CanonMode, reached: &mut Reached) -> bool
    requires { Holds S.tests reached.old }
    ensures { Reaches S.tests (step_in S.tests mode (parts_of reached.old) DefaultPort) result reached.new }
{
    let dropped = mode.dropped_port(Some(reached.scheme.as_str()));
    without_dropped_port::<S>(&mut reached.authority, dropped)
}

// Whether the empty path becomes `/`.
fn becomes_slash(mode: CanonMode, reached: &Reached) -> bool
    ensures { result ≡ becomes_slash (dropped_port mode (parts_of reached.now).scheme) (parts_of reached.now).authority
        (parts_of reached.now).path }
{
    let Some(_) = mode.dropped_port(Some(reached.scheme.as_str())) else {
        return false;
    };
    reached.authority.is_some() && reached.path.is_empty()
}

// The empty path becomes `/`.
fn slash_step<S: Spec>(
    alloc: Global,
    mode: CanonMode,
    reached: &mut Reached,
) -> Result<bool, AllocError>
    requires { Holds S.tests reached.old }
    ensures { IfOk result (λ b. Reaches S.tests (step_in S.tests mode (parts_of reached.old) SlashPath) b reached.new) }
{
    let becomes = becomes_slash(mode, reached);
    with_slash(alloc, &mut reached.path, becomes)
}

// Takes a step of a mode. The answer is whether it is one from the parts reached. Allocation failure is the only error.
pub(crate) fn take_step<S: Spec>(
    alloc: Global,
    mode: CanonMode,
    reached: &mut Reached,
    next: Step,
) -> Result<bool, AllocError>
    requires { Holds S.tests reached.old }
    ensures { IfOk result (λ b. Reaches S.tests (step_in S.tests mode (parts_of reached.old) next) b reached.new) }
{
    match next {
        Step::SchemeLetter(i) => Ok(small_letter(&mut reached.scheme, i)),
        Step::HostLetter(i) => Ok(small_letter_in_authority::<S>(&mut reached.authority, i)),
        Step::HexDigit(part, i) => triplet_step::<S>(reached, Change::CapitalDigit, part, i),
        Step::Decode(part, i) => triplet_step::<S>(reached, Change::Decoded, part, i),
        Step::EmptyPort => Ok(without_empty_port::<S>(&mut reached.authority)),
        Step::Dots => dots_step::<S>(alloc, reached),
        Step::DefaultPort => Ok(default_port_step::<S>(mode, reached)),
        Step::SlashPath => slash_step::<S>(alloc, mode, reached),
    }
}
