// The written form of the link-values of a text, shown piece by piece (RFC 8288 section 3 and appendix B.2). It allocates nothing.
ghost use Rattle.std.specs.Prelude.{◌≡◌, ◌≤◌, ◌++◌, ◌∷◌, [], codes, cond, is_none, length, map, true};
ghost use Rattle.std.specs.List.{list_all};
ghost use Rattle.std.specs.Str.{IsAscii, str_to_ascii_lowercase};
ghost use Rattle.iri_grammar.specs.WholeFault.{reference_fault};
ghost use Rattle.iri_types.specs.SplitText.{split_text};
ghost use Rattle.iri_text.specs.Shown.{Shows};
ghost use Rattle.iri_normal.specs.Resolver.{base_text};
ghost use Rattle.iri_link.specs.Characters.{less_than_sign};
ghost use Rattle.iri_link.specs.LaxReadings.{lax_links_in};
ghost use Rattle.iri_link.specs.Resolved.{resolved_in};
ghost use Rattle.iri_link.specs.Token.{is_token_char};
ghost use Rattle.iri_link.specs.Written.{escaped, written, written_param};
ghost use Rattle.iri_link.specs.inside.ShownPieces.{between_at, passed_at, piece_text, place_past, target_text};
ghost use Rattle.iri_link.specs.declared.shown_text.Place.TheVariants.{Within};
ghost use Rattle.iri_link.specs.inside.Pieces.{IsNamed, param_said};
ghost use Rattle.iri_link.specs.inside.PlainParams.{params_text};
ghost use Rattle.iri_link.specs.inside.ReadQuoted.{said, unquoted};

use crate::param_text::ParamText;
use crate::piece::Piece;
use crate::plain::cut_plain;
use crate::quoted::cut_chunk;
use crate::walk::{is_inside, next_piece};
use crate::written::{Escaped, show_escaped};
use iri_grammar::spec::Spec;
use iri_normal::canonical::show_canonical_in;
use iri_normal::mode::CanonMode;
use iri_normal::resolver::FixedBaseResolver;
use iri_text::{Show, Stop, TextSink, show_three, show_two};
use iri_types::kind::Reference;
use iri_types::split::SplitView;

// Shows the value that stands in a quoted string, with a `\` before each `"` and `\`.
fn show_value<W: TextSink>(sink: &mut W, raw: &str) -> Result<(), Stop>
    ensures { Shows W.puts W.halts W.stops sink.old (escaped (unquoted raw.now)) sink.new result }
{
    let mut rest = raw;
    'chunks: loop {
        let (chunk, slash, left) = cut_chunk(rest);
        show_two(sink, &Escaped { value: chunk }, &slash)?;
        match left {
            Some(next) => rest = next,
            None => return Ok(()),
        }
    }
}

// A value as it stands, and whether a `\` before a character goes there.
#[derive(Drop)]
struct Value<'a> {
    raw: &'a str,
    escapes: bool,
}

impl Show for Value<'_> {
    ghost text = { λ v. escaped (said v.escapes v.raw.now) };

    fn show<W: TextSink>(&self, sink: &mut W) -> Result<(), Stop> {
        if self.escapes {
            show_value(sink, self.raw)
        } else {
            show_escaped(sink, self.raw)
        }
    }
}

// At most 64 ASCII characters in lower case.
fn show_few_lowered<W: TextSink>(sink: &mut W, text: &str) -> Result<(), Stop>
    requires ascii { IsAscii text.now }
    requires short { length text.now ≤ 64 }
    ensures { Shows W.puts W.halts W.stops sink.old (str_to_ascii_lowercase text.now) sink.new result }
{
    let mut buffer = [0u8; 64];
    let lower = &mut buffer[..text.len()];
    lower.copy_from_slice(text.as_bytes());
    lower.make_ascii_lowercase();
    sink.put(unsafe { str::from_utf8_unchecked(lower) })
}

// ASCII characters in lower case.
fn show_lowered<W: TextSink>(sink: &mut W, text: &str) -> Result<(), Stop>
    requires ascii { IsAscii text.now }
    ensures { Shows W.puts W.halts W.stops sink.old (str_to_ascii_lowercase text.now) sink.new result }
{
    let mut rest = text;
    'chunks: loop {
        if rest.len() <= 64 {
            return show_few_lowered(sink, rest);
        }
        let (few, left) = rest.split_at(64);
        show_few_lowered(sink, few)?;
        rest = left;
    }
}

// Shows `; ` and the name of a parameter.
fn show_name<W: TextSink>(sink: &mut W, name: &str) -> Result<(), Stop>
    requires { list_all is_token_char name.now ≡ true }
    ensures { Shows W.puts W.halts W.stops sink.old (codes "; " ++ str_to_ascii_lowercase name.now) sink.new result }
{
    sink.put("; ")?;
    show_lowered(sink, name)
}

// Shows a parameter.
fn show_param<W: TextSink>(sink: &mut W, param: ParamText<'_>) -> Result<(), Stop>
    requires { list_all is_token_char param.name.now ≡ true }
    ensures { Shows W.puts W.halts W.stops sink.old (written_param (param_said param.entry)) sink.new result }
{
    show_name(sink, param.name)?;
    match param.value {
        Some(raw) => {
            let escapes = param.escapes;
            show_three(sink, &"=\"", &Value { raw, escapes }, &"\"")
        }
        None => Ok(()),
    }
}

// Where a display of link-values stands.
#[derive(Clone, Copy)]
pub(crate) enum Place {
    // Before the first link-value that is shown.
    First,
    // After one, and not within it.
    Later,
    // Within one.
    Within,
}

// What comes before the next target, and the `<` before it.
fn opening_at(place: Place) -> &'static str
    ensures { result.now ≡ between_at place ++ less_than_sign ∷ [] }
{
    match place {
        Place::First => "<",
        Place::Later | Place::Within => ", <",
    }
}

// Where a link-value that isn't shown leaves.
fn passed_at(place: Place) -> Place
    ensures { result ≡ passed_at place }
{
    match place {
        Place::First => Place::First,
        Place::Later | Place::Within => Place::Later,
    }
}

// Shows the canonical text of a target in angle brackets, after what comes before it.
fn show_reference<S: Spec, W: TextSink>(
    sink: &mut W,
    mode: CanonMode,
    resolver: &FixedBaseResolver<'_, S>,
    place: Place,
    reference: &SplitView<'_, S, Reference>,
) -> Result<(), Stop>
    ensures { Shows W.puts W.halts W.stops sink.old
        (target_text S.tests mode (base_text resolver.now) place (split_text reference.now)) sink.new result }
{
    sink.put(opening_at(place))?;
    show_canonical_in(sink, mode, resolver, reference)?;
    sink.put(">")
}

// Shows a target that is a URI-reference, and no other.
fn show_target<S: Spec, W: TextSink>(
    sink: &mut W,
    mode: CanonMode,
    resolver: &FixedBaseResolver<'_, S>,
    place: &mut Place,
    target: &str,
) -> Result<(), Stop>
    ensures shows { Shows W.puts W.halts W.stops sink.old
        (cond (is_none (reference_fault S.tests target.now))
        (target_text S.tests mode (base_text resolver.now) place.old target.now) []) sink.new result }
    ensures place { place.new ≡ cond (is_none (reference_fault S.tests target.now)) Within (passed_at place.old) }
{
    let before = *place;
    match SplitView::<S, Reference>::new(target) {
        Ok(reference) => {
            *place = Place::Within;
            show_reference(sink, mode, resolver, before, &reference)
        }
        Err(_) => {
            *place = passed_at(before);
            Ok(())
        }
    }
}

// Shows a piece.
fn show_piece<S: Spec, W: TextSink>(
    sink: &mut W,
    mode: CanonMode,
    resolver: &FixedBaseResolver<'_, S>,
    place: &mut Place,
    piece: Piece<'_>,
) -> Result<(), Stop>
    requires { IsNamed piece }
    ensures shows { Shows W.puts W.halts W.stops sink.old
        (piece_text S.tests mode (base_text resolver.now) place.old piece.entry) sink.new result }
    ensures place { place.new ≡ place_past S.tests place.old piece.entry }
{
    match (piece, *place) {
        (Piece::Target(target), _) => show_target(sink, mode, resolver, place, target),
        (Piece::Param(param), Place::Within) => show_param(sink, param),
        _ => Ok(()),
    }
}

// Shows parameters in their written form, within a link-value that is shown.
fn show_plain<W: TextSink>(sink: &mut W, place: Place, params: &str) -> Result<(), Stop>
    ensures { Shows W.puts W.halts W.stops sink.old (params_text place params.now) sink.new result }
{
    match place {
        Place::Within => sink.put(params),
        Place::First | Place::Later => Ok(()),
    }
}

// Shows the link-values of a text that is read laxly.
pub(crate) fn show_text<S: Spec, W: TextSink>(
    sink: &mut W,
    mode: CanonMode,
    resolver: &FixedBaseResolver<'_, S>,
    text: &str,
) -> Result<(), Stop>
    ensures { Shows W.puts W.halts W.stops sink.old
        (written (map (resolved_in S.tests mode (base_text resolver.now)) (lax_links_in S.tests text.now))) sink.new result }
{
    let mut place = Place::First;
    let mut inside = false;
    let mut rest = text;
    'pieces: loop {
        if rest.is_empty() {
            return Ok(());
        }
        match next_piece(inside, rest) {
            Some((piece, after)) => {
                show_piece(sink, mode, resolver, &mut place, piece)?;
                inside = is_inside(piece);
                let (params, left) = cut_plain(inside, after);
                show_plain(sink, place, params)?;
                rest = left;
            }
            None => return Ok(()),
        }
    }
}
