// The base, prepared once for all lines of a run.
ghost use Rattle.std.specs.Prelude.{◌≡◌, ◌≤◌, true, None, Some, length, MatchResult};
ghost use Rattle.std.specs.Vec.{vec_capacity};
ghost use Rattle.iri_grammar.specs.Characters.{question_mark};
ghost use Rattle.iri_grammar.specs.Components.{is_path};
ghost use Rattle.iri_grammar.specs.Cut.{delimited};
ghost use Rattle.iri_grammar.specs.OptionalSlices.{now_of};
ghost use Rattle.iri_text.specs.Shown.{Shows};
ghost use Rattle.iri_types.specs.Texts.{text};
ghost use Rattle.iri_cli.specs.canon.Answers.{refusal};
ghost use Rattle.iri_cli.specs.run.Prepared.{prepared, prepared_path};
ghost use Rattle.iri_cli.specs.inside.Opening.{IsPreparedOf};

use crate::run::base::base_of;
use crate::run::buffers::room_for;
use iri_grammar::spec::Spec;
use iri_normal::{MergedPath, NormalPrefix, cut_last_segment, show_guarded};
use iri_text::{CapacityOverflowError, Show, Stop, TextSink, show_two, write_to_slice};
use iri_types::kind::Absolute;
use iri_types::split::SplitView;
use iri_types::view::RiAbsoluteStr;

// A path without the dot segments before its last segment.
fn show_path<S: Spec, W: TextSink>(
    sink: &mut W,
    path: &str,
    authority_stands: bool,
) -> Result<(), Stop>
    requires { is_path S.tests path.now ≡ true }
    ensures { Shows W.puts W.halts W.stops sink.old (prepared_path authority_stands path.now)
        sink.new result }
{
    let (directory, last) = cut_last_segment(path);
    show_guarded::<S, W>(sink, &MergedPath::of(directory), authority_stands, false)?;
    sink.put(last)
}

// The query after its question mark, where it stands.
fn show_query<W: TextSink>(sink: &mut W, query: Option<&str>) -> Result<(), Stop>
    ensures { Shows W.puts W.halts W.stops sink.old
        (delimited question_mark (now_of query.entry)) sink.new result }
{
    match query {
        Some(query) => show_two(sink, &"?", &query),
        None => Ok(()),
    }
}

// A base with its prefix in normal form, and without the dot segments before the last segment of its path.
#[derive(Drop)]
struct Prepared<'a, S: Spec> {
    base: SplitView<'a, S, Absolute>,
}

impl<S: Spec> Show for Prepared<'_, S> {
    ghost use Rattle.std.specs.Prelude.{true, ◌++◌, is_some};
    ghost use Rattle.iri_grammar.specs.Characters.{question_mark};
    ghost use Rattle.iri_grammar.specs.Cut.{delimited};
    ghost use Rattle.iri_grammar.specs.Split.{split_of};
    ghost use Rattle.iri_normal.specs.Prefix.{prefix_in};
    ghost use Rattle.iri_types.specs.SplitText.{split_text};
    ghost use Rattle.iri_cli.specs.run.Prepared.{prepared_path};

    ghost text = { λ p. prefix_in S.tests true (split_of (split_text p.base))
        ++ (prepared_path (is_some (split_of (split_text p.base)).authority)
        (split_of (split_text p.base)).path
        ++ delimited question_mark (split_of (split_text p.base)).query) };

    fn show<W: TextSink>(&self, sink: &mut W) -> Result<(), Stop> {
        let parts = self.base.parts();
        NormalPrefix { base: self.base }.show(sink)?;
        show_path::<S, W>(sink, parts.path(), parts.authority().is_some())?;
        show_query(sink, parts.query())
    }
}

// Writes a prepared base to a buffer that has room for the base.
fn write_prepared<'b, S: Spec>(
    base: RiAbsoluteStr<'_, S>,
    buffer: &'b mut [u8],
) -> RiAbsoluteStr<'b, S>
    requires taken { refusal S.tests (text base) ≡ None }
    requires room { length (text base) ≤ length buffer.old }
    ensures { text result ≡ prepared S.tests (text base.entry) }
{
    let base = SplitView::of(base);
    match write_to_slice(buffer, &Prepared { base }) {
        Ok(text) => RiAbsoluteStr::from_valid(text),
        Err(CapacityOverflowError) => unreachable!(),
    }
}

/// The base of a base line, prepared in a buffer: its scheme and authority are in normal form, and no dot segments stand before the last
/// segment of its path. Or in words why the line is refused.
pub fn prepare_base<'b, S: Spec>(
    line: &[u8],
    buffer: &'b mut Vec<u8>,
) -> Result<RiAbsoluteStr<'b, S>, &'static str>
    requires { length line.now ≤ vec_capacity buffer.old }
    ensures { MatchResult result (λ base. IsPreparedOf S.tests line.now (text base))
        (λ words. refusal S.tests line.now ≡ Some words.now) }
{
    match base_of::<S>(line) {
        Ok(base) => {
            room_for(buffer, base.len());
            Ok(write_prepared(base, buffer))
        }
        Err(words) => Err(words),
    }
}
