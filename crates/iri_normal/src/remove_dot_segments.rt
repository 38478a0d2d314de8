// Removal of dot segments (RFC 3986 section 5.2.4), into a sink, with no memory.
//
// The output buffer of the definition holds segments, each with its slash. Most paths have at most 128 bytes, and go into such a
// buffer on the stack, run by run (`written`): in the end it holds the path without its dot segments (`dots`), by the law
// `written-dots`.
//
// A longer path is read as a directory without dot segments, and what follows it: that is the base's piece where it is known to
// have none, as most bases have, and otherwise the first segment. What follows takes some of the directory's last segments away,
// and then pushes what stays of itself (`taken`, `kept`; by the law `path-stays` this is what the buffer does). So of a
// directory only the end is looked at, however long it is. What follows it is seldom longer than the buffer. Where it is, it is
// shown in parts, each as soon as it was counted, forward, how many of its segments the parts after it take away.
ghost use Rattle.std.specs.Prelude.{◌≡◌, ◌<◌, ◌≤◌, ◌+◌, ◌^◌, ◌==◌, ◌&&◌, ◌||◌, [], false, not, true, drop, length, take};
ghost use Rattle.std.specs.Str.{IsUtf8};
ghost use Rattle.iri_grammar.specs.Characters.{percent_sign, slash};
ghost use Rattle.iri_grammar.specs.Components.{is_path};
ghost use Rattle.iri_grammar.specs.Cut.{before, lacks};
ghost use Rattle.iri_grammar.specs.Parts.{is_empty};
ghost use Rattle.iri_grammar.specs.Pieces.{pieces};
ghost use Rattle.iri_percent.specs.Units.{whole_triplets};
ghost use Rattle.iri_normal.specs.DotRemoval.{dots};
ghost use Rattle.iri_normal.specs.Dots.{has_dot_segment, is_dot_segment};
ghost use Rattle.iri_normal.specs.inside.Kept.{kept, taken};
ghost use Rattle.iri_normal.specs.inside.Parents.{IsParent};
ghost use Rattle.iri_normal.specs.inside.PathForm.{in_form};
ghost use Rattle.iri_normal.specs.Slices.{merged};
ghost use Rattle.iri_normal.specs.Target.{ends_at_slash};
ghost use Rattle.iri_normal.specs.inside.Written.{popped_times, written};
ghost use Rattle.iri_text.specs.Shown.{Shows};

use self::output_buffer::{SHORT, lacks_percent, put_kept, put_path};
use self::segments::{cut_eighth, cut_first, without_first_dots};
use crate::dots::has_dot_segment;
use crate::merged_path::MergedPath;
use iri_grammar::dots::may_have_dots;
use iri_grammar::spec::Spec;
use iri_percent::PctCaseNormalized;
use iri_text::{Show, Stop, TextSink};

mod output_buffer;
mod segments;

pub(crate) use self::segments::{popped_times, taken};

/// A part, its percent-encoded octets in normal form where that is asked for.
pub fn show_part<S: Spec, W: TextSink>(sink: &mut W, part: &str, normal: bool) -> Result<(), Stop>
    requires { whole_triplets part.now ≡ true }
    ensures { Shows W.puts W.halts W.stops sink.old (in_form S.tests normal part.now) sink.new result }
{
    if part.is_empty() {
        return Ok(());
    }
    if normal {
        PctCaseNormalized::<S>::new(part).show(sink)
    } else {
        sink.put(part)
    }
}

/// A path as it is.
#[inline(always)]
pub fn show_as_it_stands<S: Spec, W: TextSink>(
    sink: &mut W,
    path: &MergedPath<'_>,
    normal: bool,
) -> Result<(), Stop>
    requires { whole_triplets (merged path.now) ≡ true }
    ensures { Shows W.puts W.halts W.stops sink.old (in_form S.tests normal (merged path.now)) sink.new result }
{
    show_part::<S, W>(sink, path.base, normal)?;
    show_part::<S, W>(sink, path.reference, normal)
}

// The text in the buffer between two places.
fn text_of(buf: &[u8; SHORT], start: usize, len: usize) -> &str
    requires within { (start ≤ len) × (len ≤ 128) }
    requires utf8 { IsUtf8 (drop start (take len buf.now)) }
    ensures { result.now ≡ drop start (take len buf.now) }
{
    unsafe { str::from_utf8_unchecked(&buf[start..len]) }
}

// A short path.
#[inline(always)]
fn show_short<S: Spec, W: TextSink>(
    sink: &mut W,
    path: &MergedPath<'_>,
    normal: bool,
) -> Result<(), Stop>
    requires path { is_path S.tests (merged path.now) ≡ true }
    requires short { length path.now.base.now + length path.now.reference.now ≤ 128 }
    ensures { Shows W.puts W.halts W.stops sink.old (in_form S.tests normal (dots (merged path.now))) sink.new result }
{
    let mut buf = [0u8; SHORT];
    let len = put_path(
        &mut buf,
        path.base.as_bytes(),
        path.reference.as_bytes(),
        path.plain,
    );
    let bare = lacks_percent(&buf);
    show_part::<S, W>(sink, text_of(&buf, 0, len), normal & !bare)
}

// What stays of a short part after a slash, where `count` segments are taken away after it.
#[inline(never)]
fn show_few<S: Spec, W: TextSink>(
    sink: &mut W,
    text: &str,
    count: usize,
    normal: bool,
) -> Result<(), Stop>
    requires ends { (ends_at_slash text.now || count == 0) ≡ true }
    requires path { is_path S.tests text.now ≡ true }
    requires short { length text.now < 128 }
    ensures { Shows W.puts W.halts W.stops sink.old (in_form S.tests normal (kept (pieces slash text.now) count)) sink.new result }
{
    let mut buf = [0u8; SHORT];
    let len = put_kept(&mut buf, text.as_bytes(), count);
    show_part::<S, W>(sink, text_of(&buf, 1, len), normal)
}

// Whether all segments stay as they are.
fn stays(text: &str, count: usize) -> bool
    ensures { result ≡ (count == 0 && not (has_dot_segment text.now)) }
{
    count == 0 && !has_dot_segment(text)
}

// What stays of a part after a slash, where `count` segments are taken away after it.
fn show_kept<S: Spec, W: TextSink>(
    sink: &mut W,
    text: &str,
    count: usize,
    normal: bool,
) -> Result<(), Stop>
    requires ends { (ends_at_slash text.now || count == 0) ≡ true }
    requires path { is_path S.tests text.now ≡ true }
    requires room { count + length text.now < 2 ^ 64 }
    ensures { Shows W.puts W.halts W.stops sink.old (in_form S.tests normal (kept (pieces slash text.now) count)) sink.new result }
{
    if text.len() < SHORT {
        return show_few::<S, W>(sink, text, count, normal);
    }
    if stays(text, count) {
        return show_part::<S, W>(sink, text, normal);
    }
    let Some((first, rest)) = cut_eighth(text) else {
        return Ok(());
    };
    show_kept::<S, W>(sink, first, taken(rest, count), normal)?;
    show_kept::<S, W>(sink, rest, count, normal)
}

// What stays of a directory before what follows it, where its length may be known. One byte is a slash, and that is what stays of a
// directory that doesn't begin with one, too.
fn parent_of<'a>(directory: &'a str, known: u32, text: &str, count: usize) -> &'a str
    requires ends { ends_at_slash directory.now ≡ true }
    requires known { IsParent known (taken (pieces slash text.now) count) directory.now }
    requires room { count + length text.now < 2 ^ 64 }
    ensures { result.now ≡ popped_times (taken (pieces slash text.now) count) directory.now }
{
    if known == 0 {
        return popped_times(directory, taken(text, count));
    }
    if known == 1 {
        return "/";
    }
    &directory[..known as usize]
}

// A path in three pieces: a directory, what follows it, and more, which follows where a segment of that ends. `known` is how much the
// dot segments of these leave of the directory, or 0. `bare` says that the directory has no percent-encoded octet.
fn show_after<S: Spec, W: TextSink>(
    sink: &mut W,
    directory: &str,
    known: u32,
    text: &str,
    more: &str,
    bare: bool,
    normal: bool,
) -> Result<(), Stop>
    requires directory { (ends_at_slash directory.now && not (is_empty directory.now)) ≡ true }
    requires known { IsParent known (taken (pieces slash text.now) (taken (pieces slash more.now) 0)) directory.now }
    requires bare { bare ≡ true → lacks percent_sign directory.now ≡ true }
    requires cut { (is_empty more.now || ends_at_slash text.now) ≡ true }
    requires paths { (is_path S.tests directory.now ≡ true) × (is_path S.tests text.now ≡ true) × (is_path S.tests more.now ≡ true) }
    ensures { Shows W.puts W.halts W.stops sink.old
        (in_form S.tests normal (written (written directory.now text.now) more.now)) sink.new result }
{
    let count = taken(more, 0);
    let parent = parent_of(directory, known, text, count);
    show_part::<S, W>(sink, parent, normal & !bare)?;
    show_kept::<S, W>(sink, text, count, normal)?;
    show_kept::<S, W>(sink, more, 0, normal)
}

// A text that begins with no dot segment, and more, which follows where a segment of it ends.
fn show_from_first<S: Spec, W: TextSink>(
    sink: &mut W,
    text: &str,
    more: &str,
    normal: bool,
) -> Result<(), Stop>
    requires cut { (is_empty more.now || ends_at_slash text.now && not (is_empty text.now)) ≡ true }
    requires plain { is_dot_segment (before slash text.now) ≡ false }
    requires paths { (is_path S.tests text.now ≡ true) × (is_path S.tests more.now ≡ true) }
    ensures { Shows W.puts W.halts W.stops sink.old
        (in_form S.tests normal (written (written [] text.now) more.now)) sink.new result }
{
    match cut_first(text) {
        Some((first, rest)) => show_after::<S, W>(sink, first, 0, rest, more, false, normal),
        None => show_part::<S, W>(sink, text, normal),
    }
}

// A path whose first piece may have dot segments, or is empty: a long one of a reference's own, or under a base that wasn't prepared.
fn show_from_start<S: Spec, W: TextSink>(
    sink: &mut W,
    path: &MergedPath<'_>,
    normal: bool,
) -> Result<(), Stop>
    requires { is_path S.tests (merged path.now) ≡ true }
    ensures { Shows W.puts W.halts W.stops sink.old (in_form S.tests normal (dots (merged path.now))) sink.new result }
{
    let base = without_first_dots::<S>(path.base);
    if base.is_empty() {
        let reference = without_first_dots::<S>(path.reference);
        return show_from_first::<S, W>(sink, reference, "", normal);
    }
    show_from_first::<S, W>(sink, base, path.reference, normal)
}

// Whether a path's first piece is a directory without dot segments, and something follows it.
fn has_plain_directory(path: &MergedPath<'_>) -> bool
    ensures { result ≡ true → (is_empty path.now.base.now ≡ false) × (is_empty path.now.reference.now ≡ false)
        × (has_dot_segment path.now.base.now ≡ false) }
{
    path.plain && !path.base.is_empty() && !path.reference.is_empty()
}

// A long path: few have more than 128 bytes and a dot segment.
#[inline(never)]
fn show_long<S: Spec, W: TextSink>(
    sink: &mut W,
    path: &MergedPath<'_>,
    normal: bool,
) -> Result<(), Stop>
    requires { is_path S.tests (merged path.now) ≡ true }
    ensures { Shows W.puts W.halts W.stops sink.old (in_form S.tests normal (dots (merged path.now))) sink.new result }
{
    if has_plain_directory(path) {
        return show_after::<S, W>(
            sink,
            path.base,
            path.parent,
            path.reference,
            "",
            path.bare,
            normal,
        );
    }
    show_from_start::<S, W>(sink, path, normal)
}

// Whether no segment of a path begins with a dot, so that none is a dot segment.
fn lacks_dots(path: &MergedPath<'_>) -> bool
    ensures { result ≡ true → has_dot_segment (merged path.now) ≡ false }
{
    if may_have_dots(path.reference.as_bytes()) {
        return false;
    }
    path.plain || !may_have_dots(path.base.as_bytes())
}

/// A path without its dot segments.
#[inline(always)]
pub fn show_without_dots<S: Spec, W: TextSink>(
    sink: &mut W,
    path: &MergedPath<'_>,
    normal: bool,
) -> Result<(), Stop>
    requires { is_path S.tests (merged path.now) ≡ true }
    ensures { Shows W.puts W.halts W.stops sink.old (in_form S.tests normal (dots (merged path.now))) sink.new result }
{
    if lacks_dots(path) {
        return show_as_it_stands::<S, W>(sink, path, normal);
    }
    if path.base.len() <= SHORT && path.reference.len() <= SHORT - path.base.len() {
        return show_short::<S, W>(sink, path, normal);
    }
    show_long::<S, W>(sink, path, normal)
}
