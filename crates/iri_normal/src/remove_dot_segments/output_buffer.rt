// The output buffer of dot removal: the segments that stay so far, each with its slash.
ghost use Rattle.std.specs.Prelude.{◌≡◌, ◌<◌, ◌≤◌, ◌+◌, ◌++◌, ◌∷◌, ◌||◌, ◌==◌, [], length, take, false, true};
ghost use Rattle.memchr.specs.Find.{IsLastByte, is_byte};
ghost use Rattle.iri_grammar.specs.Characters.{percent_sign, slash};
ghost use Rattle.iri_grammar.specs.Cut.{lacks};
ghost use Rattle.iri_grammar.specs.Parts.{is_empty};
ghost use Rattle.iri_grammar.specs.Pieces.{pieces};
ghost use Rattle.iri_normal.specs.DotRemoval.{dots};
ghost use Rattle.iri_normal.specs.Dots.{has_dot_segment};
ghost use Rattle.iri_normal.specs.inside.Kept.{kept};
ghost use Rattle.iri_normal.specs.Target.{ends_at_slash};
ghost use Rattle.iri_normal.specs.inside.Written.{left, popped, popped_times, written};

use crate::dots::next_dots;

// How many bytes a path has at most that is gathered. The buffer is filled with zeros for each, so that a larger one costs more.
pub(crate) const SHORT: usize = 128;

fn append(buf: &mut [u8; SHORT], len: usize, piece: &[u8]) -> usize
    requires room { len + length piece.now ≤ 128 }
    ensures len { result ≡ len + length piece.now }
    ensures text { take result buf.new ≡ take len buf.old ++ piece.now }
{
    let end = len + piece.len();
    buf[len..end].copy_from_slice(piece);
    end
}

// Where the last slash is. Segments are short where there are many, so it is looked for byte by byte.
fn rfind_near(bytes: &[u8]) -> Option<usize>
    ensures { IsLastByte (is_byte 47) bytes.now result }
{
    let mut rest = bytes;
    'bytes: while let [directory @ .., last] = rest {
        if *last == b'/' {
            return Some(directory.len());
        }
        rest = directory;
    }
    None
}

// The last segment goes; where it is the first one, its slash stays.
fn pop(buf: &mut [u8; SHORT], len: usize) -> usize
    requires within { len ≤ 128 }
    requires ends { ends_at_slash (take len buf.old) ≡ true }
    ensures within { result ≤ len }
    ensures text { take result buf.new ≡ popped (take len buf.old) }
{
    if len == 0 {
        return 0;
    }
    match rfind_near(&buf[..len - 1]) {
        Some(i) => i + 1,
        None => {
            buf[0] = b'/';
            1
        }
    }
}

// What a dot segment leaves.
fn leave(buf: &mut [u8; SHORT], len: usize, two: bool) -> usize
    requires within { len ≤ 128 }
    requires ends { ends_at_slash (take len buf.old) ≡ true }
    ensures within { result ≤ len }
    ensures text { take result buf.new ≡ left two (take len buf.old) }
{
    if two { pop(buf, len) } else { len }
}

// Puts a path after what is in the buffer, without its dot segments.
#[inline(always)]
fn put(buf: &mut [u8; SHORT], len: usize, path: &[u8]) -> usize
    requires room { len + length path.now ≤ 128 }
    requires ends { (is_empty path.now || ends_at_slash (take len buf.old)) ≡ true }
    ensures within { result ≤ len + length path.now }
    ensures text { take result buf.new ≡ written (take len buf.old) path.now }
{
    let mut rest = path;
    let mut end = len;
    'dots: while let Some(next) = next_dots(rest) {
        end = append(buf, end, next.run);
        end = leave(buf, end, next.two);
        rest = next.rest;
    }
    append(buf, end, rest)
}

// Whether no `%` is in the buffer. No byte ends the loop, so that it is compiled to a few compares of blocks: where all percent-encoded
// octets of a path were dots, it isn't searched for others byte by byte. A byte of references full of dots costs 1.5 instructions less
// (2026-12-01).
pub(crate) fn lacks_percent(buf: &[u8; SHORT]) -> bool
    ensures { result ≡ lacks percent_sign buf.now }
{
    let mut lacks = true;
    for b in buf {
        lacks &= *b != b'%';
    }
    lacks
}

// So many times the last segment goes. Of the first one the slash stays.
fn pop_times(buf: &mut [u8; SHORT], len: usize, count: usize) -> usize
    requires within { len ≤ 128 }
    requires ends { (ends_at_slash (take len buf.old) || count == 0) ≡ true }
    ensures within { result ≤ len }
    ensures text { take result buf.new ≡ popped_times count (take len buf.old) }
{
    let mut end = len;
    let mut left = count;
    'pops: while left > 0 && end > 1 {
        end = pop(buf, end);
        left -= 1;
    }
    end
}

// Puts a path into the empty buffer, without its dot segments. `plain` says that it has none.
fn put_first(buf: &mut [u8; SHORT], path: &[u8], plain: bool) -> usize
    requires short { length path.now ≤ 128 }
    requires plain { plain ≡ true → has_dot_segment path.now ≡ false }
    ensures within { result ≤ length path.now }
    ensures text { take result buf.new ≡ written [] path.now }
{
    if plain {
        append(buf, 0, path)
    } else {
        put(buf, 0, path)
    }
}

// Puts a short path in two pieces, cut where a segment ends or with nothing after the cut, without its dot segments.
// `plain` says that the first piece has none.
pub(crate) fn put_path(buf: &mut [u8; SHORT], base: &[u8], reference: &[u8], plain: bool) -> usize
    requires cut { (is_empty reference.now || ends_at_slash base.now) ≡ true }
    requires short { length base.now + length reference.now ≤ 128 }
    requires plain { plain ≡ true → has_dot_segment base.now ≡ false }
    ensures within { result ≤ 128 }
    ensures text { take result buf.new ≡ dots (base.now ++ reference.now) }
{
    let first = put_first(buf, base, plain);
    put(buf, first, reference)
}

// Puts what stays of a part of a longer path, where `count` segments are taken away after it. A slash comes before it, which
// no dot segment takes away.
pub(crate) fn put_kept(buf: &mut [u8; SHORT], text: &[u8], count: usize) -> usize
    requires ends { (ends_at_slash text.now || count == 0) ≡ true }
    requires short { length text.now < 128 }
    ensures within { (1 ≤ result) × (result ≤ 128) }
    ensures text { take result buf.new ≡ slash ∷ kept (pieces slash text.now) count }
{
    buf[0] = b'/';
    let all = put(buf, 1, text);
    pop_times(buf, all, count)
}
