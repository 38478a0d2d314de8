// A text as an escaped one: its `*` are read as `%2A`, and where asked its `$` as `%24`.
ghost use Rattle.std.specs.Prelude.{◌≡◌, ◌∷◌, [], MatchOption};
ghost use Rattle.iri_robots.specs.inside.Escaped.{after_bytes, head_of, left_of, left_text, next, tail_of};

// What of a text is left to read: what of an escape is left, and the text after it.
#[derive(Clone, Copy)]
pub(crate) struct Escaped<'a> {
    pub(crate) begun: &'static [u8],
    pub(crate) rest: &'a [u8],
}

// The first byte of what a byte is read as.
fn head_of(byte: u8, dollars: bool) -> u8
    ensures { result ≡ head_of dollars byte }
{
    if byte == b'*' || (byte == b'$' && dollars) {
        return b'%';
    }
    byte
}

// What follows it.
fn tail_of(byte: u8, dollars: bool) -> &'static [u8]
    ensures { result.now ≡ tail_of dollars byte }
{
    if byte == b'*' {
        return b"2A";
    }
    if byte == b'$' && dollars {
        return b"24";
    }
    b""
}

// The first byte, and what is left after it.
pub(crate) fn read(left: Escaped<'_>, dollars: bool) -> Option<(u8, Escaped<'_>)>
    ensures { MatchOption result (left_text dollars (left_of left.entry) ≡ [])
        (λ r. (left_text dollars (left_of left.entry) ≡ r.0 ∷ left_text dollars (left_of r.1))
        × (left_of r.1 ≡ next dollars (left_of left.entry))) }
{
    if let Some((first, begun)) = left.begun.split_first() {
        return Some((
            *first,
            Escaped {
                begun,
                rest: left.rest,
            },
        ));
    }
    let Some((first, rest)) = left.rest.split_first() else {
        return None;
    };
    Some((
        head_of(*first, dollars),
        Escaped {
            begun: tail_of(*first, dollars),
            rest,
        },
    ))
}

// What is left after so many bytes.
pub(crate) fn skip(left: Escaped<'_>, count: usize, dollars: bool) -> Escaped<'_>
    ensures { left_of result ≡ after_bytes dollars count (left_of left.entry) }
{
    let mut after = left;
    for _ in 0..count {
        match read(after, dollars) {
            Some((_, next)) => after = next,
            None => return after,
        }
    }
    after
}
