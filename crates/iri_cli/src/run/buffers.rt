//! The memory that a run over lines takes first.
ghost use Rattle.std.specs.Prelude.{◌≤◌, IfOk, length};
ghost use Rattle.std.specs.Vec.{vec_capacity};
ghost use Rattle.iri_cli.specs.run.Buffers.{AreBuffers};

use iri_text::{LARGEST_LINE_LIMIT, LineReader};
use std::alloc::{AllocError, Global};

/// How many bytes a line may have before its LF.
pub const LINE: usize = LARGEST_LINE_LIMIT;

/// How many bytes the input may have.
pub const INPUT: u64 = 1073741824;

/// How many bytes a good answer may have after its mark: a text with at most as many as its base and its reference
/// together and three more, and an LF.
pub const OUTPUT: usize = 2 * LINE + 4;

/// The memory that every command over lines takes before it reads, and all that `canon` needs: for a
/// reader of lines, the base line, and an answer. Of the last two a run uses only as much as its
/// longest lines need.
#[derive(Drop)]
pub struct CanonBuffers {
    pub(crate) reader: LineReader,
    pub(crate) base: Vec<u8>,
    pub(crate) output: Vec<u8>,
    pub ghost sound: { AreBuffers reader (vec_capacity base) (vec_capacity output) },
}

impl CanonBuffers {
    /// Takes the memory: 65,536 bytes and a line for a reader that took nothing yet, a line for the
    /// base, and two lines and four bytes for an answer after its mark.
    ///
    /// # Errors
    ///
    /// Where that is refused, and only there.
    pub fn new(alloc: Global) -> Result<CanonBuffers, AllocError>
        ensures { IfOk result
            (λ b. AreBuffers b.reader (vec_capacity b.base) (vec_capacity b.output)) }
    {
        let reader = LineReader::new(alloc, LINE, INPUT)?;
        let base = Vec::with_capacity(alloc, LINE)?;
        let output = Vec::with_capacity(alloc, OUTPUT)?;
        Ok(CanonBuffers {
            reader,
            base,
            output,
        })
    }
}

// Lengthens a buffer within its capacity.
#[cold]
#[inline(never)]
fn lengthen(buffer: &mut Vec<u8>, len: usize)
    requires { len ≤ vec_capacity buffer.old }
    ensures room { len ≤ length buffer.new.items }
    ensures capacity { vec_capacity buffer.old ≤ vec_capacity buffer.new }
{
    match buffer.resize(len, 0) {
        Ok(()) => (),
        Err(AllocError) => unreachable!(),
    }
}

/// Makes a buffer at least so long, within its capacity: what was never used of it takes no pages.
#[inline(always)]
pub(crate) fn room_for(buffer: &mut Vec<u8>, len: usize)
    requires { len ≤ vec_capacity buffer.old }
    ensures room { len ≤ length buffer.new.items }
    ensures capacity { vec_capacity buffer.old ≤ vec_capacity buffer.new }
{
    if buffer.len() < len {
        lengthen(buffer, len);
    }
}
