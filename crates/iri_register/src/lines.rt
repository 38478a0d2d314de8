//! The numbers of an entry's lines.
ghost use Rattle.std.specs.Prelude.{◌≡◌, [], ◌∷◌, ◌++◌, OnErr, OnOk};
ghost use Rattle.iri_register.specs.Listed.{numbers_in};

use std::alloc::{AllocError, Global};

// One number stands in the entry itself, so that a link of one line takes no memory besides its text: 340 instructions and 23
// bytes an entry less (2026-12-01).
#[derive(Drop)]
pub(crate) enum Lines {
    One([u64; 1]),
    More(Vec<u64>),
}

// The numbers, in order.
pub(crate) fn as_slice(lines: &Lines) -> &[u64]
    ensures { result.now ≡ numbers_in lines.now }
{
    match lines {
        Lines::One(line) => line.as_slice(),
        Lines::More(lines) => lines.as_slice(),
    }
}

// Puts a number at the end.
pub(crate) fn push(alloc: Global, lines: &mut Lines, line: u64) -> Result<(), AllocError>
    ensures pushed { OnOk result (numbers_in lines.new ≡ numbers_in lines.old ++ line ∷ []) }
    ensures unchanged { OnErr result (numbers_in lines.new ≡ numbers_in lines.old) }
{
    match lines {
        Lines::One(first) => {
            let mut more = Vec::with_capacity(alloc, 3)?;
            more.push(first[0])?;
            more.push(line)?;
            *lines = Lines::More(more);
            Ok(())
        }
        Lines::More(lines) => match lines.push(line) {
            Ok(()) => Ok(()),
            Err(_) => Err(AllocError)
        },
    }
}
