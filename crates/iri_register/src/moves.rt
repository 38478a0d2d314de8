//! How far entries moved up: for each slot, how many entries before it were taken out.
//!
//! Slots stand in blocks of one width. The number of a slot is the sum of its block's and of its own, so a removal changes
//! no more than the numbers of the slots after it in its block, and those of the blocks after it. The width is about the
//! square root of the number of slots.
ghost use Rattle.std.specs.Prelude.{◌^◌, ◌≡◌, ℕ, IfOk, ◌+◌, ◌*◌, ◌≤◌, ◌<◌, length, get_or};
ghost use Rattle.iri_register.specs.inside.Moved.{IsBlocked, moved};

use std::alloc::{AllocError, Global};

// The numbers of the blocks, those of the slots besides, and how many slots a block has.
#[derive(Drop)]
pub(crate) struct Moves {
    pub(crate) blocks: Vec<usize>,
    pub(crate) slots: Vec<usize>,
    pub(crate) width: usize,
}

// By how many places the entry in a slot moved up.
pub(crate) fn at(moves: &Moves, slot: usize) -> usize
    requires blocked { IsBlocked moves.now }
    requires within { slot < length moves.now.slots.items }
    requires small { moved moves.now slot < 2 ^ 63 }
    ensures { result ≡ moved moves.now slot }
{
    moves.blocks[slot / moves.width] + moves.slots[slot]
}

// One more at each place of a list from one on, and before another.
fn raise(counts: &mut [usize], from: usize, to: usize)
    requires within { from ≤ to }
    requires end { to ≤ length counts.old }
    requires small { (k : ℕ) → k < to → get_or counts.old k 0 < 2 ^ 63 }
    ensures same { length counts.new ≡ length counts.old }
    ensures before { (k : ℕ) → k < from → get_or counts.new k 0 ≡ get_or counts.old k 0 }
    ensures between { (k : ℕ) → from ≤ k → k < to → get_or counts.new k 0 ≡ get_or counts.old k 0 + 1 }
    ensures after { (k : ℕ) → to ≤ k → get_or counts.new k 0 ≡ get_or counts.old k 0 }
{
    for place in from..to {
        counts[place] += 1;
    }
}

// The entries in the slots after one move up.
pub(crate) fn close(moves: &mut Moves, slot: usize)
    requires blocked { IsBlocked moves.old }
    requires within { slot < length moves.old.slots.items }
    requires small { (k : ℕ) → k < length moves.old.slots.items → moved moves.old k < 2 ^ 63 }
    ensures blocked { IsBlocked moves.new }
    ensures same { length moves.new.slots.items ≡ length moves.old.slots.items }
    ensures before { (k : ℕ) → k ≤ slot → moved moves.new k ≡ moved moves.old k }
    ensures after { (k : ℕ) → slot < k → k < length moves.old.slots.items
        → moved moves.new k ≡ moved moves.old k + 1 }
{
    let next = slot / moves.width + 1;
    let end = next * moves.width;
    let blocks = moves.blocks.len();
    raise(moves.slots.as_mut_slice(), slot + 1, end);
    raise(moves.blocks.as_mut_slice(), next, blocks);
}

// None moved, with more slots than for twice so many entries.
pub(crate) fn none(alloc: Global, entries: usize) -> Result<Moves, AllocError>
    requires small { entries < 2 ^ 63 }
    ensures blocked { IfOk result IsBlocked }
    ensures room { IfOk result (λ m. entries * 2 < length m.slots.items) }
    ensures none { IfOk result (λ m. (k : ℕ) → moved m k ≡ 0) }
{
    let width = (entries * 2).isqrt() + 8;
    let size = match width.checked_mul(width) {
        Some(size) => size,
        None => return Err(AllocError),
    };
    let slots = vec![in alloc; 0; size]?;
    let blocks = vec![in alloc; 0; width]?;
    Ok(Moves {
        blocks,
        slots,
        width,
    })
}
