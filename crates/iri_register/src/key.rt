//! A text as a key of the map, with its hash.
ghost use Rattle.std.specs.Prelude.{◌≡◌, string_bytes};
ghost use Rattle.iri_register.specs.inside.Keys.{IsHashed};

use std::alloc::Global;
use std::hash::{DefaultHasher, Hash, Hasher};

// A text and its hash, which the map takes over: a text is hashed once, where it is looked for and then put. That is 420
// instructions of a new link's line less (2026-12-01).
#[derive(Drop, PartialEq, Eq)]
pub(crate) struct Key {
    pub(crate) hash: u64,
    pub(crate) text: String,
}

impl Hash for Key {
    ghost use Rattle.std.specs.Hash as fed;
    ghost use Rattle.iri_register.specs.inside.Keys.{same_hash};

    ghost hash_input = { λ k. fed.u64 k.hash };

    ghost respects_eq = { same_hash };

    fn hash<H: Hasher>(&self, state: &mut H) {
        state.write_u64(self.hash);
    }
}

// The key of no text. It takes no memory.
pub(crate) fn none(alloc: Global) -> Key {
    Key {
        hash: 0,
        text: String::new(alloc),
    }
}

// SipHash-1-3 of a key of 128 bits, before the text: who doesn't know the key can't pick texts that collide.
pub(crate) fn keyed(key: u128) -> DefaultHasher {
    let mut initial = DefaultHasher::new();
    initial.write(key.to_le_bytes().as_slice());
    initial
}

// Takes the hash of the text.
pub(crate) fn take_hash(initial: &DefaultHasher, key: &mut Key)
    ensures hash { IsHashed initial.now key.new }
    ensures text { key.new.text ≡ key.old.text }
{
    let mut hasher = *initial;
    hasher.write(key.text.as_bytes());
    key.hash = hasher.finish();
}
