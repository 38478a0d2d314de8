//! The entries, kept in a map in first-seen order.
ghost use Rattle.std.specs.Prelude.{◌≡◌, ◌<◌, ◌≤◌, ◌+◌, ◌^◌, if◌then◌else◌, [], length, string_bytes, map as mapped, option_map};
ghost use Rattle.std.specs.Prelude.{List, ℕ, is_some, false, None, filter, slice_get, is_ok};
ghost use Rattle.std.specs.Prelude.{OnOk, IfOk, IfSome, IfNone};
ghost use Rattle.std.specs.List.{IsDistinct};
ghost use Rattle.indexmap.specs.IndexMap.{index_map_len};
ghost use Rattle.std.specs.Map.{lookup};
ghost use Rattle.std.specs.Str.{bytes_eq};
ghost use Rattle.iri_register.specs.Entries.{added, removed, place, line_count, entry_at, IsAdded};
ghost use Rattle.iri_register.specs.Listed.{entries_of, entry_of, has_lines, is_live, numbers_in};
ghost use Rattle.iri_register.specs.declared.moves.Moves.{Moves};
ghost use Rattle.iri_register.specs.inside.Keys.{IsAskedOf, IsHashed};
ghost use Rattle.iri_register.specs.inside.Moved.{IsPlacedBy, moved};
ghost use Rattle.iri_register.specs.inside.Places.{IsAt, is_text};
ghost use Rattle.iri_register.specs.inside.Slots.{flag_at, gaps, IsKept};

use crate::added::Added;
use crate::key::{self, Key};
use crate::lines::{self, Lines};
use crate::moves::{self, Moves};
use indexmap::IndexMap;
use std::alloc::{AllocError, Global};
use std::hash::DefaultHasher;
use std::marker::Model;

type Map = IndexMap<Key, Lines>;

// The entries. One that was taken out stays in the map without lines, in its slot, until the slots run out: the index
// of an entry in the map is its slot, and the moves tell by how many places it moved up.
#[derive(Drop)]
pub(crate) struct Entries {
    hasher: DefaultHasher,
    map: Map,
    live: usize,
    moves: Moves,
}

impl Model for Entries {
    ghost use Rattle.std.specs.Prelude.{List};
    ghost use Rattle.iri_register.specs.Entries.{Entry};
    ghost use Rattle.iri_register.specs.Listed.{entries_of};
    ghost use Rattle.iri_register.specs.inside.Slots.{IsKept};

    ghost Value = { List Entry };

    ghost view = { λ r. entries_of r.map.entries };

    ghost invariant = { λ r. IsKept r.hasher r.map.entries r.moves r.live };
}

// No entries, in a map whose hashes have this key.
pub(crate) fn none(alloc: Global, key: u128) -> Entries
    ensures { result ≡ [] }
{
    Entries {
        hasher: key::keyed(key),
        map: IndexMap::new(alloc),
        live: 0,
        moves: Moves {
            blocks: Vec::new(alloc),
            slots: Vec::new(alloc),
            width: 1,
        },
    }
}

// The number of entries.
pub(crate) fn len(entries: &Entries) -> usize
    ensures len { result ≡ length entries.now }
    ensures once { IsDistinct bytes_eq (mapped (λ e. e.target) entries.now) }
{
    // `len` of the map is called for its clause that keys are distinct.
    let _len = entries.map.len();
    entries.live
}

// The entry with these lines was not taken out.
fn stays(lines: &Lines) -> bool
    ensures { result ≡ has_lines (numbers_in lines.now) }
{
    !matches!(lines::as_slice(lines), [])
}

// The slot of the entry that has this target.
fn slot_of(map: &Map, target: &Key) -> Option<usize>
    requires { IsAskedOf map.now.entries target.now }
    ensures here { IfSome result (λ i. IsAt (string_bytes target.now.text) map.now.entries i) }
    ensures live { IfSome result (λ i. flag_at map.now.entries i ≡ 1) }
    ensures within { IfSome result (λ i. i < index_map_len map.now) }
    ensures small { index_map_len map.now < 2 ^ 63 }
    ensures none { IfNone result (place (entries_of map.now.entries) (string_bytes target.now.text) ≡ None) }
{
    // `len` is called for its clause that keys are distinct.
    let _len = map.len();
    match map.get_full(target) {
        Some((slot, _, lines)) => if stays(lines) { Some(slot) } else { None },
        None => None,
    }
}

// The place of the entry in a slot.
fn place_of(moves: &Moves, slot: usize) -> usize
    requires { IsPlacedBy moves.now slot }
    ensures { result + moved moves.now slot ≡ slot + 1 }
{
    slot - moves::at(moves, slot) + 1
}

// The place of the entry that has this target.
pub(crate) fn find(entries: &Entries, target: &mut Key) -> Option<usize>
    ensures { result ≡ place entries.now (string_bytes target.old.text) }
{
    key::take_hash(&entries.hasher, target);
    match slot_of(&entries.map, target) {
        Some(slot) => Some(place_of(&entries.moves, slot)),
        None => None,
    }
}

// Puts a line at the end of those of the entry in a slot, which has this target.
fn add_line(
    alloc: Global,
    map: &mut Map,
    target: &Key,
    slot: usize,
    line: u64,
) -> Result<(), AllocError>
    requires there { IsAt (string_bytes target.now.text) map.old.entries slot }
    requires live { flag_at map.old.entries slot ≡ 1 }
    requires within { slot < index_map_len map.old }
    ensures lines { entries_of map.new.entries
        ≡ (if is_ok result then added (entries_of map.old.entries) (string_bytes target.now.text) line else entries_of map.old.entries) }
    ensures kept { (h : DefaultHasher) → (moves : Moves) → (live : ℕ) → IsKept h map.old.entries moves live
        → IsKept h map.new.entries moves live }
{
    let lines = &mut map[slot];
    match lines::push(alloc, lines, line) {
        Ok(()) => Ok(()),
        Err(_) => Err(AllocError),
    }
}

// Frees the slots of the entries that were taken out, and makes room for as many entries again.
fn pack(
    alloc: Global,
    hasher: &DefaultHasher,
    map: &mut Map,
    live: usize,
    moves: &mut Moves,
) -> Result<(), AllocError>
    requires kept { IsKept hasher.now map.old.entries moves.old live }
    ensures kept { IsKept hasher.now map.new.entries moves.new live }
    ensures same { entries_of map.new.entries ≡ entries_of map.old.entries }
    ensures packed { OnOk result (map.new.entries ≡ filter is_live map.old.entries) }
    ensures room { OnOk result (index_map_len map.new < length moves.new.slots.items) }
{
    // `len` is called for its clause that the number of entries fits.
    let _len = map.len();
    let none = moves::none(alloc, live)?;
    map.retain(
        |_key: &Key, lines: &mut Lines| -> bool
            ensures { (result ≡ has_lines (numbers_in lines.old)) × (lines.new ≡ lines.old) }
        { stays(lines) },
    );
    *moves = none;
    Ok(())
}

// Takes the key of an entry that was taken out from the map: its slot gets another key, the slot's number, which is no
// target.
fn free_key(
    alloc: Global,
    hasher: &DefaultHasher,
    map: &mut Map,
    moves: &mut Moves,
    live: usize,
    target: &Key,
) -> Result<(), AllocError>
    requires kept { IsKept hasher.now map.old.entries moves.old live }
    requires asked { IsHashed hasher.now target.now }
    requires room { index_map_len map.old < length moves.old.slots.items }
    requires gone { place (entries_of map.old.entries) (string_bytes target.now.text) ≡ None }
    ensures kept { IsKept hasher.now map.new.entries moves.new live }
    ensures same { entries_of map.new.entries ≡ entries_of map.old.entries }
    ensures room { OnOk result (index_map_len map.new < length moves.new.slots.items) }
    ensures absent { OnOk result (is_some (lookup (is_text (string_bytes target.now.text)) map.new.entries) ≡ false) }
{
    // No entry was taken out: the target is no key.
    if map.len() == live {
        return Ok(());
    }
    match map.get_index_of(target) {
        Some(slot) => {
            let mut key = Key {
                hash: 0,
                text: slot.to_string(alloc)?,
            };
            key::take_hash(hasher, &mut key);
            if map.contains_key(&key) {
                return pack(alloc, hasher, map, live, moves);
            }
            map.insert(key, Lines::More(Vec::new(alloc)))?;
            map.swap_remove(target);
            Ok(())
        }
        None => Ok(()),
    }
}

// Puts an entry of a target that has none last, and tells how many there are then.
fn add_entry(
    alloc: Global,
    hasher: &DefaultHasher,
    map: &mut Map,
    moves: &mut Moves,
    live: usize,
    target: &Key,
    line: u64,
) -> Result<usize, AllocError>
    requires kept { IsKept hasher.now map.old.entries moves.old live }
    requires asked { IsHashed hasher.now target.now }
    requires gone { place (entries_of map.old.entries) (string_bytes target.now.text) ≡ None }
    ensures kept { IsKept hasher.now map.new.entries moves.new (if is_ok result then live + 1 else live) }
    ensures entries { entries_of map.new.entries
        ≡ (if is_ok result then added (entries_of map.old.entries) (string_bytes target.now.text) line else entries_of map.old.entries) }
    ensures live { IfOk result (λ n. n ≡ live + 1) }
{
    if map.len() >= moves.slots.len() {
        pack(alloc, hasher, map, live, moves)?;
    }
    free_key(alloc, hasher, map, moves, live, target)?;
    // `len` is called for its clause that the number of entries fits.
    let _len = map.len();
    let text = String::from_str(alloc, target.text.as_str())?;
    let key = Key {
        hash: target.hash,
        text,
    };
    map.insert(key, Lines::One([line]))?;
    Ok(live + 1)
}

// Takes the entry that has this target out, and tells how many lines it had. It takes no memory.
pub(crate) fn remove(alloc: Global, entries: &mut Entries, target: &mut Key) -> Option<usize>
    ensures count { result ≡ line_count entries.old (string_bytes target.old.text) }
    ensures entries { entries.new ≡ removed entries.old (string_bytes target.old.text) }
{
    key::take_hash(&entries.hasher, target);
    match slot_of(&entries.map, target) {
        Some(slot) => {
            let count = lines::as_slice(&entries.map[slot]).len();
            entries.map[slot] = Lines::More(Vec::new(alloc));
            moves::close(&mut entries.moves, slot);
            entries.live -= 1;
            Some(count)
        }
        None => None,
    }
}

// Puts a line of a target: into the entry that has it, or into a new one.
pub(crate) fn add(
    alloc: Global,
    entries: &mut Entries,
    target: &mut Key,
    line: u64,
) -> Result<Added, AllocError>
    ensures answer { IfOk result (IsAdded entries.old (string_bytes target.old.text)) }
    ensures entries { entries.new
        ≡ (if is_ok result then added entries.old (string_bytes target.old.text) line else entries.old) }
{
    key::take_hash(&entries.hasher, target);
    match slot_of(&entries.map, target) {
        Some(slot) => {
            add_line(alloc, &mut entries.map, target, slot, line)?;
            Ok(Added::Old(place_of(&entries.moves, slot)))
        }
        None => {
            entries.live = add_entry(
                alloc,
                &entries.hasher,
                &mut entries.map,
                &mut entries.moves,
                entries.live,
                target,
                line,
            )?;
            Ok(Added::New(entries.live))
        }
    }
}

// The slot of the entry that stands after so many others: that many, and as many more as entries before it were taken
// out.
fn slot_after(map: &Map, moves: &Moves, live: usize, count: usize) -> usize
    requires kept { (h : DefaultHasher) × IsKept h map.now.entries moves.now live }
    requires within { count < live }
    ensures within { result < index_map_len map.now }
    ensures live { flag_at map.now.entries result ≡ 1 }
    ensures count { count + gaps map.now.entries result ≡ result }
{
    let mut low = count;
    let mut high = count + (map.len() - live) + 1;
    while high - low > 1 {
        let middle = low + (high - low) / 2;
        if middle - moves::at(moves, middle) <= count {
            low = middle;
        } else {
            high = middle;
        }
    }
    low
}

// The slot of the entry at a place from 1.
fn slot_at(map: &Map, moves: &Moves, live: usize, place: usize) -> Option<usize>
    requires { (h : DefaultHasher) × IsKept h map.now.entries moves.now live }
    ensures some { IfSome result (λ s. entry_at (entries_of map.now.entries) place
        ≡ option_map entry_of (slice_get map.now.entries s)) }
    ensures none { IfNone result (entry_at (entries_of map.now.entries) place ≡ None) }
{
    if place == 0 {
        return None;
    }
    if place > live {
        return None;
    }
    Some(slot_after(map, moves, live, place - 1))
}

// The target of the entry at a place from 1.
pub(crate) fn target_at(entries: &Entries, place: usize) -> Option<&str>
    ensures { option_map (λ t. t.now) result ≡ option_map (λ e. e.target) (entry_at entries.now place) }
{
    match slot_at(&entries.map, &entries.moves, entries.live, place) {
        Some(slot) => match entries.map.get_index(slot) {
            Some((target, _)) => Some(target.text.as_str()),
            None => None,
        },
        None => None,
    }
}

// The numbers of the lines of the entry at a place from 1.
pub(crate) fn lines_at(entries: &Entries, place: usize) -> Option<&[u64]>
    ensures { option_map (λ l. l.now) result ≡ option_map (λ e. e.lines) (entry_at entries.now place) }
{
    match slot_at(&entries.map, &entries.moves, entries.live, place) {
        Some(slot) => match entries.map.get_index(slot) {
            Some((_, lines)) => Some(lines::as_slice(lines)),
            None => None,
        },
        None => None,
    }
}
