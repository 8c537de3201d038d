// Whether lent tables, with whatever numbers they have, hold a ledger. Each part has its own check; what is left is that the parts agree on
// every slot, and that the state's count and lowest frequency are theirs. Linear in the capacity, with no memory of its own.
#![tactic(auto)]

ghost use Rattle.std.specs.Prelude.{◌≡◌, true, ◌↔◌, ◌+◌, ◌<◌, ◌≤◌, length};
ghost use Rattle.numbers.specs.Marks.{LIMIT};
ghost use Rattle.promise.specs.Promise.{Checks, Sound};
ghost use Rattle.promise.specs.Making.{Measures};
ghost use Rattle.buckets_tables.specs.Slices.{joined, shown};
ghost use Rattle.buckets_tables.specs.Lent as kind;
ghost use Rattle.buckets_check.specs.Check.{SlotTables, PartTables, Beside, Off, Agree, AgreeBelow, SlotAllowed};

use bucket_table::WORDS;
use buckets_tables::{GuestTables, Guests, State};
use levels::{LevelTables, Levels};
use numbers::{LIMIT, Refusal, Slot};

// Whether the tables with a word for each slot are as long as the capacity.
fn slot_tables_fit(
    keys: &[u64],
    freqs: &[u64],
    epochs: &[u64],
    prevs: &[u64],
    nexts: &[u64],
    capacity: u64,
) -> bool
    ensures { (result ≡ true) ↔ SlotTables
        keys.now freqs.now epochs.now prevs.now nexts.now capacity }
{
    keys.len() as u64 == capacity
        && freqs.len() as u64 == capacity
        && epochs.len() as u64 == capacity
        && prevs.len() as u64 == capacity
        && nexts.len() as u64 == capacity
}

// Whether the tables of the parts are as long as the capacity calls for.
fn part_tables_fit(
    arena: &[u64],
    index: &[u64],
    buckets: &[u64],
    spares: &[u64],
    capacity: u64,
) -> bool
    requires { capacity ≤ LIMIT }
    ensures { (result ≡ true) ↔ PartTables
        arena.now index.now buckets.now spares.now capacity }
{
    arena.len() as u64 == capacity
        && index.len() as u64 == capacity + capacity
        && buckets.len() as u64 == capacity * WORDS
        && spares.len() as u64 == capacity
}

// Whether a slot is free in these tables.
fn is_off(keys: &[u64], epochs: &[u64], arena: &[u64], index: &[u64], slot: usize) -> bool
    requires { (slot < length keys.now) × (length epochs.now ≡ length keys.now) × (length index.now ≡ length keys.now + length keys.now) }
    ensures { (result ≡ true) ↔ Off keys.now epochs.now arena.now index.now slot }
{
    !slot_arena::in_use(arena, Slot(slot as u64))
        && !key_index::has(index, Slot(slot as u64))
        && keys[slot] == 0
        && epochs[slot] == 0
}

// Whether the tables agree on a slot.
fn slot_agrees(
    keys: &[u64],
    epochs: &[u64],
    nexts: &[u64],
    arena: &[u64],
    index: &[u64],
    slot: usize,
) -> bool
    requires { Beside keys.now epochs.now nexts.now index.now × (slot < length keys.now) }
    ensures { (result ≡ true) ↔ Agree
        keys.now epochs.now nexts.now arena.now index.now slot }
{
    if levels::is_free(nexts, Slot(slot as u64)) {
        is_off(keys, epochs, arena, index, slot)
    } else {
        slot_arena::in_use(arena, Slot(slot as u64)) && key_index::has(index, Slot(slot as u64))
    }
}

// Whether the tables agree on every slot.
fn slots_agree(keys: &[u64], epochs: &[u64], nexts: &[u64], arena: &[u64], index: &[u64]) -> bool
    requires { Beside keys.now epochs.now nexts.now index.now }
    ensures { (result ≡ true) ↔ AgreeBelow
        keys.now epochs.now nexts.now arena.now index.now (length keys.now) }
{
    (0..keys.len()).all(|slot| slot_agrees(keys, epochs, nexts, arena, index, slot))
}

// Whether tables of the right lengths hold a ledger.
fn is_sound(guests: &Guests<&[u64]>, epochs: &[u64], levels: &Levels<&[u64]>, state: State) -> bool
    requires { SlotAllowed (shown guests.now epochs.now levels.now) state.capacity }
    ensures { (result ≡ true) ↔ Sound kind.buckets (shown guests.now epochs.now levels.now) state }
{
    if !slot_arena::is_sound(guests.arena, state.free)
        || !key_index::is_sound(guests.index, guests.keys)
        || !levels::is_sound(levels, state.buckets)
        || !slots_agree(
            guests.keys,
            epochs,
            levels.nexts,
            guests.arena,
            guests.index,
        )
        || state.count != slot_arena::count_used(guests.arena)
    {
        return false;
    }
    state.lowest == levels::sound::lowest_frequency(levels.buckets, state.buckets).0
}

// Whether tables of a capacity have the lengths that it calls for, and it is not above the limit.
fn fits(
    guests: &Guests<&[u64]>,
    epochs: &[u64],
    levels: &Levels<&[u64]>,
    capacity: u64,
) -> Result<(), Refusal>
    ensures { Measures kind.buckets (shown guests.now epochs.now levels.now) capacity result }
{
    if LIMIT < capacity {
        return Err(Refusal::Capacity);
    }
    if !slot_tables_fit(
        guests.keys,
        levels.freqs,
        epochs,
        levels.prevs,
        levels.nexts,
        capacity,
    ) || !part_tables_fit(
        guests.arena,
        guests.index,
        levels.buckets,
        levels.spares,
        capacity,
    ) {
        return Err(Refusal::Short);
    }
    Ok(())
}

// Whether tables can serve a capacity: else Capacity, where it is above the limit, or Short.
pub fn measure<G: GuestTables, L: LevelTables>(
    guests: &G,
    epochs: &[u64],
    levels: &L,
    capacity: u64,
) -> Result<(), Refusal>
    ensures { Measures kind.buckets (joined (G.lists guests.now) epochs.now (L.lists levels.now)) capacity result }
{
    fits(&guests.shown(), epochs, &levels.shown(), capacity)
}

// Whether tables and state hold a ledger: every call asks this before it begins, and is refused where they do not.
pub fn check<G: GuestTables, L: LevelTables>(
    guests: &G,
    epochs: &[u64],
    levels: &L,
    state: State,
) -> Result<(), Refusal>
    ensures { Checks kind.buckets (joined (G.lists guests.now) epochs.now (L.lists levels.now)) state result }
{
    measure(guests, epochs, levels, state.capacity)?;
    if !is_sound(&guests.shown(), epochs, &levels.shown(), state) {
        return Err(Refusal::Corrupt);
    }
    Ok(())
}
