// The calls on tables that are known to be sound: they check nothing. Those that bind, hit or let go one key take a few steps beside
// the key index's search. Making takes tables of the right sizes, whatever they hold, in time linear in their length.
ghost use Rattle.std.specs.Prelude.{◌<◌, length};
ghost use Rattle.key_index.specs.Index.{Finds, IndexSound};
ghost use Rattle.levels.specs.Calls.{SoundWith, Lowest, LowestFrequency};
ghost use Rattle.levels.specs.Slices.{lent as lent_levels, SameLevels};
ghost use Rattle.buckets_tables.specs.Slices.{lent_guests, lent, SameGuests, Same};
ghost use Rattle.buckets_tables.specs.Calls.{Room, Binds, Hits, Restarts, BoundIn, LetsGo, Vacant, Hittable, EntersIndex, LeavesIndex, Wiped, Fitting, Cleared};

use crate::{Guests, State};
use bucket_table::Buckets;
use levels::Levels;
use numbers::{Frequency, Key, Slot};

// Writes key and epoch of a slot, and puts it into the index.
fn enter_entry(
    keys: &mut [u64],
    epochs: &mut [u64],
    index: &mut [u64],
    slot: Slot,
    key: Key,
    epoch: u64,
)
    requires { Vacant keys.old epochs.old index.old slot.0 }
    ensures { EntersIndex
        keys.old epochs.old index.old slot.0 key.0 epoch
        keys.new epochs.new index.new }
{
    let s = slot.0 as usize;
    keys[s] = key.0;
    epochs[s] = epoch;
    key_index::sound::insert(index, keys, slot);
}

// Takes a slot out of the index, and clears its key and epoch.
fn leave_entry(keys: &mut [u64], epochs: &mut [u64], index: &mut [u64], slot: Slot)
    requires { IndexSound index.old keys.old × (slot.0 < length keys.old) × (slot.0 < length epochs.old) }
    ensures { LeavesIndex
        keys.old epochs.old index.old slot.0
        keys.new epochs.new index.new }
{
    key_index::sound::remove(index, &keys[..], slot);
    let s = slot.0 as usize;
    keys[s] = 0;
    epochs[s] = 0;
}

// The slot of a key, if it is bound.
pub fn find(guests: &Guests<&mut [u64]>, key: Key) -> Option<Slot>
    requires { IndexSound guests.now.index.now guests.now.keys.now }
    ensures { Finds guests.now.index.now guests.now.keys.now key.0 result }
{
    key_index::sound::find(&guests.index[..], &guests.keys[..], key)
}

// The slot at the tail of the lowest level.
pub fn lowest(levels: &Levels<&mut [u64]>, records: Buckets) -> Option<Slot>
    requires { SoundWith levels.now.buckets.now records }
    ensures { Lowest levels.now.buckets.now records result }
{
    levels::sound::lowest(&levels.buckets[..], records)
}

// The lowest frequency in use, 0 where there is no level.
pub fn lowest_frequency(levels: &Levels<&mut [u64]>, records: Buckets) -> Frequency
    requires { SoundWith levels.now.buckets.now records }
    ensures { LowestFrequency levels.now.buckets.now records result.0 }
{
    levels::sound::lowest_frequency(&levels.buckets[..], records)
}

// Binds an absent key at the first frequency, in the first slot of the free order, which is answered.
pub fn bind(
    guests: &mut Guests<&mut [u64]>,
    epochs: &mut [u64],
    levels: &mut Levels<&mut [u64]>,
    state: &mut State,
    key: Key,
) -> Slot
    requires { Room (lent guests.old epochs.old levels.old) state.old key.0 }
    ensures same { Same guests.old guests.new levels.old levels.new }
    ensures does { Binds (lent guests.old epochs.old levels.old) state.old key.0 (lent guests.new epochs.new levels.new) result state.new }
{
    let slot = slot_arena::sound::take(guests.arena, &mut state.free);
    enter_entry(guests.keys, epochs, guests.index, slot, key, state.epoch);
    levels::sound::bind(levels, &mut state.buckets, slot);
    let lowest = lowest_frequency(levels, state.buckets);
    state.recount(state.count + 1, lowest);
    slot
}

// Hits the key in a bound slot, up to a cap; the answer is its frequency after it.
pub fn hit(
    epochs: &mut [u64],
    levels: &mut Levels<&mut [u64]>,
    state: &mut State,
    slot: Slot,
    cap: Frequency,
) -> Frequency
    requires { Hittable epochs.old (lent_levels levels.old) state.old slot.0 }
    ensures same { SameLevels levels.old levels.new }
    ensures does { Hits epochs.old (lent_levels levels.old) state.old slot.0 cap.0 epochs.new (lent_levels levels.new) result state.new }
{
    let frequency = levels::sound::touch(levels, &mut state.buckets, slot, cap);
    epochs[slot.0 as usize] = state.epoch;
    let least = lowest_frequency(levels, state.buckets);
    state.recount(state.count, least);
    frequency
}

// The key in a bound slot starts again: at the first frequency, with the current epoch.
pub fn restart(epochs: &mut [u64], levels: &mut Levels<&mut [u64]>, state: &mut State, slot: Slot)
    requires { Hittable epochs.old (lent_levels levels.old) state.old slot.0 }
    ensures same { SameLevels levels.old levels.new }
    ensures does { Restarts epochs.old (lent_levels levels.old) state.old slot.0 epochs.new (lent_levels levels.new) state.new }
{
    levels::sound::restart(levels, &mut state.buckets, slot);
    epochs[slot.0 as usize] = state.epoch;
    let lowest = lowest_frequency(levels, state.buckets);
    state.recount(state.count, lowest);
}

// Lets go the key in a bound slot; the slot joins the free order at the back.
pub fn let_go(
    guests: &mut Guests<&mut [u64]>,
    epochs: &mut [u64],
    levels: &mut Levels<&mut [u64]>,
    state: &mut State,
    slot: Slot,
)
    requires { BoundIn (lent guests.old epochs.old levels.old) state.old slot.0 }
    ensures same { Same guests.old guests.new levels.old levels.new }
    ensures does { LetsGo (lent guests.old epochs.old levels.old) state.old slot.0 (lent guests.new epochs.new levels.new) state.new }
{
    leave_entry(guests.keys, epochs, guests.index, slot);
    levels::sound::unbind(levels, &mut state.buckets, slot);
    slot_arena::sound::release(guests.arena, &mut state.free, slot);
    let lowest = lowest_frequency(levels, state.buckets);
    state.recount(state.count - 1, lowest);
}

// Sets all cells of a table to 0.
pub fn wipe(t: &mut [u64])
    ensures { Wiped t.old t.new }
{
    t.fill(0);
}

// Makes the tables of a capacity, which may have held anything: no key is bound, and the epoch is 0. Clearing is this too. The bucket
// records may stay as they are, so their table is not lent, and the others come one by one.
pub fn make(
    guests: &mut Guests<&mut [u64]>,
    epochs: &mut [u64],
    freqs: &mut [u64],
    prevs: &mut [u64],
    nexts: &mut [u64],
    spares: &mut [u64],
    capacity: u64,
) -> State
    requires { Fitting (lent_guests guests.old) epochs.old freqs.old prevs.old nexts.old spares.old capacity }
    ensures same { SameGuests guests.old guests.new }
    ensures does { Cleared (lent_guests guests.new) epochs.new freqs.new prevs.new nexts.new spares.new capacity result }
{
    wipe(guests.keys);
    wipe(epochs);
    let buckets = levels::sound::reset(freqs, prevs, nexts, spares);
    key_index::clear(guests.index);
    let free = slot_arena::sound::fill(guests.arena);
    State {
        capacity,
        count: 0,
        lowest: 0,
        epoch: 0,
        free,
        buckets,
    }
}
