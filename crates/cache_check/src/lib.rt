// Whether lent tables and values, with whatever numbers they have, hold a cache: the tables hold a ledger, there is a value for each
// slot, and a free slot's value is 0. Linear in the capacity, with no memory of its own.
#![tactic(auto)]

ghost use Rattle.std.specs.Prelude.{◌≡◌, true, ◌↔◌, length};
ghost use Rattle.promise.specs.Promise.{Checks};
ghost use Rattle.promise.specs.Making.{Measures};
ghost use Rattle.buckets_tables.specs.Slices.{joined};
ghost use Rattle.cache_tables.specs.Tables.{with_values};
ghost use Rattle.cache_tables.specs.Lent.{cache};
ghost use Rattle.cache_check.specs.Check.{short_of, AllowedBelow, ValueAllowed};

use buckets_tables::{GuestTables, State};
use levels::LevelTables;
use numbers::{LIMIT, Refusal, Slot};

// Why lengths that do not fit are refused: a capacity above the limit is told first.
pub fn too_short(capacity: u64) -> Refusal
    ensures { result ≡ short_of capacity }
{
    if LIMIT < capacity {
        return Refusal::Capacity;
    }
    Refusal::Short
}

// Whether a slot has a value that it may have: any while it is in use, else 0.
fn value_allowed(arena: &[u64], slot: Slot, value: u64) -> bool
    ensures { (result ≡ true) ↔ ValueAllowed arena.now slot.0 value }
{
    slot_arena::in_use(arena, slot) || value == 0
}

// Whether every slot has a value that it may have.
fn values_allowed(arena: &[u64], values: &[u64]) -> bool
    ensures { (result ≡ true) ↔ AllowedBelow arena.now values.now (length values.now) }
{
    values.iter().enumerate().all(|(slot, value)| value_allowed(arena, Slot(slot as u64), *value))
}

// Whether tables can serve a capacity: else Capacity, where it is above the limit, or Short.
pub fn measure<G: GuestTables, L: LevelTables>(
    guests: &G,
    epochs: &[u64],
    levels: &L,
    values: &[u64],
    capacity: u64,
) -> Result<(), Refusal>
    ensures { Measures cache (with_values (joined (G.lists guests.now) epochs.now (L.lists levels.now)) values.now) capacity result }
{
    if values.len() as u64 != capacity {
        return Err(too_short(capacity));
    }
    buckets_check::measure(guests, epochs, levels, capacity)
}

// Whether tables and state hold a cache: every call asks this before it begins, and is refused where they do not.
pub fn check<G: GuestTables, L: LevelTables>(
    guests: &G,
    epochs: &[u64],
    levels: &L,
    values: &[u64],
    state: State,
) -> Result<(), Refusal>
    ensures { Checks cache (with_values (joined (G.lists guests.now) epochs.now (L.lists levels.now)) values.now) state result }
{
    if values.len() as u64 != state.capacity {
        return Err(too_short(state.capacity));
    }
    buckets_check::check(guests, epochs, levels, state)?;
    if !values_allowed(guests.shown().arena, values) {
        return Err(Refusal::Corrupt);
    }
    Ok(())
}
