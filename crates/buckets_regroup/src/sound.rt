// The calls on tables that are known to be sound: they check nothing, and take a few steps for each slot that falls and each level that stays.
ghost use Rattle.std.specs.Prelude.{◌≡◌, []};
ghost use Rattle.ledger.specs.Buckets.{done};
ghost use Rattle.promise.specs.Promise.{DoesBeside, SoundBeside};
ghost use Rattle.buckets_tables.specs.Lent as kind;
ghost use Rattle.ledger.specs.Regroup as ledger;
ghost use Rattle.levels.specs.Held.{LevelsSound};
ghost use Rattle.levels.specs.Slices.{lent, SameLevels};
ghost use Rattle.buckets_regroup.specs.Change.{changed};
ghost use Rattle.buckets_regroup.specs.Falls.{Reachable, place_above, Falling, Falls};
ghost use Rattle.buckets_regroup.specs.Regroup.{Regroups};
ghost use Rattle.buckets_regroup.specs.Calls.{around, by_change};

use crate::Change;
use bucket_table::Buckets;
use buckets_tables::State;
use levels::Levels;
use numbers::{Frequency, NONE, Slot};

// The record below the place of a frequency that is at or above that of slot `last`: the record of `last`, or, where that has the frequency
// already, the one below it. NONE where `last` is NONE.
fn place_above(levels: &Levels<&mut [u64]>, last: Slot, frequency: Frequency) -> u64
    requires { Reachable levels.now.buckets.now last.0 }
    ensures { result ≡ place_above levels.now.buckets.now last.0 frequency.0 }
{
    if last.0 == NONE {
        return NONE;
    }
    let buckets = &levels.buckets[..];
    let number = bucket_table::sound::owner(buckets, last);
    if bucket_table::sound::is_level(buckets, number, frequency) {
        return bucket_table::sound::below(buckets, number);
    }
    number
}

// Gives the slot at the tail of a level its new frequency: the slot goes to the head of a lower level, unless the frequency stays. `last` is a
// slot of the level below, NONE where there is none.
fn fall(
    levels: &mut Levels<&mut [u64]>,
    records: &mut Buckets,
    change: Change,
    number: u64,
    slot: Slot,
    last: Slot,
)
    requires { Falling (changed change) (lent levels.old) records.old number slot.0 last.0 }
    ensures same { SameLevels levels.old levels.new }
    ensures does { Falls (changed change) (lent levels.old) records.old number slot.0 last.0 (lent levels.new) records.new }
{
    let frequency = levels::sound::frequency(levels, number);
    let lower = change.of(frequency);
    if lower.0 == frequency.0 {
        return;
    }
    levels::sound::leave(levels, records, number, slot);
    let at = place_above(levels, last, lower);
    levels::sound::enter(levels, records, at, lower, slot);
}

// Gives every level its new frequency, from the lowest up. Levels that come together are joined, the slots of the higher one in front.
fn regroup(levels: &mut Levels<&mut [u64]>, records: &mut Buckets, change: Change)
    requires { LevelsSound (lent levels.old) records.old }
    ensures same { SameLevels levels.old levels.new }
    ensures does { Regroups (changed change) (lent levels.old) records.old (lent levels.new) records.new }
{
    // Not an `Option`: NONE is what the links of the records say where there is none.
    let mut last = Slot(NONE);
    let mut number = records.bottom;
    // A `while`, since it follows links: no range and no iterator has the places.
    while number != NONE {
        let ends = levels::sound::ends(levels, number);
        let slot = Slot(ends.tail);
        fall(levels, records, change, number, slot, last);
        // The slot now lies in the highest level that is done, and what is above its record is what is left.
        let own = levels::sound::owner(levels, slot);
        number = levels::sound::above(levels, *records, own);
        last = slot;
    }
}

// Gives every key its new frequency.
fn regrouped(levels: &mut Levels<&mut [u64]>, state: &mut State, change: Change)
    requires { SoundBeside kind.buckets (around (lent levels.old)) state.old }
    ensures same { SameLevels levels.old levels.new }
    ensures does { DoesBeside kind.buckets (by_change (changed change)) (around (lent levels.old)) state.old (done []) (around (lent levels.new)) state.new }
{
    regroup(levels, &mut state.buckets, change);
    let lowest = buckets_tables::sound::lowest_frequency(levels, state.buckets);
    state.recount(state.count, lowest);
}

// Halves every frequency n times over, but to no less than 1.
pub fn decay_halve_times(levels: &mut Levels<&mut [u64]>, state: &mut State, n: u64)
    requires { SoundBeside kind.buckets (around (lent levels.old)) state.old }
    ensures same { SameLevels levels.old levels.new }
    ensures does { DoesBeside kind.buckets (ledger.decay_halve_times n) (around (lent levels.old)) state.old (done []) (around (lent levels.new)) state.new }
{
    regrouped(levels, state, Change::Halved(n));
}

// Lowers every frequency by one number, so that the lowest is 1. Tables in which it is 1 already, or which are empty, stay as they are.
pub fn rebase_min_freq(levels: &mut Levels<&mut [u64]>, state: &mut State)
    requires { SoundBeside kind.buckets (around (lent levels.old)) state.old }
    ensures same { SameLevels levels.old levels.new }
    ensures does { DoesBeside kind.buckets (ledger.rebase_min_freq) (around (lent levels.old)) state.old (done []) (around (lent levels.new)) state.new }
{
    if state.lowest <= 1 {
        return;
    }
    let less = state.lowest - 1;
    regrouped(levels, state, Change::Lowered(less));
}
