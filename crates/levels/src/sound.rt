// The calls on levels that are known to be sound: they check nothing. All but `head`, `reset` and the counts take a few steps.
ghost use Rattle.std.specs.Prelude.{◌≡◌, true, ◌<◌, length, get_or};
ghost use Rattle.links.specs.Linked.{Fits};
ghost use Rattle.bucket_table.specs.Records.{frequency, owner, lower, up, InTable, Spot, EndsAt};
ghost use Rattle.levels.specs.Held.{Even};
ghost use Rattle.levels.specs.Slices.{lent, SameLevels};
ghost use Rattle.levels.specs.Calls.{Frees, Attaching, Attaches, Fronts, InPlace, Lifts, Leaving, Ready, Binding, Unbinds, SoundWith, Lowest, LowestFrequency, Heads, SlotBound, LevelTouches, LevelRestarts, LevelBinds, LevelLeaves, LevelEnters, LevelsReset, LevelEnds, Counts, CountsUpTo};

use crate::Levels;
use bucket_table::Buckets;
use numbers::{Frequency, NONE, Slot};

// The first and the last slot of a record's list, and how many it has.
pub fn ends(levels: &Levels<&mut [u64]>, number: u64) -> links::Ends
    requires { InTable levels.now.buckets.now number }
    ensures { EndsAt levels.now.buckets.now number result }
{
    bucket_table::sound::ends(&levels.buckets[..], number)
}

// The record that a slot is in.
pub fn owner(levels: &Levels<&mut [u64]>, slot: Slot) -> u64
    requires { InTable levels.now.buckets.now slot.0 }
    ensures { result ≡ owner levels.now.buckets.now slot.0 }
{
    bucket_table::sound::owner(&levels.buckets[..], slot)
}

// The frequency of a record.
pub fn frequency(levels: &Levels<&mut [u64]>, number: u64) -> Frequency
    requires { InTable levels.now.buckets.now number }
    ensures { result.0 ≡ frequency levels.now.buckets.now number }
{
    bucket_table::sound::frequency(&levels.buckets[..], number)
}

// The next lower record, NONE where there is none.
pub fn below(levels: &Levels<&mut [u64]>, number: u64) -> u64
    requires { InTable levels.now.buckets.now number }
    ensures { result ≡ lower levels.now.buckets.now number }
{
    bucket_table::sound::below(&levels.buckets[..], number)
}

// The next higher record, the lowest one after NONE; NONE where there is none.
pub fn above(levels: &Levels<&mut [u64]>, state: Buckets, number: u64) -> u64
    requires { Spot levels.now.buckets.now number }
    ensures { result ≡ up levels.now.buckets.now state number }
{
    bucket_table::sound::above(&levels.buckets[..], state, number)
}

// Marks a slot free.
fn free(freqs: &mut [u64], prevs: &mut [u64], nexts: &mut [u64], slot: Slot)
    requires { Fits prevs.old nexts.old slot.0 × (slot.0 < length freqs.old) }
    ensures { Frees
        freqs.old prevs.old nexts.old slot.0
        freqs.new prevs.new nexts.new }
{
    let s = slot.0 as usize;
    freqs[s] = 0;
    prevs[s] = slot.0;
    nexts[s] = slot.0;
}

// Puts a slot in front of the list of a record.
fn attach(
    freqs: &mut [u64],
    prevs: &mut [u64],
    nexts: &mut [u64],
    buckets: &mut [u64],
    number: u64,
    frequency: Frequency,
    slot: Slot,
)
    requires { Attaching freqs.old prevs.old nexts.old buckets.old number slot.0 }
    ensures { Attaches
        freqs.old prevs.old nexts.old buckets.old number frequency.0 slot.0
        freqs.new prevs.new nexts.new buckets.new }
{
    let ends = bucket_table::sound::ends(&buckets[..], number);
    let more = links::sound::push_front(prevs, nexts, ends, slot);
    bucket_table::sound::set_ends(buckets, number, more);
    bucket_table::sound::set_owner(buckets, slot, number);
    freqs[slot.0 as usize] = frequency.0;
}

// Moves a slot to the front of its list.
fn front(prevs: &mut [u64], nexts: &mut [u64], buckets: &mut [u64], number: u64, slot: Slot)
    requires { Fits prevs.old nexts.old slot.0 × InTable buckets.old number }
    ensures { Fronts
        prevs.old nexts.old buckets.old number slot.0
        prevs.new nexts.new buckets.new }
{
    let ends = bucket_table::sound::ends(&buckets[..], number);
    let moved = links::sound::to_front(prevs, nexts, ends, slot);
    bucket_table::sound::set_ends(buckets, number, moved);
}

// Whether the only slot of a record can stay in it when it gets this frequency: there is no other slot, and the level is not in use.
fn in_place(levels: &Levels<&mut [u64]>, state: Buckets, number: u64, frequency: Frequency) -> bool
    requires { InTable levels.now.buckets.now number × Spot levels.now.buckets.now number × Spot levels.now.buckets.now (up levels.now.buckets.now state number) }
    ensures { result ≡ true → InPlace levels.now.buckets.now state number frequency.0 }
{
    let buckets = &levels.buckets[..];
    let ends = bucket_table::sound::ends(buckets, number);
    let above = bucket_table::sound::above(buckets, state, number);
    ends.head == ends.tail && !bucket_table::sound::is_level(buckets, above, frequency)
}

// Gives a record and its only slot another frequency.
fn lift(freqs: &mut [u64], buckets: &mut [u64], number: u64, frequency: Frequency, slot: Slot)
    requires { InTable buckets.old number × (slot.0 < length freqs.old) }
    ensures { Lifts
        freqs.old buckets.old number frequency.0 slot.0
        freqs.new buckets.new }
{
    freqs[slot.0 as usize] = frequency.0;
    bucket_table::sound::raise(buckets, number, frequency);
}

// Takes a slot out of its record's list, and drops the record if no slot is left. The answer is the record below the place that it has left.
pub fn leave(levels: &mut Levels<&mut [u64]>, records: &mut Buckets, number: u64, slot: Slot) -> u64
    requires { Leaving (lent levels.old) records.old number slot.0 }
    ensures same { SameLevels levels.old levels.new }
    ensures does { LevelLeaves (lent levels.old) records.old slot.0 (lent levels.new) result records.new }
{
    let ends = ends(levels, number);
    let rest = links::sound::unlink(levels.prevs, levels.nexts, ends, slot);
    free(levels.freqs, levels.prevs, levels.nexts, slot);
    if rest.head != NONE {
        bucket_table::sound::set_ends(levels.buckets, number, rest);
        return number;
    }
    let at = below(levels, number);
    bucket_table::sound::remove(levels.buckets, levels.spares, records, number);
    at
}

// Puts a free slot in front of the level of this frequency above the record `at`. The level is made if it is not there.
pub fn enter(
    levels: &mut Levels<&mut [u64]>,
    records: &mut Buckets,
    at: u64,
    frequency: Frequency,
    slot: Slot,
)
    requires { Ready (lent levels.old) records.old at slot.0 }
    ensures same { SameLevels levels.old levels.new }
    ensures does { LevelEnters (lent levels.old) records.old at frequency.0 slot.0 (lent levels.new) records.new }
{
    let number = bucket_table::sound::ensure(levels.buckets, levels.spares, records, at, frequency);
    attach(
        levels.freqs,
        levels.prevs,
        levels.nexts,
        levels.buckets,
        number,
        frequency,
        slot,
    );
}

// A hit: one level up, unless the level is at or above the cap; then to the front of its own list. The answer is the frequency after it.
pub fn touch(
    levels: &mut Levels<&mut [u64]>,
    records: &mut Buckets,
    slot: Slot,
    cap: Frequency,
) -> Frequency
    requires { SlotBound (lent levels.old) records.old slot.0 }
    ensures same { SameLevels levels.old levels.new }
    ensures does { LevelTouches (lent levels.old) records.old slot.0 cap.0 (lent levels.new) result records.new }
{
    let number = owner(levels, slot);
    let f = frequency(levels, number);
    let raised = f.capped(cap);
    if raised.0 == f.0 {
        front(levels.prevs, levels.nexts, levels.buckets, number, slot);
        return f;
    }
    if in_place(levels, *records, number, raised) {
        lift(levels.freqs, levels.buckets, number, raised, slot);
        return raised;
    }
    let at = leave(levels, records, number, slot);
    enter(levels, records, at, raised, slot);
    raised
}

// Takes a slot to the front of the first level.
pub fn restart(levels: &mut Levels<&mut [u64]>, records: &mut Buckets, slot: Slot)
    requires { SlotBound (lent levels.old) records.old slot.0 }
    ensures same { SameLevels levels.old levels.new }
    ensures does { LevelRestarts (lent levels.old) records.old slot.0 (lent levels.new) records.new }
{
    let number = owner(levels, slot);
    leave(levels, records, number, slot);
    bind(levels, records, slot);
}

// Binds a free slot at the first frequency. No level is below that one.
pub fn bind(levels: &mut Levels<&mut [u64]>, records: &mut Buckets, slot: Slot)
    requires { Binding (lent levels.old) records.old slot.0 }
    ensures same { SameLevels levels.old levels.new }
    ensures does { LevelBinds (lent levels.old) records.old slot.0 (lent levels.new) records.new }
{
    enter(levels, records, NONE, Frequency::FIRST, slot);
}

// Takes a slot out of its level, and marks it free.
pub fn unbind(levels: &mut Levels<&mut [u64]>, records: &mut Buckets, slot: Slot)
    requires { SlotBound (lent levels.old) records.old slot.0 }
    ensures same { SameLevels levels.old levels.new }
    ensures does { Unbinds (lent levels.old) records.old slot.0 (lent levels.new) records.new }
{
    let number = owner(levels, slot);
    leave(levels, records, number, slot);
}

// The slot at the tail of the lowest level.
pub fn lowest(buckets: &[u64], state: Buckets) -> Option<Slot>
    requires { SoundWith buckets.now state }
    ensures { Lowest buckets.now state result }
{
    let number = state.bottom;
    if number == NONE {
        return None;
    }
    let ends = bucket_table::sound::ends(buckets, number);
    Some(Slot(ends.tail))
}

// The lowest frequency in use, 0 where there is no level.
pub fn lowest_frequency(buckets: &[u64], state: Buckets) -> Frequency
    requires { SoundWith buckets.now state }
    ensures { LowestFrequency buckets.now state result.0 }
{
    let number = state.bottom;
    if number == NONE {
        return Frequency(0);
    }
    bucket_table::sound::frequency(buckets, number)
}

// The ends of the list of a frequency, those of an empty list where it is not in use. A step for each level below.
fn level_ends(buckets: &[u64], state: Buckets, frequency: Frequency) -> links::Ends
    requires { SoundWith buckets.now state }
    ensures { LevelEnds buckets.now state frequency.0 result }
{
    let at = bucket_table::sound::place(buckets, state, frequency);
    let number = bucket_table::sound::above(buckets, state, at);
    if bucket_table::sound::is_level(buckets, number, frequency) {
        return bucket_table::sound::ends(buckets, number);
    }
    links::Ends {
        head: NONE,
        tail: NONE,
        count: 0,
    }
}

// The slot at the head of the level of a frequency, if that is in use. A step for each level below.
pub fn head(buckets: &[u64], state: Buckets, frequency: Frequency) -> Option<Slot>
    requires { SoundWith buckets.now state }
    ensures { Heads buckets.now state frequency.0 result }
{
    let ends = level_ends(buckets, state, frequency);
    if ends.head == NONE {
        return None;
    }
    Some(Slot(ends.head))
}

// How many slots the level of a frequency has, 0 where it is not in use. A step for each level below.
pub fn count(buckets: &[u64], state: Buckets, frequency: Frequency) -> u64
    requires { SoundWith buckets.now state }
    ensures { Counts buckets.now state frequency.0 result }
{
    let ends = level_ends(buckets, state, frequency);
    ends.count
}

// How many slots lie at or below a frequency. A step for each level there.
pub fn count_up_to(buckets: &[u64], state: Buckets, frequency: Frequency) -> u64
    requires { SoundWith buckets.now state }
    ensures { CountsUpTo buckets.now state frequency.0 result }
{
    let mut counted: u64 = 0;
    let mut number = state.bottom;
    // A `while`, since it follows links: no range and no iterator has the places.
    while number != NONE {
        let f = bucket_table::sound::frequency(buckets, number);
        if f.0 > frequency.0 {
            return counted;
        }
        let ends = bucket_table::sound::ends(buckets, number);
        counted += ends.count;
        number = bucket_table::sound::above(buckets, state, number);
    }
    counted
}

// The slot after one in its list, NONE at the tail.
pub fn next(nexts: &[u64], slot: Slot) -> Slot
    requires { slot.0 < length nexts.now }
    ensures { result.0 ≡ get_or nexts.now slot.0 0 }
{
    Slot(nexts[slot.0 as usize])
}

// No level: all slots are marked free.
pub fn reset(freqs: &mut [u64], prevs: &mut [u64], nexts: &mut [u64], spares: &mut [u64]) -> Buckets
    requires { Even freqs.old prevs.old nexts.old × (length spares.old ≡ length freqs.old) }
    ensures { LevelsReset freqs.old freqs.new prevs.new nexts.new spares.new result }
{
    for s in 0..freqs.len() {
        freqs[s] = 0;
        prevs[s] = s as u64;
        nexts[s] = s as u64;
    }
    bucket_table::sound::reset(spares)
}
