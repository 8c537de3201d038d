// The levels of the bound slots: for each frequency in use the list of the slots that have it, from the lowest frequency up. A slot has its
// frequency in `freqs`, its neighbours in `prevs` and `nexts`, and its record in the bucket table. A slot that is in no level is marked free:
// its two links are its own number and its frequency is 0.
#![tactic(auto)]

ghost use Rattle.std.specs.Prelude.{◌≡◌, true, ◌↔◌, ◌<◌, length, get_or};
ghost use Rattle.lists.specs.Marks.{count};
ghost use Rattle.bucket_table.specs.Records.{InTable};
ghost use Rattle.levels.specs.Held.{Tabs, Even, LevelsSound};
ghost use Rattle.levels.specs.Slices.{lent, shown};
ghost use Rattle.levels.specs.Check.{taken, CleanSlot, Clean, SomeRecords, SlotOk, ListWalk, LevelsWalk, LevelsSized};

use bucket_table::Buckets;
use numbers::{Frequency, LIMIT, NONE, Slot};

pub mod sound;

// The five tables of the levels, lent for writing or for reading: each slot's frequency and its neighbours, the bucket records, and which of
// these are spare.
#[derive(Drop)]
pub struct Levels<T> {
    pub freqs: T,
    pub prevs: T,
    pub nexts: T,
    pub buckets: T,
    pub spares: T,
}

// Tables of levels that can be read, however they are lent.
pub trait LevelTables {
    // What they have.
    ghost lists: { Self → Tabs };

    // The same tables for reading.
    fn shown(&self) -> Levels<&[u64]>
        ensures { shown result ≡ lists self.now };
}

impl LevelTables for Levels<&mut [u64]> {
    ghost lists = { lent };

    fn shown(&self) -> Levels<&[u64]> {
        Levels {
            freqs: &self.freqs[..],
            prevs: &self.prevs[..],
            nexts: &self.nexts[..],
            buckets: &self.buckets[..],
            spares: &self.spares[..],
        }
    }
}

impl LevelTables for Levels<&[u64]> {
    ghost lists = { shown };

    fn shown(&self) -> Levels<&[u64]> {
        Levels {
            freqs: self.freqs,
            prevs: self.prevs,
            nexts: self.nexts,
            buckets: self.buckets,
            spares: self.spares,
        }
    }
}

// Whether a slot is one of the table and is marked free.
pub fn is_free(nexts: &[u64], slot: Slot) -> bool
    ensures { (result ≡ true) ↔ ((slot.0 < length nexts.now) × (get_or nexts.now slot.0 0 ≡ slot.0)) }
{
    let s = slot.0 as usize;
    s < nexts.len() && nexts[s] == slot.0
}

// Whether a slot that is marked free has nothing else in its cells.
fn slot_clean(freqs: &[u64], prevs: &[u64], nexts: &[u64], slot: usize) -> bool
    requires { Even freqs.now prevs.now nexts.now × (slot < length freqs.now) }
    ensures { (result ≡ true) ↔ CleanSlot freqs.now prevs.now nexts.now slot }
{
    nexts[slot] != slot as u64 || (prevs[slot] == slot as u64 && freqs[slot] == 0)
}

// Whether all slots that are marked free have nothing else in their cells.
fn is_clean(freqs: &[u64], prevs: &[u64], nexts: &[u64]) -> bool
    requires { Even freqs.now prevs.now nexts.now }
    ensures { (result ≡ true) ↔ Clean freqs.now prevs.now nexts.now (length freqs.now) }
{
    (0..freqs.len()).all(|s| slot_clean(freqs, prevs, nexts, s))
}

// How many slots are not marked free.
fn count_bound(nexts: &[u64]) -> u64
    ensures { result ≡ count (taken nexts.now) (length nexts.now) }
{
    let mut bound: u64 = 0;
    for (s, next) in nexts.iter().enumerate() {
        if *next != s as u64 {
            bound += 1;
        }
    }
    bound
}

// Whether a slot of the record comes after `at`, with the record's frequency.
fn slot_ok(
    freqs: &[u64],
    prevs: &[u64],
    nexts: &[u64],
    buckets: &[u64],
    number: u64,
    frequency: Frequency,
    at: u64,
    slot: u64,
) -> bool
    requires { LevelsSized freqs.now prevs.now nexts.now buckets.now }
    ensures { (result ≡ true) ↔ SlotOk freqs.now prevs.now buckets.now number frequency.0 at slot }
{
    slot < freqs.len() as u64
        && prevs[slot as usize] == at
        && freqs[slot as usize] == frequency.0
        && bucket_table::sound::owner(buckets, Slot(slot)) == number
}

// Walks the list of a record, of at most `left` slots, which is to have as many as the record says: how many are left then, None where it is wrong.
fn walk_list(
    freqs: &[u64],
    prevs: &[u64],
    nexts: &[u64],
    buckets: &[u64],
    number: u64,
    left: u64,
) -> Option<u64>
    requires { LevelsSized freqs.now prevs.now nexts.now buckets.now × InTable buckets.now number }
    ensures { ListWalk freqs.now prevs.now nexts.now buckets.now number left result }
{
    let frequency = bucket_table::sound::frequency(buckets, number);
    let ends = bucket_table::sound::ends(buckets, number);
    let mut at = NONE;
    let mut slot = ends.head;
    let mut n = left;
    // A `while`, since it follows links: no range and no iterator has the places.
    while slot != NONE {
        if n == 0 || !slot_ok(freqs, prevs, nexts, buckets, number, frequency, at, slot) {
            return None;
        }
        at = slot;
        slot = nexts[slot as usize];
        n -= 1;
    }
    let found = left - n;
    if at == NONE || ends.count != found || ends.tail != at {
        return None;
    }
    Some(n)
}

// Walks the lists of all records, which are to have as many slots as are not marked free.
fn walk_levels(
    freqs: &[u64],
    prevs: &[u64],
    nexts: &[u64],
    buckets: &[u64],
    state: Buckets,
    bound: u64,
) -> bool
    requires { LevelsSized freqs.now prevs.now nexts.now buckets.now × SomeRecords buckets.now state }
    ensures { LevelsWalk freqs.now prevs.now nexts.now buckets.now state bound result }
{
    let mut number = state.bottom;
    let mut left = bound;
    // A `while`, since it follows links: no range and no iterator has the places.
    while number != NONE {
        let Some(rest) = walk_list(freqs, prevs, nexts, buckets, number, left) else {
            return false;
        };
        left = rest;
        number = bucket_table::sound::above(buckets, state, number);
    }
    left == 0
}

// Whether the tables hold levels. Linear in the tables' length, and they may hold any numbers.
pub fn is_sound(levels: &Levels<&[u64]>, state: Buckets) -> bool
    ensures { (result ≡ true) ↔ LevelsSound (shown levels.now) state }
{
    let Levels {
        freqs,
        prevs,
        nexts,
        buckets,
        spares,
    } = *levels;
    let capacity = freqs.len();
    if capacity as u64 > LIMIT
        || prevs.len() != capacity
        || nexts.len() != capacity
        || spares.len() != capacity
    {
        return false;
    }
    if !bucket_table::is_sound(buckets, spares, state) || !is_clean(freqs, prevs, nexts) {
        return false;
    }
    walk_levels(freqs, prevs, nexts, buckets, state, count_bound(nexts))
}
