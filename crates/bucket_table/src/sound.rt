// The calls on records that are known to be sound: they check nothing, and all but `place` and `reset` take a few steps.
ghost use Rattle.std.specs.Prelude.{◌≡◌, true, ◌↔◌, List, ℕ, ◌<◌, ◌≤◌, length};
ghost use Rattle.numbers.specs.Marks.{LIMIT};
ghost use Rattle.bucket_table.specs.Records.{WORDS, word, frequency, owner, lower, up, InTable, Spot, EndsAt, RecordsSound};
ghost use Rattle.bucket_table.specs.Calls.{Stored, Linked, SetEnds, SetOwner, HasLevel, Raises, Making, Opening, Opens, Dropping, Drops, MakesRecord, RecordsReset, PlacesRecord, RecordsFilled};

use crate::{Buckets, WORDS};
use numbers::{Frequency, NONE, Slot};

// The places of the words in a record.
const FREQUENCY: u64 = 0;

const LOWER: u64 = 1;

const HIGHER: u64 = 2;

const HEAD: u64 = 3;

const TAIL: u64 = 4;

const COUNT: u64 = 5;

const OWNER: u64 = 6;

// A word of a record.
fn word(buckets: &[u64], number: u64, w: u64) -> u64
    requires { InTable buckets.now number × (w < WORDS) }
    ensures { result ≡ word w buckets.now number }
{
    buckets[(number * WORDS + w) as usize]
}

// Stores a word of a record.
fn store(buckets: &mut [u64], number: u64, w: u64, v: u64)
    requires { InTable buckets.old number × (w < WORDS) }
    ensures { Stored w buckets.old number v buckets.new }
{
    buckets[(number * WORDS + w) as usize] = v;
}

// Makes v the word w of a record, or the end of the ring where there is no such record. Returns the end.
fn link(buckets: &mut [u64], w: u64, end: u64, number: u64, v: u64) -> u64
    requires { w < WORDS }
    ensures { Linked w buckets.old end number v buckets.new result }
{
    if number >= NONE {
        return v;
    }
    let k = (number * WORDS + w) as usize;
    if k >= buckets.len() {
        return v;
    }
    buckets[k] = v;
    end
}

// The frequency of a record.
pub fn frequency(buckets: &[u64], number: u64) -> Frequency
    requires { InTable buckets.now number }
    ensures { result.0 ≡ frequency buckets.now number }
{
    Frequency(word(buckets, number, FREQUENCY))
}

// The first and the last slot of a record's list, and how many it has.
pub fn ends(buckets: &[u64], number: u64) -> links::Ends
    requires { InTable buckets.now number }
    ensures { EndsAt buckets.now number result }
{
    links::Ends {
        head: word(buckets, number, HEAD),
        tail: word(buckets, number, TAIL),
        count: word(buckets, number, COUNT),
    }
}

// The record that a slot is in.
pub fn owner(buckets: &[u64], slot: Slot) -> u64
    requires { InTable buckets.now slot.0 }
    ensures { result ≡ owner buckets.now slot.0 }
{
    word(buckets, slot.0, OWNER)
}

// The next lower record, NONE where there is none.
pub fn below(buckets: &[u64], number: u64) -> u64
    requires { InTable buckets.now number }
    ensures { result ≡ lower buckets.now number }
{
    word(buckets, number, LOWER)
}

// The next higher record, the lowest one after NONE; NONE where there is none.
pub fn above(buckets: &[u64], state: Buckets, number: u64) -> u64
    requires { Spot buckets.now number }
    ensures { result ≡ up buckets.now state number }
{
    if number == NONE {
        return state.bottom;
    }
    word(buckets, number, HIGHER)
}

// Whether this is a record, and of this frequency.
pub fn is_level(buckets: &[u64], number: u64, frequency: Frequency) -> bool
    requires { Spot buckets.now number }
    ensures { (result ≡ true) ↔ HasLevel buckets.now number frequency.0 }
{
    number != NONE && word(buckets, number, FREQUENCY) == frequency.0
}

// Gives a record's list other ends.
pub fn set_ends(buckets: &mut [u64], number: u64, ends: links::Ends)
    requires { InTable buckets.old number }
    ensures { SetEnds buckets.old number ends buckets.new }
{
    store(buckets, number, HEAD, ends.head);
    store(buckets, number, TAIL, ends.tail);
    store(buckets, number, COUNT, ends.count);
}

// Says which record a slot is in.
pub fn set_owner(buckets: &mut [u64], slot: Slot, number: u64)
    requires { InTable buckets.old slot.0 }
    ensures { SetOwner buckets.old slot.0 number buckets.new }
{
    store(buckets, slot.0, OWNER, number);
}

// Gives a record another frequency. It stays where it is in the order.
pub fn raise(buckets: &mut [u64], number: u64, frequency: Frequency)
    requires { InTable buckets.old number }
    ensures { Raises buckets.old number frequency.0 buckets.new }
{
    store(buckets, number, FREQUENCY, frequency.0);
}

// Writes a record whose list is empty.
fn fill(buckets: &mut [u64], number: u64, frequency: Frequency, lower: u64, higher: u64)
    requires { InTable buckets.old number }
    ensures { RecordsFilled buckets.old number frequency.0 lower higher buckets.new }
{
    store(buckets, number, FREQUENCY, frequency.0);
    store(buckets, number, LOWER, lower);
    store(buckets, number, HIGHER, higher);
    let none = links::Ends {
        head: NONE,
        tail: NONE,
        count: 0,
    };
    set_ends(buckets, number, none);
}

// Makes a record for a frequency above the record `at`, the lowest one where that is NONE. The answer is its number.
pub fn make(
    buckets: &mut [u64],
    spares: &mut [u64],
    state: &mut Buckets,
    at: u64,
    frequency: Frequency,
) -> u64
    requires { Making buckets.old spares.old state.old at }
    ensures { MakesRecord buckets.old spares.old state.old at frequency.0 buckets.new spares.new result state.new }
{
    let higher = above(&buckets[..], *state, at);
    let number = slot_arena::sound::take(spares, &mut state.spare).0;
    fill(buckets, number, frequency, at, higher);
    state.bottom = link(buckets, HIGHER, state.bottom, at, number);
    state.top = link(buckets, LOWER, state.top, higher, number);
    number
}

// The record of a frequency above the record `at`, which is made if it is not there.
pub fn ensure(
    buckets: &mut [u64],
    spares: &mut [u64],
    state: &mut Buckets,
    at: u64,
    frequency: Frequency,
) -> u64
    requires { Opening buckets.old spares.old state.old at }
    ensures { Opens buckets.old spares.old state.old at frequency.0 buckets.new spares.new result state.new }
{
    let number = above(&buckets[..], *state, at);
    if is_level(&buckets[..], number, frequency) {
        return number;
    }
    make(buckets, spares, state, at, frequency)
}

// Takes a record out: its neighbours are linked, and it is spare.
pub fn remove(buckets: &mut [u64], spares: &mut [u64], state: &mut Buckets, number: u64)
    requires { Dropping buckets.old spares.old number }
    ensures { Drops buckets.old spares.old state.old number buckets.new spares.new state.new }
{
    let lower = word(&buckets[..], number, LOWER);
    let higher = word(&buckets[..], number, HIGHER);
    state.bottom = link(buckets, HIGHER, state.bottom, lower, higher);
    state.top = link(buckets, LOWER, state.top, higher, lower);
    slot_arena::sound::release(spares, &mut state.spare, Slot(number));
}

// The highest record below a frequency, NONE where there is none: a walk from the lowest record up.
pub fn place(buckets: &[u64], state: Buckets, frequency: Frequency) -> u64
    requires { (sp : List ℕ) × RecordsSound buckets.now sp state }
    ensures { PlacesRecord buckets.now state frequency.0 result }
{
    let mut at = NONE;
    let mut number = state.bottom;
    // A `while`, since it follows links: no range and no iterator has the places.
    while number != NONE {
        if word(buckets, number, FREQUENCY) >= frequency.0 {
            return at;
        }
        at = number;
        number = word(buckets, number, HIGHER);
    }
    at
}

// No record: all are spare.
pub fn reset(spares: &mut [u64]) -> Buckets
    requires { length spares.old ≤ LIMIT }
    ensures { RecordsReset spares.old spares.new result }
{
    let spare = slot_arena::sound::fill(spares);
    Buckets {
        bottom: NONE,
        top: NONE,
        spare,
    }
}
