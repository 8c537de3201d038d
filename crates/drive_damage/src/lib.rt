// The damage that `drive` does on demand: one number put into a table or into the state, whatever it breaks there.
#![tactic(auto)]

ghost use Rattle.buckets_tables.specs.Slices.{Same};
ghost use Rattle.cache_tables.specs.Slices.{lent};
ghost use Rattle.drive_damage.specs.Damage.{Puts, Damages, Alters};

use buckets_tables::{Guests, State};
use levels::Levels;
use trace::Word;

// How many places each table is given in the numbers of places.
const PLACES: u64 = 65536;

// One number into one table.
fn put(t: &mut [u64], place: u64, b: u64) -> Word
    ensures { Puts place b t.old result t.new }
{
    let at = place as usize;
    if t.len() <= at {
        return Word::Bad;
    }
    t[at] = b;
    Word::Okay
}

// b at place a % PLACES of table a / PLACES.
#[tactic(auto, using(crate::proofs::Damaging::damaged, crate::proofs::Damaging::damaged_none, crate::proofs::Damaging::none_of_ten))]
pub fn store(
    guests: &mut Guests<&mut [u64]>,
    epochs: &mut [u64],
    levels: &mut Levels<&mut [u64]>,
    values: &mut [u64],
    a: u64,
    b: u64,
) -> Word
    ensures same { Same guests.old guests.new levels.old levels.new }
    ensures does { Damages a b
        (lent guests.old epochs.old levels.old values.old) result
        (lent guests.new epochs.new levels.new values.new) }
{
    let place = a % PLACES;
    match a / PLACES {
        0 => put(guests.keys, place, b),
        1 => put(levels.freqs, place, b),
        2 => put(epochs, place, b),
        3 => put(levels.prevs, place, b),
        4 => put(levels.nexts, place, b),
        5 => put(guests.arena, place, b),
        6 => put(guests.index, place, b),
        7 => put(levels.buckets, place, b),
        8 => put(levels.spares, place, b),
        9 => put(values, place, b),
        _ => Word::Bad,
    }
}

// b in field a of the state.
#[tactic(auto, using(crate::proofs::Damaging::altered, crate::proofs::Damaging::altered_none, crate::proofs::Damaging::none_of_ten))]
pub fn set_field(state: &mut State, a: u64, b: u64) -> Word
    ensures { Alters a b state.old result state.new }
{
    match a {
        0 => state.capacity = b,
        1 => state.count = b,
        2 => state.lowest = b,
        3 => state.epoch = b,
        4 => state.free.first = b,
        5 => state.free.last = b,
        6 => state.buckets.bottom = b,
        7 => state.buckets.top = b,
        8 => state.buckets.spare.first = b,
        9 => state.buckets.spare.last = b,
        _ => return Word::Bad,
    }
    Word::Okay
}
