// The calls of `LfuCache` on whole tables: making them, which takes any contents, and clearing them.
// The levels' tables are lent one by one, since the bucket records are lent for reading: as a part of `Levels` they would be asked for writing.
#![tactic(auto)]

ghost use Rattle.ledger.specs.Cache.{new_cache};
ghost use Rattle.ledger.specs.History.{Clear};
ghost use Rattle.promise.specs.Promise.{Makes};
ghost use Rattle.promise.specs.Making.{Made};
ghost use Rattle.levels.specs.Held.{tabs};
ghost use Rattle.buckets_tables.specs.Slices.{joined, lent_guests, SameGuests};
ghost use Rattle.answers.specs.Replies.{plain_reply};
ghost use Rattle.cache_tables.specs.Tables.{with_values};
ghost use Rattle.cache_tables.specs.Lent.{cache};

use buckets_tables::{Guests, State};
use cache_check::{check, measure};
use levels::Levels;
use numbers::Refusal;

pub mod sound;

// Makes tables of a capacity: no key is bound, the slots are free in order 0, 1, 2 and so on, the epoch and all values are 0.
pub fn new(
    guests: &mut Guests<&mut [u64]>,
    epochs: &mut [u64],
    freqs: &mut [u64],
    prevs: &mut [u64],
    nexts: &mut [u64],
    buckets: &[u64],
    spares: &mut [u64],
    values: &mut [u64],
    capacity: u64,
) -> Result<State, Refusal>
    ensures same { SameGuests guests.old guests.new }
    ensures does { Made cache (new_cache capacity) capacity
        (with_values (joined (lent_guests guests.old) epochs.old (tabs freqs.old prevs.old nexts.old buckets.now spares.old)) values.old) result
        (with_values (joined (lent_guests guests.new) epochs.new (tabs freqs.new prevs.new nexts.new buckets.now spares.new)) values.new) }
{
    let levels = Levels {
        freqs: &freqs[..],
        prevs: &prevs[..],
        nexts: &nexts[..],
        buckets,
        spares: &spares[..],
    };
    measure(guests, &epochs[..], &levels, &values[..], capacity)?;
    Ok(sound::make(
        guests, epochs, freqs, prevs, nexts, spares, values, capacity,
    ))
}

// Makes the tables anew, at the capacity that they have.
pub fn clear(
    guests: &mut Guests<&mut [u64]>,
    epochs: &mut [u64],
    freqs: &mut [u64],
    prevs: &mut [u64],
    nexts: &mut [u64],
    buckets: &[u64],
    spares: &mut [u64],
    values: &mut [u64],
    state: &mut State,
) -> Result<(), Refusal>
    ensures same { SameGuests guests.old guests.new }
    ensures does { Makes cache Clear
        (with_values (joined (lent_guests guests.old) epochs.old (tabs freqs.old prevs.old nexts.old buckets.now spares.old)) values.old) state.old (plain_reply result)
        (with_values (joined (lent_guests guests.new) epochs.new (tabs freqs.new prevs.new nexts.new buckets.now spares.new)) values.new) state.new }
{
    let levels = Levels {
        freqs: &freqs[..],
        prevs: &prevs[..],
        nexts: &nexts[..],
        buckets,
        spares: &spares[..],
    };
    check(guests, &epochs[..], &levels, &values[..], *state)?;
    *state = sound::make(
        guests,
        epochs,
        freqs,
        prevs,
        nexts,
        spares,
        values,
        state.capacity,
    );
    Ok(())
}
