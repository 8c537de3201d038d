// The calls of `FrequencyBuckets` on whole tables: making them, which takes any contents, and clearing them.
// The levels' tables are lent one by one, since the bucket records are lent for reading: as a part of `Levels` they would be asked for writing.
#![tactic(auto)]

ghost use Rattle.ledger.specs.Ledger as ledger;
ghost use Rattle.ledger.specs.BucketCalls as calls;
ghost use Rattle.promise.specs.Promise.{Makes};
ghost use Rattle.promise.specs.Making.{Made};
ghost use Rattle.levels.specs.Held.{tabs};
ghost use Rattle.buckets_tables.specs.Slices.{joined, lent_guests, SameGuests};
ghost use Rattle.buckets_tables.specs.Lent as kind;
ghost use Rattle.answers.specs.Replies.{plain_reply};

use buckets_check::{check, measure};
use buckets_tables::sound::make;
use buckets_tables::{Guests, State};
use levels::Levels;
use numbers::Refusal;

// Makes tables of a capacity: no key is bound, the slots are free in order 0, 1, 2 and so on, and the epoch is 0.
pub fn new(
    guests: &mut Guests<&mut [u64]>,
    epochs: &mut [u64],
    freqs: &mut [u64],
    prevs: &mut [u64],
    nexts: &mut [u64],
    buckets: &[u64],
    spares: &mut [u64],
    capacity: u64,
) -> Result<State, Refusal>
    ensures same { SameGuests guests.old guests.new }
    ensures does { Made kind.buckets (ledger.new capacity) capacity
        (joined (lent_guests guests.old) epochs.old (tabs freqs.old prevs.old nexts.old buckets.now spares.old)) result
        (joined (lent_guests guests.new) epochs.new (tabs freqs.new prevs.new nexts.new buckets.now spares.new)) }
{
    let levels = Levels {
        freqs: &freqs[..],
        prevs: &prevs[..],
        nexts: &nexts[..],
        buckets,
        spares: &spares[..],
    };
    measure(guests, &epochs[..], &levels, capacity)?;
    Ok(make(guests, epochs, freqs, prevs, nexts, spares, capacity))
}

// Makes the tables anew, at the capacity that they have.
pub fn clear(
    guests: &mut Guests<&mut [u64]>,
    epochs: &mut [u64],
    freqs: &mut [u64],
    prevs: &mut [u64],
    nexts: &mut [u64],
    buckets: &[u64],
    spares: &mut [u64],
    state: &mut State,
) -> Result<(), Refusal>
    ensures same { SameGuests guests.old guests.new }
    ensures does { Makes kind.buckets calls.Clear
        (joined (lent_guests guests.old) epochs.old (tabs freqs.old prevs.old nexts.old buckets.now spares.old)) state.old (plain_reply result)
        (joined (lent_guests guests.new) epochs.new (tabs freqs.new prevs.new nexts.new buckets.now spares.new)) state.new }
{
    let levels = Levels {
        freqs: &freqs[..],
        prevs: &prevs[..],
        nexts: &nexts[..],
        buckets,
        spares: &spares[..],
    };
    check(guests, &epochs[..], &levels, *state)?;
    *state = make(guests, epochs, freqs, prevs, nexts, spares, state.capacity);
    Ok(())
}
