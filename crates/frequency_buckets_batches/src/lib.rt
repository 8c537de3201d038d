// The batches of `FrequencyBuckets`, on any lent tables: one check, then the single call for each item in order, past refusals.
#![tactic(auto)]

ghost use Rattle.ledger.specs.BucketCalls as ledger;
ghost use Rattle.promise.specs.Promise.{Makes};
ghost use Rattle.levels.specs.Slices.{SameLevels};
ghost use Rattle.buckets_tables.specs.Slices.{counted, lent, Same};
ghost use Rattle.buckets_tables.specs.Lent as kind;
ghost use Rattle.answers.specs.Replies.{number_reply};

use buckets_batches::sound;
use buckets_check::check;
use buckets_tables::{Guests, State};
use levels::Levels;
use numbers::Refusal;

// Binds each key that is absent, while there are free slots; the answer is how many were bound.
pub fn insert_batch(
    guests: &mut Guests<&mut [u64]>,
    epochs: &mut [u64],
    levels: &mut Levels<&mut [u64]>,
    state: &mut State,
    items: &[u64],
) -> Result<u64, Refusal>
    ensures same { Same guests.old guests.new levels.old levels.new }
    ensures does { Makes kind.buckets (ledger.InsertBatch items.now)
        (lent guests.old epochs.old levels.old) state.old (number_reply result)
        (lent guests.new epochs.new levels.new) state.new }
{
    check(guests, &epochs[..], levels, *state)?;
    Ok(sound::insert_batch(guests, epochs, levels, state, items))
}

// Hits each key that is bound; the answer is how many were hit.
pub fn touch_batch(
    guests: &Guests<&[u64]>,
    epochs: &mut [u64],
    levels: &mut Levels<&mut [u64]>,
    state: &mut State,
    items: &[u64],
) -> Result<u64, Refusal>
    ensures same { SameLevels levels.old levels.new }
    ensures does { Makes kind.buckets (ledger.TouchBatch items.now)
        (counted guests.now epochs.old levels.old) state.old (number_reply result)
        (counted guests.now epochs.new levels.new) state.new }
{
    check(guests, &epochs[..], levels, *state)?;
    Ok(sound::touch_batch(guests.keys, guests.index, epochs, levels, state, items))
}

// Lets go each key that is bound; the answer is how many were let go.
pub fn remove_batch(
    guests: &mut Guests<&mut [u64]>,
    epochs: &mut [u64],
    levels: &mut Levels<&mut [u64]>,
    state: &mut State,
    items: &[u64],
) -> Result<u64, Refusal>
    ensures same { Same guests.old guests.new levels.old levels.new }
    ensures does { Makes kind.buckets (ledger.RemoveBatch items.now)
        (lent guests.old epochs.old levels.old) state.old (number_reply result)
        (lent guests.new epochs.new levels.new) state.new }
{
    check(guests, &epochs[..], levels, *state)?;
    Ok(sound::remove_batch(guests, epochs, levels, state, items))
}
