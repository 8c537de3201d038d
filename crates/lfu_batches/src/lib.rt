// The batches of `LfuCache`, on any lent tables: one check, then the single call for each item in order, past refusals.
#![tactic(auto)]

ghost use Rattle.std.specs.Prelude.{◌≡◌};
ghost use Rattle.ledger.specs.CacheCalls.{remove_batch_call, touch_batch_call};
ghost use Rattle.promise.specs.Promise.{Promised};
ghost use Rattle.levels.specs.Slices.{SameLevels};
ghost use Rattle.buckets_tables.specs.Slices.{Same};
ghost use Rattle.answers.specs.Replies.{insertion_reply, number_reply};
ghost use Rattle.cache_tables.specs.Slices.{counted, lent};
ghost use Rattle.cache_tables.specs.Lent.{cache};
ghost use Rattle.lfu_batches.specs.Batches.{bound_in, BatchChecks, InsertsAll};

use answers::Insertion;
use buckets_tables::{Guests, State};
use levels::Levels;
use numbers::Refusal;

pub mod sound;

// 1 for a key that is newly bound, else 0.
fn bound_once(answer: Result<Insertion, Refusal>) -> u64
    ensures { result ≡ bound_in (insertion_reply answer) }
{
    matches!(answer, Ok(Insertion::New | Insertion::NewOut(_))) as u64
}

// Whether a batch of two slices may begin: slices of different lengths are as tables that are too short.
fn check(
    guests: &Guests<&mut [u64]>,
    epochs: &[u64],
    levels: &Levels<&mut [u64]>,
    values: &[u64],
    state: State,
    items: &[u64],
    given: &[u64],
) -> Result<(), Refusal>
    ensures { BatchChecks items.now given.now (lent guests.now epochs.now levels.now values.now) state result }
{
    if items.len() != given.len() {
        return Err(cache_check::too_short(state.capacity));
    }
    cache_check::check(guests, epochs, levels, values, state)
}

// Inserts each key with its value; the answer is how many keys were newly bound.
pub fn insert_batch(
    guests: &mut Guests<&mut [u64]>,
    epochs: &mut [u64],
    levels: &mut Levels<&mut [u64]>,
    values: &mut [u64],
    state: &mut State,
    items: &[u64],
    given: &[u64],
) -> Result<u64, Refusal>
    ensures same { Same guests.old guests.new levels.old levels.new }
    ensures does { InsertsAll items.now given.now
        (lent guests.old epochs.old levels.old values.old) state.old (number_reply result)
        (lent guests.new epochs.new levels.new values.new) state.new }
{
    check(
        guests,
        &epochs[..],
        levels,
        &values[..],
        *state,
        items,
        given,
    )?;
    Ok(sound::insert_batch(guests, epochs, levels, values, state, items, given))
}

// Lets go each key that is bound; the answer is how many were let go.
pub fn remove_batch(
    guests: &mut Guests<&mut [u64]>,
    epochs: &mut [u64],
    levels: &mut Levels<&mut [u64]>,
    values: &mut [u64],
    state: &mut State,
    items: &[u64],
) -> Result<u64, Refusal>
    ensures same { Same guests.old guests.new levels.old levels.new }
    ensures does { Promised cache (remove_batch_call items.now)
        (lent guests.old epochs.old levels.old values.old) state.old (number_reply result)
        (lent guests.new epochs.new levels.new values.new) state.new }
{
    cache_check::check(guests, &epochs[..], levels, &values[..], *state)?;
    Ok(sound::remove_batch(guests, epochs, levels, values, state, items))
}

// Hits each key that is bound; the answer is how many were hit.
pub fn touch_batch(
    guests: &Guests<&[u64]>,
    epochs: &mut [u64],
    levels: &mut Levels<&mut [u64]>,
    values: &[u64],
    state: &mut State,
    items: &[u64],
) -> Result<u64, Refusal>
    ensures same { SameLevels levels.old levels.new }
    ensures does { Promised cache (touch_batch_call items.now)
        (counted guests.now epochs.old levels.old values.now) state.old (number_reply result)
        (counted guests.now epochs.new levels.new values.now) state.new }
{
    cache_check::check(guests, &epochs[..], levels, values, *state)?;
    Ok(buckets_batches::sound::touch_batch(guests.keys, guests.index, epochs, levels, state, items))
}
