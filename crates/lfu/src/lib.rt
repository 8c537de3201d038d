// The calls of `LfuCache` that change one key, on any lent tables. Each checks first; where the tables hold a cache it does what the
// cache's call does, else it says why not and leaves everything.
#![tactic(auto)]

ghost use Rattle.ledger.specs.History as ledger;
ghost use Rattle.promise.specs.Promise.{Makes};
ghost use Rattle.levels.specs.Slices.{SameLevels};
ghost use Rattle.buckets_tables.specs.Slices.{Same};
ghost use Rattle.answers.specs.Replies.{insertion_reply, least_used_reply, level_reply, number_reply};
ghost use Rattle.cache_tables.specs.Slices.{counted, lent};
ghost use Rattle.cache_tables.specs.Lent.{cache};

use answers::Insertion;
use buckets_tables::{Guests, State};
use cache_calls::sound;
use cache_check::check;
use levels::Levels;
use numbers::{Frequency, Key, Refusal};

// Binds an absent key with its value; where no slot is free the key at the tail of the lowest list goes first, and is told. A bound key's
// value is replaced, and the old one told.
pub fn insert(
    guests: &mut Guests<&mut [u64]>,
    epochs: &mut [u64],
    levels: &mut Levels<&mut [u64]>,
    values: &mut [u64],
    state: &mut State,
    key: Key,
    value: u64,
) -> Result<Insertion, Refusal>
    ensures same { Same guests.old guests.new levels.old levels.new }
    ensures does { Makes cache (ledger.Insert key.0 value)
        (lent guests.old epochs.old levels.old values.old) state.old (insertion_reply result)
        (lent guests.new epochs.new levels.new values.new) state.new }
{
    check(guests, &epochs[..], levels, &values[..], *state)?;
    cache_inserts::sound::insert(guests, epochs, levels, values, state, key, value)
}

// Hits a bound key, and answers its value.
pub fn get(
    guests: &Guests<&[u64]>,
    epochs: &mut [u64],
    levels: &mut Levels<&mut [u64]>,
    values: &[u64],
    state: &mut State,
    key: Key,
) -> Result<u64, Refusal>
    ensures same { SameLevels levels.old levels.new }
    ensures does { Makes cache (ledger.Get key.0)
        (counted guests.now epochs.old levels.old values.now) state.old (number_reply result)
        (counted guests.now epochs.new levels.new values.now) state.new }
{
    check(guests, &epochs[..], levels, values, *state)?;
    sound::get(
        guests.keys,
        guests.index,
        epochs,
        levels,
        values,
        state,
        key,
    )
}

// Lets go a bound key; the answer is its value.
pub fn remove(
    guests: &mut Guests<&mut [u64]>,
    epochs: &mut [u64],
    levels: &mut Levels<&mut [u64]>,
    values: &mut [u64],
    state: &mut State,
    key: Key,
) -> Result<u64, Refusal>
    ensures same { Same guests.old guests.new levels.old levels.new }
    ensures does { Makes cache (ledger.Remove key.0)
        (lent guests.old epochs.old levels.old values.old) state.old (number_reply result)
        (lent guests.new epochs.new levels.new values.new) state.new }
{
    check(guests, &epochs[..], levels, &values[..], *state)?;
    sound::remove(guests, epochs, levels, values, state, key)
}

// Lets go the key at the tail of the lowest list; the answer is the key and its value.
pub fn evict_min_freq(
    guests: &mut Guests<&mut [u64]>,
    epochs: &mut [u64],
    levels: &mut Levels<&mut [u64]>,
    values: &mut [u64],
    state: &mut State,
) -> Result<(Key, u64), Refusal>
    ensures same { Same guests.old guests.new levels.old levels.new }
    ensures does { Makes cache ledger.Evict
        (lent guests.old epochs.old levels.old values.old) state.old (least_used_reply result)
        (lent guests.new epochs.new levels.new values.new) state.new }
{
    check(guests, &epochs[..], levels, &values[..], *state)?;
    sound::evict_min_freq(guests, epochs, levels, values, state)
}

// A bound key starts again, in its slot and with its value; the answer is its frequency before.
pub fn reset_frequency(
    guests: &Guests<&[u64]>,
    epochs: &mut [u64],
    levels: &mut Levels<&mut [u64]>,
    values: &[u64],
    state: &mut State,
    key: Key,
) -> Result<Frequency, Refusal>
    ensures same { SameLevels levels.old levels.new }
    ensures does { Makes cache (ledger.Reset key.0)
        (counted guests.now epochs.old levels.old values.now) state.old (level_reply result)
        (counted guests.now epochs.new levels.new values.now) state.new }
{
    check(guests, &epochs[..], levels, values, *state)?;
    sound::reset_frequency(guests.keys, guests.index, epochs, levels, state, key)
}
