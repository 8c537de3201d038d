// The calls of `FrequencyBuckets` that change one key, on any lent tables. Each checks first; where the tables hold a ledger it does what
// the ledger's call does, else it says why not and leaves everything.
#![tactic(auto)]

ghost use Rattle.ledger.specs.BucketCalls as ledger;
ghost use Rattle.promise.specs.Promise.{Makes};
ghost use Rattle.levels.specs.Slices.{SameLevels};
ghost use Rattle.buckets_tables.specs.Slices.{counted, lent, Same};
ghost use Rattle.buckets_tables.specs.Lent as kind;
ghost use Rattle.answers.specs.Replies.{level_reply, least_reply, plain_reply};

use buckets_calls::sound;
use buckets_check::check;
use buckets_tables::{Guests, State};
use levels::Levels;
use numbers::{Frequency, Key, Refusal};

// Binds an absent key at frequency 1, in the first free slot.
pub fn insert(
    guests: &mut Guests<&mut [u64]>,
    epochs: &mut [u64],
    levels: &mut Levels<&mut [u64]>,
    state: &mut State,
    key: Key,
) -> Result<(), Refusal>
    ensures same { Same guests.old guests.new levels.old levels.new }
    ensures does { Makes kind.buckets (ledger.Insert key.0)
        (lent guests.old epochs.old levels.old) state.old (plain_reply result)
        (lent guests.new epochs.new levels.new) state.new }
{
    check(guests, &epochs[..], levels, *state)?;
    sound::insert(guests, epochs, levels, state, key)
}

// Hits a bound key up to a cap, of which 0 is read as 1; the answer is its new frequency. The cap of a plain touch is the ceiling.
pub fn touch(
    guests: &Guests<&[u64]>,
    epochs: &mut [u64],
    levels: &mut Levels<&mut [u64]>,
    state: &mut State,
    key: Key,
    cap: Frequency,
) -> Result<Frequency, Refusal>
    ensures same { SameLevels levels.old levels.new }
    ensures does { Makes kind.buckets (ledger.Touch cap.0 key.0)
        (counted guests.now epochs.old levels.old) state.old (level_reply result)
        (counted guests.now epochs.new levels.new) state.new }
{
    check(guests, &epochs[..], levels, *state)?;
    sound::touch(guests.keys, guests.index, epochs, levels, state, key, cap)
}

// Lets go a bound key; the answer is its frequency.
pub fn remove(
    guests: &mut Guests<&mut [u64]>,
    epochs: &mut [u64],
    levels: &mut Levels<&mut [u64]>,
    state: &mut State,
    key: Key,
) -> Result<Frequency, Refusal>
    ensures same { Same guests.old guests.new levels.old levels.new }
    ensures does { Makes kind.buckets (ledger.Remove key.0)
        (lent guests.old epochs.old levels.old) state.old (level_reply result)
        (lent guests.new epochs.new levels.new) state.new }
{
    check(guests, &epochs[..], levels, *state)?;
    sound::remove(guests, epochs, levels, state, key)
}

// Lets go the key at the tail of the lowest list.
pub fn pop_min(
    guests: &mut Guests<&mut [u64]>,
    epochs: &mut [u64],
    levels: &mut Levels<&mut [u64]>,
    state: &mut State,
) -> Result<(Key, Frequency), Refusal>
    ensures same { Same guests.old guests.new levels.old levels.new }
    ensures does { Makes kind.buckets ledger.PopMin
        (lent guests.old epochs.old levels.old) state.old (least_reply result)
        (lent guests.new epochs.new levels.new) state.new }
{
    check(guests, &epochs[..], levels, *state)?;
    sound::pop_min(guests, epochs, levels, state)
}
