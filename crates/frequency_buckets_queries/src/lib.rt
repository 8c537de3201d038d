// The calls of `FrequencyBuckets` that only answer, on any lent tables: each checks first, and says why not where the tables hold no
// ledger.
#![tactic(auto)]

ghost use Rattle.ledger.specs.BucketCalls as ledger;
ghost use Rattle.promise.specs.Promise.{Answers};
ghost use Rattle.buckets_tables.specs.Slices.{shown};
ghost use Rattle.buckets_tables.specs.Lent as kind;
ghost use Rattle.answers.specs.Replies.{level_reply, least_reply, number_reply, yes_reply};

use buckets_check::check;
use buckets_reads::sound;
use buckets_tables::{Guests, State};
use levels::Levels;
use numbers::{Frequency, Key, Refusal};

pub mod walk;

// How many keys are bound.
pub fn len(
    guests: &Guests<&[u64]>,
    epochs: &[u64],
    levels: &Levels<&[u64]>,
    state: State,
) -> Result<u64, Refusal>
    ensures { Answers kind.buckets (ledger.Ask ledger.Len) (shown guests.now epochs.now levels.now) state (number_reply result) }
{
    check(guests, epochs, levels, state)?;
    Ok(sound::len(state))
}

// Whether no key is bound.
pub fn is_empty(
    guests: &Guests<&[u64]>,
    epochs: &[u64],
    levels: &Levels<&[u64]>,
    state: State,
) -> Result<bool, Refusal>
    ensures { Answers kind.buckets (ledger.Ask ledger.IsEmpty) (shown guests.now epochs.now levels.now) state (yes_reply result) }
{
    check(guests, epochs, levels, state)?;
    Ok(sound::is_empty(state))
}

// Whether a key is bound.
pub fn contains(
    guests: &Guests<&[u64]>,
    epochs: &[u64],
    levels: &Levels<&[u64]>,
    state: State,
    key: Key,
) -> Result<bool, Refusal>
    ensures { Answers kind.buckets (ledger.Ask (ledger.Contains key.0)) (shown guests.now epochs.now levels.now) state (yes_reply result) }
{
    check(guests, epochs, levels, state)?;
    Ok(sound::contains(guests.keys, guests.index, key))
}

// The current epoch.
pub fn current_epoch(
    guests: &Guests<&[u64]>,
    epochs: &[u64],
    levels: &Levels<&[u64]>,
    state: State,
) -> Result<u64, Refusal>
    ensures { Answers kind.buckets (ledger.Ask ledger.CurrentEpoch) (shown guests.now epochs.now levels.now) state (number_reply result) }
{
    check(guests, epochs, levels, state)?;
    Ok(sound::current_epoch(state))
}

// The frequency of a bound key.
pub fn frequency(
    guests: &Guests<&[u64]>,
    epochs: &[u64],
    levels: &Levels<&[u64]>,
    state: State,
    key: Key,
) -> Result<Frequency, Refusal>
    ensures { Answers kind.buckets (ledger.Ask (ledger.Frequency key.0)) (shown guests.now epochs.now levels.now) state (level_reply result) }
{
    check(guests, epochs, levels, state)?;
    sound::frequency(guests.keys, levels.freqs, guests.index, key)
}

// The last epoch of a bound key.
pub fn entry_epoch(
    guests: &Guests<&[u64]>,
    epochs: &[u64],
    levels: &Levels<&[u64]>,
    state: State,
    key: Key,
) -> Result<u64, Refusal>
    ensures { Answers kind.buckets (ledger.Ask (ledger.EntryEpoch key.0)) (shown guests.now epochs.now levels.now) state (number_reply result) }
{
    check(guests, epochs, levels, state)?;
    sound::entry_epoch(guests.keys, epochs, guests.index, key)
}

// The lowest frequency in use.
pub fn min_freq(
    guests: &Guests<&[u64]>,
    epochs: &[u64],
    levels: &Levels<&[u64]>,
    state: State,
) -> Result<Frequency, Refusal>
    ensures { Answers kind.buckets (ledger.Ask ledger.MinFreq) (shown guests.now epochs.now levels.now) state (level_reply result) }
{
    check(guests, epochs, levels, state)?;
    sound::min_freq(state)
}

// The key at the tail of the lowest list.
pub fn peek_min(
    guests: &Guests<&[u64]>,
    epochs: &[u64],
    levels: &Levels<&[u64]>,
    state: State,
) -> Result<(Key, Frequency), Refusal>
    ensures { Answers kind.buckets (ledger.Ask ledger.PeekMin) (shown guests.now epochs.now levels.now) state (least_reply result) }
{
    check(guests, epochs, levels, state)?;
    sound::peek_min(guests.keys, levels.freqs, levels.buckets, state)
}

// How many keys have a frequency, 0 where it is not in use.
pub fn bucket_len(
    guests: &Guests<&[u64]>,
    epochs: &[u64],
    levels: &Levels<&[u64]>,
    state: State,
    frequency: Frequency,
) -> Result<u64, Refusal>
    ensures { Answers kind.buckets (ledger.Ask (ledger.BucketLen frequency.0)) (shown guests.now epochs.now levels.now) state (number_reply result) }
{
    check(guests, epochs, levels, state)?;
    Ok(sound::bucket_len(levels.buckets, state, frequency))
}

// How many keys have at most a frequency.
pub fn len_up_to(
    guests: &Guests<&[u64]>,
    epochs: &[u64],
    levels: &Levels<&[u64]>,
    state: State,
    frequency: Frequency,
) -> Result<u64, Refusal>
    ensures { Answers kind.buckets (ledger.Ask (ledger.LenUpTo frequency.0)) (shown guests.now epochs.now levels.now) state (number_reply result) }
{
    check(guests, epochs, levels, state)?;
    Ok(sound::len_up_to(levels.buckets, state, frequency))
}
