// The calls that only answer, on tables that are known to be sound: they check nothing, and each is lent only what it reads. Beside
// the key index's search each takes a few steps, but for the counts of keys by frequency: these take a step for each level up to it.
ghost use Rattle.std.specs.Prelude.{◌≡◌, length};
ghost use Rattle.ledger.specs.Buckets as ledger;
ghost use Rattle.ledger.specs.Counts.{bucket_len, len_up_to};
ghost use Rattle.key_index.specs.Index.{IndexSound};
ghost use Rattle.answers.specs.Replies.{yes_reply, number_reply, level_reply, least_reply};
ghost use Rattle.buckets_reads.specs.Reads.{OfKeys, OfFrequencies, OfEpochs, OfState, Peekable, OfLeast, Countable, OfRecords};

use buckets_tables::State;
use numbers::{Frequency, Key, Refusal};

// Whether a key is bound.
pub fn contains(keys: &[u64], index: &[u64], key: Key) -> bool
    requires { IndexSound index.now keys.now }
    ensures { OfKeys keys.now index.now (ledger.contains key.0) (yes_reply (Ok result)) }
{
    key_index::sound::find(index, keys, key).is_some()
}

// The frequency of a bound key.
pub fn frequency(keys: &[u64], freqs: &[u64], index: &[u64], key: Key) -> Result<Frequency, Refusal>
    requires { IndexSound index.now keys.now × (length freqs.now ≡ length keys.now) }
    ensures { OfFrequencies
        keys.now freqs.now index.now (ledger.frequency key.0) (level_reply result) }
{
    match key_index::sound::find(index, keys, key) {
        Some(slot) => Ok(Frequency(freqs[slot.0 as usize])),
        None => Err(Refusal::Absent),
    }
}

// The last epoch of a bound key.
pub fn entry_epoch(keys: &[u64], epochs: &[u64], index: &[u64], key: Key) -> Result<u64, Refusal>
    requires { IndexSound index.now keys.now × (length epochs.now ≡ length keys.now) }
    ensures { OfEpochs keys.now epochs.now index.now (ledger.entry_epoch key.0) (number_reply result) }
{
    match key_index::sound::find(index, keys, key) {
        Some(slot) => Ok(epochs[slot.0 as usize]),
        None => Err(Refusal::Absent),
    }
}

// The lowest frequency in use.
pub fn min_freq(state: State) -> Result<Frequency, Refusal>
    ensures { OfState state ledger.min_freq (level_reply result) }
{
    if state.lowest == 0 {
        return Err(Refusal::Empty);
    }
    Ok(Frequency(state.lowest))
}

// The current epoch.
pub fn current_epoch(state: State) -> u64
    ensures { OfState state ledger.current_epoch (number_reply (Ok result)) }
{
    state.epoch
}

// How many keys are bound.
pub fn len(state: State) -> u64
    ensures { OfState state ledger.len (number_reply (Ok result)) }
{
    state.count
}

// Whether no key is bound.
pub fn is_empty(state: State) -> bool
    ensures { OfState state ledger.is_empty (yes_reply (Ok result)) }
{
    state.count == 0
}

// The key at the tail of the lowest list.
pub fn peek_min(
    keys: &[u64],
    freqs: &[u64],
    buckets: &[u64],
    state: State,
) -> Result<(Key, Frequency), Refusal>
    requires { Peekable keys.now freqs.now buckets.now state }
    ensures { OfLeast keys.now freqs.now buckets.now state ledger.peek_min (least_reply result) }
{
    let Some(slot) = levels::sound::lowest(buckets, state.buckets) else {
        return Err(Refusal::Empty);
    };
    let key = Key(keys[slot.0 as usize]);
    let frequency = Frequency(freqs[slot.0 as usize]);
    Ok((key, frequency))
}

// How many keys have a frequency, 0 where it is not in use.
pub fn bucket_len(buckets: &[u64], state: State, frequency: Frequency) -> u64
    requires { Countable buckets.now state }
    ensures { OfRecords buckets.now state (bucket_len frequency.0) (number_reply (Ok result)) }
{
    levels::sound::count(buckets, state.buckets, frequency)
}

// How many keys have at most a frequency.
pub fn len_up_to(buckets: &[u64], state: State, frequency: Frequency) -> u64
    requires { Countable buckets.now state }
    ensures { OfRecords buckets.now state (len_up_to frequency.0) (number_reply (Ok result)) }
{
    levels::sound::count_up_to(buckets, state.buckets, frequency)
}
