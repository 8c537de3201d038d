// The single calls on tables that are known to be sound: they check nothing. Beside the key index's search each takes a few steps.
ghost use Rattle.ledger.specs.History.{Get, Remove, Evict, Reset};
ghost use Rattle.ledger.specs.CacheCalls.{cache_calls};
ghost use Rattle.promise.specs.Promise.{Sound, SoundBeside, Does, DoesBeside};
ghost use Rattle.levels.specs.Slices.{lent as lent_levels, SameLevels};
ghost use Rattle.buckets_tables.specs.Slices.{Same};
ghost use Rattle.buckets_tables.specs.Lent as nine;
ghost use Rattle.answers.specs.Replies.{number_reply, level_reply, least_used_reply};
ghost use Rattle.buckets_calls.specs.Calls as buckets;
ghost use Rattle.cache_tables.specs.Slices.{lent};
ghost use Rattle.cache_tables.specs.Lent.{cache};
ghost use Rattle.cache_calls.specs.Calls.{with, with_any};

use buckets_tables::sound::{find, hit, let_go, lowest, restart};
use buckets_tables::{Guests, State};
use levels::Levels;
use numbers::{Frequency, Key, Refusal};

pub mod reads;

// Hits a bound key, and answers its value.
pub fn get(
    keys: &[u64],
    index: &[u64],
    epochs: &mut [u64],
    levels: &mut Levels<&mut [u64]>,
    values: &[u64],
    state: &mut State,
    key: Key,
) -> Result<u64, Refusal>
    requires { SoundBeside cache (with keys.now index.now epochs.old (lent_levels levels.old) values.now) state.old }
    ensures same { SameLevels levels.old levels.new }
    ensures does { DoesBeside cache (cache_calls (Get key.0))
        (with keys.now index.now epochs.old (lent_levels levels.old) values.now) state.old (number_reply result)
        (with keys.now index.now epochs.new (lent_levels levels.new) values.now) state.new }
{
    match key_index::sound::find(index, keys, key) {
        Some(slot) => {
            hit(epochs, levels, state, slot, Frequency::CEILING);
            Ok(values[slot.0 as usize])
        }
        None => Err(Refusal::Absent),
    }
}

// Lets go a bound key; the answer is its value, and 0 stands in its place.
pub fn remove(
    guests: &mut Guests<&mut [u64]>,
    epochs: &mut [u64],
    levels: &mut Levels<&mut [u64]>,
    values: &mut [u64],
    state: &mut State,
    key: Key,
) -> Result<u64, Refusal>
    requires { Sound cache (lent guests.old epochs.old levels.old values.old) state.old }
    ensures same { Same guests.old guests.new levels.old levels.new }
    ensures does { Does cache (cache_calls (Remove key.0)) (lent guests.old epochs.old levels.old values.old) state.old (number_reply result) (lent guests.new epochs.new levels.new values.new) state.new }
{
    match find(guests, key) {
        Some(slot) => {
            let value = values[slot.0 as usize];
            values[slot.0 as usize] = 0;
            let_go(guests, epochs, levels, state, slot);
            Ok(value)
        }
        None => Err(Refusal::Absent),
    }
}

// Lets go the key at the tail of the lowest list; the answer is the key and its value.
pub fn evict_min_freq(
    guests: &mut Guests<&mut [u64]>,
    epochs: &mut [u64],
    levels: &mut Levels<&mut [u64]>,
    values: &mut [u64],
    state: &mut State,
) -> Result<(Key, u64), Refusal>
    requires { Sound cache (lent guests.old epochs.old levels.old values.old) state.old }
    ensures same { Same guests.old guests.new levels.old levels.new }
    ensures does { Does cache (cache_calls Evict) (lent guests.old epochs.old levels.old values.old) state.old (least_used_reply result) (lent guests.new epochs.new levels.new values.new) state.new }
{
    let Some(slot) = lowest(levels, state.buckets) else {
        return Err(Refusal::Empty);
    };
    let key = Key(guests.keys[slot.0 as usize]);
    let value = values[slot.0 as usize];
    values[slot.0 as usize] = 0;
    let_go(guests, epochs, levels, state, slot);
    Ok((key, value))
}

// A bound key starts again, at the first frequency; the answer is its frequency before. Its slot and its value stay.
pub fn reset_frequency(
    keys: &[u64],
    index: &[u64],
    epochs: &mut [u64],
    levels: &mut Levels<&mut [u64]>,
    state: &mut State,
    key: Key,
) -> Result<Frequency, Refusal>
    requires { SoundBeside nine.buckets (buckets.with keys.now index.now epochs.old (lent_levels levels.old)) state.old }
    ensures same { SameLevels levels.old levels.new }
    ensures does { DoesBeside cache (cache_calls (Reset key.0))
        (with_any (buckets.with keys.now index.now epochs.old (lent_levels levels.old))) state.old (level_reply result)
        (with_any (buckets.with keys.now index.now epochs.new (lent_levels levels.new))) state.new }
{
    match key_index::sound::find(index, keys, key) {
        Some(slot) => {
            let frequency = Frequency(levels.freqs[slot.0 as usize]);
            restart(epochs, levels, state, slot);
            Ok(frequency)
        }
        None => Err(Refusal::Absent),
    }
}
