// The single calls on tables that are known to be sound: they check nothing. Beside the key index's search each takes a few steps.
ghost use Rattle.ledger.specs.Buckets as ledger;
ghost use Rattle.promise.specs.Promise.{Does, DoesBeside, Sound, SoundBeside};
ghost use Rattle.levels.specs.Slices.{lent as lent_levels, SameLevels};
ghost use Rattle.buckets_tables.specs.Slices.{lent, Same};
ghost use Rattle.buckets_tables.specs.Lent as kind;
ghost use Rattle.answers.specs.Replies.{level_reply, least_reply, plain_reply};
ghost use Rattle.buckets_calls.specs.Calls.{with};

use buckets_tables::sound::{bind, find, hit, let_go, lowest};
use buckets_tables::{Guests, State};
use levels::Levels;
use numbers::{Frequency, Key, NONE, Refusal};

// Binds an absent key at frequency 1.
pub fn insert(
    guests: &mut Guests<&mut [u64]>,
    epochs: &mut [u64],
    levels: &mut Levels<&mut [u64]>,
    state: &mut State,
    key: Key,
) -> Result<(), Refusal>
    requires { Sound kind.buckets (lent guests.old epochs.old levels.old) state.old }
    ensures same { Same guests.old guests.new levels.old levels.new }
    ensures does { Does kind.buckets (ledger.insert key.0)
        (lent guests.old epochs.old levels.old) state.old (plain_reply result)
        (lent guests.new epochs.new levels.new) state.new }
{
    if find(guests, key).is_some() {
        return Err(Refusal::Present);
    }
    if state.free.first == NONE {
        return Err(Refusal::Full);
    }
    bind(guests, epochs, levels, state, key);
    Ok(())
}

// Hits a bound key, up to a cap; a cap of 0 is read as 1. The answer is its frequency after it.
pub fn touch(
    keys: &[u64],
    index: &[u64],
    epochs: &mut [u64],
    levels: &mut Levels<&mut [u64]>,
    state: &mut State,
    key: Key,
    cap: Frequency,
) -> Result<Frequency, Refusal>
    requires { SoundBeside kind.buckets (with keys.now index.now epochs.old (lent_levels levels.old)) state.old }
    ensures same { SameLevels levels.old levels.new }
    ensures does { DoesBeside kind.buckets (ledger.touch cap.0 key.0)
        (with keys.now index.now epochs.old (lent_levels levels.old)) state.old (level_reply result)
        (with keys.now index.now epochs.new (lent_levels levels.new)) state.new }
{
    match key_index::sound::find(index, keys, key) {
        Some(slot) => Ok(hit(epochs, levels, state, slot, cap.as_cap())),
        None => Err(Refusal::Absent),
    }
}

// Lets go a bound key; the answer is its frequency.
pub fn remove(
    guests: &mut Guests<&mut [u64]>,
    epochs: &mut [u64],
    levels: &mut Levels<&mut [u64]>,
    state: &mut State,
    key: Key,
) -> Result<Frequency, Refusal>
    requires { Sound kind.buckets (lent guests.old epochs.old levels.old) state.old }
    ensures same { Same guests.old guests.new levels.old levels.new }
    ensures does { Does kind.buckets (ledger.remove key.0)
        (lent guests.old epochs.old levels.old) state.old (level_reply result)
        (lent guests.new epochs.new levels.new) state.new }
{
    match find(guests, key) {
        Some(slot) => {
            let frequency = Frequency(levels.freqs[slot.0 as usize]);
            let_go(guests, epochs, levels, state, slot);
            Ok(frequency)
        }
        None => Err(Refusal::Absent),
    }
}

// Lets go the key at the tail of the lowest list; the answer is the key and its frequency.
pub fn pop_min(
    guests: &mut Guests<&mut [u64]>,
    epochs: &mut [u64],
    levels: &mut Levels<&mut [u64]>,
    state: &mut State,
) -> Result<(Key, Frequency), Refusal>
    requires { Sound kind.buckets (lent guests.old epochs.old levels.old) state.old }
    ensures same { Same guests.old guests.new levels.old levels.new }
    ensures does { Does kind.buckets (ledger.pop_min)
        (lent guests.old epochs.old levels.old) state.old (least_reply result)
        (lent guests.new epochs.new levels.new) state.new }
{
    let Some(slot) = lowest(levels, state.buckets) else {
        return Err(Refusal::Empty);
    };
    let key = Key(guests.keys[slot.0 as usize]);
    let frequency = Frequency(levels.freqs[slot.0 as usize]);
    let_go(guests, epochs, levels, state, slot);
    Ok((key, frequency))
}
