// The insert of a key and its value. A key that is not bound is bound first, in the first free slot or in the slot of the key that
// goes; then its value is stored in that slot.
ghost use Rattle.ledger.specs.History.{Insert};
ghost use Rattle.ledger.specs.CacheCalls.{cache_calls};
ghost use Rattle.promise.specs.Promise.{Does, Sound};
ghost use Rattle.buckets_tables.specs.Slices as nine;
ghost use Rattle.buckets_tables.specs.Slices.{Same};
ghost use Rattle.answers.specs.Replies.{insertion_reply};
ghost use Rattle.cache_tables.specs.Slices.{lent};
ghost use Rattle.cache_tables.specs.Lent.{cache};
ghost use Rattle.cache_inserts.specs.Entering.{NoRoom, KeyAbsent, CacheEnters};

use answers::Insertion;
use buckets_tables::sound::{bind, find, lowest};
use buckets_tables::{Guests, State};
use cache_tables::sound::replace;
use cache_tables::store;
use levels::Levels;
use numbers::{Key, NONE, Refusal, Slot};

// Binds a key in the slot of the key at the tail of the lowest list, which goes. Without any slot there is no such key. The answer is the slot,
// and how it went.
fn displace(
    guests: &mut Guests<&mut [u64]>,
    epochs: &mut [u64],
    levels: &mut Levels<&mut [u64]>,
    state: &mut State,
    key: Key,
) -> Result<(Slot, Insertion), Refusal>
    requires { NoRoom (nine.lent guests.old epochs.old levels.old) state.old key.0 }
    ensures same { Same guests.old guests.new levels.old levels.new }
    ensures does { CacheEnters key.0 (nine.lent guests.old epochs.old levels.old) state.old result (nine.lent guests.new epochs.new levels.new) state.new }
{
    let Some(slot) = lowest(levels, state.buckets) else {
        return Err(Refusal::Full);
    };
    let victim = Key(guests.keys[slot.0 as usize]);
    replace(guests, epochs, levels, state, slot, key);
    Ok((slot, Insertion::NewOut(victim)))
}

// Binds a key that is not bound, at frequency 1.
fn enter(
    guests: &mut Guests<&mut [u64]>,
    epochs: &mut [u64],
    levels: &mut Levels<&mut [u64]>,
    state: &mut State,
    key: Key,
) -> Result<(Slot, Insertion), Refusal>
    requires { KeyAbsent (nine.lent guests.old epochs.old levels.old) state.old key.0 }
    ensures same { Same guests.old guests.new levels.old levels.new }
    ensures does { CacheEnters key.0 (nine.lent guests.old epochs.old levels.old) state.old result (nine.lent guests.new epochs.new levels.new) state.new }
{
    if state.free.first == NONE {
        return displace(guests, epochs, levels, state, key);
    }
    let slot = bind(guests, epochs, levels, state, key);
    Ok((slot, Insertion::New))
}

// Binds an absent key with its value; where no slot is free the key at the tail of the lowest list goes first. A bound key's value
// is replaced, and nothing else changes.
pub fn insert(
    guests: &mut Guests<&mut [u64]>,
    epochs: &mut [u64],
    levels: &mut Levels<&mut [u64]>,
    values: &mut [u64],
    state: &mut State,
    key: Key,
    value: u64,
) -> Result<Insertion, Refusal>
    requires { Sound cache (lent guests.old epochs.old levels.old values.old) state.old }
    ensures same { Same guests.old guests.new levels.old levels.new }
    ensures does { Does cache (cache_calls (Insert key.0 value)) (lent guests.old epochs.old levels.old values.old) state.old (insertion_reply result) (lent guests.new epochs.new levels.new values.new) state.new }
{
    match find(guests, key) {
        Some(slot) => {
            let old = values[slot.0 as usize];
            values[slot.0 as usize] = value;
            Ok(Insertion::Old(old))
        }
        None => {
            let (slot, how) = enter(guests, epochs, levels, state, key)?;
            store(values, slot, value);
            Ok(how)
        }
    }
}
