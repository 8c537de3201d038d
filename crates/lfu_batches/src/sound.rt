// The batches on tables that are known to be sound: the single call for each item in order, past refusals too, and the count of those
// that were done. A batch of hits needs no values, and is that of the buckets. The two loops differ in their call: a closure over the tables
// would be as long as a loop.
ghost use Rattle.ledger.specs.CacheCalls.{insert_batch_call, remove_batch_call};
ghost use Rattle.promise.specs.Promise.{Does, Sound};
ghost use Rattle.buckets_tables.specs.Slices.{Same};
ghost use Rattle.answers.specs.Replies.{number_reply};
ghost use Rattle.cache_tables.specs.Slices.{lent};
ghost use Rattle.cache_tables.specs.Lent.{cache};
ghost use Rattle.lfu_batches.specs.Batches.{pairs};

use crate::bound_once;
use buckets_batches::done_once;
use buckets_tables::{Guests, State};
use cache_calls::sound::remove;
use cache_inserts::sound::insert;
use levels::Levels;
use numbers::Key;

// Inserts each key with its value; counts the keys that are newly bound.
pub fn insert_batch(
    guests: &mut Guests<&mut [u64]>,
    epochs: &mut [u64],
    levels: &mut Levels<&mut [u64]>,
    values: &mut [u64],
    state: &mut State,
    items: &[u64],
    given: &[u64],
) -> u64
    requires { Sound cache (lent guests.old epochs.old levels.old values.old) state.old }
    ensures same { Same guests.old guests.new levels.old levels.new }
    ensures does { Does cache (insert_batch_call (pairs items.now given.now))
        (lent guests.old epochs.old levels.old values.old) state.old (number_reply (Ok result))
        (lent guests.new epochs.new levels.new values.new) state.new }
{
    let mut done: u64 = 0;
    for (&item, &value) in items.iter().zip(given) {
        let answer = insert(guests, epochs, levels, values, state, Key(item), value);
        done += bound_once(answer);
    }
    done
}

// Lets go each key that is bound.
pub fn remove_batch(
    guests: &mut Guests<&mut [u64]>,
    epochs: &mut [u64],
    levels: &mut Levels<&mut [u64]>,
    values: &mut [u64],
    state: &mut State,
    items: &[u64],
) -> u64
    requires { Sound cache (lent guests.old epochs.old levels.old values.old) state.old }
    ensures same { Same guests.old guests.new levels.old levels.new }
    ensures does { Does cache (remove_batch_call items.now)
        (lent guests.old epochs.old levels.old values.old) state.old (number_reply (Ok result))
        (lent guests.new epochs.new levels.new values.new) state.new }
{
    let mut done: u64 = 0;
    for &item in items {
        let answer = remove(guests, epochs, levels, values, state, Key(item));
        done += done_once(answer);
    }
    done
}
