// The batches on tables that are known to be sound: the single call for each item in order, past refusals too, and the count of those
// that were done. The loops differ in the call that they make, and in what is lent to it: a closure over the tables would be as long as a loop.
ghost use Rattle.ledger.specs.Buckets as ledger;
ghost use Rattle.promise.specs.Promise.{Does, DoesBeside, Sound, SoundBeside};
ghost use Rattle.levels.specs.Slices.{lent as lent_levels, SameLevels};
ghost use Rattle.buckets_tables.specs.Slices.{lent, Same};
ghost use Rattle.buckets_tables.specs.Lent as kind;
ghost use Rattle.answers.specs.Replies.{number_reply};
ghost use Rattle.buckets_calls.specs.Calls.{with};

use crate::done_once;
use buckets_calls::sound::{insert, remove, touch};
use buckets_tables::{Guests, State};
use levels::Levels;
use numbers::{Frequency, Key};

// Binds each key that is absent, at frequency 1, while there are free slots.
pub fn insert_batch(
    guests: &mut Guests<&mut [u64]>,
    epochs: &mut [u64],
    levels: &mut Levels<&mut [u64]>,
    state: &mut State,
    items: &[u64],
) -> u64
    requires { Sound kind.buckets (lent guests.old epochs.old levels.old) state.old }
    ensures same { Same guests.old guests.new levels.old levels.new }
    ensures does { Does kind.buckets (ledger.insert_batch items.now)
        (lent guests.old epochs.old levels.old) state.old (number_reply (Ok result))
        (lent guests.new epochs.new levels.new) state.new }
{
    let mut done: u64 = 0;
    for &item in items {
        let answer = insert(guests, epochs, levels, state, Key(item));
        done += done_once(answer);
    }
    done
}

// Hits each key that is bound.
pub fn touch_batch(
    keys: &[u64],
    index: &[u64],
    epochs: &mut [u64],
    levels: &mut Levels<&mut [u64]>,
    state: &mut State,
    items: &[u64],
) -> u64
    requires { SoundBeside kind.buckets (with keys.now index.now epochs.old (lent_levels levels.old)) state.old }
    ensures same { SameLevels levels.old levels.new }
    ensures does { DoesBeside kind.buckets (ledger.touch_batch items.now)
        (with keys.now index.now epochs.old (lent_levels levels.old)) state.old (number_reply (Ok result))
        (with keys.now index.now epochs.new (lent_levels levels.new)) state.new }
{
    let mut done: u64 = 0;
    for &item in items {
        let answer = touch(
            keys,
            index,
            epochs,
            levels,
            state,
            Key(item),
            Frequency::CEILING,
        );
        done += done_once(answer);
    }
    done
}

// Lets go each key that is bound.
pub fn remove_batch(
    guests: &mut Guests<&mut [u64]>,
    epochs: &mut [u64],
    levels: &mut Levels<&mut [u64]>,
    state: &mut State,
    items: &[u64],
) -> u64
    requires { Sound kind.buckets (lent guests.old epochs.old levels.old) state.old }
    ensures same { Same guests.old guests.new levels.old levels.new }
    ensures does { Does kind.buckets (ledger.remove_batch items.now)
        (lent guests.old epochs.old levels.old) state.old (number_reply (Ok result))
        (lent guests.new epochs.new levels.new) state.new }
{
    let mut done: u64 = 0;
    for &item in items {
        let answer = remove(guests, epochs, levels, state, Key(item));
        done += done_once(answer);
    }
    done
}
