// The cache's operations of `drive`: each is one public call, or the check that they all make, and what is told of its answer.
#![tactic(auto)]

ghost use Rattle.ledger.specs.History.{Clear};
ghost use Rattle.levels.specs.Held.{tabs};
ghost use Rattle.buckets_tables.specs.Slices.{joined, lent_guests, Same, SameGuests};
ghost use Rattle.cache_tables.specs.Tables.{with_values};
ghost use Rattle.cache_tables.specs.Slices.{lent, shown};
ghost use Rattle.drive_cache.specs.Operations.{question, cache_call, batch_call, Single, DrivesCache};

use buckets_tables::{GuestTables, Guests, State};
use cache_check::check;
use drive_lines::{Told, tell, tell_insertion};
use levels::{LevelTables, Levels};
use lfu::{evict_min_freq, get, insert, remove, reset_frequency};
use lfu_batches::{insert_batch, remove_batch, touch_batch};
use lfu_make::clear;
use lfu_queries::{len, peek, peek_lfu};
use numbers::Key;
use trace::Word;

// The operations that only answer; any other is BAD.
pub fn asks(
    guests: &Guests<&[u64]>,
    epochs: &[u64],
    levels: &Levels<&[u64]>,
    values: &[u64],
    state: State,
    code: u8,
    a: u64,
) -> Told
    ensures { DrivesCache (question code a)
        (shown guests.now epochs.now levels.now values.now) state result
        (shown guests.now epochs.now levels.now values.now) state }
{
    match code {
        42 => tell(peek(guests, epochs, levels, values, state, Key(a))),
        45 => tell(peek_lfu(guests, epochs, levels, values, state)),
        48 => tell(len(guests, epochs, levels, values, state)),
        49 => tell(check(guests, epochs, levels, values, state)),
        _ => Told::Just(Word::Bad),
    }
}

// 44. The bucket records are read only; they are lent for writing, as all tables of a `Levels` are that is itself lent so.
fn clears(
    guests: &mut Guests<&mut [u64]>,
    epochs: &mut [u64],
    freqs: &mut [u64],
    prevs: &mut [u64],
    nexts: &mut [u64],
    buckets: &mut [u64],
    spares: &mut [u64],
    values: &mut [u64],
    state: &mut State,
) -> Told
    ensures same { SameGuests guests.old guests.new }
    ensures does { DrivesCache (Single Clear)
        (with_values (joined (lent_guests guests.old) epochs.old (tabs freqs.old prevs.old nexts.old buckets.old spares.old)) values.old) state.old result
        (with_values (joined (lent_guests guests.new) epochs.new (tabs freqs.new prevs.new nexts.new buckets.new spares.new)) values.new) state.new }
{
    tell(clear(
        guests,
        epochs,
        freqs,
        prevs,
        nexts,
        &buckets[..],
        spares,
        values,
        state,
    ))
}

// One operation on a key, or on the whole cache.
pub fn act(
    guests: &mut Guests<&mut [u64]>,
    epochs: &mut [u64],
    levels: &mut Levels<&mut [u64]>,
    values: &mut [u64],
    state: &mut State,
    code: u8,
    a: u64,
    b: u64,
) -> Told
    ensures same { Same guests.old guests.new levels.old levels.new }
    ensures does { DrivesCache (cache_call code a b)
        (lent guests.old epochs.old levels.old values.old) state.old result
        (lent guests.new epochs.new levels.new values.new) state.new }
{
    match code {
        40 => tell_insertion(insert(guests, epochs, levels, values, state, Key(a), b)),
        41 => tell(get(&guests.shown(), epochs, levels, &values[..], state, Key(a))),
        43 => tell(remove(guests, epochs, levels, values, state, Key(a))),
        44 => clears(
            guests,
            epochs,
            levels.freqs,
            levels.prevs,
            levels.nexts,
            levels.buckets,
            levels.spares,
            values,
            state,
        ),
        46 => tell(evict_min_freq(guests, epochs, levels, values, state)),
        47 => tell(reset_frequency(&guests.shown(), epochs, levels, &values[..], state, Key(a))),
        _ => asks(
            &guests.shown(),
            &epochs[..],
            &levels.shown(),
            &values[..],
            *state,
            code,
            a,
        ),
    }
}

// One operation on several keys; an insert is given values too.
pub fn batch(
    guests: &mut Guests<&mut [u64]>,
    epochs: &mut [u64],
    levels: &mut Levels<&mut [u64]>,
    values: &mut [u64],
    state: &mut State,
    items: &[u64],
    given: &[u64],
    code: u8,
) -> Told
    ensures same { Same guests.old guests.new levels.old levels.new }
    ensures does { DrivesCache (batch_call code items.now given.now)
        (lent guests.old epochs.old levels.old values.old) state.old result
        (lent guests.new epochs.new levels.new values.new) state.new }
{
    match code {
        63 | 66 => tell(insert_batch(guests, epochs, levels, values, state, items, given)),
        64 => tell(remove_batch(guests, epochs, levels, values, state, items)),
        65 => tell(touch_batch(&guests.shown(), epochs, levels, &values[..], state, items)),
        _ => Told::Just(Word::Bad),
    }
}
