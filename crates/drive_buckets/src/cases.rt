// The operations that are not about one key: on every key, on epochs, and those that only answer. Each function has those of its kind, and
// sends the others on.
ghost use Rattle.ledger.specs.BucketCalls.{Clear};
ghost use Rattle.levels.specs.Held.{tabs};
ghost use Rattle.levels.specs.Slices.{SameLevels};
ghost use Rattle.buckets_tables.specs.Slices.{counted, joined, lent, lent_guests, shown, Same, SameGuests};
ghost use Rattle.drive_buckets.specs.Operations.{query_call, epoch_call, decay_call, whole_call, DrivesBuckets, ShowsBuckets};

use buckets_tables::{GuestTables, Guests, State};
use drive_lines::{Told, tell};
use frequency_buckets_decay::{decay_halve, decay_halve_times, rebase_min_freq};
use frequency_buckets_epochs::{advance_epoch, set_entry_epoch, set_epoch};
use frequency_buckets_make::clear;
use frequency_buckets_queries::{
    bucket_len, contains, current_epoch, entry_epoch, frequency, is_empty, len, len_up_to,
    min_freq, peek_min,
};
use levels::{LevelTables, Levels};
use numbers::{Frequency, Key};
use trace::Word;

// 6 to 9, 11, 14 to 16, 24 and 25: the operations that only answer. Any other is BAD.
pub(crate) fn asks(
    guests: &Guests<&[u64]>,
    epochs: &[u64],
    levels: &Levels<&[u64]>,
    state: State,
    code: u8,
    a: u64,
) -> Told
    ensures { DrivesBuckets (query_call code a)
        (shown guests.now epochs.now levels.now) state result
        (shown guests.now epochs.now levels.now) state }
{
    match code {
        6 => tell(peek_min(guests, epochs, levels, state)),
        7 => tell(min_freq(guests, epochs, levels, state)),
        8 => tell(frequency(guests, epochs, levels, state, Key(a))),
        9 => tell(entry_epoch(guests, epochs, levels, state, Key(a))),
        11 => tell(current_epoch(guests, epochs, levels, state)),
        14 => tell(len(guests, epochs, levels, state)),
        15 => tell(is_empty(guests, epochs, levels, state)),
        16 => tell(contains(guests, epochs, levels, state, Key(a))),
        24 => tell(bucket_len(guests, epochs, levels, state, Frequency(a))),
        25 => tell(len_up_to(guests, epochs, levels, state, Frequency(a))),
        _ => Told::Just(Word::Bad),
    }
}

// 10, 12 and 13: the operations that set an epoch.
pub(crate) fn dates(
    guests: &Guests<&[u64]>,
    epochs: &mut [u64],
    levels: &Levels<&[u64]>,
    state: &mut State,
    code: u8,
    a: u64,
    b: u64,
) -> Told
    ensures { DrivesBuckets (epoch_call code a b)
        (shown guests.now epochs.old levels.now) state.old result
        (shown guests.now epochs.new levels.now) state.new }
{
    match code {
        10 => tell(set_entry_epoch(guests, epochs, levels, *state, Key(a), b)),
        12 => tell(set_epoch(guests, &epochs[..], levels, state, a)),
        13 => tell(advance_epoch(guests, &epochs[..], levels, state)),
        _ => asks(guests, &epochs[..], levels, *state, code, a),
    }
}

// 17, 18 and 22: the operations that give every key another frequency.
pub(crate) fn decays(
    guests: &Guests<&[u64]>,
    epochs: &mut [u64],
    levels: &mut Levels<&mut [u64]>,
    state: &mut State,
    code: u8,
    a: u64,
    b: u64,
) -> Told
    ensures same { SameLevels levels.old levels.new }
    ensures does { DrivesBuckets (decay_call code a b)
        (counted guests.now epochs.old levels.old) state.old result
        (counted guests.now epochs.new levels.new) state.new }
{
    match code {
        17 => tell(decay_halve(guests, &epochs[..], levels, state)),
        18 => tell(rebase_min_freq(guests, &epochs[..], levels, state)),
        22 => tell(decay_halve_times(guests, &epochs[..], levels, state, a)),
        _ => dates(guests, epochs, &levels.shown(), state, code, a, b),
    }
}

// 19. The bucket records are read only; they are lent for writing, as all tables of a `Levels` are that is itself lent so.
fn clears(
    guests: &mut Guests<&mut [u64]>,
    epochs: &mut [u64],
    freqs: &mut [u64],
    prevs: &mut [u64],
    nexts: &mut [u64],
    buckets: &mut [u64],
    spares: &mut [u64],
    state: &mut State,
) -> Told
    ensures same { SameGuests guests.old guests.new }
    ensures does { ShowsBuckets Clear
        (joined (lent_guests guests.old) epochs.old (tabs freqs.old prevs.old nexts.old buckets.old spares.old)) state.old result
        (joined (lent_guests guests.new) epochs.new (tabs freqs.new prevs.new nexts.new buckets.new spares.new)) state.new }
{
    tell(clear(
        guests,
        epochs,
        freqs,
        prevs,
        nexts,
        &buckets[..],
        spares,
        state,
    ))
}

// 19, and the other operations but those on one key.
pub(crate) fn whole(
    guests: &mut Guests<&mut [u64]>,
    epochs: &mut [u64],
    levels: &mut Levels<&mut [u64]>,
    state: &mut State,
    code: u8,
    a: u64,
    b: u64,
) -> Told
    ensures same { Same guests.old guests.new levels.old levels.new }
    ensures does { DrivesBuckets (whole_call code a b)
        (lent guests.old epochs.old levels.old) state.old result
        (lent guests.new epochs.new levels.new) state.new }
{
    match code {
        19 => clears(
            guests,
            epochs,
            levels.freqs,
            levels.prevs,
            levels.nexts,
            levels.buckets,
            levels.spares,
            state,
        ),
        _ => decays(&guests.shown(), epochs, levels, state, code, a, b),
    }
}
