// The batches of `drive`: the keys of one, and the operations that take them.
ghost use Rattle.std.specs.Prelude.{◌≡◌, length};
ghost use Rattle.buckets_tables.specs.Slices.{lent, Same};
ghost use Rattle.drive_buckets.specs.Operations.{batch_call, keys_from, DrivesBuckets};

use buckets_tables::{GuestTables, Guests, State};
use drive_lines::{Told, tell};
use frequency_buckets_batches::{insert_batch, remove_batch, touch_batch};
use levels::Levels;
use trace::Word;

// The keys of a batch: the first, the one after it and so on; 0 comes after the largest.
pub fn fill(items: &mut [u64], first: u64)
    ensures { items.new ≡ keys_from first (length items.old) }
{
    let mut key = first;
    for item in items.iter_mut() {
        *item = key;
        key = key.wrapping_add(1);
    }
}

// One record whose operation takes a batch: 60 to 62. Any other is BAD.
pub fn batch(
    guests: &mut Guests<&mut [u64]>,
    epochs: &mut [u64],
    levels: &mut Levels<&mut [u64]>,
    state: &mut State,
    items: &[u64],
    code: u8,
) -> Told
    ensures same { Same guests.old guests.new levels.old levels.new }
    ensures does { DrivesBuckets (batch_call code items.now)
        (lent guests.old epochs.old levels.old) state.old result
        (lent guests.new epochs.new levels.new) state.new }
{
    match code {
        60 => tell(insert_batch(guests, epochs, levels, state, items)),
        61 => tell(touch_batch(&guests.shown(), epochs, levels, state, items)),
        62 => tell(remove_batch(guests, epochs, levels, state, items)),
        _ => Told::Just(Word::Bad),
    }
}
