// Making the tables of the cache where their lengths are known to fit.
ghost use Rattle.std.specs.Prelude.{◌≡◌, length};
ghost use Rattle.buckets_tables.specs.Calls.{Fitting};
ghost use Rattle.buckets_tables.specs.Slices.{lent_guests, SameGuests};
ghost use Rattle.lfu_make.specs.Calls.{CacheCleared};

use buckets_tables::{Guests, State};

// Makes the tables of a capacity with no key bound. The table of the bucket records may hold anything, and is not lent: so no `Levels`.
pub fn make(
    guests: &mut Guests<&mut [u64]>,
    epochs: &mut [u64],
    freqs: &mut [u64],
    prevs: &mut [u64],
    nexts: &mut [u64],
    spares: &mut [u64],
    values: &mut [u64],
    capacity: u64,
) -> State
    requires { Fitting (lent_guests guests.old) epochs.old freqs.old prevs.old nexts.old spares.old capacity × (length values.old ≡ capacity) }
    ensures same { SameGuests guests.old guests.new }
    ensures does { CacheCleared (lent_guests guests.new) epochs.new freqs.new prevs.new nexts.new spares.new values.new capacity result }
{
    buckets_tables::sound::wipe(values);
    buckets_tables::sound::make(guests, epochs, freqs, prevs, nexts, spares, capacity)
}
