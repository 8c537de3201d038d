// Steps on tables that are known to be sound: they check nothing.
ghost use Rattle.buckets_tables.specs.Slices.{lent, Same};
ghost use Rattle.cache_tables.specs.Steps.{Replaceable, Replaces};

use buckets_tables::sound::{bind, let_go};
use buckets_tables::{Guests, State};
use levels::Levels;
use numbers::{Key, Slot};

// Lets go the key in a bound slot where no slot is free, and binds another key there, at frequency 1.
pub fn replace(
    guests: &mut Guests<&mut [u64]>,
    epochs: &mut [u64],
    levels: &mut Levels<&mut [u64]>,
    state: &mut State,
    slot: Slot,
    key: Key,
)
    requires { Replaceable (lent guests.old epochs.old levels.old) state.old slot.0 key.0 }
    ensures same { Same guests.old guests.new levels.old levels.new }
    ensures does { Replaces (lent guests.old epochs.old levels.old) state.old slot.0 key.0 (lent guests.new epochs.new levels.new) state.new }
{
    let_go(guests, epochs, levels, state, slot);
    bind(guests, epochs, levels, state, key);
}
