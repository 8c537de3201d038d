// What a caller lends for the frequency buckets: nine tables, which are those of the guests, the epochs and those of the levels; and a
// small state beside them.
#![tactic(auto)]

ghost use Rattle.std.specs.Prelude.{◌≡◌, List, ℕ};
ghost use Rattle.buckets_tables.specs.declared.Guests.{Guests};
ghost use Rattle.buckets_tables.specs.Calls.{recounted, dated, next_epoch};
ghost use Rattle.buckets_tables.specs.Slices.{lent_guests, shown_guests};

use bucket_table::Buckets;
use numbers::Frequency;
use slot_arena::Order;

pub mod sound;

// The tables that say who is bound where, lent for writing or for reading: each slot's key, the free slots in their order, and the way
// from a key to its slot.
#[derive(Drop)]
pub struct Guests<T> {
    pub keys: T,
    pub arena: T,
    pub index: T,
}

// Tables of guests that can be read, however they are lent.
pub trait GuestTables {
    // What they have.
    ghost lists: { Self → Guests (List ℕ) };

    // The same tables for reading.
    fn shown(&self) -> Guests<&[u64]>
        ensures { shown_guests result ≡ lists self.now };
}

impl GuestTables for Guests<&mut [u64]> {
    ghost lists = { lent_guests };

    fn shown(&self) -> Guests<&[u64]> {
        Guests {
            keys: &self.keys[..],
            arena: &self.arena[..],
            index: &self.index[..],
        }
    }
}

impl GuestTables for Guests<&[u64]> {
    ghost lists = { shown_guests };

    fn shown(&self) -> Guests<&[u64]> {
        Guests {
            keys: self.keys,
            arena: self.arena,
            index: self.index,
        }
    }
}

// The capacity, how many keys are bound, the lowest frequency in use (0 where no key is bound), the epoch, where the free order
// begins and ends, and where the bucket records do.
#[derive(Clone, Copy)]
pub struct State {
    pub capacity: u64,
    pub count: u64,
    pub lowest: u64,
    pub epoch: u64,
    pub free: Order,
    pub buckets: Buckets,
}

impl State {
    // Another count of keys, and another lowest frequency.
    pub fn recount(&mut self, count: u64, lowest: Frequency)
        ensures { self.new ≡ recounted self.old count lowest.0 self.old.free self.old.buckets }
    {
        self.count = count;
        self.lowest = lowest.0;
    }

    // The state at another epoch.
    pub fn date(&mut self, epoch: u64)
        ensures { self.new ≡ dated self.old epoch }
    {
        self.epoch = epoch;
    }

    // The state at the next epoch; 0 comes after the largest.
    pub fn advance(&mut self)
        ensures { self.new ≡ dated self.old (next_epoch self.old.epoch) }
    {
        self.epoch = self.epoch.wrapping_add(1);
    }
}
