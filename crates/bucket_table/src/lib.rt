// The bucket table: one record for each frequency in use, linked to the next lower and the next higher one, with the ends of its list of
// slots and how many they are; and for each slot the record that it is in. All of it lies in one lent table, WORDS words for each record.
// Records that are not in use are kept by a slot arena over a second table.
#![tactic(auto)]

ghost use Rattle.std.specs.Prelude.{◌≡◌, true, ◌↔◌};
ghost use Rattle.bucket_table.specs.Check.{RecordOk, RecordsWalk, RecordsSized};
ghost use Rattle.bucket_table.specs.Records.{RecordsSound};

use numbers::{NONE, Slot};

pub mod sound;

// How many words a record has: its frequency, the next lower and the next higher record, head and tail of its list, how many slots the list
// has, and the record of the slot that has this record's number.
pub const WORDS: u64 = 7;

// The lowest and the highest record, NONE where there is none, and the order of the spare ones.
#[derive(Clone, Copy)]
pub struct Buckets {
    pub bottom: u64,
    pub top: u64,
    pub spare: slot_arena::Order,
}

// Whether a record is in use, leads back to `at`, and has a frequency above `low`.
fn record_ok(buckets: &[u64], spares: &[u64], low: u64, at: u64, number: u64) -> bool
    requires { RecordsSized buckets.now spares.now }
    ensures { (result ≡ true) ↔ RecordOk buckets.now spares.now low at number }
{
    slot_arena::in_use(spares, Slot(number))
        && sound::below(buckets, number) == at
        && low < sound::frequency(buckets, number).0
}

// Walks the records, of which there are to be as many as the arena has slots in use.
fn walk(buckets: &[u64], spares: &[u64], state: Buckets, used: u64) -> bool
    requires { RecordsSized buckets.now spares.now }
    ensures { RecordsWalk buckets.now spares.now state used result }
{
    let mut number = state.bottom;
    let mut at = NONE;
    let mut low = 0;
    let mut left = used;
    // A `while`, since it follows links: no range and no iterator has the places.
    while number != NONE {
        if left == 0 || !record_ok(buckets, spares, low, at, number) {
            return false;
        }
        low = sound::frequency(buckets, number).0;
        at = number;
        number = sound::above(buckets, state, at);
        left -= 1;
    }
    left == 0 && state.top == at
}

// Whether the tables hold records. Linear in the tables' length.
pub fn is_sound(buckets: &[u64], spares: &[u64], state: Buckets) -> bool
    ensures { (result ≡ true) ↔ RecordsSound buckets.now spares.now state }
{
    slot_arena::is_sound(spares, state.spare)
        && buckets.len() as u64 == spares.len() as u64 * WORDS
        && walk(buckets, spares, state, slot_arena::count_used(spares))
}
