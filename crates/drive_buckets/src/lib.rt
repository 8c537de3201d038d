// The operations of `drive` on the frequency buckets, each a public call and the line of its answer.
#![tactic(auto)]

ghost use Rattle.buckets_tables.specs.Slices.{joined, lent, Same};
ghost use Rattle.buckets_tables.specs.Lent.{buckets};
ghost use Rattle.drive_lines.specs.Driving.{Reports};
ghost use Rattle.drive_buckets.specs.Operations.{bucket_call, DrivesBuckets};

use buckets_tables::{GuestTables, Guests, State};
use cases::whole;
use drive_lines::{Told, tell};
use frequency_buckets::{insert, pop_min, remove, touch};
use levels::{LevelTables, Levels};
use numbers::{Frequency, Key};

pub mod batches;
pub mod cases;

// One record, by its operation: 1 to 19, 22, 24 and 25. Any other is BAD.
pub fn act(
    guests: &mut Guests<&mut [u64]>,
    epochs: &mut [u64],
    levels: &mut Levels<&mut [u64]>,
    state: &mut State,
    code: u8,
    a: u64,
    b: u64,
) -> Told
    ensures same { Same guests.old guests.new levels.old levels.new }
    ensures does { DrivesBuckets (bucket_call code a b)
        (lent guests.old epochs.old levels.old) state.old result
        (lent guests.new epochs.new levels.new) state.new }
{
    match code {
        1 => tell(insert(guests, epochs, levels, state, Key(a))),
        2 => tell(touch(
            &guests.shown(),
            epochs,
            levels,
            state,
            Key(a),
            Frequency::CEILING,
        )),
        3 => tell(touch(&guests.shown(), epochs, levels, state, Key(a), Frequency(b))),
        4 => tell(remove(guests, epochs, levels, state, Key(a))),
        5 => tell(pop_min(guests, epochs, levels, state)),
        _ => whole(guests, epochs, levels, state, code, a, b),
    }
}

// 21: the check that every call makes first. DONE is 0; a refusal is its number.
pub fn check<G: GuestTables, L: LevelTables>(
    guests: &G,
    epochs: &[u64],
    levels: &L,
    state: State,
) -> Told
    ensures { Reports buckets (joined (G.lists guests.now) epochs.now (L.lists levels.now)) state result }
{
    tell(buckets_check::check(guests, epochs, levels, state))
}
