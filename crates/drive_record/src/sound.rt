// One record of `drive`, by its operation. The keys and values of a batch are put into a table of their own, which is known to have a place
// for each slot that there can be.
ghost use Rattle.std.specs.Prelude.{◌≡◌, ◌+◌, ◌≤◌, length};
ghost use Rattle.numbers.specs.Marks.{LIMIT};
ghost use Rattle.buckets_tables.specs.Slices.{Same};
ghost use Rattle.cache_tables.specs.Slices.{lent};
ghost use Rattle.drive_walk.specs.Walk.{WALK};
ghost use Rattle.drive_record.specs.Operations.{Acts, operation_of, batch_of};
ghost use Rattle.drive_record.specs.Steps.{DriveSteps};

use crate::surplus;
use buckets_tables::{GuestTables, Guests, State};
use drive_buckets::batches;
use drive_buckets::batches::fill;
use drive_damage::{set_field, store};
use drive_lines::Told;
use drive_lines::sound::write;
use drive_walk::sound::walk;
use levels::{LevelTables, Levels};
use numbers::LIMIT;
use trace::Word;

// A batch of at most as many keys, and as many values, as there can be slots. A key is its own value.
fn batch(
    guests: &mut Guests<&mut [u64]>,
    epochs: &mut [u64],
    levels: &mut Levels<&mut [u64]>,
    values: &mut [u64],
    items: &mut [u64],
    state: &mut State,
    code: u8,
    a: u64,
    b: u64,
) -> Told
    requires { length items.old ≡ LIMIT }
    ensures same { Same guests.old guests.new levels.old levels.new }
    ensures does { Acts (batch_of code a b) a b
        (lent guests.old epochs.old levels.old values.old) state.old result
        (lent guests.new epochs.new levels.new values.new) state.new }
{
    let more = surplus(code);
    if b > LIMIT - more {
        return Told::Just(Word::Bad);
    }
    let many = b as usize;
    let count = many + more as usize;
    fill(&mut items[..count], a);
    let given = &items[..count];
    let keys = &given[..many];
    if code < 63 {
        return batches::batch(guests, epochs, levels, state, keys, code);
    }
    drive_cache::batch(guests, epochs, levels, values, state, keys, given, code)
}

// One record but a walk.
pub fn act(
    guests: &mut Guests<&mut [u64]>,
    epochs: &mut [u64],
    levels: &mut Levels<&mut [u64]>,
    values: &mut [u64],
    items: &mut [u64],
    state: &mut State,
    code: u8,
    a: u64,
    b: u64,
) -> Told
    requires { length items.old ≡ LIMIT }
    ensures same { Same guests.old guests.new levels.old levels.new }
    ensures does { Acts (operation_of code a b) a b
        (lent guests.old epochs.old levels.old values.old) state.old result
        (lent guests.new epochs.new levels.new values.new) state.new }
{
    if code == 21 {
        return drive_buckets::check(guests, &epochs[..], levels, *state);
    }
    if code == 30 {
        return Told::Just(store(guests, epochs, levels, values, a, b));
    }
    if code == 31 {
        return Told::Just(set_field(state, a, b));
    }
    if code < 40 {
        return drive_buckets::act(guests, epochs, levels, state, code, a, b);
    }
    if code < 60 {
        return drive_cache::act(guests, epochs, levels, values, state, code, a, b);
    }
    batch(guests, epochs, levels, values, items, state, code, a, b)
}

// One record: its line is written from a place on, where the buffer has room for the longest line. The answer is the place after it.
pub fn step(
    guests: &mut Guests<&mut [u64]>,
    epochs: &mut [u64],
    levels: &mut Levels<&mut [u64]>,
    values: &mut [u64],
    items: &mut [u64],
    state: &mut State,
    code: u8,
    a: u64,
    b: u64,
    out: &mut [u8],
    at: usize,
) -> usize
    requires { (length items.old ≡ LIMIT) × (at + WALK ≤ length out.old) }
    ensures same { Same guests.old guests.new levels.old levels.new }
    ensures does { DriveSteps code a b
        (lent guests.old epochs.old levels.old values.old) state.old out.old at
        (lent guests.new epochs.new levels.new values.new) state.new out.new result }
{
    if code == 20 {
        return walk(
            &guests.shown(),
            &epochs[..],
            &levels.shown(),
            *state,
            a,
            out,
            at,
        );
    }
    let told = act(guests, epochs, levels, values, items, state, code, a, b);
    write(out, at, told)
}
