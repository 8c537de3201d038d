// The turns of a replay on tables that are known to be sound: a part of the input is read, carried out, and what it prints is written.
ghost use Rattle.std.specs.Prelude.{◌≤◌};
ghost use Rattle.promise.specs.Promise.{Sound};
ghost use Rattle.buckets_tables.specs.Slices.{Same};
ghost use Rattle.cache_tables.specs.Slices.{lent};
ghost use Rattle.cache_tables.specs.Lent.{cache};
ghost use Rattle.trace.specs.Output.{SLOTS};
ghost use Rattle.trace_input.specs.Feeding.{Sizes};
ghost use Rattle.trace_input.specs.Parts.{PartBuffers};
ghost use Rattle.replay.specs.Turns.{ReplayTurns};

use crate::Turned;
use bucket_table::WORDS;
use buckets_tables::{Guests, State};
use levels::Levels;
use lfu_make::sound::make;
use trace::input::{PART, goes_on};
use trace_input::sound::part;

// Reads a part of the input, carries out its records, and writes what they print.
fn turn(
    guests: &mut Guests<&mut [u64]>,
    epochs: &mut [u64],
    levels: &mut Levels<&mut [u64]>,
    values: &mut [u64],
    state: &mut State,
    from: i32,
    input: &mut [u8],
    out: &mut [u8],
) -> Turned
    requires { Sound cache (lent guests.old epochs.old levels.old values.old) state.old × PartBuffers input.old out.old }
    ensures same { Same guests.old guests.new levels.old levels.new }
    ensures does { ReplayTurns (lent guests.old epochs.old levels.old values.old) state.old input.new
        (lent guests.new epochs.new levels.new values.new) state.new out.new result }
{
    let read = io::read_full(from, &mut input[..PART]);
    let at = part(guests, epochs, levels, values, state, &input[..], read, out);
    let written = io::write_all(1, &out[..at]);
    Turned {
        more: goes_on(written, read),
        written,
        read,
        at,
    }
}

// Replays the records of an input on tables of a capacity, which may have held anything. What a read gives is not known, so the turns are
// counted, up to a number that no run comes to.
fn run(
    guests: &mut Guests<&mut [u64]>,
    epochs: &mut [u64],
    levels: &mut Levels<&mut [u64]>,
    values: &mut [u64],
    capacity: u64,
    from: i32,
    input: &mut [u8],
    out: &mut [u8],
)
    requires { Sizes (lent guests.old epochs.old levels.old values.old) capacity × PartBuffers input.old out.old }
{
    let mut state = make(
        guests,
        epochs,
        levels.freqs,
        levels.prevs,
        levels.nexts,
        levels.spares,
        values,
        capacity,
    );
    for _ in 0..u64::MAX {
        let turned = turn(guests, epochs, levels, values, &mut state, from, input, out);
        if !turned.more {
            break;
        }
    }
}

// The tables hold 256 slots; the first places, as many as the capacity calls for, are lent.
pub fn start(from: i32, capacity: usize)
    requires { capacity ≤ SLOTS }
{
    let mut keys = [0u64; 256];
    let mut freqs = [0u64; 256];
    let mut epochs = [0u64; 256];
    let mut prevs = [0u64; 256];
    let mut nexts = [0u64; 256];
    let mut arena = [0u64; 256];
    let mut index = [0u64; 512];
    let mut buckets = [0u64; 1792];
    let mut spares = [0u64; 256];
    let mut values = [0u64; 256];
    let mut guests = Guests {
        keys: &mut keys[..capacity],
        arena: &mut arena[..capacity],
        index: &mut index[..capacity + capacity],
    };
    let mut levels = Levels {
        freqs: &mut freqs[..capacity],
        prevs: &mut prevs[..capacity],
        nexts: &mut nexts[..capacity],
        buckets: &mut buckets[..capacity * WORDS as usize],
        spares: &mut spares[..capacity],
    };
    run(
        &mut guests,
        &mut epochs[..capacity],
        &mut levels,
        &mut values[..capacity],
        capacity as u64,
        from,
        &mut io::large_buffer(),
        &mut io::large_buffer(),
    )
}
