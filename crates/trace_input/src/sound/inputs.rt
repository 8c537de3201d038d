// A whole input that lies in a buffer, on tables of its own.
ghost use Rattle.std.specs.Prelude.{◌+◌, ◌*◌, ◌≤◌, ◌<◌, length};
ghost use Rattle.ledger.specs.Cache.{new_cache};
ghost use Rattle.cache_tables.specs.Slices.{lent};
ghost use Rattle.trace.specs.Ends.{PART};
ghost use Rattle.trace.specs.Lines.{LONGEST};
ghost use Rattle.trace.specs.Output.{output, SLOTS};
ghost use Rattle.trace_input.specs.Feeding.{PRINT, Sizes};
ghost use Rattle.trace_input.specs.Parts.{part_output, InputShows};

use crate::sound::part;
use bucket_table::WORDS;
use buckets_tables::Guests;
use levels::Levels;
use lfu_make::sound::make;
use trace::Line;
use trace::input::{HEADER, header};
use trace::sound::write;

// Some records on tables of a capacity, which may have held anything.
fn afresh(
    guests: &mut Guests<&mut [u64]>,
    epochs: &mut [u64],
    levels: &mut Levels<&mut [u64]>,
    values: &mut [u64],
    capacity: u64,
    records: &[u8],
    out: &mut [u8],
) -> usize
    requires { Sizes (lent guests.old epochs.old levels.old values.old) capacity × (length records.now * PRINT + LONGEST ≤ length out.old) }
    ensures { InputShows (part_output (new_cache capacity) records.now) out.new result }
{
    let mut state = make(
        guests,
        epochs,
        levels.freqs,
        levels.prevs,
        levels.nexts,
        levels.spares,
        values,
        capacity,
    );
    part(
        guests,
        epochs,
        levels,
        values,
        &mut state,
        records,
        records.len(),
        out,
    )
}

// The tables hold 256 slots; the first places, as many as the capacity calls for, are lent.
fn start(capacity: usize, records: &[u8], out: &mut [u8]) -> usize
    requires { (capacity ≤ SLOTS) × (length records.now * PRINT + LONGEST ≤ length out.old) }
    ensures { InputShows (part_output (new_cache capacity) records.now) out.new result }
{
    let mut keys = [0u64; 256];
    let mut freqs = [0u64; 256];
    let mut epochs = [0u64; 256];
    let mut prevs = [0u64; 256];
    let mut nexts = [0u64; 256];
    let mut arena = [0u64; 256];
    let mut index = [0u64; 512];
    let mut buckets = [0u64; 1792];
    let mut spares = [0u64; 256];
    let mut values = [0u64; 256];
    let mut guests = Guests {
        keys: &mut keys[..capacity],
        arena: &mut arena[..capacity],
        index: &mut index[..capacity + capacity],
    };
    let mut levels = Levels {
        freqs: &mut freqs[..capacity],
        prevs: &mut prevs[..capacity],
        nexts: &mut nexts[..capacity],
        buckets: &mut buckets[..capacity * WORDS as usize],
        spares: &mut spares[..capacity],
    };
    afresh(
        &mut guests,
        &mut epochs[..capacity],
        &mut levels,
        &mut values[..capacity],
        capacity as u64,
        records,
        out,
    )
}

// Prints a whole input that is shorter than a full part.
pub fn whole(input: &[u8], out: &mut [u8]) -> usize
    requires { (length input.now < PART) × (length input.now * PRINT + LONGEST ≤ length out.old) }
    ensures { InputShows (output input.now) out.new result }
{
    match header(input) {
        Ok(capacity) => start(capacity, &input[HEADER..], out),
        Err(word) => write(out, 0, Line::Plain(word)),
    }
}
