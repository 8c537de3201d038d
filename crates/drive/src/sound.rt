// The turns of `drive`, on buffers of known lengths, from the descriptor `source`. The tables may hold anything: every call checks.
ghost use Rattle.std.specs.Prelude.{◌≡◌, ◌≤◌, length};
ghost use Rattle.numbers.specs.Marks.{LIMIT};
ghost use Rattle.buckets_tables.specs.Slices.{Same};
ghost use Rattle.cache_tables.specs.Slices.{lent};
ghost use Rattle.drive.specs.Turns.{DRIVE_PART as FULL, DriveFeeds, DriveTurns, DriveBuffers};

use crate::{Fed, LAST, PART, Turned, last_line, say};
use bucket_table::WORDS;
use buckets_tables::{Guests, State};
use drive_lines::Told;
use drive_record::sound::step;
use levels::Levels;
use numbers::Refusal;
use trace::input::RECORD;
use trace_input::sound::number;

// The output buffer.
fn room() -> [u8; 524288]
    ensures { 524288 ≡ length result }
{
    [0; 524288]
}

// Carries out whole records of a part of the input, from a place on, while there is room to print them.
fn feed(
    guests: &mut Guests<&mut [u64]>,
    epochs: &mut [u64],
    levels: &mut Levels<&mut [u64]>,
    values: &mut [u64],
    items: &mut [u64],
    state: &mut State,
    input: &[u8],
    from: usize,
    end: usize,
    out: &mut [u8],
) -> Fed
    requires { DriveBuffers items.old input.now from end out.old }
    ensures same { Same guests.old guests.new levels.old levels.new }
    ensures does { DriveFeeds input.now from end
        (lent guests.old epochs.old levels.old values.old) state.old
        (lent guests.new epochs.new levels.new values.new) state.new out.new result }
{
    let mut at: usize = 0;
    let mut next = from;
    // A `while` and not `chunks_exact`, since it also stops where the buffer is full, and answers where the next record begins.
    while end - next >= RECORD && at <= LAST {
        let a = number(input, next + 1);
        let b = number(input, next + 9);
        at = step(
            guests,
            epochs,
            levels,
            values,
            items,
            state,
            input[next],
            a,
            b,
            out,
            at,
        );
        next += RECORD;
    }
    Fed { at, next }
}

// Where less than a record is left: reads on, or prints the last line where there is no more.
fn onward(input: &mut [u8], from: usize, end: usize, source: i32) -> Turned
    requires { (from ≤ end) × (end ≤ FULL) × (FULL ≤ length input.old) }
    ensures { (result.next ≤ result.end) × (result.end ≤ FULL) }
{
    if end < PART {
        say(last_line(end - from));
        return Turned {
            more: false,
            at: 0,
            end,
            next: from,
        };
    }
    Turned {
        more: true,
        at: 0,
        end: io::read_full(source, &mut input[..PART]),
        next: 0,
    }
}

// Carries out what was read, and prints it; where less than a record is left, goes on with the input.
fn turn(
    guests: &mut Guests<&mut [u64]>,
    epochs: &mut [u64],
    levels: &mut Levels<&mut [u64]>,
    values: &mut [u64],
    items: &mut [u64],
    state: &mut State,
    input: &mut [u8],
    from: usize,
    end: usize,
    out: &mut [u8],
    source: i32,
) -> Turned
    requires { DriveBuffers items.old input.old from end out.old }
    ensures same { Same guests.old guests.new levels.old levels.new }
    ensures does { DriveTurns input.old from end
        (lent guests.old epochs.old levels.old values.old) state.old items.new input.new
        (lent guests.new epochs.new levels.new values.new) state.new out.new result }
{
    if end - from < RECORD {
        return onward(input, from, end, source);
    }
    let fed = feed(
        guests,
        epochs,
        levels,
        values,
        items,
        state,
        &input[..],
        from,
        end,
        out,
    );
    let at = fed.at;
    Turned {
        more: io::write_all(1, &out[..at]),
        at,
        end,
        next: fed.next,
    }
}

// Turns, on tables that are lent. What a read gives is not known, so the turns are counted, up to a number that no run comes to. It begins as
// if a part had been read and carried out.
fn run(
    guests: &mut Guests<&mut [u64]>,
    epochs: &mut [u64],
    levels: &mut Levels<&mut [u64]>,
    values: &mut [u64],
    state: &mut State,
    source: i32,
) {
    let mut items = [0u64; 4096];
    let mut input = io::large_buffer();
    let mut out = room();
    let mut next = PART;
    let mut end = PART;
    for _ in 0..u64::MAX {
        let turned = turn(
            guests, epochs, levels, values, &mut items, state, &mut input, next, end, &mut out,
            source,
        );
        if !turned.more {
            break;
        }
        next = turned.next;
        end = turned.end;
    }
}

// Makes the tables of a capacity. The bucket records are read only; they are lent for writing, as the other tables of their `Levels` are.
fn make(
    guests: &mut Guests<&mut [u64]>,
    epochs: &mut [u64],
    freqs: &mut [u64],
    prevs: &mut [u64],
    nexts: &mut [u64],
    buckets: &mut [u64],
    spares: &mut [u64],
    values: &mut [u64],
    capacity: u64,
) -> Result<State, Refusal> {
    lfu_make::new(
        guests,
        epochs,
        freqs,
        prevs,
        nexts,
        &buckets[..],
        spares,
        values,
        capacity,
    )
}

// Makes the tables of a capacity and carries out the records; a capacity that is refused is told by its number.
fn begin(
    guests: &mut Guests<&mut [u64]>,
    epochs: &mut [u64],
    levels: &mut Levels<&mut [u64]>,
    values: &mut [u64],
    capacity: u64,
    source: i32,
) {
    match make(
        guests,
        epochs,
        levels.freqs,
        levels.prevs,
        levels.nexts,
        levels.buckets,
        levels.spares,
        values,
        capacity,
    ) {
        Ok(mut state) => run(guests, epochs, levels, values, &mut state, source),
        Err(why) => say(Told::Refused(why)),
    }
}

// The tables hold 4,096 slots, of which as many as the capacity calls for are lent, or all where there are not so many.
pub fn start(capacity: usize, source: i32) {
    let mut keys = [0u64; 4096];
    let mut freqs = [0u64; 4096];
    let mut epochs = [0u64; 4096];
    let mut prevs = [0u64; 4096];
    let mut nexts = [0u64; 4096];
    let mut arena = [0u64; 4096];
    let mut index = [0u64; 8192];
    let mut buckets = [0u64; 28672];
    let mut spares = [0u64; 4096];
    let mut values = [0u64; 4096];
    let lent = capacity.min(4096);
    let mut guests = Guests {
        keys: &mut keys[..lent],
        arena: &mut arena[..lent],
        index: &mut index[..lent + lent],
    };
    let mut levels = Levels {
        freqs: &mut freqs[..lent],
        prevs: &mut prevs[..lent],
        nexts: &mut nexts[..lent],
        buckets: &mut buckets[..lent * WORDS as usize],
        spares: &mut spares[..lent],
    };
    begin(
        &mut guests,
        &mut epochs[..lent],
        &mut levels,
        &mut values[..lent],
        capacity as u64,
        source,
    )
}
