// The records of a trace on tables that are known to be sound: a part of the input is carried out record by record, and what it prints
// is written into a lent buffer.
ghost use Rattle.std.specs.Prelude.{◌≡◌, ◌+◌, ◌*◌, ◌≤◌, length, take, drop};
ghost use Rattle.promise.specs.Promise.{Sound};
ghost use Rattle.buckets_tables.specs.Slices.{Same};
ghost use Rattle.cache_tables.specs.Slices.{lent};
ghost use Rattle.cache_tables.specs.Lent.{cache};
ghost use Rattle.trace.specs.Lines.{LONGEST};
ghost use Rattle.trace.specs.Output.{little};
ghost use Rattle.trace.specs.Written.{Spells};
ghost use Rattle.trace_input.specs.Feeding.{Feeds, PRINT};
ghost use Rattle.trace_input.specs.Parts.{Parts, closing};

use crate::Fed;
use buckets_tables::{Guests, State};
use levels::Levels;
use numbers::Key;
use trace::input::{PART, RECORD, last_line};
use trace_record::Ask;
use trace_record::sound::step;

mod inputs;

pub use inputs::whole;

// A number from eight bytes, low byte first.
pub fn number(bytes: &[u8], at: usize) -> u64
    requires { at + 8 ≤ length bytes.now }
    ensures { result ≡ little (take 8 (drop at bytes.now)) }
{
    let eight = <[u8; 8]>::try_from(&bytes[at..at + 8]).unwrap();
    u64::from_le_bytes(eight)
}

// Carries out the whole records among the first bytes of an input. Each record prints at most three bytes for each of its own.
fn feed(
    guests: &mut Guests<&mut [u64]>,
    epochs: &mut [u64],
    levels: &mut Levels<&mut [u64]>,
    values: &mut [u64],
    state: &mut State,
    input: &[u8],
    n: usize,
    out: &mut [u8],
) -> Fed
    requires { Sound cache (lent guests.old epochs.old levels.old values.old) state.old × (n ≤ length input.now) × (n * PRINT ≤ length out.old) }
    ensures same { Same guests.old guests.new levels.old levels.new }
    ensures does { Feeds (lent guests.old epochs.old levels.old values.old) state.old input.now n
        (lent guests.new epochs.new levels.new values.new) state.new out.new result }
{
    let mut at = 0;
    let mut next = 0;
    // A `while` and not `chunks_exact`, since where the next record begins is answered too.
    while n - next >= RECORD {
        let ask = Ask {
            key: Key(number(input, next + 1)),
            value: number(input, next + 9),
        };
        at = step(
            guests,
            epochs,
            levels,
            values,
            state,
            input[next],
            ask,
            out,
            at,
        );
        next += RECORD;
    }
    Fed { at, next }
}

// The last line, where a part is not full: there the input ends.
fn close(out: &mut [u8], at: usize, n: usize, left: usize, count: u64) -> usize
    requires { at + LONGEST ≤ length out.old }
    ensures { Spells out.old at (closing n left count) LONGEST out.new result }
{
    if n < PART {
        return trace::sound::write(out, at, last_line(left, count));
    }
    at
}

// Prints a part of the input: its records and, where the input ends in it, the last line. The answer is where the printed bytes end.
pub fn part(
    guests: &mut Guests<&mut [u64]>,
    epochs: &mut [u64],
    levels: &mut Levels<&mut [u64]>,
    values: &mut [u64],
    state: &mut State,
    input: &[u8],
    n: usize,
    out: &mut [u8],
) -> usize
    requires { Sound cache (lent guests.old epochs.old levels.old values.old) state.old × (n ≤ length input.now) × (n * PRINT + LONGEST ≤ length out.old) }
    ensures same { Same guests.old guests.new levels.old levels.new }
    ensures does { Parts (lent guests.old epochs.old levels.old values.old) state.old input.now n
        (lent guests.new epochs.new levels.new values.new) state.new out.new result }
{
    let fed = feed(guests, epochs, levels, values, state, input, n, out);
    close(out, fed.at, n, n - fed.next, state.count)
}
