// Steps on tables that are known to be sound, and into a buffer that is known to have room: they check nothing.
ghost use Rattle.std.specs.Prelude.{◌+◌, ◌≤◌, length};
ghost use Rattle.promise.specs.Promise.{Sound};
ghost use Rattle.buckets_tables.specs.Slices.{Same};
ghost use Rattle.cache_tables.specs.Slices.{lent};
ghost use Rattle.cache_tables.specs.Lent.{cache};
ghost use Rattle.trace.specs.Lines.{step as steps, LONGEST};
ghost use Rattle.trace_record.specs.Steps.{Lines, RecordPrints};

use crate::Ask;
use buckets_tables::{GuestTables, Guests, State};
use cases::{clear, evict, get, insert, least, peek, remove, reset};
use levels::{LevelTables, Levels};
use trace::sound::write;
use trace::{Line, Word};

mod cases;

// One record, by its operation. 0 and 9 to 255 are none: nothing changes.
fn act(
    guests: &mut Guests<&mut [u64]>,
    epochs: &mut [u64],
    levels: &mut Levels<&mut [u64]>,
    values: &mut [u64],
    state: &mut State,
    code: u8,
    ask: Ask,
) -> Line
    requires { Sound cache (lent guests.old epochs.old levels.old values.old) state.old }
    ensures same { Same guests.old guests.new levels.old levels.new }
    ensures does { Lines (steps code ask.key.0 ask.value)
        (lent guests.old epochs.old levels.old values.old) state.old result
        (lent guests.new epochs.new levels.new values.new) state.new }
{
    let key = ask.key;
    match code {
        1 => insert(guests, epochs, levels, values, state, ask),
        2 => {
            let shown = guests.shown();
            get(shown.keys, shown.index, epochs, levels, values, state, key)
        }
        3 => {
            let shown = guests.shown();
            peek(shown.keys, shown.index, values, key)
        }
        4 => remove(guests, epochs, levels, values, state, key),
        5 => least(guests.shown().keys, levels.shown().buckets, values, *state),
        6 => {
            let shown = guests.shown();
            reset(shown.keys, shown.index, epochs, levels, state, key)
        }
        7 => clear(
            guests,
            epochs,
            levels.freqs,
            levels.prevs,
            levels.nexts,
            levels.spares,
            values,
            state,
        ),
        8 => evict(guests, epochs, levels, values, state),
        9..=255 => Line::Plain(Word::Bad),
        0 => Line::Plain(Word::Bad),
    }
}

// One record: its line is written from a place on, where the buffer has room for the longest line. The answer is the place behind it.
pub fn step(
    guests: &mut Guests<&mut [u64]>,
    epochs: &mut [u64],
    levels: &mut Levels<&mut [u64]>,
    values: &mut [u64],
    state: &mut State,
    code: u8,
    ask: Ask,
    out: &mut [u8],
    at: usize,
) -> usize
    requires { Sound cache (lent guests.old epochs.old levels.old values.old) state.old × (at + LONGEST ≤ length out.old) }
    ensures same { Same guests.old guests.new levels.old levels.new }
    ensures does { RecordPrints (steps code ask.key.0 ask.value)
        (lent guests.old epochs.old levels.old values.old) state.old out.old at
        (lent guests.new epochs.new levels.new values.new) state.new out.new result }
{
    let line = act(guests, epochs, levels, values, state, code, ask);
    write(out, at, line)
}
