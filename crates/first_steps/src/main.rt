// First steps with the frequency buckets: tables for four guests are made, two guests are bound, one is hit, and the one that gives up its
// slot is told. docs/DEVICE.md walks through it.
#![tactic(auto)]

use buckets_tables::{GuestTables, Guests};
use drive_lines::sound::write;
use drive_lines::tell;
use frequency_buckets::{insert, pop_min, touch};
use frequency_buckets_make::new;
use levels::Levels;
use numbers::{Frequency, Key, Refusal};

// Who goes, of guest 7, which is hit, and guest 9.
fn leaves(
    guests: &mut Guests<&mut [u64]>,
    epochs: &mut [u64],
    freqs: &mut [u64],
    prevs: &mut [u64],
    nexts: &mut [u64],
    buckets: &mut [u64],
    spares: &mut [u64],
) -> Result<(Key, Frequency), Refusal> {
    let mut state = new(guests, epochs, freqs, prevs, nexts, &buckets[..], spares, 4)?;
    let levels = &mut Levels {
        freqs,
        prevs,
        nexts,
        buckets,
        spares,
    };
    insert(guests, epochs, levels, &mut state, Key(7))?;
    insert(guests, epochs, levels, &mut state, Key(9))?;
    touch(
        &guests.shown(),
        epochs,
        levels,
        &mut state,
        Key(7),
        Frequency::CEILING,
    )?;
    pop_min(guests, epochs, levels, &mut state)
}

// Prints an answer: document 01's number, then the key and its frequency.
fn say(answer: Result<(Key, Frequency), Refusal>) {
    // An array and a length: there is no heap.
    let mut line = [0u8; 128];
    let end = write(&mut line, 0, tell(answer));
    io::write_all(1, &line[..end]);
}

fn main() {
    let mut keys = [0u64; 4];
    let mut arena = [0u64; 4];
    let mut index = [0u64; 8];
    let mut epochs = [0u64; 4];
    let mut freqs = [0u64; 4];
    let mut prevs = [0u64; 4];
    let mut nexts = [0u64; 4];
    let mut buckets = [0u64; 28];
    let mut spares = [0u64; 4];
    let mut guests = Guests {
        keys: &mut keys[..],
        arena: &mut arena[..],
        index: &mut index[..],
    };
    say(leaves(
        &mut guests,
        &mut epochs,
        &mut freqs,
        &mut prevs,
        &mut nexts,
        &mut buckets,
        &mut spares,
    ));
}
