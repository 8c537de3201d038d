// The trace program: the capacity and the records are read from standard input, and a line for each record is printed. With arguments it replays
// the files that they name, one after another, with a line `--` behind each; `-` is standard input. A read that fails ends an input; output
// that cannot be written ends a replay. What it is held to, args, data, stdin and stdout beside src: inputs that reach every way through it,
// with what the original printed for them, and the case C12 of document 01.
#![tactic(auto)]

use trace::input::{HEADER, header};
use trace::{Line, Word};

mod sound;

// Whether there is more to read, whether what was printed could be written, how many bytes were read and how many printed. The four stand side by
// side, and no flag guards another: what a turn promises speaks of each.
#[derive(Clone, Copy)]
pub struct Turned {
    pub more: bool,
    pub written: bool,
    pub read: usize,
    pub at: usize,
}

// Prints a word as the only line.
fn say(word: Word) {
    // An array and a length, here and below: there is no heap.
    let mut out = [0u8; 64];
    let n = trace::sound::write(&mut out, 0, Line::Plain(word));
    io::write_all(1, &out[..n]);
}

// Replays a trace.
fn replay(from: i32) {
    let mut first = [0u8; HEADER];
    let n = io::read_full(from, &mut first);
    match header(&first[..n]) {
        Ok(capacity) => sound::start(from, capacity),
        Err(word) => say(word),
    }
}

fn main(rt: HostRuntime) {
    inputs::each(&rt, &mut replay);
}
