// Makes one public call for each record of standard input, and prints its answer. With arguments it does so for the files that they name, one
// after another, with a line `--` behind each; `-` is standard input. What it is held to, args, data, stdin and stdout beside src, is put
// together by examples/pack: document 01's cases, calls that are refused, odd inputs, and runs that the original answered.
#![tactic(auto)]

ghost use Rattle.std.specs.Prelude.{◌≡◌};
ghost use Rattle.drive.specs.Ends.{capacity_of, last_told};

use drive_lines::Told;
use trace::Word;
use trace::input::two_bytes;

mod sound;

// How many bytes are read at a time: whole records.
pub const PART: usize = 65518;

// Up to where in the output buffer a record may begin to print: from there on it has room for the longest walk.
pub const LAST: usize = 262144;

// Where the printed bytes end, and where the next record begins.
#[derive(Clone, Copy)]
pub struct Fed {
    pub at: usize,
    pub next: usize,
}

// Whether there is more to do, how many bytes were printed and how many have been read, and where the next record begins. The flag guards none of
// these: what a turn promises speaks of each in either case.
#[derive(Clone, Copy)]
pub struct Turned {
    pub more: bool,
    pub at: usize,
    pub end: usize,
    pub next: usize,
}

// Prints a line.
fn say(told: Told) {
    // An array and a length, here and below: there is no heap.
    let mut out = [0u8; 128];
    let n = drive_lines::sound::write(&mut out, 0, told);
    io::write_all(1, &out[..n]);
}

// The capacity, low byte first, of an input that begins with these bytes; none where they are fewer than it takes.
fn capacity_of(first: &[u8]) -> Option<usize>
    ensures { result ≡ capacity_of first.now }
{
    if first.len() < 2 {
        return None;
    }
    Some(two_bytes(first[0], first[1]))
}

// The line at the end of the input, of which so many bytes are left.
fn last_line(left: usize) -> Told
    ensures { result ≡ last_told left }
{
    if left > 0 {
        return Told::Just(Word::Cut);
    }
    Told::Just(Word::End)
}

// Reads the capacity from a descriptor, makes the tables, and carries out the records that follow.
fn drive(source: i32) {
    let mut first = [0u8; 2];
    let n = io::read_full(source, &mut first);
    match capacity_of(&first[..n]) {
        Some(capacity) => sound::start(capacity, source),
        None => say(Told::Just(Word::Cut)),
    }
}

fn main(rt: HostRuntime) {
    inputs::each(&rt, &mut drive);
}
