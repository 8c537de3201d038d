// Many inputs of the trace program, one after another: each is printed as a whole, with a line `--` behind it. Standard input is a pack of
// them: for each its length in two bytes, low byte first, and then its bytes. The pack ends where it ends, or at an input that is too long.
#![tactic(auto)]

ghost use Rattle.std.specs.Prelude.{IfSome, ◌<◌};
ghost use Rattle.trace.specs.Ends.{PART as FULL};

use trace::input::{PART, two_bytes};

mod sound;

// How long an input of the pack is, and how many bytes it prints.
#[derive(Clone, Copy)]
pub struct Case {
    pub read: usize,
    pub at: usize,
}

// The length of the next input, if there is one that can be taken.
pub fn next_length() -> Option<usize>
    ensures { IfSome result (λ n. n < FULL) }
{
    // An array and how much of it was read: there is no heap.
    let mut first = [0u8; 2];
    if io::read_full(0, &mut first) < 2 {
        return None;
    }
    let length = two_bytes(first[0], first[1]);
    if length < PART { Some(length) } else { None }
}

fn main() {
    sound::run(&mut io::large_buffer(), &mut io::large_buffer());
}
