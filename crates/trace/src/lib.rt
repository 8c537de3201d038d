// The trace format: the words and the lines that a record of a trace prints. How an input begins and ends stands in `input`, writing a line
// into a buffer in `sound`.
#![tactic(auto)]

pub mod input;
pub mod sound;

// The words that begin a line.
#[derive(Clone, Copy)]
pub enum Word {
    New,
    NewOut,
    Old,
    Full,
    Hit,
    Miss,
    See,
    Gone,
    Least,
    Nothing,
    Reset,
    Okay,
    Out,
    Bad,
    Cut,
    Capacity,
    End,
}

// A word, and the numbers after it.
#[derive(Clone, Copy)]
pub enum Line {
    Plain(Word),
    One(Word, u64),
    Two(Word, u64, u64),
}
