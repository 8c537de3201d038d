// What a trace prints: for a part of the input that was read, and for a whole input. The work is done in `sound`.
#![tactic(auto)]

pub mod sound;

// Where the printed bytes end, and where the next record begins.
#[derive(Clone, Copy)]
pub struct Fed {
    pub at: usize,
    pub next: usize,
}
