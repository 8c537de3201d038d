// Chains and rings of links. The mathematics is in specs/ and proofs/; the code is for lists of slots that are linked both ways, over two
// lent tables: `nexts[s]` is the slot after s, `prevs[s]` the slot before it, and NONE stands where there is none. The ends of a list are
// kept by whoever owns it, and are handed in and handed back.
#![tactic(auto)]

pub mod sound;

// The first and the last slot of a list, NONE where it has none, and how many slots it has.
#[derive(Clone, Copy)]
pub struct Ends {
    pub head: u64,
    pub tail: u64,
    pub count: u64,
}
