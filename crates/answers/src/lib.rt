// What the calls answer beside plain numbers. A call that may be refused answers a `Result` with a `Refusal`; document 01's number and values
// of each stand in specs/Replies.antt.
#![tactic(auto)]

use numbers::{Frequency, Key, Slot};

// A guest where a walk stands: its slot, key, frequency and last epoch.
#[derive(Clone, Copy)]
pub struct Guest {
    pub slot: Slot,
    pub key: Key,
    pub frequency: Frequency,
    pub epoch: u64,
}

// An insert into the cache: bound, bound after another key went, or the old value of a key that was bound.
#[derive(Clone, Copy)]
pub enum Insertion {
    New,
    NewOut(Key),
    Old(u64),
}
