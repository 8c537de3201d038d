// A record of a trace on the cache's tables: what it asks for. The steps stand in `sound`.
#![tactic(auto)]

use numbers::Key;

pub mod sound;

// What a record asks for beside its operation.
#[derive(Clone, Copy)]
pub struct Ask {
    pub key: Key,
    pub value: u64,
}
