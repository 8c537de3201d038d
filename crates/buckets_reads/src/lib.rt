// The calls on the frequency buckets that only answer, on sound tables: they stand in `sound`.
#![tactic(auto)]

pub mod sound;
