// The single calls on the frequency buckets, on sound tables: they stand in `sound`.
#![tactic(auto)]

pub mod sound;
