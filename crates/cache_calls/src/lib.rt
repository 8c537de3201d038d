// The single calls on the cache but its insert, on sound tables: they stand in `sound`.
#![tactic(auto)]

pub mod sound;
