// The insert of the cache on sound tables. It stands in `sound`.
#![tactic(auto)]

pub mod sound;
