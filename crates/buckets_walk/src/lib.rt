// The walk of a frequency: its keys, head first. None of its steps checks the tables, so they stand in `sound`.
#![tactic(auto)]

pub mod sound;
