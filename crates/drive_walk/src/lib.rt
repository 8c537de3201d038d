// The walk of a frequency as `drive` prints it. It is written into a buffer that is known to have room, so it stands in `sound`; the tables
// may be any.
#![tactic(auto)]

pub mod sound;
