// Mathematics only: what a record of `drive` may print and leave leaves no choice. See proofs/.
#![tactic(auto)]
