// Mathematics only: lists, and what is said of all of their members. See specs/ and proofs/.
#![tactic(auto)]
