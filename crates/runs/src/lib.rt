// Mathematics only: runs of public calls, each on the tables that the one before left, and demand 3 of their calls and replies. See specs/
// and proofs/.
#![tactic(auto)]
