// Mathematics only: the shape of every public promise, over any kind of lent tables, and the laws of that shape. See specs/ and proofs/.
#![tactic(auto)]
