// Mathematics only: the ledger of document 01, its calls, and demand 3. What a reader must believe stands in specs/.
#![tactic(auto)]
