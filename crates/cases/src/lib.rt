// Mathematics only: the twelve cases of document 01 as one table, which is proved in one statement.
#![tactic(auto)]
