// Worked examples, as in `tables`, for the salvage of a tree: proved of the definitions by computing them (proofs/). There is no code here.
#![tactic(auto)]
