// Worked examples, as in `tables`, for the volume file: proved of the definitions by computing them (proofs/). There is no code here.
#![tactic(auto)]
