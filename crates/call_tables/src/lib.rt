// Tables of numbers, as in `tables`, for the calls of the crates above the journal and for salvage: proved of the definitions by computing them (proofs/).
// There is no code here.
#![tactic(auto)]
