// Tables of numbers, as in `tables`, for folders, attributes, settings and the looks at a volume: proved of the definitions by computing them (proofs/).
// There is no code here.
#![tactic(auto)]
