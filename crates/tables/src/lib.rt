// Tables of numbers, proved of the definitions in the crates below by computing them (proofs/). There is no code here: a table costs more time than
// all proofs of a crate, so they stand by themselves.
#![tactic(auto)]
