// The chain table held as numbers: one 32-bit number for each block, in a run that the caller lends. No call asks anything of its caller.
#![tactic(auto)]

pub mod changes;
pub mod questions;
pub mod transfer;
