// The plain check: a second check of an image, which keeps no record of owners.
#![tactic(auto)]

pub mod check;
