// Salvage of a broken volume with directories. The call is `salvage_tree::salvage_tree`, on any bytes.
#![tactic(auto)]

mod blocks;
mod lost;
mod names;
mod numbers;
mod put;
mod rest;
mod root;
pub mod salvage_tree;
mod slots;
mod tree;
