// Scripts: the calls of a run as bytes, run in order.
#![tactic(auto)]

mod answers;
mod items;
mod marks;
mod overview;
pub mod runner;
mod settings;
