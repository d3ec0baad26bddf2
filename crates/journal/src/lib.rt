// The journal: what undo needs of each change. The calls are in the public modules.
#![tactic(auto)]

pub mod calls;
mod naming;
mod recording;
pub mod restoring;
mod scan;
pub mod start;
