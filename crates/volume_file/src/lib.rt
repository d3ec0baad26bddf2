// A volume file: an image, its journal and some sectors of the program's own, with a log by which all three are saved whole or not at all. Nothing is
// read or written here: the calls work on the bytes of the whole file in memory, and say which of them the caller has to write out.
#![tactic(auto)]

pub mod begin;
pub mod check;
mod header;
mod log;
pub mod parts;
pub mod recovery;
mod refusals;
pub mod saving;
