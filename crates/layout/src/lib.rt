// The layout reader. The calls are `check::check`, `reading::lookup`, `reading::read`, `reading::look_in_place`, `reading::extent_in_place`,
// `reading::read_attributes`, `overview::info` and `overview::next_entry`; each takes any bytes. The other public modules are parts for the crates above.
#![tactic(auto)]

pub mod bytes;
mod chains;
pub mod check;
pub mod content;
pub mod directory;
pub mod file;
pub mod geometry;
pub mod limits;
pub mod names;
pub mod number;
pub mod overview;
pub mod path;
pub mod reading;
pub mod refusal;
pub mod table;
mod visit;
