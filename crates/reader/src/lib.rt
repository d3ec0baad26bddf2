// A reader that stays open on an image and remembers its place. The type and the calls are in `reader`.
#![tactic(auto)]

pub mod reader;
