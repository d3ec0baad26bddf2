// A list of writes in one call: one check of the image and one scan of the journal for all of them.
#![tactic(auto)]

pub mod call;
mod list;
