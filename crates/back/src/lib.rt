// Back to a mark: what a journal can be asked, and many undos in one call, with one check of the image.
#![tactic(auto)]

pub mod call;
mod walk;
