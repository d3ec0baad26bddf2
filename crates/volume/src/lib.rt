// The volume: what changes an image. The call is `format::format`, on any bytes. The changes are for the journal above, as one value (`change`): its
// refusal, its named blocks as marks and the change itself, on an image that the caller has checked. `place`, `create`, `write` and `marks` have what a
// change of a crate above is made of too: of a file that was found, or of a place for one. `number` writes numbers, `table` and `file` the parts of an
// image that salvage puts right too.
#![tactic(auto)]

mod attributes;
pub mod change;
pub mod create;
mod create_directory;
mod data;
mod delete;
mod delete_directory;
pub mod file;
pub mod format;
pub mod marks;
mod moving;
mod notes;
pub mod number;
pub mod place;
mod replace;
mod shorten;
mod slot;
pub mod table;
pub mod write;
