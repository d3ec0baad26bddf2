// The store: settings with their past, one file for each serial number, in the root or another directory. The calls are those of `get`, on any bytes. The changes,
// the volume's and a put, are for the journal above, as one value (`change`): its refusal, its named blocks as marks and the change itself, on an image
// that the caller has checked.
#![tactic(auto)]

pub mod change;
mod form;
pub mod get;
mod load;
mod put;
mod serial;
