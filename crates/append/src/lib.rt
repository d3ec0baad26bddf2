// Append: pieces of one file, each at the file's end as it then stands.
#![tactic(auto)]

pub mod call;
