// The map of a plan record: packed from a table, and taken apart again.
#![tactic(auto)]

mod reader; // reader.rt: a map that is read
mod writer; // writer.rt: a map that is written

pub use reader::{count, end, has_padding, is_awake};
pub use writer::{count_awake, fill_map};
