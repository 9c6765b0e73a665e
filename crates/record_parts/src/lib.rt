// The parts of a plan record: how they are written, checked and read.
#![tactic(auto)]

mod reader; // reader.rt: the checks of a record, and its table
mod writer; // writer.rt: horizon, map and slot bytes

pub use reader::{behind_map, check, fill_table, horizon};
pub use writer::fill_record;
