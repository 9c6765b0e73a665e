// Header and entry of a list's bytes, for the crates that read and write lists; from outside `joblist` is called.
#![tactic(auto)]

pub mod entry; // entry.rt: the fields, the checks and the length of one job's entry
pub mod header; // header.rt: H, q and the byte with the number of jobs
pub mod writer; // writer.rt: one job's entry as it is written
