// Answers as text. That a function prints what is said above it, `stdout` shows; it is not proved.
use super::answer;
use record::{RecordSize, RunPlace};
use sched::Refusal;
use test_bytes::number;

// Prints 0 and the values, or a refusal's number and place.
fn values<const N: usize>(told: Result<[u64; N], Refusal>) {
    answer::each(told, |x| number(x));
}

// Prints 0 and the horizon, or a refusal.
pub fn read(told: Result<u16, Refusal>) {
    values(told.map(|h| [u64::from(h)]));
}

// Prints 0, the run's first slot, the offset of its bytes and how many they are, or a refusal.
pub fn found(told: Result<RunPlace, Refusal>) {
    values(told.map(|part| [part.first as u64, part.offset as u64, part.len as u64]));
}

// Prints 0, the record's length and the awake slots, or a refusal.
pub fn written(told: Result<RecordSize, Refusal>) {
    values(told.map(|size| [size.bytes as u64, size.awake as u64]));
}
