// Answers mixed into a digest. Each function gives the number of the answer, 0 if it is no refusal.
use super::answer;
use sched::Refusal;
use test_bytes::mixed;

// Mixes 0 and the values into the digest, or a refusal's number and place.
fn values<const N: usize>(sum: &mut u64, told: Result<[u64; N], Refusal>) -> u32 {
    let number = match &told {
        Ok(_) => 0,
        Err(r) => r.number(),
    };
    answer::each(told, |x| *sum = mixed(*sum, x));
    number
}

// Fills the table with 170 and reads the record into it: the answer, and the digest of the table then.
pub fn read(sum: &mut u64, bytes: &[u8], table: &mut [u8]) -> u32 {
    table.fill(170);
    let number = values(sum, record::read(bytes, table).map(|h| [u64::from(h)]));
    *sum = mixed(*sum, test_bytes::digest(table));
    number
}

// The answer for run k, and length and digest of its part of the record.
pub fn run(sum: &mut u64, bytes: &[u8], k: usize) -> u32 {
    let found = record::find_run(bytes, k);
    let number = values(
        sum,
        found.map(|part| [part.first as u64, part.offset as u64, part.len as u64]),
    );
    let part = record::run_bytes(bytes, k);
    *sum = mixed(*sum, part.len() as u64);
    *sum = mixed(*sum, test_bytes::digest(part));
    number
}
