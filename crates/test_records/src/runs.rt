// All runs of a record.
use super::{cases, mix};
use test_bytes::number;

// How many runs there are, and a digest of the answers for all of them.
#[derive(Drop)]
struct Counted {
    count: usize,
    sum: u64,
}

// The runs 0, 1, .. up to the first that is refused, or to 4,096.
fn count_runs(bytes: &[u8]) -> Counted {
    let mut sum = 0;
    for k in 0..4096 {
        let before = sum;
        if mix::run(&mut sum, bytes, k) != 0 {
            return Counted {
                count: k,
                sum: before,
            };
        }
    }
    Counted { count: 4096, sum }
}

// Prints a line: `runs`, h, how many and their digest, and what `cases::run` prints of the next one.
pub fn each(h: usize, bytes: &[u8]) {
    test_bytes::text(b"runs");
    number(h as u64);
    let r = count_runs(bytes);
    number(r.count as u64);
    number(r.sum);
    cases::run(bytes, r.count);
    test_bytes::end_line();
}
