// Tables that are just long enough or not, and numbers of runs that just are or are not.
use super::{cases, worked};

// A line for 0 bytes of the table, and for one less than the record needs, just enough and one more: `lengths` and what `cases::read` prints of so
// many bytes.
fn lengths(bytes: &[u8], less: usize, enough: usize, more: usize, table: &mut [u8]) {
    for n in [0, less, enough, more] {
        test_bytes::text(b"lengths");
        cases::read_within(bytes, table, n);
        test_bytes::end_line();
    }
}

// So for the record of 01, that of docs/BYTES.md, and one of one awake slot.
pub fn tables() {
    let mut table = [0u8; 15];
    lengths(&worked::PAPER[..12], 9, 10, 11, &mut table);
    lengths(&worked::PAGE[..9], 11, 12, 13, &mut table);
    lengths(b"\x01\x00\x01\x05", 0, 1, 2, &mut table);
}

// A line for each of the runs 0 to 3 and 2^64 - 1: `number` and what `cases::run` prints of it.
fn numbers(bytes: &[u8]) {
    for k in worked::RUNS {
        test_bytes::text(b"number");
        cases::run(bytes, k);
        test_bytes::end_line();
    }
}

// So for records with no run, one and two.
pub fn runs() {
    numbers(b"\x0a\x00\x00\x00");
    numbers(&worked::PAGE[..9]);
    numbers(&worked::PAPER[..12]);
}
