// The record that 01 works by hand, the one that card 5 of 02 puts in its place, and the record of docs/BYTES.md.
use super::cases;

// The first: 12 bytes, and two more that are no part of it.
pub const PAPER: [u8; 14] = [10, 0, 63, 3, 0, 2, 2, 2, 2, 2, 1, 1, 0, 255];

// The second: 14 bytes. Slots 6 and 7 do not sleep any more.
const CARD: [u8; 14] = [10, 0, 255, 3, 0, 2, 2, 2, 2, 2, 254, 254, 1, 1];

// The third: 9 bytes, and two more.
pub const PAGE: [u8; 11] = [12, 0, 192, 7, 0, 2, 254, 1, 1, 0, 255];

// Prints two lines: `worked` and what `cases::read` prints; `table` and the bytes of the table.
fn read(bytes: &[u8], table: &mut [u8]) {
    test_bytes::text(b"worked");
    cases::read(bytes, table);
    test_bytes::end_line();
    test_bytes::text(b"table");
    test_bytes::bytes(table);
}

// The runs that are asked for: 0 to 3 and 2^64 - 1.
pub const RUNS: [usize; 5] = [0, 1, 2, 3, usize::MAX];

// Prints two lines for each of these runs: `worked` and what `cases::run` prints of it; `part` and the bytes of the run.
fn runs(bytes: &[u8]) {
    for k in RUNS {
        test_bytes::text(b"worked");
        cases::run(bytes, k);
        test_bytes::end_line();
        test_bytes::text(b"part");
        test_bytes::bytes(record::run_bytes(bytes, k));
    }
}

// The first record, read into three bytes more than it needs, and its runs.
pub fn paper() {
    let all = PAPER;
    let bytes = test_bytes::first(&all, 12);
    let mut table = [0u8; 13];
    read(bytes, &mut table);
    runs(bytes);
}

// The same of the second.
pub fn card() {
    let mut table = [0u8; 13];
    read(&CARD, &mut table);
    runs(&CARD);
}

// The same of the third.
pub fn page() {
    let all = PAGE;
    let bytes = test_bytes::first(&all, 9);
    let mut table = [0u8; 15];
    read(bytes, &mut table);
    runs(bytes);
}
