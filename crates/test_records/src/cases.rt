// The calls on one record, printed. No function here ends the line but `tried`.
use super::show;
use test_bytes::number;

// Fills the table with 170 and reads the record into it; prints ` read`, the answer, and the digest of the table then.
pub fn read(bytes: &[u8], table: &mut [u8]) {
    table.fill(170);
    test_bytes::text(b" read");
    show::read(record::read(bytes, table));
    number(test_bytes::digest(table));
}

// The same with the first n bytes of the table; nothing where it is shorter.
pub fn read_within(bytes: &[u8], table: &mut [u8], n: usize) {
    if n <= table.len() {
        read(bytes, &mut table[..n]);
    }
}

// Prints ` run`, k, the answer for run k, and length and digest of its part of the record.
pub fn run(bytes: &[u8], k: usize) {
    test_bytes::text(b" run");
    number(k as u64);
    show::found(record::find_run(bytes, k));
    let part = record::run_bytes(bytes, k);
    number(part.len() as u64);
    number(test_bytes::digest(part));
}

// Prints a line: the word, what `read` prints of the table, then of its first `short` bytes, and what `run` prints of run 0 and run 2^64 - 1.
pub fn tried(word: &[u8], bytes: &[u8], table: &mut [u8], short: usize) {
    test_bytes::text(word);
    read(bytes, table);
    read_within(bytes, table, short);
    run(bytes, 0);
    run(bytes, usize::MAX);
    test_bytes::end_line();
}
