// The answers for many records: how often each number came, and a digest of all.
use super::mix;
use test_bytes::{Tally, number};

// Reads the record into each of two tables, and asks for the runs 0, 1 and 2: all of it goes into the digest. Counts the numbers, all below 39: of
// the first read at the number itself, of the second 40 behind it, of run 0 80 behind it; and at 39 the record.
pub fn note(tally: &mut Tally<120>, bytes: &[u8], long: &mut [u8], short: &mut [u8]) {
    let first = mix::read(&mut tally.sum, bytes, long);
    let second = mix::read(&mut tally.sum, bytes, short);
    let run = mix::run(&mut tally.sum, bytes, 0);
    mix::run(&mut tally.sum, bytes, 1);
    mix::run(&mut tally.sum, bytes, 2);
    tally.count(39);
    tally.count((first % 40) as usize);
    tally.count((second % 40) as usize + 40);
    tally.count((run % 40) as usize + 80);
}

// Prints how many records there were, how often the first read gave 0, 11, 12, 16, 17, 31 and 32, the second read 17 and run 0 33, and the digest;
// ends the line.
pub fn show(tally: &Tally<120>) {
    tally.show(&[39, 0, 11, 12, 16, 17, 31, 32, 57, 113]);
    number(tally.sum);
    test_bytes::end_line();
}
