// Slot bytes that mean nothing in a record, in the record of 01.
use super::{cases, worked};

// A line of `cases::tried` for the record with two bytes stored one after the other; tables of 13 bytes and of 9.
fn stored(word: &[u8], at: usize, byte: u8, other: usize, second: u8, table: &mut [u8]) {
    let mut all = worked::PAPER;
    test_bytes::put(&mut all, at, byte);
    test_bytes::put(&mut all, other, second);
    cases::tried(word, &all[..12], table, 9);
}

// For each slot byte, which are the offsets 4 to 11, three lines `slot`, for 64, 253 and 255 at the offset; one line `two`, for 64 there and 255 at
// the offset that lies as far from the other end of the slot bytes.
pub fn each() {
    let mut table = [0u8; 13];
    for at in 4..12 {
        for byte in [64, 253, 255] {
            stored(b"slot", at, byte, at, byte, &mut table);
        }
        stored(b"two", at, 64, 15 - at, 255, &mut table);
    }
}
