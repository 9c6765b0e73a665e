// Records that are cut or have bytes left over, and horizons in and out of range.
use super::{cases, worked};
use test_bytes::first;

// A line `prefix` of `cases::tried` for the first n bytes, for each n from 0 to all.
fn prefixes(bytes: &[u8], table: &mut [u8], short: usize) {
    for n in 0..=bytes.len() {
        cases::tried(b"prefix", &bytes[..n], table, short);
    }
}

// So for the record of 01 with two bytes left over; tables of three bytes more than it needs and one less.
pub fn paper() {
    let bytes = worked::PAPER;
    let mut table = [0u8; 13];
    prefixes(&bytes, &mut table, 9);
}

// The same for the record of docs/BYTES.md.
pub fn page() {
    let bytes = worked::PAGE;
    let mut table = [0u8; 15];
    prefixes(&bytes, &mut table, 11);
}

// A line `horizon` of `cases::tried` for 2, 3, 515 and all bytes, with the table and one of no bytes: the horizon in two bytes, and zeros behind it.
fn horizon(h: u16, table: &mut [u8]) {
    let mut bytes = [0u8; 4700];
    bytes[0] = (h % 256) as u8;
    bytes[1] = (h / 256) as u8;
    for n in [2, 3, 515, 4700] {
        cases::tried(b"horizon", first(&bytes, n), table, 0);
    }
}

// So for the horizons 0, 1, 4,096, 4,097 and 65,535, up to 4,700 bytes; the table has 19 bytes.
pub fn horizons() {
    let mut table = [0u8; 19];
    for h in [0, 1, 4096, 4097, 65535] {
        horizon(h, &mut table);
    }
}
