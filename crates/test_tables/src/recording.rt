// The record writer on its refusals.
use super::show;

// Fills out with 170, writes to it the record of the first len bytes of t for horizon h, and prints a line: the answer, and the digest of
// what out then holds.
fn whole(h: u16, t: &[u8], len: usize, out: &mut [u8]) {
    test_bytes::fill(out, 170);
    show::written(record::write(h, test_bytes::first(t, len), out));
    test_bytes::number(test_bytes::digest(out));
    test_bytes::end_line();
}

// The same with the first room bytes of out; nothing where out is shorter.
pub fn within(h: u16, t: &[u8], len: usize, out: &mut [u8], room: usize) {
    if room <= out.len() {
        whole(h, t, len, &mut out[..room]);
    }
}

// 12 and 17 of the record writer, over a table that is asleep throughout.
pub fn sizes(t: &mut [u8], out: &mut [u8]) {
    test_bytes::fill(t, 255);
    within(0, t, 4100, out, 0);
    within(4097, t, 4100, out, 4700);
    within(65535, t, 4100, out, 4700);
    within(1, t, 0, out, 4700);
    within(4096, t, 4095, out, 4700);
}

// Puts one byte more into t, and writes the record of its first len bytes for 4,096 slots.
fn put_and_write(t: &mut [u8], at: usize, byte: u8, len: usize, out: &mut [u8], room: usize) {
    test_bytes::put(t, at, byte);
    within(4096, t, len, out, room);
}

// 21 of the record writer at the first and last slot, and not behind the horizon.
pub fn unknown_bytes(t: &mut [u8], out: &mut [u8]) {
    test_bytes::fill(t, 255);
    put_and_write(t, 0, 64, 4096, out, 4700);
    test_bytes::put(t, 0, 63);
    put_and_write(t, 4095, 253, 4096, out, 0);
    test_bytes::put(t, 4095, 254);
    put_and_write(t, 4096, 100, 4100, out, 4700);
}
