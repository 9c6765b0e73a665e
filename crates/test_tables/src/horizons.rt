// Horizons around the ends of a map byte and of 64 slots, with tables that sleep, wake, and both by turns.
use super::{judging, recording};
use test_faults::Job;

// Prints, for a table with so many awake slots below h, the judge's answer without jobs, and the record writer's answers with two bytes more
// than the record needs, with just enough and with one less.
fn horizon(h: u16, awake: usize, t: &[u8], out: &mut [u8]) {
    judging::equal(h, 65535, 0, Job { r: 0, d: 1, p: 1 }, t, 4100);
    let bytes = 2 + (h as usize).div_ceil(8) + awake % 4097;
    recording::within(h, t, 4100, out, bytes + 2);
    recording::within(h, t, 4100, out, bytes);
    recording::within(h, t, 4100, out, bytes - 1);
}

// The same for each of eight horizons, for a table that is awake throughout, or asleep.
fn each(all: bool, t: &[u8], out: &mut [u8]) {
    for h in [1, 7, 8, 9, 63, 64, 65, 4096] {
        horizon(h, if all { h as usize } else { 0 }, t, out);
    }
}

// Tables that are asleep, awake and both by turns, printed so.
pub fn marks(t: &mut [u8], out: &mut [u8]) {
    test_bytes::fill(t, 255);
    each(false, t, out);
    test_bytes::fill(t, 254);
    each(true, t, out);
    test_bytes::alternate(t);
    horizon(4096, 2048, t, out);
    horizon(65, 33, t, out);
}
