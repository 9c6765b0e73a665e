// Slots that name a job once more than its volume and outside its span: alone, and with a slot behind or before them that has one fault or both.
use super::judging;
use test_faults::Job;

// A table in which the slots from d - p to d name job 0, so that slot d has both faults if job 0 is (0, d, p).
fn stray(t: &mut [u8], d: u16, p: u16) {
    test_bytes::fill(t, 255);
    let end = d as usize;
    for i in end.saturating_sub(p as usize)..=end {
        test_bytes::put(t, i, 0);
    }
}

// Judges t against the jobs (0, d, p) and `other`, and prints the answer.
fn judged(t: &[u8], h: u16, d: u16, p: u16, other: Job) {
    judging::jobs(h, 1, 2, other, 0, Job { r: 0, d, p }, t, 4096);
}

// A job that may run anywhere.
fn anywhere() -> Job {
    Job {
        r: 0,
        d: 4096,
        p: 1,
    }
}

// The slot alone.
fn alone(t: &mut [u8], d: u16, p: u16) {
    stray(t, d, p);
    judged(t, 4096, d, p, anywhere());
}

// The slot with byte x in slot a, and byte y in slot b.
fn among(t: &mut [u8], d: u16, p: u16, other: Job, a: usize, x: u8, b: usize, y: u8) {
    stray(t, d, p);
    test_bytes::put(t, a, x);
    test_bytes::put(t, b, y);
    judged(t, 4096, d, p, other);
}

// Behind it 21 alone, 23 alone, 22 alone, and a slot with both faults again: it is told, since it comes first.
fn before_others(t: &mut [u8], d: u16, p: u16) {
    let next = d as usize + 1;
    let ended = Job {
        r: 0,
        d: (next % 65536) as u16,
        p: 1,
    };
    among(t, d, p, anywhere(), next, 64, next, 64);
    among(t, d, p, ended, next, 1, next, 1);
    among(t, d, p, anywhere(), next, 1, next + 1, 1);
    among(t, d, p, anywhere(), next, 0, next, 0);
}

// Before it 21 alone, 23 alone, 22 alone of the other job, and 22 alone of the same job: these are told.
fn behind_others(t: &mut [u8], d: u16, p: u16) {
    let later = Job {
        r: 2,
        d: 4096,
        p: 1,
    };
    among(t, d, p, anywhere(), 1, 64, 1, 64);
    among(t, d, p, later, 1, 1, 1, 1);
    among(t, d, p, anywhere(), 0, 1, 1, 1);
    among(t, d, p, anywhere(), 1, 0, 1, 0);
}

// At the first slot where it can come, in the middle and at the last.
fn places(t: &mut [u8]) {
    stray(t, 1, 1);
    judged(t, 2, 1, 1, Job { r: 0, d: 2, p: 1 });
    alone(t, 1, 1);
    alone(t, 2048, 1);
    alone(t, 2048, 2048);
    alone(t, 4095, 1);
    alone(t, 4095, 4095);
}

// All of these.
pub fn faults(t: &mut [u8]) {
    places(t);
    before_others(t, 1, 1);
    before_others(t, 2048, 1);
    before_others(t, 2048, 2048);
    before_others(t, 4093, 1);
    behind_others(t, 2048, 1);
    behind_others(t, 2048, 7);
    behind_others(t, 4095, 1);
    behind_others(t, 4095, 4093);
}
