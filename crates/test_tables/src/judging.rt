// The judge on its refusals, each at its first and last place.
use super::{show, tables};
use test_bytes::first;
use test_faults::Job;

// Judges the first len bytes of t against n equal jobs (at most 65), of which job k is another, and prints the answer.
pub fn jobs(h: u16, q: u16, n: usize, job: Job, k: usize, other: Job, t: &[u8], len: usize) {
    let rs = tables::field(job.r, k, other.r);
    let ds = tables::field(job.d, k, other.d);
    let ps = tables::field(job.p, k, other.p);
    show::judged(judge::judge(
        h,
        q,
        false,
        first(&rs, n),
        first(&ds, n),
        first(&ps, n),
        first(t, len),
    ));
}

// Judges the first len bytes of t against n equal jobs (at most 65), and prints the answer.
pub fn equal(h: u16, q: u16, n: usize, job: Job, t: &[u8], len: usize) {
    jobs(h, q, n, job, 65, job, t, len);
}

// Judges t with horizon 10 and wake cost 1 against lists of a releases 0, b deadlines 10 and c volumes 1 (at most 65), and prints the answer.
fn lengths(a: usize, b: usize, c: usize, t: &[u8]) {
    let rs = [0u16; 65];
    let ds = [10u16; 65];
    let ps = [1u16; 65];
    show::judged(judge::judge(10, 1, false, first(&rs, a), first(&ds, b), first(&ps, c), t));
}

// Puts one byte more into t, and judges its first 4,096 bytes, all of them slots, against n equal jobs with wake cost 1.
fn put_and_judge(t: &mut [u8], at: usize, byte: u8, n: usize, job: Job) {
    test_bytes::put(t, at, byte);
    equal(4096, 1, n, job, t, 4096);
}

// 12 and 19 of the judge, and a list of 64 jobs that has neither.
pub fn list_faults(t: &[u8]) {
    let job = Job { r: 0, d: 1, p: 1 };
    equal(0, 1, 0, job, t, 4100);
    equal(4097, 1, 1, job, t, 4100);
    equal(65535, 1, 1, job, t, 4100);
    lengths(3, 2, 3, t);
    lengths(3, 3, 4, t);
    lengths(65, 65, 64, t);
    lengths(65, 65, 65, t);
    lengths(64, 64, 64, t);
}

// A faulty job at the first, a middle and the last place of 64 jobs, with no table, so that 17 would come next.
fn faulty(other: Job, t: &[u8]) {
    let job = Job { r: 0, d: 1, p: 1 };
    for at in [0, 31, 63] {
        jobs(4096, 1, 64, job, at, other, t, 0);
    }
}

// All seven, and lists whose other jobs are faulty, too: the lowest is told.
fn all_faulty(t: &[u8]) {
    for k in 0..7 {
        faulty(test_faults::nth(k), t);
    }
    jobs(
        4096,
        1,
        64,
        test_faults::nth(0),
        0,
        test_faults::nth(2),
        t,
        0,
    );
    jobs(
        4096,
        1,
        64,
        test_faults::nth(2),
        63,
        test_faults::nth(0),
        t,
        0,
    );
}

// 25, 15 and 26, a job that is just no fault, and 17, which comes after them.
pub fn job_faults(t: &[u8]) {
    let job = Job { r: 0, d: 1, p: 1 };
    all_faulty(t);
    jobs(10, 1, 64, job, 63, Job { r: 0, d: 11, p: 1 }, t, 0);
    jobs(10, 1, 64, job, 63, Job { r: 0, d: 10, p: 1 }, t, 9);
    jobs(10, 1, 64, job, 63, Job { r: 4, d: 4, p: 1 }, t, 0);
    jobs(10, 1, 64, job, 63, Job { r: 3, d: 4, p: 1 }, t, 9);
    equal(1, 1, 1, job, t, 0);
    equal(4096, 1, 1, job, t, 4095);
}

// 21 at the first and last slot.
fn unknown_bytes(t: &mut [u8]) {
    let job = Job {
        r: 0,
        d: 4096,
        p: 1,
    };
    test_bytes::fill(t, 255);
    put_and_judge(t, 0, 1, 1, job);
    put_and_judge(t, 0, 64, 64, job);
    put_and_judge(t, 0, 253, 64, job);
    test_bytes::put(t, 0, 0);
    put_and_judge(t, 4095, 64, 64, job);
    put_and_judge(t, 4095, 1, 1, job);
}

// No 21 behind the horizon.
fn behind_the_horizon(t: &mut [u8]) {
    test_bytes::fill(t, 255);
    test_bytes::put(t, 0, 0);
    test_bytes::put(t, 4096, 64);
    equal(
        4096,
        1,
        1,
        Job {
            r: 0,
            d: 4096,
            p: 1,
        },
        t,
        4100,
    );
}

// 22 at the first and last slot where it can come.
fn named_too_often(t: &mut [u8]) {
    let job = Job {
        r: 0,
        d: 4096,
        p: 1,
    };
    test_bytes::fill(t, 255);
    tables::count_up(t, 64);
    put_and_judge(t, 1, 0, 64, job);
    test_bytes::put(t, 1, 1);
    put_and_judge(t, 4095, 63, 64, job);
}

// 23 comes before 22 at one slot, and the lower slot comes first.
fn order_of_faults(t: &mut [u8]) {
    test_bytes::fill(t, 0);
    equal(
        4096,
        1,
        1,
        Job {
            r: 0,
            d: 4096,
            p: 4095,
        },
        t,
        4096,
    );
    equal(4096, 1, 1, Job { r: 0, d: 1, p: 1 }, t, 4096);
    equal(4096, 1, 1, Job { r: 0, d: 1, p: 2 }, t, 4096);
    put_and_judge(t, 2, 64, 1, Job { r: 0, d: 2, p: 3 });
    equal(4096, 1, 1, Job { r: 0, d: 2, p: 1 }, t, 4096);
}

// 23 at the first and last slot.
fn outside_the_span(t: &mut [u8]) {
    test_bytes::fill(t, 255);
    put_and_judge(
        t,
        0,
        0,
        1,
        Job {
            r: 1,
            d: 4096,
            p: 1,
        },
    );
    test_bytes::put(t, 0, 255);
    put_and_judge(
        t,
        4095,
        0,
        1,
        Job {
            r: 0,
            d: 4095,
            p: 1,
        },
    );
    equal(
        4096,
        1,
        1,
        Job {
            r: 4095,
            d: 4096,
            p: 1,
        },
        t,
        4096,
    );
}

// 23 on either side of a job's own slots.
fn around_the_span(t: &mut [u8]) {
    test_bytes::fill(t, 255);
    test_bytes::put(t, 5, 0);
    equal(8, 2, 1, Job { r: 5, d: 6, p: 1 }, t, 4096);
    equal(8, 2, 1, Job { r: 4, d: 5, p: 1 }, t, 4096);
    equal(8, 2, 1, Job { r: 6, d: 7, p: 1 }, t, 4096);
}

// 24 for the first and the last job, and for a job of the greatest volume.
fn named_too_rarely(t: &mut [u8]) {
    let job = Job {
        r: 0,
        d: 4096,
        p: 1,
    };
    test_bytes::fill(t, 255);
    equal(4096, 1, 64, job, t, 4096);
    tables::count_up(t, 63);
    equal(4096, 1, 64, job, t, 4096);
    tables::count_up(t, 64);
    equal(4096, 1, 64, job, t, 4096);
    test_bytes::fill(t, 0);
    equal(
        4096,
        1,
        1,
        Job {
            r: 0,
            d: 4096,
            p: 65535,
        },
        t,
        4096,
    );
    equal(
        4096,
        1,
        1,
        Job {
            r: 0,
            d: 4096,
            p: 4096,
        },
        t,
        4096,
    );
}

// Each fault of the judge.
pub fn table_faults(t: &mut [u8]) {
    unknown_bytes(t);
    behind_the_horizon(t);
    named_too_often(t);
    order_of_faults(t);
    outside_the_span(t);
    around_the_span(t);
    named_too_rarely(t);
}
