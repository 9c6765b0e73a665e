// Single lists, all but one refused, each printed with its answer.
use crate::answer;
use test_bytes::{List, first, number, text};

// Prints a line: `refusal`, the number of the list, and the answer.
fn show(k: u64, list: List<'_>) {
    text(b"refusal");
    number(k);
    answer::show(list);
}

// So many entries of each list, at most 65, as if every job were (0, 1, 1).
fn lengths(k: u64, h: u16, releases: usize, deadlines: usize, volumes: usize) {
    let list = List {
        h,
        releases: first(&[0; 65], releases),
        deadlines: first(&[1; 65], deadlines),
        volumes: first(&[1; 65], volumes),
    };
    show(k, list);
}

// 65 jobs, each faulty.
const TOO_MANY: List = List {
    h: 4,
    releases: &[9; 65],
    deadlines: &[1; 65],
    volumes: &[0; 65],
};

// One job and four slots.
fn one(k: u64, r: u16, d: u16, p: u16) {
    let list = List {
        h: 4,
        releases: &[r],
        deadlines: &[d],
        volumes: &[p],
    };
    show(k, list);
}

// The lowest faulty job has no volume, a higher one is due too late.
const NO_VOLUME_FIRST: List = List {
    h: 4,
    releases: &[0, 0, 5],
    deadlines: &[4, 4, 5],
    volumes: &[1, 0, 1],
};

// The lowest faulty job has no slot, a higher one is due too late.
const NO_SLOT_FIRST: List = List {
    h: 4,
    releases: &[0, 3, 0],
    deadlines: &[4, 3, 9],
    volumes: &[1, 1, 0],
};

// Only the last of 64 jobs is faulty.
fn last_job(k: u64) {
    let mut volumes = [1; 64];
    volumes[63] = 0;
    let list = List {
        h: 4,
        releases: &[0; 64],
        deadlines: &[4; 64],
        volumes: &volumes,
    };
    show(k, list);
}

// The horizon, before all else.
fn horizons() {
    lengths(1, 0, 0, 0, 0);
    lengths(2, 4097, 0, 0, 0);
    lengths(3, 65535, 0, 1, 0);
    lengths(4, 0, 65, 65, 65);
}

// Lists of different lengths, before the number of jobs; then too many jobs, before any fault of a job.
fn counts() {
    lengths(5, 4, 0, 1, 0);
    lengths(6, 4, 0, 0, 1);
    lengths(7, 4, 1, 0, 1);
    lengths(8, 4, 65, 65, 64);
    lengths(9, 4, 65, 65, 65);
    show(10, TOO_MANY);
}

// No jobs.
fn empty() {
    lengths(11, 4, 0, 0, 0);
    lengths(12, 4096, 0, 0, 0);
}

// A job with up to three faults, then the lowest of several faulty jobs.
fn jobs() {
    one(13, 0, 5, 0);
    one(14, 5, 5, 0);
    one(15, 5, 4, 0);
    one(16, 0, 4, 0);
    show(17, NO_VOLUME_FIRST);
    show(18, NO_SLOT_FIRST);
    last_job(19);
}

// 64 jobs are not too many, and are an overload here; then more or fewer releases than deadlines and volumes.
fn more_counts() {
    lengths(20, 1, 64, 64, 64);
    lengths(21, 4, 1, 0, 0);
    lengths(22, 4, 0, 1, 1);
}

pub fn each() {
    horizons();
    counts();
    empty();
    jobs();
    more_counts();
}
