// Faulty jobs, read and written: each of the seven at the first, a middle and the last place, and two faulty jobs in one list.
use super::longest;
use test_bytes::{first, put};
use test_faults::Job;

// Puts a job into the bytes of the longest list, as job j of its 64; each field stands there, low byte first.
fn put_job(bytes: &mut [u8], j: usize, job: Job) {
    let at = 5 + 7 * (j % 64);
    for (k, field) in [job.r, job.d, job.p].into_iter().enumerate() {
        let [low, high] = field.to_le_bytes();
        put(bytes, at + 2 * k + 1, low);
        put(bytes, at + 2 * k + 2, high);
    }
}

// Reads the longest list with two other jobs in it, j and i.
fn read_others(j: usize, job: Job, i: usize, other: Job) {
    let mut bytes = longest::LONGEST;
    put_job(&mut bytes, j, job);
    put_job(&mut bytes, i, other);
    super::read(first(&bytes, 453));
}

// Writes 64 jobs (1, 2, 65535), of which j and i are others, to a buffer that is one byte short.
fn write_others(j: usize, job: Job, i: usize, other: Job) {
    let mut releases = [1u16; 64];
    let mut deadlines = [2u16; 64];
    let mut volumes = [65535u16; 64];
    let mut out = [9u8; 452];
    releases[j % 64] = job.r;
    deadlines[j % 64] = job.d;
    volumes[j % 64] = job.p;
    releases[i % 64] = other.r;
    deadlines[i % 64] = other.d;
    volumes[i % 64] = other.p;
    super::write(4096, 0, &releases, &deadlines, &volumes, &mut out);
}

// Reads and writes lists of which job j is the k-th faulty one.
fn both(j: usize, k: usize) {
    let job = test_faults::nth(k);
    read_others(j, job, j, job);
    write_others(j, job, j, job);
}

// Two faulty jobs: the lower one is told, whatever the two faults are.
fn two(k: usize, other: usize) {
    read_others(5, test_faults::nth(k), 40, test_faults::nth(other));
    write_others(40, test_faults::nth(other), 5, test_faults::nth(k));
}

// All of it.
pub fn each() {
    for j in [0, 31, 63] {
        for k in 0..7 {
            both(j, k);
        }
    }
    two(2, 0);
    two(1, 0);
    two(2, 1);
}
