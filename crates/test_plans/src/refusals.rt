// Single lists, each printed with the number and values of its outcome, and with whether every byte
// that must stay has stayed.
ghost use Rattle.std.specs.Prelude.{◌≡◌, ◌%◌, length, replicate, slice_set};

use crate::kept::{MARK, kept};
use sched::Outcome;
use test_bytes::{begin, number, text};
use test_faults::Job;

// Lists of these lengths, and a table of `room` bytes. Every job is (0, h, 1), but jobs `one` and
// `other` are `odd`. The wake cost is 1, and `start` says whether the processor is awake before slot 0.
#[derive(Clone, Copy)]
struct Trial {
    h: u16,
    start: bool,
    releases: usize,
    deadlines: usize,
    volumes: usize,
    one: usize,
    other: usize,
    odd: Job,
    room: usize,
}

// n jobs (0, h, 1) from a start asleep, and a table that is long enough.
fn plain(h: u16, n: usize) -> Trial {
    Trial {
        h,
        start: false,
        releases: n,
        deadlines: n,
        volumes: n,
        one: 0,
        other: 0,
        odd: Job { r: 0, d: h, p: 1 },
        room: 4100,
    }
}

// One job (r, d, p) and eight slots.
fn single(r: u16, d: u16, p: u16) -> Trial {
    plain(8, 1).with_odd(0, 0, Job { r, d, p })
}

impl Trial {
    // The same with this job for the jobs `one` and `other`.
    fn with_odd(self, one: usize, other: usize, odd: Job) -> Trial {
        Trial {
            one,
            other,
            odd,
            ..self
        }
    }

    // The same with a table of so many bytes.
    fn with_room(self, room: usize) -> Trial {
        Trial { room, ..self }
    }

    // The same with so many releases, deadlines and volumes.
    fn with_lengths(self, releases: usize, deadlines: usize, volumes: usize) -> Trial {
        Trial {
            releases,
            deadlines,
            volumes,
            ..self
        }
    }

    // The planner's outcome for the trial's lists, of at most 66 entries each, with the table lent to it.
    fn planned(self, table: &mut [u8]) -> Outcome {
        let releases = entries(0, self.one, self.other, self.odd.r);
        let deadlines = entries(self.h, self.one, self.other, self.odd.d);
        let volumes = entries(1, self.one, self.other, self.odd.p);
        planner::plan(
            self.h,
            1,
            self.start,
            &releases[..self.releases.min(66)],
            &deadlines[..self.deadlines.min(66)],
            &volumes[..self.volumes.min(66)],
            table,
        )
    }
}

// Prints the number and values of an outcome, and yields the first byte of the table that must stay: h where it is planned, else 0.
fn show(h: u16, outcome: Outcome) -> usize {
    match outcome {
        Outcome::Planned(f) => {
            number(0);
            number(u64::from(f.energy));
            number(u64::from(f.awake));
            number(u64::from(f.runs));
            number(u64::from(f.added));
            usize::from(h)
        }
        Outcome::Overloaded(i) => {
            number(18);
            number(i.a as u64);
            number(i.b as u64);
            0
        }
        Outcome::Refused(r) => {
            number(u64::from(r.number()));
            number(r.place() as u64);
            0
        }
    }
}

// An entry for each of 66 jobs: the odd one for jobs `one` and `other`. The length is for safety, so that parts can be lent.
fn entries(common: u16, one: usize, other: usize, odd: u16) -> [u16; 66]
    ensures { (66 ≡ length result) × (result ≡ slice_set (slice_set (replicate 66 common) (one % 66) odd) (other % 66) odd) }
{
    let mut list = [common; 66];
    list[one % 66] = odd;
    list[other % 66] = odd;
    list
}

// Prints a line: the name by `begin`, the outcome of the trial from this start with the first `room` bytes (at most 4,100) lent as table, and
// `kept` if all bytes that must stay have stayed, else `changed`.
fn tried(start: bool, name: &[u8], t: Trial) {
    begin(start, name);
    let mut table = [MARK; 4100];
    let room = t.room.min(4100);
    let outcome = Trial { start, ..t }.planned(&mut table[..room]);
    let from = show(t.h, outcome);
    if kept(&table, from) {
        text(b" kept\n");
    } else {
        text(b" changed\n");
    }
}

// The worked cases of document 01 that are not proved, from this start, each printed by `tried`.
pub fn worked(start: bool) {
    tried(start, b"H 4096:", plain(4096, 1));
    tried(start, b"H 4097:", plain(4097, 1));
    tried(start, b"64 jobs:", plain(4096, 64));
    tried(start, b"65 jobs:", plain(4096, 65));
    tried(start, b"(4,4,1):", single(4, 4, 1));
    tried(start, b"(3,4,1):", single(3, 4, 1));
    tried(start, b"(0,4,0):", single(0, 4, 0));
    tried(start, b"(4,4,0):", single(4, 4, 0));
    tried(start, b"(9,9,0):", single(9, 9, 0));
    tried(start, b"d = H:", single(0, 8, 1));
    tried(start, b"d = H + 1:", single(0, 9, 1));
}

// Each refusal by itself, and what is next to it, from this start, printed so.
pub fn refused(start: bool) {
    tried(start, b"H 0:", plain(0, 0));
    tried(start, b"H 1, no jobs:", plain(1, 0));
    tried(start, b"H 65535:", plain(65535, 1));
    tried(
        start,
        b"a deadline less:",
        plain(8, 2).with_lengths(2, 1, 2),
    );
    tried(start, b"a volume more:", plain(8, 2).with_lengths(2, 2, 3));
    tried(
        start,
        b"first job faulty:",
        plain(4096, 64).with_odd(0, 0, Job { r: 9, d: 8, p: 1 }),
    );
    tried(
        start,
        b"last job faulty:",
        plain(4096, 64).with_odd(
            63,
            63,
            Job {
                r: 0,
                d: 4096,
                p: 0,
            },
        ),
    );
    tried(
        start,
        b"two jobs faulty:",
        plain(4096, 64).with_odd(
            41,
            17,
            Job {
                r: 0,
                d: 4097,
                p: 1,
            },
        ),
    );
    tried(start, b"table of H - 1:", plain(8, 2).with_room(7));
    tried(start, b"table of H:", plain(8, 2).with_room(8));
    tried(start, b"overload:", single(2, 5, 4));
}

// The k-th faulty job at place j of 64, with no table, so that 17 would come next, from a start asleep; printed so behind `fault`, k and j.
fn faulty(k: usize, j: usize) {
    text(b"fault");
    number(k as u64);
    number(j as u64);
    let trial = plain(4096, 64)
        .with_odd(j, j, test_faults::nth(k))
        .with_room(0);
    tried(false, b":", trial);
}

// All seven faulty jobs, each at the first, a middle and the last place.
pub fn faults() {
    for k in 0..7 {
        for j in [0, 31, 63] {
            faulty(k, j);
        }
    }
}

// Lists with several faults from this start, of which the first in the order is told, printed so.
pub fn ordered(start: bool) {
    let faulty = plain(8, 65).with_odd(0, 0, Job { r: 4, d: 4, p: 1 });
    let unequal = faulty.with_lengths(65, 65, 64).with_room(0);
    let all = Trial { h: 0, ..unequal };
    tried(start, b"12 before 19:", all);
    tried(start, b"19 before 12:", unequal);
    tried(start, b"12 before 15:", faulty.with_room(0));
    tried(
        start,
        b"26 before 17:",
        plain(1, 3)
            .with_odd(2, 2, Job { r: 0, d: 1, p: 0 })
            .with_room(0),
    );
    tried(
        start,
        b"26 before 18:",
        plain(1, 3).with_odd(2, 2, Job { r: 0, d: 1, p: 0 }),
    );
    tried(
        start,
        b"25 before 18:",
        plain(1, 3).with_odd(2, 2, Job { r: 0, d: 2, p: 1 }),
    );
    tried(
        start,
        b"15 before 18:",
        plain(1, 3).with_odd(2, 2, Job { r: 1, d: 1, p: 1 }),
    );
    tried(start, b"17 before 18:", plain(1, 3).with_room(0));
    tried(start, b"18 alone:", plain(1, 3));
}
