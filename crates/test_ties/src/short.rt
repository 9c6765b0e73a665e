// Every list of up to four jobs that are due at the end or a little behind the middle.
ghost use Rattle.std.specs.Prelude.{◌≡◌, ◌+◌, ◌/◌, ◌%◌, ◌<◌, ◌≤◌};

use crate::tally::Tally;
use test_bytes::{List, number, text};

// The lists of one kind: n jobs, so many slots, and so many jobs of which each can be any.
// kept: no type shared with test_tightest, for only these three numbers are alike: bounds and jobs differ.
#[derive(Clone, Copy)]
struct Kind {
    n: usize,
    h: u32,
    base: u32,
    ghost few: { (n ≤ 4) × (0 < h) × (h ≤ 8) × (0 < base) },
}

// A job has a number: its release is the rest by h; the next digit, 0 or 1, chooses the deadline; what is left is its volume less 1.
impl Kind {
    fn release(self, c: u32) -> u16
        ensures { result ≡ c % self.h % 65536 }
    {
        (c % self.h % 65536) as u16
    }

    fn deadline(self, c: u32) -> u16
        ensures { (c / self.h % 2 ≡ 0 → result ≡ self.h) × (c / self.h % 2 ≡ 1 → result ≡ self.h / 2 + 1) }
    {
        if c / self.h % 2 == 0 {
            return self.h as u16;
        }
        (self.h / 2 + 1) as u16
    }

    fn volume(self, c: u32) -> u16
        ensures { result ≡ c / self.h / 2 % 65535 + 1 }
    {
        (c / self.h / 2 % 65535 + 1) as u16
    }
}

// The number of a list has a digit a job to the base, job 0 lowest; this is the tally with that list.
fn one(tally: &mut Tally, kind: Kind, q: u16, code: u32) {
    let Kind { n, h, base } = kind;
    let jobs = [
        code % base,
        code / base % base,
        code / base / base % base,
        code / base / base / base % base,
    ];
    let list = List {
        h: h as u16,
        releases: &jobs.map(|c| kind.release(c))[..n],
        deadlines: &jobs.map(|c| kind.deadline(c))[..n],
        volumes: &jobs.map(|c| kind.volume(c))[..n],
    };
    tally.plan(list, q);
}

// Prints a line: `short`, how many jobs and slots, the wake cost, and the tally of the first `end` lists.
fn line(kind: Kind, q: u16, end: u32) {
    let mut tally = Tally::default();
    for code in 0..end {
        one(&mut tally, kind, q, code);
    }
    text(b"short");
    number(kind.n as u64);
    number(u64::from(kind.h));
    number(u64::from(q));
    tally.show();
}

// So for the wake costs 0 to 3.
fn costs(kind: Kind, end: u32) {
    for q in 0..4 {
        line(kind, q, end);
    }
}

// So for one to four jobs, with volumes of at most 3, and of at most 2 where there are four.
pub fn each() {
    costs(
        Kind {
            n: 1,
            h: 8,
            base: 48,
        },
        48,
    );
    costs(
        Kind {
            n: 2,
            h: 8,
            base: 48,
        },
        2304,
    );
    costs(
        Kind {
            n: 3,
            h: 6,
            base: 36,
        },
        46656,
    );
    costs(
        Kind {
            n: 4,
            h: 5,
            base: 20,
        },
        160000,
    );
}
