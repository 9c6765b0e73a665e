// Every list of up to three jobs in up to four slots, with releases up to h, deadlines up to h + 1 and volumes up to 3: most are refused.
ghost use Rattle.std.specs.Prelude.{◌≡◌, ◌+◌, ◌/◌, ◌%◌, ◌<◌, ◌≤◌};

use crate::tally::Tally;
use test_bytes::{List, number, text};

// The lists of one kind: slots, jobs, and how many different jobs there are.
// kept: no type shared with test_ties, for only these three numbers are alike: bounds and jobs differ.
#[derive(Clone, Copy)]
struct Kind {
    h: u32,
    n: usize,
    base: u32,
    ghost few: { (h ≤ 4) × (n ≤ 3) × (0 < base) },
}

// A job has a number: its lowest digit, 0 to h, is the release, the next, 0 to h + 1, the deadline, the next, 0 to 3, the volume. The remainders
// by 65,536 change nothing, they are there for the casts.
impl Kind {
    fn release(self, c: u32) -> u16
        ensures { result ≡ c % (self.h + 1) % 65536 }
    {
        (c % (self.h + 1) % 65536) as u16
    }

    fn deadline(self, c: u32) -> u16
        ensures { result ≡ c / (self.h + 1) % (self.h + 2) % 65536 }
    {
        (c / (self.h + 1) % (self.h + 2) % 65536) as u16
    }

    fn volume(self, c: u32) -> u16
        ensures { result ≡ c / (self.h + 1) / (self.h + 2) % 4 }
    {
        (c / (self.h + 1) / (self.h + 2) % 4) as u16
    }
}

// The number of a list has a digit a job to the base, job 0 lowest; this is the tally with that list.
fn one(tally: &mut Tally, kind: Kind, code: u32) {
    let Kind { h, n, base } = kind;
    let jobs = [code % base, code / base % base, code / base / base % base];
    let list = List {
        h: h as u16,
        releases: &jobs.map(|c| kind.release(c))[..n],
        deadlines: &jobs.map(|c| kind.deadline(c))[..n],
        volumes: &jobs.map(|c| kind.volume(c))[..n],
    };
    tally.gauge(list);
}

// Prints a line: `short`, how many slots and jobs, and the tally of the first `end` lists.
fn line(kind: Kind, end: u32) {
    let mut tally = Tally::default();
    for code in 0..end {
        one(&mut tally, kind, code);
    }
    text(b"short");
    number(u64::from(kind.h));
    number(kind.n as u64);
    tally.show();
}

// So for none to three jobs, of which each can be any of `base`.
fn lengths(h: u32, base: u32, square: u32, cube: u32)
    requires { (h ≤ 4) × (0 < base) }
{
    line(Kind { h, n: 0, base }, 1);
    line(Kind { h, n: 1, base }, base);
    line(Kind { h, n: 2, base }, square);
    line(Kind { h, n: 3, base }, cube);
}

// So for one to four slots. There are 4 (h + 1) (h + 2) jobs.
pub fn each() {
    lengths(1, 24, 576, 13824);
    lengths(2, 48, 2304, 110592);
    lengths(3, 80, 6400, 512000);
    lengths(4, 120, 14400, 1728000);
}
