// The comparison over all lists.
ghost use Rattle.std.specs.Prelude.{◌<◌};

use crate::compare::{Tally, compare};
use crate::lists::{drawn, listed, valid};
use test_bytes::{Chance, begin, text};

// The tally of the lists with this start that pass `valid`, have n jobs and a horizon of at most m, and are listed under a number below `end`.
fn every(n: u32, m: u32, end: u32, start: bool) -> Tally
    requires { 0 < m }
{
    let mut tally = Tally::default();
    for code in 0..end {
        let l = listed(n, m, code, start);
        if valid(l) {
            tally += compare(l);
        }
    }
    tally
}

// The tally of so many drawn lists with this start; equal numbers give equal lists from either start.
fn some(count: u32, start: bool) -> Tally {
    let mut tally = Tally::default();
    let mut chance = Chance { state: 1 };
    for _ in 0..count {
        tally += compare(drawn(&mut chance, start));
    }
    tally
}

// Prints the name and x in decimal.
fn field(name: &[u8], x: u64) {
    text(name);
    io::print_decimal(1, x);
}

// Prints the tally, and ends the line.
fn show(t: Tally) {
    field(b" lists ", t.lists);
    field(b" overloaded ", t.overloaded);
    field(b" differing ", t.differing);
    field(b" energy ", t.energy);
    field(b" added ", t.added);
    field(b" rival ", t.rival);
    text(b"\n");
}

// Prints five lines: the tally of the lists with this start that pass `valid` with no, one and two jobs and at most eight slots, then with three jobs
// and at most five, and of 200,000 drawn ones. The numbers of all lists of n jobs lie below 5 m^(3 n + 1).
pub fn all(start: bool) {
    begin(start, b"no job:");
    show(every(0, 8, 40, start));
    begin(start, b"one job:");
    show(every(1, 8, 20480, start));
    begin(start, b"two jobs:");
    show(every(2, 8, 10485760, start));
    begin(start, b"three jobs:");
    show(every(3, 5, 48828125, start));
    begin(start, b"drawn:");
    show(some(200000, start));
}
