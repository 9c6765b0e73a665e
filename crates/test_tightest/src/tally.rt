// The answers to many lists, and the planner's.
use sched::{Outcome, Refusal};
use test_bytes::{List, end_line, mixed, number};
use tightest::Tight;

// How many lists there are; how many were refused, how many have a slack below zero, how many a slack of zero; for how many the planner says
// overload; and a digest of all answers. Counts are modulo 2^64, which none here comes near.
#[derive(Clone, Copy, Default)]
pub struct Tally {
    pub lists: u64,
    pub refused: u64,
    pub below: u64,
    pub zero: u64,
    pub overloaded: u64,
    pub sum: u64,
}

// Whether the planner says overload, with a table of just h slots, where h is at most 4,096.
fn overloads(list: List<'_>) -> bool {
    let mut store = [165u8; 4096];
    let size = usize::from(list.h).min(4096);
    let outcome = planner::plan(
        list.h,
        0,
        false,
        list.releases,
        list.deadlines,
        list.volumes,
        &mut store[..size],
    );
    matches!(outcome, Outcome::Overloaded(_))
}

impl Tally {
    // The digest with one number more.
    fn mix(&mut self, x: u64) {
        self.sum = mixed(self.sum, x);
    }

    // An interval and its slack, whose sign goes before its absolute value.
    fn found(&mut self, t: Tight) {
        self.below = self.below.wrapping_add(u64::from(t.slack < 0));
        self.zero = self.zero.wrapping_add(u64::from(t.slack == 0));
        self.mix(0);
        self.mix(u64::from(t.slack < 0));
        self.mix(u64::from(t.slack.unsigned_abs()));
        self.mix(t.a as u64);
        self.mix(t.b as u64);
    }

    fn refused(&mut self, r: Refusal) {
        self.refused = self.refused.wrapping_add(1);
        self.mix(u64::from(r.number()));
        self.mix(r.place() as u64);
    }

    // The answers to one list more.
    pub fn gauge(&mut self, list: List<'_>) {
        self.lists = self.lists.wrapping_add(1);
        self.overloaded = self.overloaded.wrapping_add(u64::from(overloads(list)));
        match tightest::find(list.h, list.releases, list.deadlines, list.volumes) {
            Ok(t) => self.found(t),
            Err(r) => self.refused(r),
        }
    }

    // Prints the tally, and ends the line.
    pub fn show(&self) {
        number(self.lists);
        number(self.refused);
        number(self.below);
        number(self.zero);
        number(self.overloaded);
        number(self.sum);
        end_line();
    }
}
