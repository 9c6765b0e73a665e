// What the planner answers to many lists.
use sched::{Interval, Outcome, PlanFigures, Refusal};
use test_bytes::{List, end_line, mixed, number};

// How many lists were planned, refused or overloaded; the figures of the plans and how often the job changes in their tables, added up; and a digest
// of all answers and tables. The sums are modulo 2^64, which none here comes near.
#[derive(Clone, Copy, Default)]
pub struct Tally {
    pub lists: u64,
    pub refused: u64,
    pub overloaded: u64,
    pub energy: u64,
    pub awake: u64,
    pub runs: u64,
    pub added: u64,
    pub changes: u64,
    pub sum: u64,
}

// How many working slots run another job than the latest working slot before them.
fn changes(table: &[u8]) -> u64 {
    let mut n: u64 = 0;
    let mut last = None;
    for &here in table {
        if here < 64 {
            if last.is_some_and(|job| job != here) {
                n = n.wrapping_add(1);
            }
            last = Some(here);
        }
    }
    n
}

impl Tally {
    // The digest with one number more.
    fn mix(&mut self, x: u64) {
        self.sum = mixed(self.sum, x);
    }

    fn planned(&mut self, f: PlanFigures, table: &[u8]) {
        self.energy = self.energy.wrapping_add(u64::from(f.energy));
        self.awake = self.awake.wrapping_add(u64::from(f.awake));
        self.runs = self.runs.wrapping_add(u64::from(f.runs));
        self.added = self.added.wrapping_add(u64::from(f.added));
        self.changes = self.changes.wrapping_add(changes(table));
        self.mix(0);
        self.sum = test_bytes::digest_from(self.sum, table);
        self.mix(u64::from(f.energy));
        self.mix(u64::from(f.awake));
        self.mix(u64::from(f.runs));
        self.mix(u64::from(f.added));
    }

    fn overloaded(&mut self, i: Interval) {
        self.overloaded = self.overloaded.wrapping_add(1);
        self.mix(18);
        self.mix(i.a as u64);
        self.mix(i.b as u64);
    }

    fn refused(&mut self, r: Refusal) {
        self.refused = self.refused.wrapping_add(1);
        self.mix(u64::from(r.number()));
        self.mix(r.place() as u64);
    }

    // The answer to one list more, with a table of just h slots, where h is at most 1,024.
    pub fn plan(&mut self, list: List<'_>, q: u16) {
        let mut store = [165u8; 1024];
        let size = usize::from(list.h).min(1024);
        let table = &mut store[..size];
        let outcome = planner::plan(
            list.h,
            q,
            false,
            list.releases,
            list.deadlines,
            list.volumes,
            table,
        );
        self.lists = self.lists.wrapping_add(1);
        match outcome {
            Outcome::Planned(f) => self.planned(f, table),
            Outcome::Overloaded(i) => self.overloaded(i),
            Outcome::Refused(r) => self.refused(r),
        }
    }

    // Prints the tally, and ends the line.
    pub fn show(&self) {
        number(self.lists);
        number(self.refused);
        number(self.overloaded);
        number(self.energy);
        number(self.awake);
        number(self.runs);
        number(self.added);
        number(self.changes);
        number(self.sum);
        end_line();
    }
}
