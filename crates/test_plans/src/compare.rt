// Planner and exhaustive search on one list.
ghost use Rattle.std.specs.Prelude.{◌≡◌, [], ◌∷◌, length};
ghost use Rattle.test_exhaustive.specs.Digits.{digit_of};
ghost use Rattle.test_plans.specs.Tallies.{Sum};

use crate::kept::{MARK, kept};
use sched::Outcome;
use std::ops::AddAssign;
use test_exhaustive::{Interval, Small, Solved, digit};

// Counts over some lists: all of them, those that the search finds overloaded, those on which planner and search differ; and the sums of the
// search's energy and added, and of the least energy that a rival can have, over those that are not overloaded.
#[derive(Clone, Copy, Default)]
pub struct Tally {
    pub lists: u64,
    pub overloaded: u64,
    pub differing: u64,
    pub energy: u64,
    pub added: u64,
    pub rival: u64,
}

// The two tallies added, each field modulo 2^64, which no sweep comes near.
impl AddAssign for Tally {
    ghost add_assign_gives = { Sum };

    fn add_assign(&mut self, more: Tally) {
        self.lists = self.lists.wrapping_add(more.lists);
        self.overloaded = self.overloaded.wrapping_add(more.overloaded);
        self.differing = self.differing.wrapping_add(more.differing);
        self.energy = self.energy.wrapping_add(more.energy);
        self.added = self.added.wrapping_add(more.added);
        self.rival = self.rival.wrapping_add(more.rival);
    }
}

// Whether the first h bytes of the table, or all where there are fewer, are those of the search's; h is at most 8.
fn same_table(h: u32, want: &[u8; 8], table: &[u8]) -> bool {
    let h = h as usize;
    table
        .iter()
        .zip(want)
        .take(h)
        .all(|(have, want)| have == want)
}

// Whether the planner's outcome is the search's, where `least` is the least energy of a feasible table. Planned: the same four figures, the same
// table with the bytes behind h kept, and an energy of at most that of the cheapest feasible table from the same start, which exists, plus the sum of
// volumes. Overloaded: the same interval, no feasible table exists, and the whole table is kept. Refused: never.
fn agrees(
    l: Small,
    want: &Result<Solved, Interval>,
    least: Option<u32>,
    outcome: Outcome,
    table: &[u8],
) -> bool {
    match (outcome, want, least) {
        (Outcome::Planned(f), Ok(plan), Some(least)) => {
            f.energy == plan.energy
                && f.awake == plan.awake
                && f.runs == plan.runs
                && f.added == plan.added
                && u64::from(f.energy) <= u64::from(least) + u64::from(test_exhaustive::volume(l))
                && same_table(l.h, &plan.table, table)
                && kept(table, l.h as usize)
        }
        (Outcome::Overloaded(i), Err(shown), None) => {
            i.a == shown.a as usize && i.b == shown.b as usize && kept(table, 0)
        }
        _ => false,
    }
}

// A field of four jobs from its packed form. The length is for safety, so that parts can be lent.
fn entries(x: u32) -> [u16; 4]
    ensures { (4 ≡ length result) × (result ≡ digit_of x 0 ∷ digit_of x 1 ∷ digit_of x 2 ∷ digit_of x 3 ∷ []) }
{
    [
        digit(x, 0) as u16,
        digit(x, 1) as u16,
        digit(x, 2) as u16,
        digit(x, 3) as u16,
    ]
}

// The planner's outcome for the list, with the table lent to it; n is at most 4 and h at most 8.
fn planned(l: Small, table: &mut [u8]) -> Outcome {
    let n = l.n.min(4) as usize;
    let releases = entries(l.r);
    let deadlines = entries(l.d);
    let volumes = entries(l.p);
    planner::plan(
        l.h.min(8) as u16,
        l.q,
        l.start,
        &releases[..n],
        &deadlines[..n],
        &volumes[..n],
        table,
    )
}

// The tally of this one list: `differing` is 0 where planner and search agree on a lent table of 16 bytes, else 1.
pub fn compare(l: Small) -> Tally {
    let want = test_exhaustive::solve(l);
    let least = test_exhaustive::least_energy(l);
    let mut table = [MARK; 16];
    let outcome = planned(l, &mut table);
    let one = Tally {
        lists: 1,
        differing: u64::from(!agrees(l, &want, least, outcome, &table)),
        ..Tally::default()
    };
    match want {
        Ok(plan) => Tally {
            energy: u64::from(plan.energy),
            added: u64::from(plan.added),
            rival: least.map_or(0, u64::from),
            ..one
        },
        Err(_) => Tally {
            overloaded: 1,
            ..one
        },
    }
}
