// Document 01's steps from either start, by card 10 of 02, the fourth as card 6 has it and the fifth as cards 5 and 10 do, on lists of at most four
// jobs and eight slots, by trying every set of slots and every placement. Test code: it is held against the planner, and shares no function with it.
// What a function yields is said above it and tested by `test_plans`; it is proved only where its contract has an equation.
#![tactic(auto)]

ghost use Rattle.std.specs.Prelude.{IfOk};
ghost use Rattle.test_exhaustive.specs.Bounds.{Bounded};

mod small; // small.rt: a small list packed in numbers
mod overload; // overload.rt: step 1
mod sets; // sets.rt: sets of slots, what they cost, and step 2
mod placement; // placement.rt: the workable volume of a set
mod steps; // steps.rt: steps 3 and 4
mod sleep; // sleep.rt: step 5
mod rivals; // rivals.rt: every feasible table

pub use overload::Interval;
pub use rivals::least_energy;
pub use small::{Small, digit, volume};

// The plan of a list by document 01 with cards 5, 6 and 10.
#[derive(Clone, Copy)]
pub struct Solved {
    pub energy: u32,
    pub awake: u32,
    pub runs: u32,
    pub added: u32,
    // Slots from h on are asleep.
    pub table: [u8; 8],
}

// The outcome of steps 1 to 5 of 01, with cards 5, 6 and 10: the plan or, where the list is overloaded, the interval shown. `added` is what step 3
// woke, the other figures are those of the set that step 5 leaves awake. The contract only bounds the figures; that they are right is what the
// comparison tests.
pub fn solve(l: Small) -> Result<Solved, Interval>
    ensures { IfOk result Bounded }
{
    if let Some(shown) = overload::shown(l) {
        return Err(shown);
    }
    let extended = steps::extend(l, sets::least_skeleton(l));
    let filled = steps::fill(l, extended.set);
    let set = sleep::awake(l, &filled);
    let cost = sets::cost_of(l.q, l.start, set);
    Ok(Solved {
        energy: cost.energy,
        awake: cost.awake,
        runs: cost.runs,
        added: extended.added,
        table: sleep::settle(filled, set),
    })
}
