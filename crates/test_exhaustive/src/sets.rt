// Sets of slots: bit t is slot t. What they cost, and step 2 over all of them.
ghost use Rattle.std.specs.Prelude.{◌<◌, ◌≤◌};

use crate::small::{Small, bit, digit};

// The energy of a set from a start, its number of slots, and its number of runs.
#[derive(Clone, Copy)]
pub struct Cost {
    pub energy: u32,
    pub awake: u32,
    pub runs: u32,
}

// 1 where slot t is in the set and the one before it is not, else 0: a run begins. There is none before slot 0, for the start is no slot.
// The bound is for safety, so that eight of them can be added.
fn starts(set: u32, t: u32) -> u32
    ensures { result < 2 }
{
    if 0 < t && bit(set, t - 1) == 1 {
        return 0;
    }
    bit(set, t)
}

// Whether the processor wakes for slot t: a run begins there, and not at slot 0 from a start awake.
fn wakes(start: bool, set: u32, t: u32) -> bool {
    starts(set, t) == 1 && (0 < t || !start)
}

// What slot t adds to the energy: 0 asleep, 1 + q where the processor wakes for it, else 1. The bound is for safety, so that eight of them can be
// added.
fn spent(q: u16, start: bool, set: u32, t: u32) -> u32
    ensures { result ≤ 65536 }
{
    if wakes(start, set, t) {
        return 1 + u32::from(q);
    }
    bit(set, t)
}

// What the slots below 8 of a set cost from this start. The contract only bounds the figures.
pub fn cost_of(q: u16, start: bool, set: u32) -> Cost
    ensures { (result.energy ≤ 524288) × (result.awake ≤ 8) × (result.runs ≤ 8) }
{
    let mut energy = 0;
    let mut awake = 0;
    let mut runs = 0;
    for t in 0..8 {
        energy += spent(q, start, set, t);
        awake += bit(set, t);
        runs += starts(set, t);
    }
    Cost {
        energy,
        awake,
        runs,
    }
}

// Whether the set has a slot among r-1 to d of job j, as far as these lie in 0 to h-1.
fn touches(l: Small, j: u32, set: u32) -> bool {
    (0..l.h.min(8)).any(|t| digit(l.r, j) <= t + 1 && t <= digit(l.d, j) && bit(set, t) == 1)
}

// Whether the set is a skeleton: it has such a slot for each of the n jobs.
fn is_skeleton(l: Small, set: u32) -> bool {
    (0..l.n.min(4)).all(|j| touches(l, j, set))
}

// Of the allowed sets of slots below h the cheapest from the list's start and, among equals, the one of least rank.
// All slots below h together must be allowed.
pub fn cheapest<A: Fn(u32) -> bool, R: Fn(u32) -> u32>(l: Small, allowed: A, rank: R) -> u32
    requires allowed { A.IsAlwaysCallable allowed }
    requires rank { R.IsAlwaysCallable rank }
{
    let all = 255 >> (8 - l.h % 9);
    let mut best = all;
    let mut least = (cost_of(l.q, l.start, all).energy, rank(all));
    for set in 0..all {
        if allowed(set) {
            let here = (cost_of(l.q, l.start, set).energy, rank(set));
            if here < least {
                best = set;
                least = here;
            }
        }
    }
    best
}

// Step 2: the skeleton of least energy and, among equals, the one that is asleep at the first slot where two differ: with slot 0 as the highest bit
// it is the least number. All slots below h together are a skeleton of every list.
pub fn least_skeleton(l: Small) -> u32 {
    cheapest(l, |set| is_skeleton(l, set), |set| set.reverse_bits())
}
