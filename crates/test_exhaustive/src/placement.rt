// The workable volume of a set of slots, by trying every placement.
ghost use Rattle.std.specs.Prelude.{◌≡◌, ◌+◌, ◌*◌, ◌%◌, ◌^◌, ◌≤◌};

use crate::small::{Small, bit, digit};

// Whether slot t is in the set and may run job j: j has a unit left (its digit of `left` is not 0), and r ≤ t < d.
pub fn can_run(l: Small, set: u32, left: u32, j: u32, t: u32) -> bool {
    bit(set, t) == 1 && digit(left, j) != 0 && digit(l.r, j) <= t && t < digit(l.d, j)
}

// The units left once job j has run for a slot: `left` with digit j lowered by one. Only asked where that digit is not 0.
pub fn after(left: u32, j: u32) -> u32
    ensures { (result + 2 ^ (j % 8 * 4)) % 2 ^ 32 ≡ left }
{
    left.wrapping_sub(1 << (j % 8 * 4))
}

// The most units that can be placed in the set's slots below `slots`, at most one a slot, each job in its own slots and at most as often
// as its digit of `left` says. The last of these slots takes none or one of the jobs.
// That it is at most `slots` is for safety, so that one more can be added.
fn most(l: Small, set: u32, left: u32, slots: u32) -> u32
    ensures { result ≤ slots }
{
    if slots == 0 {
        return 0;
    }
    let t = slots - 1;
    let mut best = most(l, set, left, t);
    for j in 0..4 {
        if can_run(l, set, left, j, t) {
            best = best.max(1 + most(l, set, after(left, j), t));
        }
    }
    best
}

// The workable volume of a set. The bound is for safety, so that one more can be added.
pub fn workable(l: Small, set: u32) -> u32
    ensures { result ≤ 8 }
{
    most(l, set, l.p, 8)
}
