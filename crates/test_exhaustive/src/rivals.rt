// The least energy over every feasible table, from the list's start.
ghost use Rattle.std.specs.Prelude.{◌+◌, ◌*◌, ◌<◌, ◌≤◌, IfSome};

use crate::placement::{after, can_run};
use crate::small::{Small, units};

// This much or more stands for no table at all; every table of eight slots costs less.
// kept: a number, not `None`, so that the recursion adds and takes the lesser as for any other energy.
const NONE: u32 = 1000000;

// What is paid behind a slot or the start: q if it is asleep and an awake slot follows, else 0. So a run is paid in front of its first slot.
// The bound is for safety, so that energies can be added.
fn paid(q: u16, awake: bool, later_awake: bool) -> u32
    ensures { result ≤ 65535 }
{
    if awake || !later_awake {
        return 0;
    }
    u32::from(q)
}

// The least energy of the slots below `slots`, with what is paid behind each of them and the start, over all ways to complete a feasible table
// whose later part leaves the units `left` and begins with an awake slot or not; NONE or more if there is no way. The bound is for safety, so
// that a slot's cost can be added.
fn least(l: Small, left: u32, slots: u32, later_awake: bool) -> u32
    requires { slots ≤ 8 }
    ensures { result ≤ 1000000 + 65536 * slots }
{
    if slots == 0 {
        return if left == 0 {
            paid(l.q, l.start, later_awake)
        } else {
            NONE
        };
    }
    let t = slots - 1;
    // Slot t runs no job: there is no way if the slots before it are fewer than the units.
    let mut best = NONE;
    if units(left) <= t {
        let asleep = paid(l.q, false, later_awake) + least(l, left, t, false);
        let idle = 1 + least(l, left, t, true);
        best = asleep.min(idle);
    }
    // Slot t runs a job.
    for j in 0..4 {
        if can_run(l, 255, left, j, t) {
            best = best.min(1 + least(l, after(left, j), t, true));
        }
    }
    best
}

// The least energy of a feasible table, or none where no table is feasible. The contract only bounds it.
pub fn least_energy(l: Small) -> Option<u32>
    ensures { IfSome result (λ e. e < 1000000) }
{
    let e = least(l, l.p, l.h % 9, false);
    if e < NONE { Some(e) } else { None }
}
