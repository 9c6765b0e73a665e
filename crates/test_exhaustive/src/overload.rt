// Step 1: every interval, by rising end and falling start.
ghost use Rattle.std.specs.Prelude.{◌<◌, ◌≤◌};

use crate::small::{Small, digit};

// An overloaded interval, from a up to but without b.
#[derive(Clone, Copy)]
pub struct Interval {
    pub a: u32,
    pub b: u32,
}

// Job j's volume if a ≤ r and d ≤ b, else 0. The bound is for safety, so that four of them can be added.
fn inside(l: Small, j: u32, a: u32, b: u32) -> u32
    ensures { result < 16 }
{
    if a <= digit(l.r, j) && digit(l.d, j) <= b {
        return digit(l.p, j);
    }
    0
}

// Whether the jobs with a ≤ r and d ≤ b have more volume together than b - a.
fn overloaded(l: Small, a: u32, b: u32) -> bool
    requires { a ≤ b }
{
    b - a < inside(l, 0, a, b) + inside(l, 1, a, b) + inside(l, 2, a, b) + inside(l, 3, a, b)
}

// The start of the overloaded interval that ends at b and has the greatest start, if there is one.
fn last_start(l: Small, b: u32) -> Option<u32> {
    for a in (0..b).rev() {
        if overloaded(l, a, b) {
            return Some(a);
        }
    }
    None
}

// Step 1: the interval shown, if there is an overloaded one. It has the least end and, among those, the greatest start.
pub fn shown(l: Small) -> Option<Interval> {
    for b in 1..=l.h.min(8) {
        if let Some(a) = last_start(l, b) {
            return Some(Interval { a, b });
        }
    }
    None
}
