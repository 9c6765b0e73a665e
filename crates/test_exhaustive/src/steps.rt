// Steps 3 and 4, the latter as card 6 of document 02 has it.
ghost use Rattle.std.specs.Prelude.{◌<◌, ◌≤◌};

use crate::placement::{after, workable};
use crate::small::{Small, bit, digit, volume, with};

// The set after step 3, and how many slots were woken.
#[derive(Clone, Copy)]
pub struct Extended {
    pub set: u32,
    pub added: u32,
}

// Whether slot t lies next to a slot of the set. The bound is for safety, so that t has a next slot.
fn next_to(set: u32, t: u32) -> bool
    requires { t < 8 }
{
    0 < t && bit(set, t - 1) == 1 || bit(set, t + 1) == 1
}

// The slot that step 3 wakes next: the least one that is not in the set, touches it and raises its workable volume by one, if there is one.
fn least_helping(l: Small, set: u32) -> Option<u32> {
    let now = workable(l, set);
    for t in 0..l.h.min(8) {
        if bit(set, t) == 0 && next_to(set, t) && workable(l, with(set, t)) == now + 1 {
            return Some(t);
        }
    }
    None
}

// Step 3 from a skeleton: the set in which all volume can be worked, and how many slots were woken. Where no interval is overloaded a
// helping slot always exists; if one were missing, `added` would end at 8. The contract only bounds `added`.
pub fn extend(l: Small, skeleton: u32) -> Extended
    ensures { result.added ≤ 8 }
{
    let mut set = skeleton;
    for added in 0..8 {
        if volume(l) <= workable(l, set) {
            return Extended { set, added };
        }
        if let Some(t) = least_helping(l, set) {
            set = with(set, t);
        }
    }
    Extended { set, added: 8 }
}

// Whether job j is released in slot t and unfinished: r ≤ t, and its digit of `left` is not 0.
fn waits(l: Small, left: u32, t: u32, j: u8) -> bool {
    digit(left, u32::from(j)) != 0 && digit(l.r, u32::from(j)) <= t
}

fn deadline(l: Small, j: u8) -> u32 {
    digit(l.d, u32::from(j))
}

// Of the jobs that wait in slot t the one with the earliest deadline, on equal deadlines the lowest number.
fn first_due(l: Small, left: u32, t: u32) -> Option<u8> {
    (0..4)
        .filter(|j| waits(l, left, t, *j))
        .min_by_key(|j| deadline(l, *j))
}

// The job that an awake slot t runs, if one waits: of those that wait and have the earliest deadline the one that ran in the latest earlier working
// slot, `last`, if it is one of them, else the lowest number.
fn job_of(l: Small, left: u32, t: u32, last: Option<u8>) -> Option<u8> {
    let first = first_due(l, left, t)?;
    match last {
        Some(j) if waits(l, left, t, j) && deadline(l, j) == deadline(l, first) => Some(j),
        _ => Some(first),
    }
}

// The job of the latest working slot, by looking through the table so far.
fn latest(table: &[u8]) -> Option<u8> {
    table.iter().copied().rev().find(|byte| *byte < 4)
}

// Step 4: the table of a set: in slot t the number of the job that it runs, 254 where it is idle, 255 where it is not in the set; so the slots
// from h to 7 hold 255.
pub fn fill(l: Small, set: u32) -> [u8; 8] {
    let mut left = l.p;
    let mut table = [255; 8];
    for t in 0..8 {
        if bit(set, t) == 1 {
            let slot = t as usize;
            table[slot] = 254;
            if let Some(j) = job_of(l, left, t, latest(&table[..slot])) {
                table[slot] = j;
                left = after(left, u32::from(j));
            }
        }
    }
    table
}
