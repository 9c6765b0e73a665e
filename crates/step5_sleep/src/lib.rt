// Step 5, after cards 5 and 10 of 02: the slots in which no job runs stay awake or go to sleep. It asks for a table, a wake cost and the start, not
// for a list.
#![tactic(auto)]

ghost use Rattle.std.specs.Prelude.{◌≡◌, ◌≤◌, ltb};
ghost use Rattle.std.proofs.Math.Option.{some};
ghost use Rattle.sched.specs.Slots.{mark_byte};
ghost use Rattle.steps.specs.Sleep.{stays_awake, sleep_rule};
ghost use Rattle.step5_sleep.specs.Settling.{work_ending};

use sched::{ASLEEP, IDLE};

// Bytes below this one are job numbers.
const JOBS: u8 = 64;

// The byte of a stretch of so many slots before a working one, with the processor awake when it begins.
fn byte_of(q: u16, slots: usize) -> u8
    ensures { result ≡ mark_byte (ltb slots q) }
{
    if slots < q as usize { IDLE } else { ASLEEP }
}

// The byte of the stretch of slots from `from` up to the working slot `to`. The slot before `from` works, unless `from` is 0.
fn byte_between(q: u16, start: bool, from: usize, to: usize) -> u8
    requires { from ≤ to }
    ensures { result ≡ mark_byte (stays_awake q start (work_ending from) (some to)) }
{
    if from == 0 && !start {
        return ASLEEP;
    }
    byte_of(q, to - from)
}

// The table after the rule: working slots (those with a job number) as they are, every other slot idle or asleep.
pub fn sleep(q: u16, start: bool, table: &mut [u8])
    ensures { table.new ≡ sleep_rule q start table.old }
{
    // the slot behind the last working one, 0 before there is one
    // kept: 0 and no None, since the open stretch begins there as well
    let mut from = 0;
    for t in 0..table.len() {
        if table[t] < JOBS {
            sched::fill(table, from, t, byte_between(q, start, from, t));
            from = t + 1;
        }
    }
    let h = table.len();
    sched::fill(table, from, h, ASLEEP);
}
