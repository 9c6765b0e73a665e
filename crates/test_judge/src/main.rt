// The judge on all small tables: horizons 1 to 4, up to two jobs of any span with volumes 1 to 3, and five bytes for each slot. Some of the jobs are
// faulty; they stay in. All of it from a start asleep, and then from a start awake. `stdout` is worked out apart, by `tests/host/sweeps`.
#![tactic(auto)]

mod small; // small.rt: jobs and tables by number
mod tally; // tally.rt: the answers for many tables
mod sweep; // sweep.rt: all of them

// All lines from one start, which is whether the processor is awake before slot 0.
fn lines(start: bool) {
    for h in 1..5 {
        sweep::each(start, h);
    }
}

fn main() {
    lines(false);
    lines(true);
}
