// Step 5 by itself, as cards 5 and 10 of 02 have it: worked tables, every short table, a stretch of each length that matters, and tables by chance;
// all of it from a start asleep, and then from a start awake. `stdout` is worked out apart from this program, by `tests/host/sweeps`.
#![tactic(auto)]

mod tally; // tally.rt: what many tables are after the rule
mod worked; // worked.rt: single tables
mod every; // every.rt: every short table
mod stretch; // stretch.rt: one stretch between two working slots
mod chance; // chance.rt: tables by chance

// All lines from one start, which is whether the processor is awake before slot 0.
fn lines(start: bool) {
    worked::each(start);
    every::each(start);
    stretch::each(start);
    chance::all(start);
}

fn main() {
    lines(false);
    lines(true);
}
