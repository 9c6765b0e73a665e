// The planner where jobs are due together, as card 6 of 02 has it: worked lists, every short list with two given deadlines, rows of a list
// again and again, and lists by chance with few deadlines. `stdout` was worked out apart from this program.
#![tactic(auto)]

mod tally; // tally.rt: what the planner answers to many lists
mod worked; // worked.rt: single lists
mod short; // short.rt: every short list
mod rows; // rows.rt: a list again and again
mod chance; // chance.rt: lists by chance

fn main() {
    worked::each();
    short::each();
    rows::each();
    chance::all();
}
