// The tightest interval, as card 7 of 02 has it: worked lists, refusals, every short list, and lists by chance. Of the last two the planner is asked,
// too: how many are overloaded must be how many have a slack below zero. `stdout` was worked out apart from this program.
#![tactic(auto)]

mod answer; // answer.rt: one answer, and signed numbers
mod tally; // tally.rt: the answers to many lists
mod worked; // worked.rt: single lists
mod refusals; // refusals.rt: single lists, all but one refused
mod short; // short.rt: every short list
mod chance; // chance.rt: lists by chance

fn main() {
    worked::each();
    refusals::each();
    short::each();
    chance::each();
}
