// The eight maps, read and written: each alone with every short entry behind it, lists of every map behind every map, one map exchanged for another,
// and bytes by chance. `stdout` was worked out apart from this program.
#![tactic(auto)]

mod digits; // digits.rt: the digits of numbers that stand for lists
mod tally; // tally.rt: the answers to many inputs
mod alone; // alone.rt: one entry
mod lists; // lists.rt: lists of up to four jobs, and one map exchanged
mod chance; // chance.rt: bytes by chance

fn main() {
    alone::each();
    lists::each();
    chance::all();
}
