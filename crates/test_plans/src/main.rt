// The worked cases of document 01 that are not proved, every refusal of the planner, and a comparison
// of the planner with the exhaustive search over a fixed set of small lists; all but `faults` from either start.
#![tactic(auto)]

mod kept; // kept.rt: bytes that must stay
mod refusals; // refusals.rt: single lists, printed
mod lists; // lists.rt: the lists of the comparison
mod compare; // compare.rt: planner and search on one list
mod sweep; // sweep.rt: the comparison over all lists

fn main() {
    refusals::worked(false);
    refusals::refused(false);
    refusals::faults();
    refusals::ordered(false);
    refusals::worked(true);
    refusals::refused(true);
    refusals::ordered(true);
    sweep::all(false);
    sweep::all(true);
}
