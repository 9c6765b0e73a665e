// Step 5, as cards 5 and 10 of document 02 have it, by trying every set of slots that holds the working ones. A stretch between two working slots,
// or between a start awake and the first one, costs its length if it is awake, q if it sleeps, and more than q if only a part of it is awake; an
// awake slot outside always costs. So of all these sets the cards' is the cheapest, and where a stretch has just q slots, the one of the cheapest
// with the fewest slots.
use crate::sets::cheapest;
use crate::small::{Small, bit, with};

// The working slots.
fn working(table: &[u8; 8]) -> u32 {
    let mut set = 0;
    for t in 0..8 {
        if table[t as usize] < 64 {
            set = with(set, t);
        }
    }
    set
}

// The slots that are awake: of all sets of slots below h that hold the working ones, the cheapest and, among equals, the one with the fewest slots.
pub fn awake(l: Small, table: &[u8; 8]) -> u32 {
    let work = working(table);
    cheapest(l, |set| set | work == set, |set| set.count_ones())
}

// The table afterwards: working slots stay, the others hold 254 where they are in the set, else 255; so the slots from h to 7 hold 255.
pub fn settle(table: [u8; 8], set: u32) -> [u8; 8] {
    let mut next = table;
    for t in 0..8 {
        let slot = t as usize;
        if 64 <= next[slot] {
            next[slot] = if bit(set, t) == 1 { 254 } else { 255 };
        }
    }
    next
}
