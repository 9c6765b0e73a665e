// Tables that are awake by stretches of seven slots, so that runs begin and end at every bit of a map byte.

// Slot t is awake if t modulo 11 is 3 to 9, and then has t modulo 64; else it sleeps (255).
fn stretch(t: usize) -> u8 {
    match t % 11 {
        3..=9 => (t % 64) as u8,
        _ => 255,
    }
}

// Makes each slot so.
pub fn fill(t: &mut [u8]) {
    for (i, slot) in t.iter_mut().enumerate() {
        *slot = stretch(i);
    }
}
