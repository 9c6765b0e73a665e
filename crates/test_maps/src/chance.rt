// Short lists by chance.
use super::tally;
use test_bytes::{Chance, Tally};

// Draws a list and reads it: horizon 1 to 6, wake cost 0 to 2, 0 to 4 jobs, and up to 23 bytes behind the header: below 8 at an even offset behind
// it, below 4 at an odd one.
fn draw(chance: &mut Chance, tally: &mut Tally<28>) {
    let mut out = [0u8; 28];
    out[0] = (chance.below(6) + 1) as u8;
    out[2] = chance.below(3) as u8;
    out[4] = chance.below(5) as u8;
    let end = 5 + chance.below(24) as usize;
    for (i, byte) in out[5..end].iter_mut().enumerate() {
        *byte = chance.below(if i % 2 == 0 { 8 } else { 4 }) as u8;
    }
    tally::note(tally, &out[..end]);
}

// Prints a line: `random`, how often each number came for 20,000 lists, how many were written as the same bytes, and the digest.
pub fn all() {
    let mut chance = Chance { state: 1 };
    let mut tally = Tally::new();
    for _ in 0..20000 {
        draw(&mut chance, &mut tally);
    }
    test_bytes::text(b"random");
    tally::show(&tally);
    tally::end(&tally);
}
