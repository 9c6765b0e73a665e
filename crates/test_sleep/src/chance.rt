// Tables by chance.
ghost use Rattle.std.specs.Prelude.{◌≡◌, ◌/◌, ◌%◌, ◌<◌};

use super::tally::Tally;
use test_bytes::{Chance, mixed, number};

// The byte of a slot that does not work.
fn resting(v: u64) -> u8
    ensures { (v % 4 ≡ 0 → result ≡ 254) × (v % 4 ≡ 1 → result ≡ 255) × (v % 4 ≡ 2 → result ≡ 64) × (v % 4 ≡ 3 → result ≡ 200) }
{
    match v % 4 {
        0 => 254,
        1 => 255,
        2 => 64,
        _ => 200,
    }
}

// A byte from a number by chance: one slot of k works, on the whole.
fn letter(v: u64, k: u64) -> u8
    requires { 0 < k }
    ensures { v % k ≡ 0 → result ≡ v / k % 64 }
{
    if v % k == 0 {
        (v / k % 64) as u8
    } else {
        resting(v)
    }
}

// Draws a table of up to 4,096 slots and a wake cost below 40, and takes it into the tally, with its length and the wake cost in the digest.
fn draw(start: bool, chance: &mut Chance, tally: &mut Tally) {
    let mut store = [0u8; 4096];
    let n = chance.below(4097) as usize;
    let q = chance.below(40) as u16;
    let k = chance.below(30) + 1;
    let table = &mut store[..n];
    for byte in table.iter_mut() {
        *byte = letter(chance.draw(), k);
    }
    tally.sum = mixed(mixed(tally.sum, n as u64), u64::from(q));
    tally.settle(q, start, table);
}

// Prints a line named `random`: how many tables were drawn, which are the same from each start, and their tally.
pub fn all(start: bool) {
    let mut chance = Chance { state: 1 };
    let mut tally = Tally::default();
    for _ in 0..300 {
        draw(start, &mut chance, &mut tally);
    }
    test_bytes::begin(start, b"random");
    number(300);
    tally.show();
}
