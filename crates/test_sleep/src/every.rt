// Every table of up to seven slots whose bytes are the first and the last job, the first byte that is none, idle and asleep.
ghost use Rattle.std.specs.Prelude.{◌≡◌, ◌<◌, ◌≤◌};

use super::tally::Tally;
use test_bytes::number;

// The byte that a digit stands for.
fn letter(digit: usize) -> u8
    ensures { (digit ≡ 0 → result ≡ 0) × (digit ≡ 1 → result ≡ 63) × (digit ≡ 2 → result ≡ 64) × (digit ≡ 3 → result ≡ 254) × (3 < digit → result ≡ 255) }
{
    match digit {
        0 => 0,
        1 => 63,
        2 => 64,
        3 => 254,
        _ => 255,
    }
}

// Writes the table with this number: its digits to the base 5, the highest in slot 0.
fn spell(code: usize, table: &mut [u8]) {
    let mut rest = code;
    for byte in table.iter_mut().rev() {
        *byte = letter(rest % 5);
        rest /= 5;
    }
}

// Prints a line named `slots`: n, the wake cost, how many tables of n slots there are, and their tally.
fn line(n: u32, q: u16, start: bool)
    requires { n ≤ 7 }
{
    let mut store = [0u8; 7];
    let table = &mut store[..n as usize];
    let end = 5usize.pow(n);
    let mut tally = Tally::default();
    for code in 0..end {
        spell(code, table);
        tally.settle(q, start, table);
    }
    test_bytes::begin(start, b"slots");
    number(u64::from(n));
    number(u64::from(q));
    number(end as u64);
    tally.show();
}

// So for each number of slots up to 7, and each wake cost up to 8, which is more than any stretch here has slots.
pub fn each(start: bool) {
    for n in 0..8 {
        for q in 0..9 {
            line(n, q, start);
        }
    }
}
