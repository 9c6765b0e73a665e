// One stretch between two working slots, with as many slots before and behind; the wake cost is one below, at and one above its length. From
// a start awake the slots before it are such a stretch, too.
ghost use Rattle.std.specs.Prelude.{◌≡◌, ◌+◌, ◌*◌, ◌<◌, ◌≤◌, length};

use super::tally::holding;
use test_bytes::number;

// The byte of slot t for a stretch of g slots: g idle ones, job 5, g asleep, job 63, and idle ones.
fn slot(g: usize, t: usize) -> u8
    requires { g ≤ 65536 }
    ensures { (t < g → result ≡ 254) × (t ≡ g → result ≡ 5) × (g < t → t ≤ 2 * g → result ≡ 255) × (t ≡ 2 * g + 1 → result ≡ 63) × (2 * g + 1 < t → result ≡ 254) }
{
    if t < g {
        254
    } else if t == g {
        5
    } else if t <= 2 * g {
        255
    } else if t == 2 * g + 1 {
        63
    } else {
        254
    }
}

// Writes these bytes.
fn lay(g: usize, table: &mut [u8])
    requires { g ≤ 65536 }
{
    for (t, byte) in table.iter_mut().enumerate() {
        *byte = slot(g, t);
    }
}

// Prints a line named `stretch`: its length, the wake cost, and how many slots are idle before, in and behind the stretch after the rule, with the
// table lent.
fn settle(g: usize, q: u16, start: bool, table: &mut [u8])
    requires few { g ≤ 65536 }
    requires long { length table.old ≡ 3 * g + 2 }
{
    lay(g, table);
    step5_sleep::sleep(q, start, table);
    test_bytes::begin(start, b"stretch");
    number(g as u64);
    number(u64::from(q));
    number(holding(&table[..g], 254));
    number(holding(&table[g + 1..2 * g + 1], 254));
    number(holding(&table[2 * g + 2..], 254));
    test_bytes::end_line();
}

// So with a table of just so many slots.
fn line(g: usize, q: u16, start: bool)
    requires { g ≤ 65536 }
{
    let mut store = [0u8; 196610];
    settle(g, q, start, &mut store[..3 * g + 2]);
}

// So for the wake costs from one below g to one above, as far as there are such.
fn costs(start: bool, g: usize)
    requires { g ≤ 65536 }
{
    for cost in g.saturating_sub(1)..g + 2 {
        if let Ok(q) = u16::try_from(cost) {
            line(g, q, start);
        }
    }
}

// So for the shortest stretches, and around 255, the longest of a plan, and the highest wake cost.
pub fn each(start: bool) {
    for g in [
        0, 1, 2, 3, 254, 255, 256, 257, 4093, 4094, 65533, 65534, 65535, 65536,
    ] {
        costs(start, g);
    }
}
