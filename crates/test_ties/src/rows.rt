// A list again and again, one behind the other, up to 64 jobs.
ghost use Rattle.std.specs.Prelude.{◌<◌, ◌≤◌, length};

use crate::tally::Tally;
use crate::worked::{CARD, MORE_CHANGES, OVER_SLEEP};
use test_bytes::{List, first, number, text};

// Lower numbers are released later, and all are due together.
const FALLING: List = List {
    h: 64,
    releases: &[63, 32, 16, 8, 0],
    deadlines: &[64, 64, 64, 64, 64],
    volumes: &[1, 8, 8, 8, 8],
};

// These entries again and again, each time greater by w.
fn copied(entries: &[u16], w: u16) -> [u16; 64] {
    let mut out = [0; 64];
    for i in 0..64 {
        out[i] = if i < entries.len() {
            entries[i]
        } else {
            out[i - entries.len()].wrapping_add(w)
        };
    }
    out
}

// Prints a line: `row`, the numbers of list and copies, the wake cost, and the tally of that list.
fn line(index: u64, k: u64, q: u16, list: List<'_>) {
    text(b"row");
    number(index);
    number(k);
    number(u64::from(q));
    let mut tally = Tally::default();
    tally.plan(list, q);
    tally.show();
}

// So for one copy, two copies and so on of this list, each for four wake costs.
fn rows(index: u64, list: List<'_>)
    requires { (0 < length list.releases.now) × (length list.releases.now ≤ 64) }
{
    let m = list.releases.len();
    let releases = copied(list.releases, list.h);
    let deadlines = copied(list.deadlines, list.h);
    let volumes = copied(list.volumes, 0);
    for k in 1..=64 / m {
        let n = k * m;
        let row = List {
            h: list.h.wrapping_mul(k as u16),
            releases: first(&releases, n),
            deadlines: first(&deadlines, n),
            volumes: first(&volumes, n),
        };
        for q in [0, 1, 2, 4] {
            line(index, k as u64, q, row);
        }
    }
}

pub fn each() {
    rows(0, OVER_SLEEP);
    rows(1, MORE_CHANGES);
    rows(2, CARD);
    rows(3, FALLING);
}
