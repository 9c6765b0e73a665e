// Lists by chance, of none to 64 jobs that pass the checks.
ghost use Rattle.std.specs.Prelude.{◌<◌, ◌≤◌};

use crate::tally::Tally;
use test_bytes::{Chance, List, first, number, text};

// The kinds of lists: at most so many slots, and volumes of at most so much.
#[derive(Clone, Copy)]
struct Kind {
    slots: u64,
    volumes: u64,
    ghost some: { (0 < slots) × (0 < volumes) },
    ghost few: { (slots ≤ 4096) × (volumes ≤ 32768) },
}

// kept: no function shared with test_ties, for horizon, number of jobs and deadlines are drawn in another way; the numbers by chance are shared.
// The tally with a list of this kind. Deadlines are any that the horizon allows.
fn draw(tally: &mut Tally, kind: Kind, chance: &mut Chance) {
    let h = 1 + chance.below(kind.slots);
    let n = chance.below(65) as usize;
    let most = 1 + chance.below(kind.volumes);
    let mut releases = [0; 64];
    let mut deadlines = [0; 64];
    let mut volumes = [0; 64];
    for j in 0..n {
        let d = 1 + chance.below(h) as u16;
        deadlines[j] = d;
        releases[j] = chance.below(u64::from(d)) as u16;
        volumes[j] = 1 + chance.below(most) as u16;
    }
    let list = List {
        h: h as u16,
        releases: first(&releases, n),
        deadlines: first(&deadlines, n),
        volumes: first(&volumes, n),
    };
    tally.gauge(list);
}

// Prints a line: `random`, the number of the kind, and the tally of 500 lists. Each kind has states of its own.
fn line(k: u64, kind: Kind)
    requires { k ≤ 3 }
{
    let mut chance = Chance { state: k + 1 };
    let mut tally = Tally::default();
    for _ in 0..500 {
        draw(&mut tally, kind, &mut chance);
    }
    text(b"random");
    number(k);
    tally.show();
}

// Few slots; more slots and little work; far too much work, on the whole; about as much as there are slots.
pub fn each() {
    line(
        0,
        Kind {
            slots: 12,
            volumes: 3,
        },
    );
    line(
        1,
        Kind {
            slots: 64,
            volumes: 2,
        },
    );
    line(
        2,
        Kind {
            slots: 4096,
            volumes: 32768,
        },
    );
    line(
        3,
        Kind {
            slots: 4096,
            volumes: 60,
        },
    );
}
