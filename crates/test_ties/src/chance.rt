// Lists by chance, with at most four deadlines.
ghost use Rattle.std.specs.Prelude.{◌≡◌, ◌-◌, ◌*◌, ◌/◌, ◌<◌, ◌≤◌};

use crate::tally::Tally;
use test_bytes::{Chance, List, first, number, text};

// The kinds of lists: at least so many slots, so many different numbers of slots, and volumes of at most so much.
#[derive(Clone, Copy)]
struct Kind {
    least: u64,
    spread: u64,
    volumes: u64,
    ghost some: { (8 ≤ least) × (0 < spread) × (0 < volumes) },
    ghost few: { (least ≤ 100) × (spread ≤ 901) × (volumes ≤ 12) },
}

// The deadline that is chosen: h, or up to three fifths of it earlier.
fn deadline(h: u64, choice: u64) -> u16
    requires { (8 ≤ h) × (h ≤ 1000) }
    ensures { (0 < result) × (choice ≡ 0 → result ≡ h) × (choice ≡ 1 → result ≡ h - h / 5) × (choice ≡ 2 → result ≡ h - 2 * (h / 5)) × (2 < choice → result ≡ h - 3 * (h / 5)) }
{
    let earlier = match choice {
        0 => 0,
        1 => h / 5,
        2 => 2 * (h / 5),
        _ => 3 * (h / 5),
    };
    (h - earlier) as u16
}

// kept: no function shared with test_tightest, for horizon, number of jobs and deadlines are drawn in another way; the numbers by chance are shared.
// The tally with a list of this kind: at most a job for every fourth slot, and at most 64, with at most four deadlines.
fn draw(tally: &mut Tally, kind: Kind, chance: &mut Chance) {
    let h = kind.least + chance.below(kind.spread);
    let n = chance.below((h / 4).min(64) + 1) as usize;
    let q = chance.below(6) as u16;
    let choices = 1 + chance.below(4);
    let most = 1 + chance.below(kind.volumes);
    let mut releases = [0; 64];
    let mut deadlines = [0; 64];
    let mut volumes = [0; 64];
    for j in 0..n {
        let d = deadline(h, chance.below(choices));
        deadlines[j] = d;
        releases[j] = chance.below(u64::from(d)) as u16;
        volumes[j] = 1 + chance.below(most) as u16;
    }
    let list = List {
        h: h as u16,
        releases: first(&releases, n),
        deadlines: first(&deadlines, n),
        volumes: first(&volumes, n),
    };
    tally.plan(list, q);
}

// The tally of so many lists of one kind.
fn draws(kind: Kind, count: u64, chance: &mut Chance) -> Tally {
    let mut tally = Tally::default();
    for _ in 0..count {
        draw(&mut tally, kind, chance);
    }
    tally
}

// Prints a line: `chance`, how many lists were drawn, and their tally.
fn line(kind: Kind, count: u64, chance: &mut Chance) {
    let tally = draws(kind, count, chance);
    text(b"chance");
    number(count);
    tally.show();
}

// Short lists, then longer ones.
pub fn all() {
    let mut chance = Chance { state: 1 };
    let small = Kind {
        least: 8,
        spread: 33,
        volumes: 4,
    };
    let large = Kind {
        least: 100,
        spread: 901,
        volumes: 12,
    };
    line(small, 2000, &mut chance);
    line(large, 400, &mut chance);
}
