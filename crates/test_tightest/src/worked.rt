// Single lists, each printed with its answer.
use crate::answer;
use test_bytes::{List, number, text};

// Prints a line: `worked`, the number of the list, and the answer.
fn show(k: u64, list: List<'_>) {
    text(b"worked");
    number(k);
    answer::show(list);
}

// The tightest interval is of two jobs, and none is inside.
const NONE_INSIDE: List = List {
    h: 6,
    releases: &[3, 1],
    deadlines: &[6, 4],
    volumes: &[1, 2],
};

// Each job alone is an overload, and both together are a greater one.
const OVERLOAD: List = List {
    h: 4,
    releases: &[1, 3],
    deadlines: &[3, 4],
    volumes: &[3, 2],
};

// The first list the other way round.
const NONE_INSIDE_TURNED: List = List {
    h: 6,
    releases: &[1, 3],
    deadlines: &[4, 6],
    volumes: &[2, 1],
};

// The least horizon.
const ONE_SLOT: List = List {
    h: 1,
    releases: &[0],
    deadlines: &[1],
    volumes: &[1],
};

// On equal slack the one that ends first.
const FIRST_END: List = List {
    h: 10,
    releases: &[0, 5],
    deadlines: &[5, 10],
    volumes: &[2, 2],
};

// So is this, the other way round.
const FIRST_END_TURNED: List = List {
    h: 10,
    releases: &[5, 0],
    deadlines: &[10, 5],
    volumes: &[2, 2],
};

// On equal slack and the same end the one that begins last.
const LAST_BEGIN: List = List {
    h: 10,
    releases: &[0, 2],
    deadlines: &[10, 10],
    volumes: &[2, 4],
};

// So is this, the other way round.
const LAST_BEGIN_TURNED: List = List {
    h: 10,
    releases: &[2, 0],
    deadlines: &[10, 10],
    volumes: &[4, 2],
};

// Several jobs with one release: all of them count.
const ONE_RELEASE: List = List {
    h: 6,
    releases: &[0, 0, 0],
    deadlines: &[4, 6, 6],
    volumes: &[1, 2, 1],
};

// From the release 3 to the deadline 3 there is no slot, so that is no interval.
const END_TO_END: List = List {
    h: 6,
    releases: &[0, 3],
    deadlines: &[3, 6],
    volumes: &[1, 1],
};

// Four intervals have no slack: from 2 or 4 to 5 or 7.
const FOUR_EQUAL: List = List {
    h: 9,
    releases: &[0, 4, 4, 2],
    deadlines: &[9, 5, 7, 5],
    volumes: &[1, 1, 2, 2],
};

// The last and the first slot of the greatest horizon.
const BOTH_ENDS: List = List {
    h: 4096,
    releases: &[4095, 0],
    deadlines: &[4096, 1],
    volumes: &[1, 1],
};

// The greatest volume.
const GREATEST: List = List {
    h: 4096,
    releases: &[0],
    deadlines: &[4096],
    volumes: &[65535],
};

// Added modulo 2^16, it takes 1 away.
const DOWN: u16 = 65535;

// Entries that begin with `first`, each greater by `step` than the one before.
fn laid(first: u16, step: u16) -> [u16; 64] {
    let mut out = [first; 64];
    for j in 1..64 {
        out[j] = out[j - 1].wrapping_add(step);
    }
    out
}

// 64 jobs of the volume p: job 0 is (r, d, p), and each is released and due by these steps later than the one before.
fn row(k: u64, h: u16, r: u16, r_step: u16, d: u16, d_step: u16, p: u16) {
    let row = List {
        h,
        releases: &laid(r, r_step),
        deadlines: &laid(d, d_step),
        volumes: &[p; 64],
    };
    show(k, row);
}

fn single() {
    show(1, NONE_INSIDE);
    show(2, OVERLOAD);
    show(3, NONE_INSIDE_TURNED);
    show(4, ONE_SLOT);
    show(5, FIRST_END);
    show(6, FIRST_END_TURNED);
    show(7, LAST_BEGIN);
    show(8, LAST_BEGIN_TURNED);
    show(9, ONE_RELEASE);
    show(10, END_TO_END);
    show(11, FOUR_EQUAL);
    show(12, BOTH_ENDS);
    show(13, GREATEST);
}

// The greatest volumes: every job has all slots; each lies inside the one before; they stand side by side.
fn greatest_rows() {
    row(14, 4096, 0, 0, 4096, 0, 65535);
    row(15, 4096, 0, 1, 4096, DOWN, 65535);
    row(16, 4096, 0, 64, 64, 64, 65535);
}

// Side by side with no slack; the tightest from the last release to the first deadline, with none of them inside; each around the one before, with
// the same slack; each a slot later than the one before.
fn rows() {
    row(17, 4096, 0, 64, 64, 64, 64);
    row(18, 4096, 63, DOWN, 4096, DOWN, 1);
    row(19, 4096, 63, DOWN, 64, 1, 2);
    row(20, 65, 0, 1, 2, 1, 1);
}

pub fn each() {
    single();
    greatest_rows();
    rows();
}
