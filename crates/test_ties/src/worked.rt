// Single lists, each printed with its outcome and its table.
use sched::Outcome;
use test_bytes::{List, bytes, end_line, number, text};

// Prints 0 and the figures of a plan, or number and values of what else was answered.
// kept: test_plans has its own, for a printing function has nothing to promise that a shared crate could state.
fn outcome_shown(outcome: Outcome) {
    match outcome {
        Outcome::Planned(f) => {
            number(0);
            number(u64::from(f.energy));
            number(u64::from(f.awake));
            number(u64::from(f.runs));
            number(u64::from(f.added));
        }
        Outcome::Overloaded(i) => {
            number(18);
            number(i.a as u64);
            number(i.b as u64);
        }
        Outcome::Refused(r) => {
            number(u64::from(r.number()));
            number(r.place() as u64);
        }
    }
}

// Prints two lines: `list` with its number, horizon, wake cost and outcome; and the bytes of the table, which has at most 18 slots.
fn show(k: u64, q: u16, list: List<'_>) {
    let mut store = [165u8; 18];
    let size = usize::from(list.h).min(18);
    let table = &mut store[..size];
    let outcome = planner::plan(
        list.h,
        q,
        false,
        list.releases,
        list.deadlines,
        list.volumes,
        table,
    );
    text(b"list");
    number(k);
    number(u64::from(list.h));
    number(u64::from(q));
    outcome_shown(outcome);
    end_line();
    bytes(table);
}

// The list of the card.
pub const CARD: List = List {
    h: 4,
    releases: &[1, 0],
    deadlines: &[4, 4],
    volumes: &[2, 2],
};

// The same jobs the other way round.
const CARD_TURNED: List = List {
    h: 4,
    releases: &[0, 1],
    deadlines: &[4, 4],
    volumes: &[2, 2],
};

// With q 0 job 1 goes on behind slot 5, which sleeps.
pub const OVER_SLEEP: List = List {
    h: 12,
    releases: &[5, 0, 0, 3, 8],
    deadlines: &[12, 12, 1, 6, 10],
    volumes: &[1, 4, 1, 1, 1],
};

// One change of job more than if the lowest number always ran.
const ONE_MORE: List = List {
    h: 16,
    releases: &[0, 4, 10, 10, 8, 7, 1],
    deadlines: &[15, 15, 15, 14, 15, 14, 15],
    volumes: &[2, 3, 1, 2, 1, 2, 3],
};

// So is this.
pub const MORE_CHANGES: List = List {
    h: 8,
    releases: &[1, 3, 3, 0, 6],
    deadlines: &[8, 8, 4, 8, 7],
    volumes: &[2, 2, 1, 2, 1],
};

// A job that gave way to an earlier deadline has no claim afterwards.
const GAVE_WAY: List = List {
    h: 5,
    releases: &[1, 0, 1],
    deadlines: &[5, 5, 2],
    volumes: &[2, 2, 1],
};

// A lower number waits while another goes on.
const LOWER_WAITS: List = List {
    h: 8,
    releases: &[2, 0, 1],
    deadlines: &[8, 8, 8],
    volumes: &[2, 1, 3],
};

// Equal releases and unequal deadlines are no tie.
const EQUAL_RELEASES: List = List {
    h: 6,
    releases: &[1, 1, 0],
    deadlines: &[6, 5, 6],
    volumes: &[2, 2, 2],
};

// Each goes on until it is done; then the lowest number runs.
const FALLING: List = List {
    h: 6,
    releases: &[2, 1, 0],
    deadlines: &[6, 6, 6],
    volumes: &[1, 2, 3],
};

// Two short jobs come in between.
const BROKEN_OFF: List = List {
    h: 9,
    releases: &[6, 0, 0, 4],
    deadlines: &[9, 9, 2, 5],
    volumes: &[1, 3, 1, 1],
};

// Too much work for the slots.
const OVERLOAD: List = List {
    h: 4,
    releases: &[1, 0],
    deadlines: &[4, 4],
    volumes: &[2, 3],
};

// Three equal jobs.
const EQUAL_JOBS: List = List {
    h: 9,
    releases: &[0, 0, 0],
    deadlines: &[9, 9, 9],
    volumes: &[3, 3, 3],
};

// A job goes on behind slot 10, which sleeps.
const OVER_ONE_SLOT: List = List {
    h: 18,
    releases: &[2, 11, 15, 5, 8],
    deadlines: &[4, 18, 16, 18, 11],
    volumes: &[1, 1, 1, 5, 1],
};

// A job goes on behind slot 7, which step 4 leaves asleep and step 5 keeps awake.
const OVER_KEPT_SLOT: List = List {
    h: 16,
    releases: &[2, 8, 5, 5, 10, 3],
    deadlines: &[3, 16, 16, 8, 16, 16],
    volumes: &[1, 1, 2, 1, 1, 2],
};

// All of them, numbered from 0.
pub fn each() {
    show(0, 1, CARD);
    show(1, 1, CARD_TURNED);
    show(2, 0, OVER_SLEEP);
    show(3, 1, OVER_SLEEP);
    show(4, 2, OVER_SLEEP);
    show(5, 3, OVER_SLEEP);
    show(6, 2, ONE_MORE);
    show(7, 1, MORE_CHANGES);
    show(8, 1, GAVE_WAY);
    show(9, 1, LOWER_WAITS);
    show(10, 1, EQUAL_RELEASES);
    show(11, 1, FALLING);
    show(12, 1, BROKEN_OFF);
    show(13, 1, OVERLOAD);
    show(14, 0, EQUAL_JOBS);
    show(15, 1, OVER_ONE_SLOT);
    show(16, 3, OVER_KEPT_SLOT);
}
