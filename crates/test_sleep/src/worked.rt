// Single tables, each printed with its wake cost as the rule leaves it.
use test_bytes::number;

// The third worked case of 01: a stretch of two slots.
const THIRD: [u8; 10] = [0, 2, 2, 2, 2, 2, 255, 255, 1, 1];

// One job, and an idle slot behind it.
const IDLE_AT_END: [u8; 8] = [255, 255, 0, 0, 0, 254, 255, 255];

// Two idle slots between two jobs, and sleep on both sides.
const IDLE_BETWEEN: [u8; 12] = [255, 255, 0, 0, 254, 254, 1, 1, 255, 255, 255, 255];

// Every other slot works.
const BY_TURNS: [u8; 5] = [0, 254, 1, 254, 2];

// No slot at all.
const EMPTY: [u8; 0] = [];

// No slot works.
const NO_WORK: [u8; 3] = [254, 254, 254];

// Every kind of byte that does not work, between the last job of a full list and the first one.
const ALL_KINDS: [u8; 8] = [63, 64, 128, 200, 253, 254, 255, 0];

// Stretches of one and of two slots between jobs, and idle slots outside.
const ONE_AND_TWO: [u8; 8] = [254, 0, 254, 1, 254, 255, 2, 254];

// Jobs side by side, then a stretch of three slots.
const SIDE_BY_SIDE: [u8; 7] = [0, 1, 2, 254, 255, 64, 63];

// Prints a line named `q`: the wake cost, and the bytes of the table after the rule.
fn show<const N: usize>(q: u16, start: bool, table: [u8; N]) {
    let mut settled = table;
    step5_sleep::sleep(q, start, &mut settled);
    test_bytes::begin(start, b"q");
    number(u64::from(q));
    test_bytes::bytes(&settled);
}

// Each with a wake cost, or with several around the length of its stretch.
pub fn each(start: bool) {
    show(3, start, THIRD);
    show(2, start, THIRD);
    show(1, start, THIRD);
    show(0, start, THIRD);
    show(2, start, IDLE_AT_END);
    show(1, start, IDLE_BETWEEN);
    show(3, start, IDLE_BETWEEN);
    show(1, start, BY_TURNS);
    show(65535, start, EMPTY);
    show(9, start, NO_WORK);
    show(6, start, ALL_KINDS);
    show(7, start, ALL_KINDS);
    show(2, start, ONE_AND_TWO);
    show(65535, start, ONE_AND_TWO);
    show(0, start, SIDE_BY_SIDE);
}
