// All records of one map byte with horizon 1 to 4 and up to five bytes behind the map, each of six values.
use super::tally;
use test_bytes::{Tally, first, number};

// The byte for i modulo 6.
fn letter(i: usize) -> u8 {
    [0, 63, 64, 253, 254, 255][i % 6]
}

// The horizon, the map, and five bytes by the digits of `code`, the lowest first.
fn spelled(h: u8, map: u8, code: usize) -> [u8; 8] {
    [
        h,
        0,
        map,
        letter(code),
        letter(code / 6),
        letter(code / 36),
        letter(code / 216),
        letter(code / 1296),
    ]
}

// Notes the answers for the first n (at most 5) of these behind the map. The tables have 6 bytes and 2.
fn one(tally: &mut Tally<120>, h: u8, map: u8, n: usize, code: usize) {
    let bytes = spelled(h, map, code);
    let mut long = [0u8; 6];
    let mut short = [0u8; 2];
    tally::note(tally, first(&bytes, n % 6 + 3), &mut long, &mut short);
}

// Prints a line for all sequences of n bytes, `codes` of them, with all maps: `all`, h, n, and what `tally::show` prints.
fn line(h: u8, n: usize, codes: usize) {
    let mut tally = Tally::<120>::new();
    test_bytes::text(b"all");
    number(u64::from(h));
    number(n as u64);
    for map in 0..=255 {
        for code in 0..codes {
            one(&mut tally, h, map, n, code);
        }
    }
    tally::show(&tally);
}

// So for each horizon, and n from 0 to 5.
pub fn each() {
    for h in 1..=4 {
        for (n, &codes) in [1, 6, 36, 216, 1296, 7776].iter().enumerate() {
            line(h, n, codes);
        }
    }
}
