// Lists of one job, horizon 3 and wake cost 0: a map byte, and up to seven bytes behind it, each from 0 to 3.
ghost use Rattle.std.specs.Prelude.{◌≡◌, ◌-◌, ◌/◌, ◌%◌, ◌^◌, ◌≤◌, ◌<◌};

use super::digits::digit;
use super::tally;
use test_bytes::{Tally, first, number};

// Byte i of the n behind the map byte, from 1 on: the digits of a number to the base 4, the highest first. 0 behind them.
fn behind(code: usize, n: usize, i: usize) -> u8
    ensures { (i ≤ n → result ≡ code / 4 ^ (n - i) % 4) × (n < i → result ≡ 0) }
{
    if i <= n {
        digit(code, 4, n - i) as u8
    } else {
        0
    }
}

// Notes the answer to one list with n bytes behind the map byte; counts at 28 + n if it is read.
fn one(tally: &mut Tally<36>, map: u8, n: usize, code: usize)
    requires { n ≤ 7 }
{
    let list = [
        3,
        0,
        0,
        0,
        1,
        map,
        behind(code, n, 1),
        behind(code, n, 2),
        behind(code, n, 3),
        behind(code, n, 4),
        behind(code, n, 5),
        behind(code, n, 6),
        behind(code, n, 7),
    ];
    if tally::note(tally, first(&list, n + 6)) {
        tally.count(n + 28);
    }
}

// So for all numbers of 0, 1, .. 7 digits. Prints a line: `map` and the map byte, how often each number came, how many of the lists with 0, 1, .. 7
// bytes behind the map byte were read, how many lists were written as the same bytes, and the digest.
fn line(map: u8) {
    let mut tally = Tally::new();
    for n in 0..8 {
        for code in 0..4usize.pow(n) {
            one(&mut tally, map, n as usize, code);
        }
    }
    test_bytes::text(b"map");
    number(u64::from(map));
    tally::show(&tally);
    tally.show(&[28, 29, 30, 31, 32, 33, 34, 35]);
    tally::end(&tally);
}

// So for the eight maps, and three bytes that are none.
pub fn each() {
    for map in [0, 1, 2, 3, 4, 5, 6, 7, 8, 128, 255] {
        line(map);
    }
}
