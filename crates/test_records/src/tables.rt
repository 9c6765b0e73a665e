// Tables written and read back, and their runs.
ghost use Rattle.std.specs.Prelude.{◌<◌};

use super::{cases, runs, show, stretches};
use test_bytes::{first, number};

// Writes the record of the first h slots to out, and prints a line: `record`, h, the answer, and the digest of the record. Gives its length, 0 for a
// refusal.
fn write(h: u16, t: &[u8], out: &mut [u8]) -> usize {
    test_bytes::text(b"record");
    number(u64::from(h));
    let answer = record::write(h, t, out);
    show::written(answer);
    let n = answer.map_or(0, |size| size.bytes);
    number(test_bytes::digest(first(out, n)));
    test_bytes::end_line();
    n
}

// Prints a line: `table`, h, what `cases::read` prints, the digests of the first h bytes of t and of what was read, and what `cases::read`
// prints of a table that is one byte short.
fn read(h: usize, t: &[u8], bytes: &[u8], back: &mut [u8])
    requires { 0 < h }
{
    test_bytes::text(b"table");
    number(h as u64);
    cases::read(bytes, back);
    number(test_bytes::digest(first(t, h)));
    number(test_bytes::digest(first(back, h)));
    cases::read_within(bytes, back, h - 1);
    test_bytes::end_line();
}

// The three lines for the first h slots of t.
fn horizon(h: u16, t: &[u8], out: &mut [u8], back: &mut [u8])
    requires { 0 < h }
{
    let n = write(h, t, out);
    read(h as usize, t, first(out, n), back);
    runs::each(h as usize, first(out, n));
}

// So for horizons around the end of a map byte, around 64, and for the greatest ones.
fn horizons(t: &[u8], out: &mut [u8], back: &mut [u8]) {
    for h in [1, 7, 8, 9, 63, 64, 65, 4095, 4096] {
        horizon(h, t, out, back);
    }
}

// So for tables that are asleep (255) throughout, awake (254), both by turns, and awake by stretches, with room for the longest table and record.
pub fn each() {
    let mut t = [0u8; 4100];
    let mut out = [0u8; 4700];
    let mut back = [0u8; 4100];
    for byte in [255, 254] {
        t.fill(byte);
        horizons(&t, &mut out, &mut back);
    }
    test_bytes::alternate(&mut t);
    horizons(&t, &mut out, &mut back);
    stretches::fill(&mut t);
    horizons(&t, &mut out, &mut back);
}
