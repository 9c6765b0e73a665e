// Jobs and tables by number.
ghost use Rattle.std.specs.Prelude.{◌≡◌, ◌*◌, ◌%◌, ◌<◌, ◌≤◌, ◌^◌, get_or};
ghost use Rattle.test_judge.specs.Small.{release_of, deadline_of, volume_of, letters, table_of};

use test_faults::Job;

// Job k of the 3 h h jobs with a release below h, a deadline from 1 to h and a volume from 1 to 3; the volume changes first, then the deadline.
pub fn job(h: usize, k: usize) -> Job
    requires { 0 < h }
    ensures { (result.r ≡ release_of h k % 65536) × ((result.d ≡ deadline_of h k % 65536) × (result.p ≡ volume_of k)) }
{
    let span = k / 3;
    Job {
        r: (span / h % 65536) as u16,
        d: ((span % h + 1) % 65536) as u16,
        p: (k % 3 + 1) as u16,
    }
}

// How many such jobs there are, for h from 1 to 4.
pub fn jobs(h: u16) -> usize
    ensures { 0 < h → h ≤ 4 → result ≡ 3 * h * h }
{
    match h {
        1 => 3,
        2 => 12,
        3 => 27,
        _ => 48,
    }
}

// Byte i of the five that a slot can hold.
fn letter(i: usize) -> u8
    ensures { result ≡ get_or letters (i % 5) 0 }
{
    match i % 5 {
        0 => 0,
        1 => 1,
        2 => 2,
        3 => 254,
        _ => 255,
    }
}

// How many tables of h slots there are, for h up to 4.
pub fn tables(h: u16) -> usize
    ensures { h ≤ 4 → result ≡ 5 ^ h }
{
    match h {
        0 => 1,
        1 => 5,
        2 => 25,
        3 => 125,
        _ => 625,
    }
}

// Table `code` of four slots; slot 0 changes first.
pub fn table(code: usize) -> [u8; 4]
    ensures { result ≡ table_of code }
{
    [
        letter(code),
        letter(code / 5),
        letter(code / 25),
        letter(code / 125),
    ]
}
