// Lists of up to four of eight jobs, one for each map, with horizon 3 and wake cost 513.
ghost use Rattle.std.specs.Prelude.{◌≡◌, ◌-◌, ◌/◌, ◌%◌, ◌^◌, ◌≤◌, ◌<◌};

use super::digits::digit;
use super::tally;
use sched::Refusal;
use test_bytes::{Tally, digest_from, first, number, put};

// The job whose entry has a map (below 8): release 1, deadline 2 and volume 2 where their bits stand, else what is absent.
fn release(map: usize) -> u16 {
    if map % 2 == 1 { 1 } else { 0 }
}

fn deadline(map: usize) -> u16 {
    if map / 2 % 2 == 1 { 2 } else { 3 }
}

fn volume(map: usize) -> u16 {
    if map / 4 % 2 == 1 { 2 } else { 1 }
}

// The map of job j of the k jobs of a list, 0 behind them: the digits of the list's number to the base 8, the highest first.
fn map_of(code: usize, k: usize, j: usize) -> usize
    ensures { (j < k → result ≡ code / 8 ^ (k - 1 - j) % 8) × (k ≤ j → result ≡ 0) }
{
    if j < k { digit(code, 8, k - 1 - j) } else { 0 }
}

// The maps of a list's first four jobs.
fn maps_of(code: usize, k: usize) -> [usize; 4] {
    [
        map_of(code, k, 0),
        map_of(code, k, 1),
        map_of(code, k, 2),
        map_of(code, k, 3),
    ]
}

// Writes the first n jobs of a list of k jobs, and tells how many bytes these are.
fn write(code: usize, k: usize, n: usize, out: &mut [u8]) -> usize {
    let maps = maps_of(code, k);
    let releases = maps.map(release);
    let deadlines = maps.map(deadline);
    let volumes = maps.map(volume);
    joblist::write(
        3,
        513,
        first(&releases, n),
        first(&deadlines, n),
        first(&volumes, n),
        out,
    )
    .unwrap_or(0)
}

// Whether the bytes are read to the list, of at most four jobs.
fn is_back(code: usize, k: usize, bytes: &[u8]) -> bool {
    let maps = maps_of(code, k);
    match tally::read(bytes) {
        Ok(list) => {
            list.header.h == 3
                && list.header.q == 513
                && list.header.count == k
                && first(&list.releases, k) == first(&maps.map(release), k)
                && first(&list.deadlines, k) == first(&maps.map(deadline), k)
                && first(&list.volumes, k) == first(&maps.map(volume), k)
        }
        Err(_) => false,
    }
}

// Whether the first n bytes are refused with 11 at n.
fn is_cut(bytes: &[u8], n: usize) -> bool {
    matches!(tally::read(first(bytes, n)), Err(Refusal::Truncated(at)) if at == n)
}

// Whether n bytes and the one behind them are refused with 16 at n.
fn is_longer(bytes: &[u8], n: usize) -> bool {
    matches!(tally::read(first(bytes, n % 65536 + 1)), Err(Refusal::LeftOver(at)) if at == n)
}

// How many bytes lists have, how many are read back, how many of their parts (`is_cut`) and of the longer inputs (`is_longer`) are refused as they
// should be, and the digest of all bytes.
#[derive(Default, Drop)]
struct Found {
    bytes: u64,
    back: u64,
    cut: u64,
    longer: u64,
    sum: u64,
}

impl Found {
    // The same with one list of k jobs.
    fn add(&mut self, code: usize, k: usize) {
        let mut out = [0u8; 64];
        let n = write(code, k, k, &mut out);
        let bytes = first(&out, n);
        let cut = (0..bytes.len()).filter(|&n| is_cut(bytes, n)).count();
        self.bytes = self.bytes.wrapping_add(bytes.len() as u64);
        self.back = self.back.wrapping_add(is_back(code, k, bytes) as u64);
        self.cut = self.cut.wrapping_add(cut as u64);
        self.longer = self.longer.wrapping_add(is_longer(&out, n) as u64);
        self.sum = digest_from(self.sum, bytes);
    }
}

// Prints a line: `jobs` and k, how many lists of k jobs there are, and what was found of them.
fn line(k: usize, end: usize) {
    let mut found = Found::default();
    for code in 0..end {
        found.add(code, k);
    }
    test_bytes::text(b"jobs");
    number(k as u64);
    number(end as u64);
    number(found.bytes);
    number(found.back);
    number(found.cut);
    number(found.longer);
    number(found.sum);
    test_bytes::end_line();
}

// Notes the answer to a list of three jobs whose job j has another map.
fn exchanged(tally: &mut Tally<28>, code: usize, j: usize, map: u8) {
    let mut out = [0u8; 64];
    let at = write(code, 3, j, &mut out);
    let n = write(code, 3, 3, &mut out);
    put(&mut out, at, map);
    tally::note(tally, first(&out, n));
}

// So for all lists of three jobs, and each map from 0 to 8. Prints a line: `changed` and j, how often each number came, and the digest.
fn changed(j: usize) {
    let mut tally = Tally::new();
    for code in 0..512 {
        for map in 0..9 {
            exchanged(&mut tally, code, j, map);
        }
    }
    test_bytes::text(b"changed");
    number(j as u64);
    tally::show(&tally);
    number(tally.sum);
    test_bytes::end_line();
}

// Lists of no, one, .. four jobs, then those of three with one map exchanged.
pub fn each() {
    line(0, 1);
    line(1, 8);
    line(2, 64);
    line(3, 512);
    line(4, 4096);
    for j in 0..3 {
        changed(j);
    }
}
