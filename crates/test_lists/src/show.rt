// What a case prints: one line, numbers one space apart. That a function prints what is said above it, `stdout` shows; it is not proved.
ghost use Rattle.std.specs.Prelude.{◌≡◌, ◌-◌, ◌<◌, ◌≤◌};

use joblist::ListHeader;
use sched::Refusal;
use test_bytes::{first, number, text};

// Releases, deadlines and volumes.
#[derive(Clone, Copy)]
pub struct Lists<'a> {
    pub releases: &'a [u16],
    pub deadlines: &'a [u16],
    pub volumes: &'a [u16],
}

impl Lists<'_> {
    // Prints a colon, and release, deadline and volume of each of the first n jobs, or only of the last of these if they are more than three.
    fn show(self, n: usize) {
        let jobs = self.releases.iter().zip(self.deadlines).zip(self.volumes);
        for ((&r, &d), &p) in jobs.take(n).skip(shown(n, 3)) {
            text(b" :");
            number(u64::from(r));
            number(u64::from(d));
            number(u64::from(p));
        }
    }

    // Prints of each list whether its entries from an index on were kept.
    pub fn show_kept(self, from: usize) {
        kept(from, self.releases);
        kept(from, self.deadlines);
        kept(from, self.volumes);
    }
}

// Prints `refused`, and the refusal's number and place.
pub fn refused(r: Refusal) {
    text(b" refused");
    number(u64::from(r.number()));
    number(r.place() as u64);
}

// Prints `written` and the length.
pub fn written(n: usize) {
    text(b" written");
    number(n as u64);
}

// Where to begin if n things are to be shown when they are at most so few, else the last alone.
fn shown(n: usize, few: usize) -> usize
    ensures { (n ≤ few → result ≡ 0) × (few < n → result ≡ n - 1) }
{
    if n <= few { 0 } else { n - 1 }
}

// Prints H, q and the number of jobs, then the jobs: all of them if they are at most three, else the last.
pub fn list(list: ListHeader, jobs: Lists) {
    number(u64::from(list.h));
    number(u64::from(list.q));
    number(list.count as u64);
    jobs.show(list.count);
}

// Prints `kept` if the entries from an index on are all 7777, as they were lent, or there are none; else `changed`.
fn kept(from: usize, list: &[u16]) {
    if list.iter().skip(from).all(|&x| x == 7777) {
        text(b" kept");
    } else {
        text(b" changed");
    }
}

// Prints a refusal to read, and for each list whether it is as it was lent.
pub fn not_read(r: Refusal, lists: Lists) {
    refused(r);
    lists.show_kept(0);
}

// Prints that n bytes were written, then `same` if they are those read, then `kept` if the next one is 9, as it was lent, or there is none.
pub fn same(n: usize, bytes: &[u8], out: &[u8]) {
    written(n);
    if bytes == first(out, n) {
        text(b" same");
    }
    if out.get(n).copied().unwrap_or(9) == 9 {
        text(b" kept");
    }
}

// Prints a colon, and the bytes of a buffer of at most 16; of a longer one only the last.
pub fn bytes(out: &[u8]) {
    text(b" :");
    for &byte in &out[shown(out.len(), 16)..] {
        number(u64::from(byte));
    }
}
