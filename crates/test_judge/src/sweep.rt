// All lists with all tables.
ghost use Rattle.std.specs.Prelude.{◌<◌};

use super::{small, tally};
use test_bytes::{Tally, first, number};
use test_faults::Job;

// Notes the answers for the first n of two jobs with all tables of h slots, with wake cost 3.
fn tables(tally: &mut Tally<28>, start: bool, h: u16, n: usize, jobs: [Job; 2]) {
    let releases = jobs.map(|job| job.r);
    let deadlines = jobs.map(|job| job.d);
    let volumes = jobs.map(|job| job.p);
    for code in 0..small::tables(h) {
        let answer = judge::judge(
            h,
            3,
            start,
            first(&releases, n),
            first(&deadlines, n),
            first(&volumes, n),
            &small::table(code),
        );
        tally::note(tally, answer);
    }
}

// How many jobs stand in for one job of a list: all where the list has it, else one.
fn choices(h: u16, has: bool) -> usize {
    if has { small::jobs(h) } else { 1 }
}

// So for all lists of n jobs. Prints a line named `all`: h, n, and what `tally::show` prints.
fn line(start: bool, h: u16, n: usize)
    requires { 0 < h }
{
    let mut tally = Tally::new();
    let slots = usize::from(h);
    for k in 0..choices(h, 0 < n) {
        for l in 0..choices(h, 1 < n) {
            let jobs = [small::job(slots, k), small::job(slots, l)];
            tables(&mut tally, start, h, n, jobs);
        }
    }
    test_bytes::begin(start, b"all");
    number(u64::from(h));
    number(n as u64);
    tally::show(&tally);
}

// So for lists of no, one and two jobs.
pub fn each(start: bool, h: u16)
    requires { 0 < h }
{
    for n in 0..3 {
        line(start, h, n);
    }
}
