// Who may run now, and runs of earliest deadline first over the awake slots of a table. A rank is the place of a job by deadline; a set of ranks is a
// mask with a bit each.
#![tactic(auto)]

ghost use Rattle.std.specs.Prelude.{◌≡◌, ◌&&◌, ◌*◌, ◌/◌, ◌^◌, ◌≤◌, ◌<◌, length, leb, ltb};
ghost use Rattle.sched.specs.Bits.{bit};
ghost use Rattle.queue.specs.Ranks.{spans_of};
ghost use Rattle.queue.specs.Serving.{CanServe, Serves, CanServeLowest, ServesLowest};
ghost use Rattle.queue.specs.Arrivals.{comes_at, goes_at, or_beyond};
ghost use Rattle.queue.specs.Runs.{Expirable, Expired, Arrivable, Arrived, Lookable, Looked, SlotReady, SlotDone, Runnable, RunDone, Units};

use orders::OrderedJobs;
use sched::{ASLEEP, IDLE};

// A slot behind every table.
// kept: an Option in place of it would need a second test in each slot, and reads no plainer.
const BEYOND: usize = 65536;

// The ranks that wait, a bit each, when the first `next` of `arrivals` have come and the first `gone` ranks have expired; it is so up to slot `until`.
#[derive(Clone, Copy)]
pub struct Ready {
    pub mask: u64,
    pub next: usize,
    pub gone: usize,
    pub until: usize,
}

// The ranks that wait when the first `next` of `arrivals` have come.
#[derive(Clone, Copy)]
struct Coming {
    mask: u64,
    next: usize,
}

// The byte of a slot, and the ranks that wait after it.
#[derive(Clone, Copy)]
pub struct Served {
    pub byte: u8,
    pub mask: u64,
}

// When the rank at place i of `arrivals` is released.
fn release_at(jobs: &OrderedJobs<'_>, i: usize) -> usize
    ensures { result ≡ or_beyond (length jobs.now.releases.now) (comes_at jobs.now.releases.now jobs.now.ranks.now jobs.now.arrivals.now) i }
{
    match jobs.release_at(i) {
        Some(release) => release as usize,
        None => BEYOND,
    }
}

// When rank k expires.
fn deadline_at(jobs: &OrderedJobs<'_>, k: usize) -> usize
    ensures { result ≡ or_beyond (length jobs.now.deadlines.now) (goes_at jobs.now.deadlines.now jobs.now.ranks.now) k }
{
    if k < jobs.ranks.len() {
        let job = jobs.ranks[k] as usize;
        return jobs.deadlines[job] as usize;
    }
    BEYOND
}

// How many ranks have expired by slot t, of which the first `gone` are known.
fn expire(jobs: &OrderedJobs<'_>, t: usize, gone: usize) -> usize
    requires { Expirable jobs.now t gone }
    ensures { Expired jobs.now t gone result }
{
    let n = jobs.ranks.len();
    for k in gone..n {
        if t < deadline_at(jobs, k) {
            return k;
        }
    }
    n
}

// The mask without the ranks below k.
fn drop_below(mask: u64, k: usize) -> u64
    requires { k ≤ 64 }
    ensures { result ≡ mask / 2 ^ k * 2 ^ k }
{
    if k < 64 {
        return (mask >> (k as u32)) << (k as u32);
    }
    0
}

// What a rank that comes adds to the mask: nothing if it has expired or has no units.
fn joining(rank: usize, gone: usize, units: u16) -> u64
    requires { rank < 64 }
    ensures { result ≡ bit (leb gone rank && ltb 0 units) * 2 ^ rank }
{
    if rank < gone {
        return 0;
    }
    if units == 0 {
        return 0;
    }
    1u64 << (rank as u32)
}

// The ranks that are released by slot t join the mask.
fn arrive(
    jobs: &OrderedJobs<'_>,
    t: usize,
    mask: u64,
    next: usize,
    gone: usize,
    left: &[u16],
) -> Coming
    requires { Arrivable jobs.now left.now t mask next gone }
    ensures { Arrived jobs.now left.now t result.mask result.next gone }
{
    let n = jobs.arrivals.len();
    let mut bits = mask;
    for i in next..n {
        if t < release_at(jobs, i) {
            return Coming {
                mask: bits,
                next: i,
            };
        }
        let rank = jobs.arrivals[i] as usize;
        let job = jobs.ranks[rank] as usize;
        bits += joining(rank, gone, left[job]);
    }
    Coming {
        mask: bits,
        next: n,
    }
}

// What slot t may serve, from what an earlier slot might.
fn look(jobs: &OrderedJobs<'_>, t: usize, last: Ready, left: &[u16]) -> Ready
    requires { Lookable jobs.now left.now t last }
    ensures { Looked jobs.now left.now t result }
{
    let gone = expire(jobs, t, last.gone);
    let kept = drop_below(last.mask, gone);
    let coming = arrive(jobs, t, kept, last.next, gone, left);
    let release = release_at(jobs, coming.next);
    let deadline = deadline_at(jobs, gone);
    Ready {
        mask: coming.mask,
        next: coming.next,
        gone,
        until: release.min(deadline),
    }
}

// Serves one of the ranks that wait.
pub fn serve(rank: usize, mask: u64, left: &mut [u16], ranks: &[u8]) -> Served
    requires { CanServe rank mask ranks.now left.old }
    ensures { Serves rank mask ranks.now left.old result.byte result.mask left.new }
{
    let byte = ranks[rank];
    let job = byte as usize;
    left[job] -= 1;
    if left[job] == 0 {
        return Served {
            byte,
            mask: mask - (1u64 << (rank as u32)),
        };
    }
    Served { byte, mask }
}

// Serves the lowest of the ranks, if any waits.
fn serve_lowest(mask: u64, left: &mut [u16], ranks: &[u8]) -> Served
    requires { 0 < mask → CanServeLowest mask ranks.now left.old }
    ensures { ServesLowest mask ranks.now left.old result.byte result.mask left.new }
{
    if mask == 0 {
        return Served {
            byte: IDLE,
            mask: 0,
        };
    }
    serve(mask.trailing_zeros() as usize, mask, left, ranks)
}

// What slot t may serve: as it was last, or looked at anew.
pub fn current(jobs: &OrderedJobs<'_>, t: usize, last: Ready, left: &[u16]) -> Ready
    requires { Lookable jobs.now left.now t last }
    ensures { Looked jobs.now left.now t result }
{
    if t < last.until {
        return last;
    }
    look(jobs, t, last, left)
}

// Serves slot t if it is awake.
fn slot(jobs: &OrderedJobs<'_>, t: usize, last: Ready, left: &mut [u16], table: &mut [u8]) -> Ready
    requires { SlotReady jobs.now left.old table.old t last }
    ensures { SlotDone jobs.now left.old table.old t left.new table.new result }
{
    if table[t] == ASLEEP {
        return last;
    }
    let fresh = current(jobs, t, last, left);
    let served = serve_lowest(fresh.mask, left, jobs.ranks);
    table[t] = served.byte;
    Ready {
        mask: served.mask,
        ..fresh
    }
}

// Serves the awake slots of a table from slot `first` on, in rising order; what is not served stays in left.
pub fn run(jobs: &OrderedJobs<'_>, first: usize, left: &mut [u16], table: &mut [u8])
    requires { Runnable jobs.now left.old table.old }
    ensures { RunDone (spans_of jobs.now.releases.now jobs.now.deadlines.now) first left.old table.old left.new table.new }
{
    let mut last = Ready {
        mask: 0,
        next: 0,
        gone: 0,
        until: 0,
    };
    for t in first..table.len() {
        last = slot(jobs, t, last, left, table);
    }
}

// The units of each job before slot 0.
pub fn units(volumes: &[u16]) -> [u16; 64]
    requires { length volumes.now ≤ 64 }
    ensures { Units volumes.now result }
{
    let mut left = [0u16; 64];
    sched::copy(volumes.len(), volumes, &mut left);
    left
}
