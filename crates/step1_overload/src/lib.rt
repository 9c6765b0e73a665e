// Step 1: the overloaded interval that is shown. In one pass all slots are awake, and of the jobs that wait the one with the earliest deadline is
// served, behind its deadline, too. The least deadline that a job is finished behind is the end. The start is the greatest release from which the
// jobs that are due by the end have too little room.
#![tactic(auto)]

ghost use Rattle.sched.specs.Jobs.{Jobs};
ghost use Rattle.orders.specs.Lists.{ListsOf};
ghost use Rattle.step1_overload.specs.Search.{Asked, Answers, StartFor};
ghost use Rattle.step1_overload.specs.Pass.{NextComes, Joinable, Joined, EndAfter, Turnable, TurnDone, LeastEnd};

use orders::OrderedJobs;
use sched::Interval;

// A slot behind every other.
const NEVER: u32 = 16777216;

// Behind every deadline.
const NO_END: u16 = 65535;

// The slots before t are served. The ranks that wait have a bit each; the first `next` of `arrivals` have come, and the next one comes at slot
// `coming`. `end` is the least deadline that a job was finished behind.
#[derive(Clone, Copy)]
struct Pass {
    t: u32,
    waiting: u64,
    next: usize,
    coming: u32,
    end: u16,
}

// When the rank at place i of `arrivals` is released.
fn comes_at(jobs: &OrderedJobs<'_>, i: usize) -> u32
    ensures { NextComes jobs.now i result }
{
    match jobs.release_at(i) {
        Some(release) => release as u32,
        None => NEVER,
    }
}

// The next rank comes.
fn arrive(jobs: &OrderedJobs<'_>, last: Pass) -> Pass
    requires { Joinable jobs.now last }
    ensures { Joined jobs.now last result }
{
    let rank = jobs.arrivals[last.next] as u32;
    let next = last.next + 1;
    Pass {
        waiting: last.waiting + (1u64 << rank),
        next,
        coming: comes_at(jobs, next),
        ..last
    }
}

// The end after a job is finished before slot t.
fn end_after(end: u16, deadline: u16, t: u32) -> u16
    ensures { EndAfter end deadline t result }
{
    if (deadline as u32) < t {
        end.min(deadline)
    } else {
        end
    }
}

// From one event to the next: a rank comes, no rank waits, or the lowest is served until the next one comes or its last unit is done.
fn turn(jobs: &OrderedJobs<'_>, last: Pass, left: &mut [u16]) -> Pass
    requires { Turnable jobs.now left.old last }
    ensures { TurnDone jobs.now left.old last left.new result }
{
    if last.coming <= last.t {
        return arrive(jobs, last);
    }
    if last.waiting == 0 {
        return Pass {
            t: last.coming,
            ..last
        };
    }
    let rank = last.waiting.trailing_zeros();
    let job = jobs.ranks[rank as usize] as usize;
    let units = left[job] as u32;
    let room = last.coming - last.t;
    if room < units {
        left[job] = (units - room) as u16;
        return Pass {
            t: last.coming,
            ..last
        };
    }
    left[job] = 0;
    let t = last.t + units;
    Pass {
        t,
        waiting: last.waiting - (1u64 << rank),
        end: end_after(last.end, jobs.deadlines[job], t),
        ..last
    }
}

// The least end of an overloaded interval, or one behind the horizon.
fn least_end(jobs: &OrderedJobs<'_>, volumes: &[u16]) -> u16
    requires { Asked jobs.now volumes.now }
    ensures { (J : Jobs) → ListsOf J jobs.now.releases.now jobs.now.deadlines.now volumes.now → LeastEnd J result }
{
    let mut left = queue::units(volumes);
    let mut pass = Pass {
        t: 0,
        waiting: 0,
        next: 0,
        coming: comes_at(jobs, 0),
        end: NO_END,
    };
    // kept: the loop ends with the last event, and no counter says how many there are
    while pass.t < NEVER {
        pass = turn(jobs, pass, &mut left);
    }
    pass.end
}

// The greatest release from which the jobs that are due by b overfill the slots up to b, or 0.
fn start_for(b: u16, jobs: &OrderedJobs<'_>, volumes: &[u16]) -> usize
    requires { Asked jobs.now volumes.now }
    ensures { StartFor b jobs.now volumes.now result }
{
    let mut sum: u32 = 0;
    for at in (0..jobs.arrivals.len()).rev() {
        let rank = jobs.arrivals[at] as usize;
        let job = jobs.ranks[rank] as usize;
        if jobs.deadlines[job] <= b {
            sum += volumes[job] as u32;
            let a = jobs.releases[job];
            if ((b - a) as u32) < sum {
                return a as usize;
            }
        }
    }
    0
}

// The interval that step 1 shows, of a list that passes the checks, with its jobs in order.
pub fn find(h: u16, jobs: &OrderedJobs<'_>, volumes: &[u16]) -> Option<Interval>
    requires { Asked jobs.now volumes.now }
    ensures { Answers h jobs.now.releases.now jobs.now.deadlines.now volumes.now result }
{
    let end = least_end(jobs, volumes);
    if h < end {
        return None;
    }
    Some(Interval {
        a: start_for(end, jobs, volumes),
        b: end as usize,
    })
}
