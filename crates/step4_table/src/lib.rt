// Step 4: the job of each awake slot.
#![tactic(auto)]

ghost use Rattle.std.specs.Prelude.{ℕ, ◌≡◌, length};
ghost use Rattle.std.proofs.Math.Option.{Option};
ghost use Rattle.step4_table.specs.Filling.{Fillable, Fills};
ghost use Rattle.step4_table.specs.Going.{going_rank, CanGo, Stands, SlotFillable, SlotFilled};

use orders::OrderedJobs;
use queue::Ready;
use sched::{ASLEEP, IDLE};

// Who waits, and the rank that ran in the latest working slot. Before the first one that is rank 0: it is the lowest wherever it waits, so that it goes
// on only where it would run anyway.
#[derive(Clone, Copy)]
struct Running {
    ready: Ready,
    latest: usize,
}

// The rank that runs, where some rank waits: the latest, if it waits and none is due before it, else the lowest.
fn going(jobs: &OrderedJobs<'_>, latest: usize, mask: u64) -> usize
    requires { CanGo jobs.now mask latest }
    ensures { result ≡ going_rank jobs.now.deadlines.now jobs.now.ranks.now mask latest }
{
    let lowest = mask.trailing_zeros() as usize;
    if lowest == latest {
        return latest;
    }
    if (mask >> (latest as u32)) % 2 == 0 {
        return lowest;
    }
    let lowest_job = jobs.ranks[lowest] as usize;
    let latest_job = jobs.ranks[latest] as usize;
    if jobs.deadlines[lowest_job] < jobs.deadlines[latest_job] {
        return lowest;
    }
    latest
}

// Runs a job in slot t, if it is awake and a job waits.
fn slot(
    jobs: &OrderedJobs<'_>,
    t: usize,
    last: Running,
    left: &mut [u16],
    table: &mut [u8],
) -> Running
    requires { SlotFillable jobs.now left.old table.old t last }
    ensures { (o : Option ℕ) → Stands (length jobs.now.releases.now) jobs.now.ranks.now last.latest o → SlotFilled jobs.now left.old table.old t o left.new table.new result }
{
    if table[t] == ASLEEP {
        return last;
    }
    let ready = queue::current(jobs, t, last.ready, left);
    if ready.mask == 0 {
        table[t] = IDLE;
        return Running {
            ready,
            latest: last.latest,
        };
    }
    let rank = going(jobs, last.latest, ready.mask);
    let served = queue::serve(rank, ready.mask, left, jobs.ranks);
    table[t] = served.byte;
    Running {
        ready: Ready {
            mask: served.mask,
            ..ready
        },
        latest: rank,
    }
}

// The table of a set of awake slots in which all volume can be worked.
pub fn fill(jobs: &OrderedJobs<'_>, volumes: &[u16], table: &mut [u8])
    requires { Fillable jobs.now volumes.now table.old }
    ensures { Fills jobs.now.releases.now jobs.now.deadlines.now volumes.now table.old table.new }
{
    let mut left = queue::units(volumes);
    let mut last = Running {
        ready: Ready {
            mask: 0,
            next: 0,
            gone: 0,
            until: 0,
        },
        latest: 0,
    };
    for t in 0..table.len() {
        last = slot(jobs, t, last, &mut left, table);
    }
}
