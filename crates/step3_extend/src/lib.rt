// Step 3 of 01: the run over the skeleton, its books by rank, then a slot woken while volume is short. No function sees the whole list: what is asked
// is asked of some list with the parts at hand, and what is promised holds for every such list.
#![tactic(auto)]

ghost use Rattle.std.specs.Prelude.{◌≡◌, ◌≤◌, length};
ghost use Rattle.sched.specs.Bounded.{sum_below};
ghost use Rattle.sched.specs.Jobs.{Jobs};
ghost use Rattle.laws_edf.specs.Search.{state_of};
ghost use Rattle.laws_extension.specs.Chain.Start.{reach_of};
ghost use Rattle.step3_extend.specs.Turns.{Extended};
ghost use Rattle.step3_extend.specs.Beginning.{Extendable, EndsOf, Begun, ReachOf};

use orders::OrderedJobs;
use step3_slot::Books;

mod grow; // grow.rt: slots woken while volume is short

// The units that are lost of all jobs.
fn lost_in_all(lost: &[u16]) -> u32
    requires { length lost.now ≤ 64 }
    ensures { result ≡ sum_below (length lost.now) (state_of lost.now) }
{
    let mut all = 0;
    for &units in lost {
        all += u32::from(units);
    }
    all
}

// One more than the last slot of each job.
fn ends_of(table: &[u8]) -> [u16; 64]
    requires { length table.now ≤ 4096 }
    ensures long { length result ≡ 64 }
    ensures each { EndsOf table.now result }
{
    let mut ends = [0u16; 64];
    for (t, &byte) in table.iter().enumerate() {
        if byte < 64 {
            ends[byte as usize] = (t + 1) as u16;
        }
    }
    ends
}

// How far a rank reaches: to its deadline while it has lost units, else to its last slot.
fn reach_of(deadline: u16, lost: u16, end: u16) -> u16
    ensures { result ≡ reach_of lost end deadline }
{
    if lost == 0 { end } else { deadline }
}

fn reaches(deadlines: &[u16; 64], lost: &[u16; 64], ends: &[u16; 64]) -> [u16; 64]
    ensures { ReachOf deadlines.now lost.now ends.now result 64 }
{
    let mut reach = [0u16; 64];
    for k in 0..64 {
        reach[k] = reach_of(deadlines[k], lost[k], ends[k]);
    }
    reach
}

// The books by job become books by rank, in their place, and slots are woken by them.
fn grow_by_rank(
    jobs: &OrderedJobs<'_>,
    lost: &mut [u16; 64],
    ends: &mut [u16; 64],
    table: &mut [u8],
    short: u32,
)
    requires { (J : Jobs) × Begun J jobs.now.releases.now jobs.now.deadlines.now jobs.now.ranks.now lost.old ends.old table.old short }
    ensures { (J : Jobs) → Begun J jobs.now.releases.now jobs.now.deadlines.now jobs.now.ranks.now lost.old ends.old table.old short
        → Extended J table.new short }
{
    let ranks = jobs.ranks;
    let n = ranks.len();
    let releases = orders::ranked(jobs.releases, ranks);
    let deadlines = orders::ranked(jobs.deadlines, ranks);
    *lost = orders::ranked(lost, ranks);
    *ends = orders::ranked(ends, ranks);
    let mut reach = reaches(&deadlines, lost, ends);
    let mut books = Books {
        lost,
        reach: &mut reach,
        ends,
        table,
    };
    grow::grow(&releases[..n], &deadlines[..n], ranks, &mut books, short);
}

// The table comes with the least skeleton and goes with the extended one; the answer counts the slots that were woken.
pub fn extend(jobs: &OrderedJobs<'_>, volumes: &[u16], table: &mut [u8]) -> u32
    requires { (J : Jobs) × Extendable J jobs.now.releases.now jobs.now.deadlines.now volumes.now jobs.now.ranks.now table.old }
    ensures { (J : Jobs) → Extendable J jobs.now.releases.now jobs.now.deadlines.now volumes.now jobs.now.ranks.now table.old
        → Extended J table.new result }
{
    let mut lost = queue::units(volumes);
    queue::run(jobs, 0, &mut lost, table);
    let mut ends = ends_of(table);
    // each slot that is woken gains one of the lost units
    let added = lost_in_all(&lost[..jobs.ranks.len()]);
    grow_by_rank(jobs, &mut lost, &mut ends, table, added);
    added
}
