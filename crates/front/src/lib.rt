// What comes before any slot is planned, under any planner: the list checks, 17 for the table, the two orders of the jobs, and step 1.
#![tactic(auto)]

ghost use Rattle.front.specs.Early.{Room, AllPass, Found, Begins};

use orders::OrderedJobs;
use sched::{Interval, Outcome};

// Puts the jobs of a list that passes the checks in order, and takes step 1.
fn order_and_find(
    h: u16,
    releases: &[u16],
    deadlines: &[u16],
    volumes: &[u16],
    ranks: &mut [u8],
    arrivals: &mut [u8],
) -> Option<Interval>
    requires { AllPass h releases.now deadlines.now volumes.now × Room ranks.old arrivals.old }
    ensures { Found h releases.now deadlines.now volumes.now result ranks.new arrivals.new }
{
    let n = releases.len();
    orders::rank(releases, deadlines, &mut ranks[..n], &mut arrivals[..n]);
    let jobs = OrderedJobs {
        releases,
        deadlines,
        ranks: &ranks[..n],
        arrivals: &arrivals[..n],
    };
    step1_overload::find(h, &jobs, volumes)
}

// `have` is the length of the lent table. An answer that there is already comes as an `Err`; if there is none yet, the fronts of the two arrays hold
// the jobs in order.
pub fn begin(
    h: u16,
    releases: &[u16],
    deadlines: &[u16],
    volumes: &[u16],
    have: usize,
    ranks: &mut [u8],
    arrivals: &mut [u8],
) -> Result<(), Outcome>
    requires { Room ranks.old arrivals.old }
    ensures { Begins h releases.now deadlines.now volumes.now have result ranks.new arrivals.new }
{
    sched::check_list(h, releases, deadlines, volumes)?;
    sched::check_length(have, h as usize)?;
    match order_and_find(h, releases, deadlines, volumes, ranks, arrivals) {
        Some(i) => Err(Outcome::Overloaded(i)),
        None => Ok(()),
    }
}
