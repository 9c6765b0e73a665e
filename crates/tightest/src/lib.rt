// Card 7: how close a list is to overload. For each job's deadline the releases before it are visited from the last to the first, while the volumes of
// the jobs due by then add up: with n jobs, at most n times n steps.
#![tactic(auto)]

ghost use Rattle.std.specs.Prelude.{◌≡◌, Bool, ℕ, ◌≤◌, ◌<◌, length, get_or, pos, ◌-ℤ◌};
ghost use Rattle.sched.specs.Jobs.{Jobs, jobs_from};
ghost use Rattle.sched.specs.Checks.{CheckPromise};
ghost use Rattle.orders.specs.Lists.{ListsOf};
ghost use Rattle.tightest.specs.Slack.{IsTightest};
ghost use Rattle.tightest.specs.Answer.{no_jobs_check, TightnessPromise};
ghost use Rattle.tightest.specs.Search.{Listed, Arranged, EndsAt, TightestTo, Startable, CountsBefore, Visits, rather};

use sched::Refusal;

// An interval, the slots from a up to but without b, and its slack.
#[derive(Clone, Copy)]
pub struct Tight {
    pub slack: i32,
    pub a: usize,
    pub b: usize,
}

// What the jobs visited so far say of the intervals that end at b: `sum` is the volume of those due by b, and `until` is how far work in one piece from
// `a` would reach. No other release reaches further, so from none there is less slack.
#[derive(Clone, Copy)]
struct Reach {
    sum: usize,
    a: usize,
    until: usize,
}

// The jobs of a list that passes the checks and has one, and their numbers by release.
#[derive(Clone, Copy)]
struct ByRelease<'a> {
    releases: &'a [u16],
    deadlines: &'a [u16],
    volumes: &'a [u16],
    order: &'a [u8],
    ghost arranged: { Arranged releases.now deadlines.now volumes.now order.now },
}

// 34 for a number of jobs.
fn check_some(n: usize) -> Result<(), Refusal>
    ensures { CheckPromise (no_jobs_check n) result }
{
    if n == 0 {
        return Err(Refusal::NoJobs(0));
    }
    Ok(())
}

// The slack of the interval that ends at b, from how far its work reaches.
fn slack_of(b: u16, until: usize) -> i32
    requires { until < 2147483648 }
    ensures { result ≡ pos b -ℤ pos until }
{
    i32::from(b) - until as i32
}

// Which of the tightest intervals of two ends is reported.
fn rather(x: Tight, y: Tight) -> Tight
    ensures { result ≡ rather x y }
{
    if (x.slack, x.b) <= (y.slack, y.b) {
        x
    } else {
        y
    }
}

impl Reach {
    // One job more, released with or before those visited. One that is not due by b changes nothing: from its release work reaches no further.
    fn visit(self, b: u16, release: u16, deadline: u16, volume: u16) -> Reach
        requires { self.sum ≤ 4194240 }
        ensures { Visits b release deadline volume self.sum self.a self.until result.sum result.a result.until }
    {
        if b < deadline {
            return self;
        }
        let sum = self.sum + usize::from(volume);
        let until = usize::from(release) + sum;
        if self.until < until {
            Reach {
                sum,
                a: usize::from(release),
                until,
            }
        } else {
            Reach { sum, ..self }
        }
    }
}

impl ByRelease<'_> {
    // The release at a place of the order.
    fn release_at(&self, at: usize) -> u16
        requires { at < length self.now.order.now }
        ensures { result ≡ get_or self.now.releases.now (get_or self.now.order.now at 0) 0 }
    {
        self.releases[self.order[at] as usize]
    }

    // How many of the jobs are released before b, a job's deadline.
    fn count_before(&self, b: u16) -> usize
        requires { Startable self.now.releases.now self.now.order.now b }
        ensures { CountsBefore self.now.releases.now self.now.order.now b result }
    {
        for at in (0..self.order.len()).rev() {
            if self.release_at(at) < b {
                return at + 1;
            }
        }
        0
    }

    // The tightest interval that ends at b, a job's deadline. A release of several jobs is tried once for each that is due by b, and only the last
    // time with all their volumes: before that it reaches less far.
    fn ending_at(&self, b: u16) -> Tight
        requires { EndsAt self.now.deadlines.now b }
        ensures { (J : Jobs) → ListsOf J self.now.releases.now self.now.deadlines.now self.now.volumes.now → TightestTo J b result }
    {
        let n = self.count_before(b);
        let last = self.release_at(n - 1) as usize;
        let mut far = Reach {
            sum: 0,
            a: last,
            until: last,
        };
        for at in (0..n).rev() {
            let job = self.order[at] as usize;
            far = far.visit(
                b,
                self.releases[job],
                self.deadlines[job],
                self.volumes[job],
            );
        }
        Tight {
            slack: slack_of(b, far.until),
            a: far.a,
            b: b as usize,
        }
    }

    // The tightest of all, end by end.
    fn over_ends(&self) -> Tight
        ensures { (J : Jobs) → ListsOf J self.now.releases.now self.now.deadlines.now self.now.volumes.now → IsTightest J result }
    {
        let mut best = self.ending_at(self.deadlines[0]);
        for j in 1..self.deadlines.len() {
            best = rather(best, self.ending_at(self.deadlines[j]));
        }
        best
    }
}

// So for a list that passes the checks and has a job.
fn search(releases: &[u16], deadlines: &[u16], volumes: &[u16]) -> Tight
    requires { Listed releases.now deadlines.now volumes.now }
    ensures { (J : Jobs) → ListsOf J releases.now deadlines.now volumes.now → IsTightest J result }
{
    let n = releases.len();
    let mut order = [0u8; 64];
    orders::sort(releases, &mut order[..n]);
    let jobs = ByRelease {
        releases,
        deadlines,
        volumes,
        order: &order[..n],
    };
    jobs.over_ends()
}

// The least slack of an interval from a job's release to a job's deadline, with that interval; on equal slack the one that ends first, then the one that
// begins last.
pub fn find(h: u16, releases: &[u16], deadlines: &[u16], volumes: &[u16]) -> Result<Tight, Refusal>
    ensures { (q : ℕ) (start : Bool) → TightnessPromise (jobs_from h q start releases.now deadlines.now volumes.now) result }
{
    sched::check_list(h, releases, deadlines, volumes)?;
    check_some(releases.len())?;
    Ok(search(releases, deadlines, volumes))
}
