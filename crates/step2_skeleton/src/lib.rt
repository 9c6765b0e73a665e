// Step 2: the least skeleton, from one number a job. A place is a position in an order of the jobs by the ends of their windows.
#![tactic(auto)]

ghost use Rattle.std.specs.Prelude.{◌≡◌, List, map, ℕ, ◌+◌, ◌-◌, ◌≤◌, ◌<◌, min, length, get_or, ltb};
ghost use Rattle.sched.specs.Jobs.{Jobs};
ghost use Rattle.steps.specs.Skeleton.{least_skeleton};
ghost use Rattle.step2_skeleton.specs.Marks.{marked, with_run};
ghost use Rattle.step2_skeleton.specs.Places.{one_of, wins, largest, AtMostFrom, Placeable, Source, SleepFrom, EndFrom, PricedFrom, Frontable, FrontFrom, Drawable, Drawn, MarkedWindows, Markable};

use sched::{ASLEEP, IDLE, fill};

// The first and the last slot of each window, by place.
fn by_place(
    h: u16,
    releases: &[u16],
    deadlines: &[u16],
    ranks: &[u8],
    starts: &mut [u16],
    ends: &mut [u16],
)
    requires { (1 ≤ h) × Placeable releases.now deadlines.now ranks.now starts.old ends.old }
    ensures { (starts.new ≡ map (λ j. get_or releases.now j 0 - 1) ranks.now) × (ends.new ≡ map (λ j. min (get_or deadlines.now j 0) (h - 1)) ranks.now) }
{
    for (k, &rank) in ranks.iter().enumerate() {
        let job = rank as usize;
        starts[k] = releases[job].saturating_sub(1);
        ends[k] = deadlines[job].min(h - 1);
    }
}

// The slot before which a run ends, and what is paid from slot 0 on by a run from there that ends so.
#[derive(Clone, Copy)]
struct Ending {
    end: u16,
    through: u32,
}

// The cheaper of two ends, the earlier where they cost the same; a run cannot end before `low`.
// kept: tests apart, not a derived order and `min`: asked first which is cheaper, the back end branches, and is quicker (docs/PERFORMANCE.md).
fn better(best: Ending, low: u16, end: u16, through: u32) -> Ending
    ensures { (result.end ≡ one_of (wins low end through best.end best.through) end best.end) × (result.through ≡ one_of (wins low end through best.end best.through) through best.through) }
{
    if end < low {
        return best;
    }
    if best.through < through {
        return best;
    }
    if through < best.through {
        return Ending { end, through };
    }
    if end < best.end {
        return Ending { end, through };
    }
    best
}

// The slots from s on: asleep up to slot `first`, awake from there up to slot `end`. Other slots keep their bytes.
fn draw_run(table: &mut [u8], s: usize, first: usize, end: usize)
    requires { (s ≤ first) × (first ≤ end) × (end ≤ length table.old) }
    ensures { table.new ≡ with_run s first end table.old }
{
    fill(table, s, first, ASLEEP);
    fill(table, first, end, IDLE);
}

// The horizon, the wake cost, and the first and the last slot of each job's window, by place.
#[derive(Clone, Copy)]
struct JobWindows<'a> {
    h: u16,
    q: u16,
    // kept: two lists, of which most methods read the starts alone; a list of pairs would be mapped apart in each clause.
    starts: &'a [u16],
    ends: &'a [u16],
    ghost few: { length starts.now ≤ 64 },
    ghost same: { length ends.now ≡ length starts.now },
    ghost placed: { ∥ Source h q starts.now ends.now ∥₁ },
}

// What is priced of the windows, by place: what is paid from the end of a window on, what sleep costs behind its start, and where the run from its
// end ends.
#[derive(Drop)]
struct Prices {
    // kept: three arrays; one of structs is padded, and takes 128 bytes more of a stack that is small (fixed memory).
    values: [u32; 64],
    rests: [u32; 64],
    untils: [u16; 64],
    ghost sized: { (length values ≡ 64) × (length rests ≡ 64) × (length untils ≡ 64) },
}

impl JobWindows<'_> {
    // What is paid from slot s on when sleep begins there: the first window, from place `from` on, that starts at s or later is waked for.
    fn sleep_cost(&self, values: &[u32; 64], from: usize, s: u16) -> u32
        requires { AtMostFrom largest from (length self.now.starts.now) values.now }
        ensures { SleepFrom self.now.q self.now.starts.now values.now from s result }
    {
        for k in from..self.starts.len() {
            if s <= self.starts[k] {
                return self.q as u32 + values[k];
            }
        }
        0
    }

    // The best end of a run that may end before `low`, where `through` is paid, or behind the start of a window from place `from` on.
    fn best_end(&self, rests: &[u32; 64], from: usize, low: u16, through: u32) -> Ending
        requires { AtMostFrom largest from (length self.now.starts.now) rests.now }
        ensures { EndFrom self.now.starts.now rests.now from low through result.end result.through }
    {
        let mut best = Ending { end: low, through };
        for k in from..self.starts.len() {
            let end = self.starts[k] + 1;
            best = better(best, low, end, end as u32 + rests[k]);
        }
        best
    }

    // Who falls asleep before slot `first`, behind the start of a window, wakes for the window that starts there.
    fn wake_for(&self, first: u16, cost: u32, rests: &mut [u32; 64])
        ensures many { length rests.new ≡ 64 }
        ensures waked { (k : ℕ) → k < length self.now.starts.now → get_or rests.new k 0 ≡ one_of (ltb (get_or self.now.starts.now k 0) first) cost (get_or rests.old k 0) }
    {
        for (k, &start) in self.starts.iter().enumerate() {
            if start < first {
                rests[k] = cost;
            }
        }
    }

    // Place i joins the priced places behind it.
    fn price(&self, prices: &mut Prices, i: usize)
        requires within { i < length self.now.starts.now }
        requires done { PricedFrom self.now.h self.now.q self.now.starts.now self.now.ends.now prices.old.values prices.old.rests prices.old.untils (i + 1) }
        ensures { PricedFrom self.now.h self.now.q self.now.starts.now self.now.ends.now prices.new.values prices.new.rests prices.new.untils i }
    {
        let t = self.ends[i];
        let low = t + 1;
        let asleep = self.sleep_cost(&prices.values, i + 1, low);
        let best = self.best_end(&prices.rests, i + 1, low, low as u32 + asleep);
        let value = best.through - t as u32;
        prices.values[i] = value;
        prices.untils[i] = best.end;
        self.wake_for(self.starts[i], self.q as u32 + value, &mut prices.rests);
    }

    // The end of the run that begins at the end of each window.
    fn price_all(&self, prices: &mut Prices)
        requires { (k : ℕ) → get_or prices.old.rests k 0 ≡ 0 }
        ensures { PricedFrom self.now.h self.now.q self.now.starts.now self.now.ends.now prices.new.values prices.new.rests prices.new.untils 0 }
    {
        for i in (0..self.starts.len()).rev() {
            self.price(prices, i);
        }
    }

    // The slot before which a run from before slot 0 ends, 0 where there is none: only a start awake can have one, which then is paid for by its slots
    // alone.
    fn front_end(&self, start: bool, prices: &Prices) -> usize
        requires { Frontable self.now.starts.now prices.now.values prices.now.rests }
        ensures { FrontFrom self.now.q start self.now.starts.now prices.now.values prices.now.rests result }
    {
        if start {
            let asleep = self.sleep_cost(&prices.values, 0, 0);
            let best = self.best_end(&prices.rests, 0, 0, asleep);
            return best.end as usize;
        }
        0
    }

    // Behind the run in front, a window that starts at s, the end of the last run, or later begins a run in its last slot.
    fn draw(&self, front: usize, untils: &[u16; 64], table: &mut [u8])
        requires { Drawable front self.now.h self.now.q self.now.starts.now self.now.ends.now untils.now table.old }
        ensures { Drawn front self.now.h self.now.q self.now.starts.now self.now.ends.now table.new }
    {
        let mut s = front;
        for (i, &start) in self.starts.iter().enumerate() {
            if s <= start as usize {
                let end = untils[i] as usize;
                draw_run(table, s, self.ends[i] as usize, end);
                s = end;
            }
        }
        let h = self.h as usize;
        fill(table, s, h, ASLEEP);
    }

    fn mark(&self, start: bool, table: &mut [u8])
        requires { length table.old ≡ self.now.h }
        ensures { MarkedWindows self.now.h self.now.q start self.now.starts.now self.now.ends.now table.new }
    {
        let mut prices = Prices {
            values: [0; 64],
            rests: [0; 64],
            untils: [0; 64],
        };
        self.price_all(&mut prices);
        let front = self.front_end(start, &prices);
        fill(table, 0, front, IDLE);
        self.draw(front, &prices.untils, table);
    }
}

// The least skeleton of a list that passes the checks: awake and idle, or asleep.
pub fn mark(
    h: u16,
    q: u16,
    start: bool,
    releases: &[u16],
    deadlines: &[u16],
    ranks: &[u8],
    table: &mut [u8],
)
    requires { (J : Jobs) × Markable J h q start releases.now deadlines.now ranks.now table.old }
    ensures { (J : Jobs) → Markable J h q start releases.now deadlines.now ranks.now table.old → table.new ≡ marked (least_skeleton J) }
{
    let n = ranks.len();
    let mut starts = [0u16; 64];
    let mut ends = [0u16; 64];
    by_place(
        h,
        releases,
        deadlines,
        ranks,
        &mut starts[..n],
        &mut ends[..n],
    );
    let windows = JobWindows {
        h,
        q,
        starts: &starts[..n],
        ends: &ends[..n],
    };
    windows.mark(start, table);
}
