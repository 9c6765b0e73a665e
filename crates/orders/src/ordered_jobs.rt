// At most 64 jobs with the two orders that the planner goes by.
#![tactic(auto)]

ghost use Rattle.std.specs.Prelude.{◌≡◌, ◌≤◌, ◌<◌, length, get_or};
ghost use Rattle.laws_edf.specs.Orders.{Orders, rank_release};
ghost use Rattle.orders.specs.OneProof.{Orders-prop};

// The jobs of a list in order: `ranks` has the jobs by deadline, `arrivals` their ranks by release.
#[derive(Clone, Copy)]
pub struct OrderedJobs<'a> {
    pub releases: &'a [u16],
    pub deadlines: &'a [u16],
    pub ranks: &'a [u8],
    pub arrivals: &'a [u8],
    pub ghost few: { length releases.now ≤ 64 },
    pub ghost orders: { Orders releases.now deadlines.now ranks.now arrivals.now } by { Orders-prop releases.now deadlines.now ranks.now arrivals.now },
}

impl<'a> OrderedJobs<'a> {
    pub fn new(
        releases: &'a [u16],
        deadlines: &'a [u16],
        ranks: &'a [u8],
        arrivals: &'a [u8],
    ) -> OrderedJobs<'a>
        requires few { length releases.now ≤ 64 }
        requires orders { Orders releases.now deadlines.now ranks.now arrivals.now }
        ensures releases { result.releases.now ≡ releases.now }
        ensures deadlines { result.deadlines.now ≡ deadlines.now }
        ensures ranks { result.ranks.now ≡ ranks.now }
        ensures arrivals { result.arrivals.now ≡ arrivals.now }
    {
        OrderedJobs {
            releases,
            deadlines,
            ranks,
            arrivals,
        }
    }

    // When the rank at a place of `arrivals` is released; behind the last place there is none.
    pub fn release_at(&self, place: usize) -> Option<u16>
        ensures listed { place < length self.now.releases.now
            → result ≡ Some (rank_release self.now.releases.now self.now.ranks.now (get_or self.now.arrivals.now place 0)) }
        ensures behind { length self.now.releases.now ≤ place → result ≡ None }
    {
        if place < self.arrivals.len() {
            let rank = self.arrivals[place] as usize;
            let job = self.ranks[rank] as usize;
            return Some(self.releases[job]);
        }
        None
    }
}
