// Faulty jobs for the test programs: a deadline past the horizon (25), an empty span (15) and no volume (26), alone and together. The horizon is
// 4,096 slots.
#![tactic(auto)]

ghost use Rattle.std.specs.Prelude.{false, ◌≡◌};
ghost use Rattle.test_faults.specs.Faults.{wanted, found, left_out};

// Release, deadline and volume.
#[derive(Clone, Copy, Debug, PartialEq, Eq)]
pub struct Job {
    pub r: u16,
    pub d: u16,
    pub p: u16,
}

// Faulty job k of seven: 0 to 2 have one fault each, 25, 15 and 26; 3 has 25 and 15, 4 has 25 and 26, 5 has 15 and 26; 6 and all further ones have all
// three. No field has its absent value, so that the entry of such a job has all three.
// kept: k is a number, since the contract speaks of each and the programs count through the seven.
pub fn nth(k: usize) -> Job
    ensures { (found result.r result.d result.p ≡ wanted k) × (left_out result.r result.d result.p ≡ false) }
{
    match k {
        0 => Job {
            r: 1,
            d: 4097,
            p: 2,
        },
        1 => Job {
            r: 200,
            d: 200,
            p: 2,
        },
        2 => Job { r: 1, d: 300, p: 0 },
        3 => Job {
            r: 4097,
            d: 4097,
            p: 2,
        },
        4 => Job {
            r: 1,
            d: 4097,
            p: 0,
        },
        5 => Job {
            r: 201,
            d: 200,
            p: 0,
        },
        _ => Job {
            r: 65535,
            d: 65535,
            p: 0,
        },
    }
}
