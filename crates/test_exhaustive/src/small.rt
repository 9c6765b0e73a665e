// Small lists, packed in numbers.
ghost use Rattle.std.specs.Prelude.{◌≡◌, ◌+◌, ◌/◌, ◌%◌, ◌^◌};
ghost use Rattle.test_exhaustive.specs.Digits.{digit_of};

// A list that passes the list checks, with at most four jobs, eight slots and volumes of at most 15: horizon h, wake cost q, n jobs.
// Releases, deadlines and volumes are numbers with one hexadecimal digit a job, job 0 lowest; past the last job the digits are 0.
// What the functions of this crate are said to yield, they yield for such lists and for sets of slots below h.
// kept: numbers, not an array of jobs, for `digit` and `volume` promise equations over them.
#[derive(Clone, Copy)]
pub struct Small {
    pub h: u32,
    pub q: u16,
    // Whether the processor is awake before slot 0.
    pub start: bool,
    pub n: u32,
    pub r: u32,
    pub d: u32,
    pub p: u32,
}

// The digit of job j in a packed field: hexadecimal digit j of x, where j is below 8.
pub fn digit(x: u32, j: u32) -> u32
    ensures { result ≡ digit_of x j }
{
    (x >> (j % 8 * 4)) % 16
}

// 1 where slot t is in the set, else 0: bit t, where t is below 32.
pub fn bit(set: u32, t: u32) -> u32
    ensures { result ≡ set / 2 ^ (t % 32) % 2 }
{
    (set >> (t % 32)) % 2
}

// The set and slot t, where t is below 32; a set that has the slot already stays as it is.
pub fn with(set: u32, t: u32) -> u32 {
    set | (1 << (t % 32))
}

// How many units the four jobs have together: the sum of the four lowest digits.
pub fn units(p: u32) -> u32
    ensures { result ≡ digit_of p 0 + digit_of p 1 + digit_of p 2 + digit_of p 3 }
{
    digit(p, 0) + digit(p, 1) + digit(p, 2) + digit(p, 3)
}

// The sum of the volumes.
pub fn volume(l: Small) -> u32
    ensures { result ≡ digit_of l.p 0 + digit_of l.p 1 + digit_of l.p 2 + digit_of l.p 3 }
{
    units(l.p)
}
