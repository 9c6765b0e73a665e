// The lists of the comparison, each made from a number.
ghost use Rattle.std.specs.Prelude.{◌≡◌, ◌*◌, ◌%◌, ◌^◌, ◌<◌};

use test_bytes::Chance;
use test_exhaustive::{Small, digit};

// The wake costs 0, 1, 2, 3 and 9, for i modulo 5.
fn wake_cost(i: u32) -> u16 {
    let costs = [0, 1, 2, 3, 9];
    costs[(i % 5) as usize]
}

// A packed field in which only job j has a digit, the lowest of x; j is below 8. The rest by 2^32 changes nothing.
fn placed(x: u32, j: u32) -> u32
    ensures { result ≡ (x % 16) * 2 ^ (j % 8 * 4) % 2 ^ 32 }
{
    (x % 16) << (j % 8 * 4)
}

// The rest of x by m. That it is below m is there for safety.
fn modulo(x: u32, m: u32) -> u32
    requires { 0 < m }
    ensures { (result ≡ x % m) × (result < m) }
{
    x % m
}

// List number `code` of those with this start, n jobs (at most four), a horizon of at most m and volumes of at most m, where m is at most 8. The
// number has a digit a field, the lowest first: horizon less 1 (of m values), the wake cost (of five), then for each job release, deadline less 1
// and volume less 1 (of m values each). Some do not pass the list checks: see `valid`.
pub fn listed(n: u32, m: u32, code: u32, start: bool) -> Small
    requires { 0 < m }
{
    let mut rest = code / m / 5;
    let mut r = 0;
    let mut d = 0;
    let mut p = 0;
    for j in 0..n.min(4) {
        r |= placed(modulo(rest, m), j);
        d |= placed(modulo(rest / m, m) + 1, j);
        p |= placed(modulo(rest / m / m, m) + 1, j);
        rest = rest / m / m / m;
    }
    Small {
        h: modulo(code, m) + 1,
        q: wake_cost(code / m),
        start,
        n,
        r,
        d,
        p,
    }
}

// Whether the list has no job j, or one with r < d, d ≤ h and a volume that is larger than its span by one at most.
fn valid_job(l: Small, j: u32) -> bool {
    l.n <= j
        || digit(l.r, j) < digit(l.d, j)
            && digit(l.d, j) <= l.h
            && digit(l.r, j) + digit(l.p, j) <= digit(l.d, j) + 1
}

// Whether a list from `listed` passes the list checks and no volume is larger than its span by more than one.
// Horizon and volumes of such a list are at least 1 anyway.
pub fn valid(l: Small) -> bool {
    valid_job(l, 0) && valid_job(l, 1) && valid_job(l, 2) && valid_job(l, 3)
}

// A list with this start that passes the list checks, of one to four jobs, five to eight slots and volumes of at most three.
pub fn drawn(chance: &mut Chance, start: bool) -> Small {
    let h = 5 + chance.below(4);
    let q = wake_cost(chance.below(5) as u32);
    let n = 1 + chance.below(4) as u32;
    let mut r = 0;
    let mut d = 0;
    let mut p = 0;
    for j in 0..n {
        let x = chance.below(h) as u32;
        let y = chance.below(h) as u32;
        r |= placed(x.min(y), j);
        d |= placed(x.max(y) + 1, j);
        p |= placed(1 + chance.below(3) as u32, j);
    }
    Small {
        h: h as u32,
        q,
        start,
        n,
        r,
        d,
        p,
    }
}
