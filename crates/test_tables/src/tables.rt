// Tables and lists for the cases.
ghost use Rattle.std.specs.Prelude.{◌≡◌, set, replicate};

// Lets slot i name job i for each i below n, as far as the table goes; n is at most 256. Later slots keep their bytes.
pub fn count_up(t: &mut [u8], n: usize) {
    for i in 0..n {
        test_bytes::put(t, i, (i % 256) as u8);
    }
}

// One field of 65 jobs: the same for all but job k; for all where k is 65 or more.
pub fn field(all: u16, k: usize, other: u16) -> [u16; 65]
    ensures { result ≡ set (replicate 65 all) k other }
{
    let mut list = [all; 65];
    test_bytes::put(&mut list, k, other);
    list
}
