// The map of a record that is read: which slots are awake, how many, where they end, and whether a bit stands behind the last slot.
ghost use Rattle.std.specs.Prelude.{◌≡◌, map, ◌*◌, ◌≤◌, ◌<◌, length, take, drop};
ghost use Rattle.std.specs.Int.Count.{ones};
ghost use Rattle.sched.specs.Bounded.{total};
ghost use Rattle.sched.specs.Slots.{awake};
ghost use Rattle.sched.specs.Runs.{StretchEnd};
ghost use Rattle.record_map.specs.MapBits.{bits_of, some_bit};

// The bit of slot t.
pub fn is_awake(bits: &[u8], t: usize) -> bool
    requires { t < 8 * length bits.now }
    ensures { result ≡ awake (bits_of bits.now) t }
{
    (bits[t / 8] >> (t % 8)) % 2 == 1
}

// The ones of the map, which are the slot bytes behind it.
pub fn count(bits: &[u8]) -> usize
    requires { length bits.now ≤ 512 }
    ensures { result ≡ total (map ones bits.now) }
{
    bits.iter().map(|byte| byte.count_ones() as usize).sum()
}

// Whether a bit from slot h on stands.
pub fn has_padding(bits: &[u8], h: usize) -> bool
    requires { length bits.now ≤ 512 }
    ensures { result ≡ some_bit (drop h (bits_of bits.now)) }
{
    for t in h..8 * bits.len() {
        if is_awake(bits, t) {
            return true;
        }
    }
    false
}

// Where the awake slots from a slot on end, or the sleeping ones.
pub fn end(bits: &[u8], h: usize, from: usize, awake: bool) -> usize
    requires { (from ≤ h) × (h ≤ 4096) × (h ≤ 8 * length bits.now) }
    ensures { StretchEnd (take h (bits_of bits.now)) h from awake result }
{
    sched::stretch_end(h, from, awake, |t| is_awake(bits, t))
}
