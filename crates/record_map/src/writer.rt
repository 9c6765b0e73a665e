// The map of a table that is written: a bit a slot, eight to a byte.
ghost use Rattle.std.specs.Prelude.{◌≡◌, map, ◌≤◌, length};
ghost use Rattle.std.specs.Int.Count.{ones};
ghost use Rattle.sched.specs.Bits.{bit};
ghost use Rattle.sched.specs.Bounded.{total};
ghost use Rattle.sched.specs.Slots.{awake, awake_of};
ghost use Rattle.record_map.specs.MapBytes.{bits, map_length, map_bytes_of};
ghost use Rattle.record_map.specs.Stored.{stored};

use sched::ASLEEP;

// 1 for an awake slot; behind the last slot everything sleeps.
fn bit(slots: &[u8], t: usize) -> u8
    ensures { result ≡ bit (awake (awake_of slots.now) t) }
{
    match slots.get(t) {
        Some(&byte) => u8::from(byte != ASLEEP),
        None => 0,
    }
}

// The map byte of the eight slots from first on, the first of them in bit 0.
fn map_byte(slots: &[u8], first: usize) -> u8
    requires { first ≤ 4096 }
    ensures { result ≡ bits 8 first (awake_of slots.now) }
{
    let mut byte: u8 = 0;
    for k in (0..8).rev() {
        byte = 2 * byte + bit(slots, first + k);
    }
    byte
}

// The ones of the map, which are the awake slots.
pub fn count_awake(slots: &[u8]) -> usize
    requires { length slots.now ≤ 4096 }
    ensures { result ≡ total (map ones (map_bytes_of (awake_of slots.now))) }
{
    let mut awake: usize = 0;
    for k in 0..slots.len().div_ceil(8) {
        awake += map_byte(slots, 8 * k).count_ones() as usize;
    }
    awake
}

// The map, from the front of what is lent.
pub fn fill_map(slots: &[u8], map: &mut [u8])
    requires { (length slots.now ≤ 4096) × (map_length (length slots.now) ≤ length map.old) }
    ensures { map.new ≡ stored (map_bytes_of (awake_of slots.now)) map.old }
{
    for k in 0..slots.len().div_ceil(8) {
        map[k] = map_byte(slots, 8 * k);
    }
}
