// Each bit of the last map byte alone.
ghost use Rattle.std.specs.Prelude.{◌<◌};

use super::cases;
use test_bytes::first;

// Two lines `padding` of `cases::tried`: a record for h slots (at most 16) of whose map only this bit of the last byte stands, without slot
// bytes and with one; the shorter table has as many bytes as said.
fn bit(h: u8, short: usize, bit: u32, table: &mut [u8])
    requires { bit < 8 }
{
    let behind = 2 + (h as usize).div_ceil(8);
    let mut bytes = [0u8; 5];
    test_bytes::put(&mut bytes, 0, h);
    test_bytes::put(&mut bytes, behind - 1, 1 << bit);
    test_bytes::put(&mut bytes, behind, 7);
    cases::tried(b"padding", first(&bytes, behind), table, short);
    cases::tried(b"padding", first(&bytes, behind + 1), table, short);
}

// So for each of the eight bits and each horizon from 1 to 16, with tables of 19 bytes and of one less than the horizon.
pub fn each() {
    let mut table = [0u8; 19];
    for short in 0..16 {
        for k in 0..8 {
            bit((short + 1) as u8, short, k, &mut table);
        }
    }
}
