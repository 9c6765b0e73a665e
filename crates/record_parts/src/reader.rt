// A record that is read: the checks that the readers of a table and of a run share, and the table.
ghost use Rattle.std.specs.Prelude.{◌≡◌, ◌≤◌, length, take};
ghost use Rattle.sched.specs.TwoBytes.{word};
ghost use Rattle.record_map.specs.MapBits.{bits_of};
ghost use Rattle.record_parts.specs.Layout.{behind_map};
ghost use Rattle.record_parts.specs.Bytes.{slot_bytes_check, body_check, record_check, spread, TableFits};

use sched::{ASLEEP, IDLE, Refusal};

// H, from its two bytes.
pub fn horizon(bytes: &[u8]) -> u16
    requires { 2 ≤ length bytes.now }
    ensures { result ≡ word bytes.now }
{
    sched::read_word(bytes, 0)
}

// Where the slot bytes of a record for h slots begin.
pub fn behind_map(h: usize) -> usize
    ensures { result ≡ behind_map h }
{
    2 + h.div_ceil(8)
}

// 11 for the slot bytes, 32 and 16.
fn check_slot_bytes(bytes: &[u8], from: usize, count: usize) -> Result<(), Refusal>
    requires { (from ≤ 4096) × (count ≤ 4096) }
    ensures { result ≡ slot_bytes_check from count bytes.now }
{
    let end = from + count;
    if bytes.len() < end {
        return Err(Refusal::Truncated(bytes.len()));
    }
    sched::check_each(bytes, from, end, |at, byte| {
        if byte < 64 || byte == IDLE {
            return Ok(());
        }
        Err(Refusal::BadSlotByte(at))
    })?;
    if end < bytes.len() {
        return Err(Refusal::LeftOver(end));
    }
    Ok(())
}

// 11 for the map, 31, and what is behind the map.
fn check_body(h: u16, bytes: &[u8]) -> Result<(), Refusal>
    requires { h ≤ 4096 }
    ensures { result ≡ body_check h bytes.now }
{
    let behind = behind_map(h as usize);
    if bytes.len() < behind {
        return Err(Refusal::Truncated(bytes.len()));
    }
    if record_map::has_padding(&bytes[2..behind], h as usize) {
        return Err(Refusal::PaddingBit(behind - 1));
    }
    check_slot_bytes(bytes, behind, record_map::count(&bytes[2..behind]))
}

// All that is refused of a record by itself, in its order.
pub fn check(bytes: &[u8]) -> Result<(), Refusal>
    ensures { result ≡ record_check bytes.now }
{
    if bytes.len() < 2 {
        return Err(Refusal::Truncated(bytes.len()));
    }
    let h = horizon(bytes);
    sched::check_horizon(h)?;
    check_body(h, bytes)
}

// The slot bytes, each in its slot, and sleep in the others.
pub fn fill_table(bits: &[u8], bytes: &[u8], table: &mut [u8])
    requires { TableFits bits.now bytes.now table.old }
    ensures { table.new ≡ spread (take (length table.old) (bits_of bits.now)) bytes.now }
{
    let mut at = 0;
    for t in 0..table.len() {
        if record_map::is_awake(bits, t) {
            table[t] = bytes[at];
            at += 1;
        } else {
            table[t] = ASLEEP;
        }
    }
}
