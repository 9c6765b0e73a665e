// A record that is written: the horizon, the map and the slot bytes, one behind the other.
ghost use Rattle.std.specs.Prelude.{◌≡◌, ◌≤◌, length};
ghost use Rattle.record_map.specs.Stored.{stored};
ghost use Rattle.record_parts.specs.Layout.{behind_map, slot_bytes, front_of, record_of, RecordFits};

use sched::ASLEEP;

// The bytes of the awake slots, from the front of what is lent.
fn fill_slots(slots: &[u8], out: &mut [u8])
    requires { length (slot_bytes slots.now) ≤ length out.old }
    ensures { out.new ≡ stored (slot_bytes slots.now) out.old }
{
    let mut at = 0;
    for &byte in slots {
        if byte != ASLEEP {
            out[at] = byte;
            at += 1;
        }
    }
}

// The horizon and the map.
fn fill_front(h: u16, slots: &[u8], out: &mut [u8])
    requires { (length slots.now ≤ 4096) × (behind_map (length slots.now) ≤ length out.old) }
    ensures { out.new ≡ stored (front_of h slots.now) out.old }
{
    sched::put_word(h, 0, out);
    record_map::fill_map(slots, &mut out[2..]);
}

// The horizon, the map, and directly behind it the slot bytes.
pub fn fill_record(h: u16, slots: &[u8], behind: usize, out: &mut [u8])
    requires { RecordFits h slots.now behind out.old }
    ensures { out.new ≡ stored (record_of h slots.now) out.old }
{
    fill_front(h, slots, out);
    fill_slots(slots, &mut out[behind..]);
}
