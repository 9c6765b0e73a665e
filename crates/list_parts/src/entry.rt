// One job in its bytes: a map byte, and the fields whose bits stand. `bytes` starts with the map byte.
ghost use Rattle.std.specs.Prelude.{◌≡◌, ◌+◌, ◌/◌, ◌%◌, ◌^◌, ◌<◌, ◌≤◌, ltb, eqb, length};
ghost use Rattle.sched.specs.Checks.{job_check};
ghost use Rattle.list_parts.specs.Layout.{width, entry_length};
ghost use Rattle.list_parts.specs.Entries.{entry_size, map_check, redundancy_check, entry_check};
ghost use Rattle.list_parts.specs.Parts.{FieldAt, WholeEntry, entry_of, job_part};

use sched::Refusal;

// A field's value, and the offset behind the field.
#[derive(Clone, Copy)]
struct Found {
    value: u16,
    next: usize,
}

// The fields of a job, and the length of its entry.
#[derive(Clone, Copy)]
pub struct Fields {
    pub release: u16,
    pub deadline: u16,
    pub volume: u16,
    pub size: usize,
}

// Whether the bit at a place of a map byte stands.
fn has(map: u8, place: u32) -> bool
    requires { place < 8 }
    ensures { result ≡ eqb (map / 2 ^ place % 2) 1 }
{
    (map >> place) % 2 == 1
}

// The length of the entry that a map byte starts: the eight maps, with the fields that stand behind each.
pub(crate) fn entry_length(map: u8) -> usize
    ensures { result ≡ entry_length map }
{
    match map {
        0 => 1, // no field
        1 => 3, // release
        2 => 3, // deadline
        3 => 5, // release, deadline
        4 => 3, // volume
        5 => 5, // release, volume
        6 => 5, // deadline, volume
        7 => 7, // release, deadline, volume
        _ => 0, // an unknown bit, refused before its length counts
    }
}

// Whether the entry that the map byte starts is cut short. Seven bytes hold every entry, so its length is asked for only where fewer are left; that is
// quicker (docs/PERFORMANCE.md).
fn is_cut(bytes: &[u8]) -> bool
    requires { 1 ≤ length bytes.now }
    ensures { result ≡ ltb (length bytes.now) (entry_size bytes.now) }
{
    if 7 <= bytes.len() {
        return false;
    }
    bytes.len() < entry_length(bytes[0])
}

// The field at a place of the entry, or its absent value if it does not stand; 14 where it stands with that value.
fn field(stands: bool, absent: u16, place: usize, at: usize, bytes: &[u8]) -> Result<Found, Refusal>
    requires { (place + width stands ≤ length bytes.now) × (at + length bytes.now < 2 ^ 64) }
    ensures { FieldAt stands absent place at bytes.now result }
{
    if !stands {
        return Ok(Found {
            value: absent,
            next: place,
        });
    }
    let value = sched::read_word(bytes, place);
    if value == absent {
        return Err(Refusal::Redundant(at + place));
    }
    Ok(Found {
        value,
        next: place + 2,
    })
}

// 11 and 13 for the map byte at offset `at` of an input of `total` bytes; maps from `maps` on are unknown.
#[tactic(auto, unfolding(crate::specs::Entries::map_check))]
pub fn check_map(maps: u8, total: usize, at: usize, bytes: &[u8]) -> Result<(), Refusal>
    ensures { result ≡ map_check maps total at bytes.now }
{
    if bytes.is_empty() {
        return Err(Refusal::Truncated(total));
    }
    if maps <= bytes[0] {
        return Err(Refusal::UnknownBit(at));
    }
    Ok(())
}

// The fields of an entry that is whole, refused where one stands with its absent value; its map byte stands at offset `at` of the input.
pub fn read_fields(h: u16, at: usize, bytes: &[u8]) -> Result<Fields, Refusal>
    requires { WholeEntry at bytes.now }
    ensures { result ≡ entry_of (redundancy_check h at bytes.now) h bytes.now }
{
    let map = bytes[0];
    let first = field(has(map, 0), 0, 1, at, bytes)?;
    let second = field(has(map, 1), h, first.next, at, bytes)?;
    let third = field(has(map, 2), 1, second.next, at, bytes)?;
    Ok(Fields {
        release: first.value,
        deadline: second.value,
        volume: third.value,
        size: third.next,
    })
}

// The job of an entry that is whole, read and checked.
fn read_job(h: u16, job: usize, at: usize, bytes: &[u8]) -> Result<Fields, Refusal>
    requires { WholeEntry at bytes.now }
    ensures { result ≡ entry_of (job_part h job at bytes.now) h bytes.now }
{
    let f = read_fields(h, at, bytes)?;
    sched::check_job(h, job, f.release, f.deadline, f.volume)?;
    Ok(f)
}

// A job's entry, read and checked. It starts at offset `at` of an input of `total` bytes, and `bytes` are all that follow.
pub fn read(h: u16, total: usize, job: usize, at: usize, bytes: &[u8]) -> Result<Fields, Refusal>
    requires { at + length bytes.now ≡ total }
    ensures { result ≡ entry_of (entry_check job_check h total job at bytes.now) h bytes.now }
{
    check_map(8, total, at, bytes)?;
    if is_cut(bytes) {
        return Err(Refusal::Truncated(total));
    }
    read_job(h, job, at, bytes)
}
