// One job's entry as it is written: its map byte, its length, and the bytes.
ghost use Rattle.std.specs.Prelude.{◌≡◌, ◌+◌, ◌≤◌, length};
ghost use Rattle.sched.specs.Buffers.{PutAt};
ghost use Rattle.list_parts.specs.Layout.{stands, bytes_if, job_map, entry_bytes};

use super::entry;

fn map_byte(h: u16, r: u16, d: u16, p: u16) -> u8
    ensures { result ≡ job_map h r d p }
{
    u8::from(r != 0) + 2 * u8::from(d != h) + 4 * u8::from(p != 1)
}

// The length of the entry of a job.
#[tactic(auto, using(crate::proofs::Laws::Maps::entry_by_map))]
pub fn entry_size(h: u16, r: u16, d: u16, p: u16) -> usize
    ensures { result ≡ length (entry_bytes h r d p) }
{
    entry::entry_length(map_byte(h, r, d, p))
}

// A field unless it has its absent value, and the offset behind it.
fn put_field(absent: u16, x: u16, at: usize, out: &mut [u8]) -> usize
    requires { at + length (bytes_if (stands absent x) x) ≤ length out.old }
    ensures { PutAt out.old at (bytes_if (stands absent x) x) result out.new }
{
    if x == absent {
        return at;
    }
    sched::put_word(x, at, out);
    at + 2
}

// The entry of a job, and the offset behind it.
// kept: h, r, d and p side by side, since docs/ARCHITECTURE.md names this function for other layouts
pub fn put_entry(h: u16, r: u16, d: u16, p: u16, at: usize, out: &mut [u8]) -> usize
    requires { at + length (entry_bytes h r d p) ≤ length out.old }
    ensures { PutAt out.old at (entry_bytes h r d p) result out.new }
{
    out[at] = map_byte(h, r, d, p);
    let deadline_at = put_field(0, r, at + 1, out);
    let volume_at = put_field(h, d, deadline_at, out);
    put_field(1, p, volume_at, out)
}
