// The runs of a record's map, one by one.
ghost use Rattle.std.specs.Prelude.{◌≡◌, ◌*◌, ◌≤◌, length, take};
ghost use Rattle.record_map.specs.MapBits.{bits_of};
ghost use Rattle.record.specs.OneRun.{exists_check, run_answer};

use crate::RunPlace;
use sched::Refusal;

// Run k of the map, whose slot bytes begin at an offset.
pub fn find(bits: &[u8], h: usize, behind: usize, k: usize) -> Result<RunPlace, Refusal>
    requires { (h ≤ 4096) × (behind ≤ 4096) × (h ≤ 8 * length bits.now) }
    ensures { result ≡ run_answer (take h (bits_of bits.now)) behind k (exists_check (take h (bits_of bits.now)) k) }
{
    let mut seen = 0;
    let mut at = behind;
    let mut first = record_map::end(bits, h, 0, false);
    // kept: the walk goes from run to run and ends behind the last one, which no count tells beforehand.
    while first < h {
        let stop = record_map::end(bits, h, first, true);
        let len = stop - first;
        if seen == k {
            return Ok(RunPlace {
                first,
                offset: at,
                len,
            });
        }
        seen += 1;
        at += len;
        first = record_map::end(bits, h, stop, false);
    }
    Err(Refusal::NoSuchRun(seen))
}
