// The record reader and the search for the tightest interval, for C. They are there for `make bench` alone, and no buyer gets them: the archive that they
// get has one entry.
#![tactic(auto)]

ghost use Rattle.std.specs.Prelude.{ℕ, Bool};
ghost use Rattle.sched.specs.Jobs.{jobs_from};
ghost use Rattle.tightest.specs.Answer.{tightness};
ghost use Rattle.test_from_c.specs.Call.{ReadsFromC, TightestFromC};

// 0, or the number of the refusal.
#[unsafe(no_mangle)]
pub extern "C" fn read_record(bytes: &[u8], table: &mut [u8]) -> u32
    ensures { ReadsFromC bytes.now table.old result table.new }
{
    match record::read(bytes, table) {
        Ok(_) => 0,
        Err(r) => r.number(),
    }
}

// The slack, with a and b in the first two entries of `ends` if it has two; 65,536, more than any slack, for a refusal, because its number could be a
// slack as well.
#[unsafe(no_mangle)]
pub extern "C" fn find_tightest(
    h: u16,
    releases: &[u16],
    deadlines: &[u16],
    volumes: &[u16],
    ends: &mut [u64],
) -> i32
    ensures { (q : ℕ) (start : Bool) → TightestFromC (tightness (jobs_from h q start releases.now deadlines.now volumes.now)) ends.old result ends.new }
{
    match tightest::find(h, releases, deadlines, volumes) {
        Ok(x) => {
            if 2 <= ends.len() {
                ends[0] = x.a as u64;
                ends[1] = x.b as u64;
            }
            x.slack
        }
        Err(_) => 65536,
    }
}
