// The runs of a table, one by one: stretches asleep, awake, asleep, and so on.
ghost use Rattle.std.specs.Prelude.{◌≡◌, not, ◌+◌, ◌≤◌, length, eqb};
ghost use Rattle.sched.specs.Slots.{asleep, awake_of};
ghost use Rattle.sched.specs.Runs.{StretchEnd};
ghost use Rattle.sched.specs.Buffers.{PutAt};
ghost use Rattle.report.specs.Report.{run_line, run_lines};

use crate::line;

fn is_awake(byte: u8) -> bool
    ensures { result ≡ not (eqb byte asleep) }
{
    byte != sched::ASLEEP
}

// Where the awake slots from a slot on end, or the sleeping ones.
fn end(table: &[u8], from: usize, awake: bool) -> usize
    requires { from ≤ length table.now }
    ensures { StretchEnd (awake_of table.now) (length table.now) from awake result }
{
    sched::stretch_end(table.len(), from, awake, |t| is_awake(table[t]))
}

fn run_size(first: usize, slots: usize) -> usize
    ensures { result ≡ length (run_line first slots) }
{
    let values = [first as u64, slots as u64];
    line::size(b"run", &values)
}

// The length of the lines of all runs.
pub fn size(table: &[u8]) -> usize
    requires { length table.now ≤ 65535 }
    ensures { result ≡ length (run_lines table.now) }
{
    let mut n = 0;
    let mut first = end(table, 0, false);
    // kept: the walk goes from run to run, and the number of runs is not known before its end
    while first < table.len() {
        let behind = end(table, first, true);
        n += run_size(first, behind - first);
        first = end(table, behind, false);
    }
    n
}

fn put_run(first: usize, slots: usize, out: &mut [u8], at: usize) -> usize
    requires { at + length (run_line first slots) ≤ length out.old }
    ensures { PutAt out.old at (run_line first slots) result out.new }
{
    let values = [first as u64, slots as u64];
    line::put(b"run", &values, out, at)
}

// The lines of all runs, from a place on; the answer is the place behind them.
pub fn put(table: &[u8], out: &mut [u8], at: usize) -> usize
    requires { at + length (run_lines table.now) ≤ length out.old }
    ensures { PutAt out.old at (run_lines table.now) result out.new }
{
    let mut place = at;
    let mut first = end(table, 0, false);
    // kept: as in `size`
    while first < table.len() {
        let behind = end(table, first, true);
        place = put_run(first, behind - first, out, place);
        first = end(table, behind, false);
    }
    place
}
