// What the program prints, as bytes in a lent buffer.
#![tactic(auto)]

ghost use Rattle.std.specs.Prelude.{◌≡◌, ◌++◌, take};
ghost use Rattle.report.specs.Report.{line, run_lines, text_of, TextPromise, Printable};

use sched::{Outcome, Refusal};

mod line; // line.rt: a word and numbers behind it
mod runs; // runs.rt: a line for each run of a table

// A line, and behind it those of the runs.
fn write_text(word: &[u8], values: &[u64], slots: &[u8], out: &mut [u8]) -> Result<usize, Refusal>
    requires { Printable word.now values.now slots.now }
    ensures { TextPromise (line word.now values.now ++ run_lines slots.now) out.old result out.new }
{
    let n = line::size(word, values) + runs::size(slots);
    sched::check_length(out.len(), n)?;
    let behind = line::put(word, values, out, 0);
    runs::put(slots, out, behind);
    Ok(n)
}

// The text of an outcome, with the runs in the first h bytes of the table, or in all where it has fewer.
pub fn write(outcome: Outcome, h: u16, table: &[u8], out: &mut [u8]) -> Result<usize, Refusal>
    ensures { TextPromise (text_of outcome (take h table.now)) out.old result out.new }
{
    match outcome {
        Outcome::Planned(f) => {
            let values = [
                u64::from(f.energy),
                u64::from(f.awake),
                u64::from(f.runs),
                u64::from(f.added),
            ];
            let end = table.len().min(usize::from(h));
            write_text(b"plan", &values, &table[..end], out)
        }
        Outcome::Overloaded(i) => {
            let values = [18, i.a as u64, i.b as u64];
            write_text(b"refused", &values, &table[..0], out)
        }
        Outcome::Refused(r) => {
            let values = [r.number() as u64, r.place() as u64];
            write_text(b"refused", &values, &table[..0], out)
        }
    }
}
