// Job lists as bytes: a reader that fills three lent lists, and a writer that spells three lists out.
#![tactic(auto)]

ghost use Rattle.sched.specs.Jobs.{jobs_of};
ghost use Rattle.joblist.specs.Reading.{ReadPromise};
ghost use Rattle.joblist.specs.Writing.{WritePromise};

use sched::Refusal;

mod reader; // reader.rt: the checks of a list's bytes, and its jobs
mod writer; // writer.rt: the length of a list's bytes, and the bytes

// What stands before the jobs: horizon, wake cost and number of jobs.
#[derive(Clone, Copy)]
pub struct ListHeader {
    pub h: u16,
    pub q: u16,
    pub count: usize,
}

// Reads a list. Its jobs go to the first `count` entries of the three lists; a refusal leaves all three as they are.
pub fn read(
    bytes: &[u8],
    releases: &mut [u16],
    deadlines: &mut [u16],
    volumes: &mut [u16],
) -> Result<ListHeader, Refusal>
    ensures { ReadPromise bytes.now releases.old deadlines.old volumes.old result
        releases.new deadlines.new volumes.new }
{
    reader::check(bytes, releases.len(), deadlines.len(), volumes.len())?;
    let list = reader::header(bytes);
    reader::fill(list.h, list.count, bytes, releases, deadlines, volumes)?;
    Ok(list)
}

// Writes a list to the first bytes of `out`; a refusal leaves `out` as it is.
pub fn write(
    h: u16,
    q: u16,
    releases: &[u16],
    deadlines: &[u16],
    volumes: &[u16],
    out: &mut [u8],
) -> Result<usize, Refusal>
    ensures { WritePromise (jobs_of h q releases.now deadlines.now volumes.now)
        out.old result out.new }
{
    sched::check_list(h, releases, deadlines, volumes)?;
    let list = writer::Lists {
        h,
        releases,
        deadlines,
        volumes,
    };
    let size = list.size();
    sched::check_length(out.len(), size)?;
    list.put(q, out);
    Ok(size)
}
