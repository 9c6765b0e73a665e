// The checks of a list's bytes, and the jobs in them.
ghost use Rattle.std.specs.Prelude.{◌≡◌, ◌≤◌, length};
ghost use Rattle.list_parts.specs.Header.{header_length};
ghost use Rattle.joblist.specs.Reading.{lent_check};
ghost use Rattle.joblist.specs.Parts.{HeaderOf, front_check, Loadable, Walked, Filled};

use super::ListHeader;
use sched::Refusal;

// The header of bytes that hold one.
pub fn header(bytes: &[u8]) -> ListHeader
    requires { header_length ≤ length bytes.now }
    ensures { HeaderOf bytes.now result }
{
    let list = list_parts::header::read(bytes);
    ListHeader {
        h: list.h,
        q: list.q,
        count: list_parts::header::count_in(list.byte),
    }
}

// The three lent lists hold `count` jobs.
fn check_lent(
    count: usize,
    releases: usize,
    deadlines: usize,
    volumes: usize,
) -> Result<(), Refusal>
    ensures { result ≡ lent_check count releases deadlines volumes }
{
    sched::check_length(releases, count)?;
    sched::check_length(deadlines, count)?;
    sched::check_length(volumes, count)
}

// The checks before the entries, given the lengths of the three lent lists.
pub fn check(bytes: &[u8], releases: usize, deadlines: usize, volumes: usize) -> Result<(), Refusal>
    ensures { result ≡ front_check bytes.now releases deadlines volumes }
{
    list_parts::header::check(bytes)?;
    let list = header(bytes);
    check_lent(list.count, releases, deadlines, volumes)
}

// The one walk over the entries: each is checked and its fields are put into the three lists, and nothing follows the last.
fn walk(
    h: u16,
    count: usize,
    bytes: &[u8],
    releases: &mut [u16],
    deadlines: &mut [u16],
    volumes: &mut [u16],
) -> Result<(), Refusal>
    requires { Loadable count bytes.now releases.old deadlines.old volumes.old }
    ensures { Walked h count bytes.now result releases.new deadlines.new volumes.new }
{
    let total = bytes.len();
    let mut at = 5;
    for job in 0..count {
        let f = list_parts::entry::read(h, total, job, at, &bytes[at..])?;
        releases[job] = f.release;
        deadlines[job] = f.deadline;
        volumes[job] = f.volume;
        at += f.size;
    }
    if at < total {
        return Err(Refusal::LeftOver(at));
    }
    Ok(())
}

// Reads the entries behind the header into the three lists. They are read to arrays first, so that a refusal leaves the lists as they are.
pub fn fill(
    h: u16,
    count: usize,
    bytes: &[u8],
    releases: &mut [u16],
    deadlines: &mut [u16],
    volumes: &mut [u16],
) -> Result<(), Refusal>
    requires { Loadable count bytes.now releases.old deadlines.old volumes.old }
    ensures { Filled h count bytes.now releases.old deadlines.old volumes.old result
        releases.new deadlines.new volumes.new }
{
    let mut a = [0u16; 64];
    let mut b = [0u16; 64];
    let mut c = [0u16; 64];
    walk(h, count, bytes, &mut a, &mut b, &mut c)?;
    sched::copy(count, &a, releases);
    sched::copy(count, &b, deadlines);
    sched::copy(count, &c, volumes);
    Ok(())
}
