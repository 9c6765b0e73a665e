// Plan record bytes: the writer, the reader, and the part of a record that holds one run.
#![tactic(auto)]

ghost use Rattle.std.specs.Prelude.{◌≡◌, ◌≤◌, length, Ok};
ghost use Rattle.record_parts.specs.Bytes.{record_check};
ghost use Rattle.record.specs.Record.{WritesSlots, Writes};
ghost use Rattle.record.specs.Reading.{Reads};
ghost use Rattle.record.specs.OneRun.{run_part, Finds, HandsOut};

use sched::Refusal;

mod runs; // runs.rt: the runs of a map

// The length of a record, and the awake slots, which are the slot bytes in it.
#[derive(Clone, Copy)]
pub struct RecordSize {
    pub bytes: usize,
    pub awake: usize,
}

// A run's first slot, and where its slot bytes stand in the record: their offset and how many they are.
#[derive(Clone, Copy)]
pub struct RunPlace {
    pub first: usize,
    pub offset: usize,
    pub len: usize,
}

// The record of a table of h bytes that all mean something.
fn write_slots(h: u16, slots: &[u8], out: &mut [u8]) -> Result<RecordSize, Refusal>
    requires { length slots.now ≤ 4096 }
    ensures { WritesSlots h slots.now out.old result out.new }
{
    let awake = record_map::count_awake(slots);
    let behind = record_parts::behind_map(slots.len());
    let bytes = behind + awake;
    sched::check_length(out.len(), bytes)?;
    record_parts::fill_record(h, slots, behind, out);
    Ok(RecordSize { bytes, awake })
}

// The record of the first h bytes of the table, or the first fault.
pub fn write(h: u16, table: &[u8], out: &mut [u8]) -> Result<RecordSize, Refusal>
    ensures { Writes h table.now out.old result out.new }
{
    sched::check_slots(h, table)?;
    write_slots(h, &table[..h as usize], out)
}

// The horizon of a record, and its table in the first bytes of the lent one; or the first fault.
pub fn read(bytes: &[u8], table: &mut [u8]) -> Result<u16, Refusal>
    ensures { Reads bytes.now table.old result table.new }
{
    record_parts::check(bytes)?;
    read_table(bytes, table)
}

// The same of a record that passes the checks.
fn read_table(bytes: &[u8], table: &mut [u8]) -> Result<u16, Refusal>
    requires { record_check bytes.now ≡ (Ok tt) }
    ensures { Reads bytes.now table.old result table.new }
{
    let h = record_parts::horizon(bytes);
    let end = h as usize;
    sched::check_length(table.len(), end)?;
    let behind = record_parts::behind_map(end);
    record_parts::fill_table(&bytes[2..behind], &bytes[behind..], &mut table[..end]);
    Ok(h)
}

// The first slot of run k and where its slot bytes stand, or the first fault.
pub fn find_run(bytes: &[u8], k: usize) -> Result<RunPlace, Refusal>
    ensures { Finds bytes.now k result }
{
    record_parts::check(bytes)?;
    let h = record_parts::horizon(bytes) as usize;
    let behind = record_parts::behind_map(h);
    runs::find(&bytes[2..behind], h, behind, k)
}

// The slot bytes of run k, as that part of the record; none where `find_run` refuses.
pub fn run_bytes(bytes: &[u8], k: usize) -> &[u8]
    ensures part { result.now ≡ run_part bytes.now k }
    ensures place { HandsOut bytes.entry k result }
{
    match find_run(bytes, k) {
        Ok(part) => &bytes[part.offset..part.offset + part.len],
        Err(_) => &bytes[..0],
    }
}
