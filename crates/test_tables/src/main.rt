// Tables and records on chosen inputs: the third plan that 01 works by hand, before and after card 5 of 02, the plan of docs/BYTES.md, each refusal of the judge and of the
// record writer at its first and last place, slots with two faults, bytes behind the horizon, and horizons around the ends of a map byte and of 64
// slots.
#![tactic(auto)]

mod show; // show.rt: what a case prints
mod tables; // tables.rt: tables and lists
mod judging; // judging.rt: the judge
mod both; // both.rt: the judge on slots with two faults
mod recording; // recording.rt: the record writer
mod horizons; // horizons.rt: both, for horizons of all kinds

// Prints the judge's answer for a plan, the record writer's, and all bytes of the room for the record.
fn show_plan(
    h: u16,
    q: u16,
    rs: &[u16],
    ds: &[u16],
    ps: &[u16],
    t: &[u8],
    out: &mut [u8],
    room: usize,
) {
    show::judged(judge::judge(h, q, false, rs, ds, ps, t));
    recording::within(h, t, t.len(), out, room);
    test_bytes::bytes(test_bytes::first(out, room));
}

// The list of the third plan that 01 works by hand, with a table for it.
fn third_case(t: &[u8], out: &mut [u8], room: usize) {
    let rs = [0u16, 8, 0];
    let ds = [3u16, 10, 10];
    let ps = [1u16, 2, 5];
    show_plan(10, 3, &rs, &ds, &ps, t, out, room);
}

// The plan as it was before card 5 of 02, and as it is.
fn worked_cases(out: &mut [u8]) {
    third_case(&[0u8, 2, 2, 2, 2, 2, 255, 255, 1, 1], out, 14);
    third_case(&[0u8, 2, 2, 2, 2, 2, 254, 254, 1, 1], out, 16);
}

// The plan of docs/BYTES.md: asleep, idle and three jobs.
fn page_case(out: &mut [u8]) {
    let rs = [3u16, 9, 0];
    let ds = [7u16, 12, 12];
    let ps = [1u16, 2, 1];
    let t = [255u8, 255, 255, 255, 255, 255, 0, 2, 254, 1, 1, 255];
    show_plan(12, 300, &rs, &ds, &ps, &t, out, 11);
}

fn main() {
    // Room for the longest table and four bytes behind it, asleep throughout, and for more than the longest record.
    let mut t = [255u8; 4100];
    let mut out = [0u8; 4700];
    worked_cases(&mut out);
    page_case(&mut out);
    judging::list_faults(&t);
    judging::job_faults(&t);
    judging::table_faults(&mut t);
    both::faults(&mut t);
    recording::sizes(&mut t, &mut out);
    recording::unknown_bytes(&mut t, &mut out);
    horizons::marks(&mut t, &mut out);
}
