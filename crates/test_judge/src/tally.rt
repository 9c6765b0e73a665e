// The judge's answers for many tables: how often each number came, and a digest of all.
use sched::{Figures, Refusal};
use test_bytes::Tally;

// Notes the answer: 0, energy, awake slots and runs, or number and place. Counts the number, and at 27 the call.
pub fn note(tally: &mut Tally<28>, answer: Result<Figures, Refusal>) {
    tally.count(27);
    match answer {
        Ok(f) => {
            tally.count(0);
            tally.mix(0);
            tally.mix(u64::from(f.energy));
            tally.mix(u64::from(f.awake));
            tally.mix(u64::from(f.runs));
        }
        Err(r) => {
            tally.count(r.number() as usize);
            tally.mix(u64::from(r.number()));
            tally.mix(r.place() as u64);
        }
    }
}

// Prints how many calls there were, how often 0, 15, 21, 22, 23 and 24 came, and the digest; ends the line.
pub fn show(tally: &Tally<28>) {
    tally.show(&[27, 0, 15, 21, 22, 23, 24]);
    test_bytes::number(tally.sum);
    test_bytes::end_line();
}
