// What a case prints. That a function prints what is said above it, `stdout` shows; it is not proved.
use record::RecordSize;
use sched::{Figures, Refusal};
use test_bytes::{end_line, number};

// Prints 0 and the values, or the refusal's number and place.
fn values<const N: usize>(told: Result<[u64; N], Refusal>) {
    match told {
        Ok(values) => {
            number(0);
            for x in values {
                number(x);
            }
        }
        Err(r) => {
            number(u64::from(r.number()));
            number(r.place() as u64);
        }
    }
}

// Prints a line: `judged`, then 0 and energy, awake slots and runs of a table that was accepted, or the refusal's number and place.
pub fn judged(answer: Result<Figures, Refusal>) {
    test_bytes::text(b"judged");
    values(answer.map(|f| [u64::from(f.energy), u64::from(f.awake), u64::from(f.runs)]));
    end_line();
}

// Prints `record`, then 0 and the record's length and awake slots, or the refusal's number and place; does not end the line.
pub fn written(answer: Result<RecordSize, Refusal>) {
    test_bytes::text(b"record");
    values(answer.map(|size| [size.bytes as u64, size.awake as u64]));
}
