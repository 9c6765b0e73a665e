// One answer, and signed numbers.
use test_bytes::{List, end_line, number, text};

// Prints a space and x in decimal.
fn signed(x: i32) {
    if x < 0 {
        text(b" -");
        io::print_decimal(1, u64::from(x.unsigned_abs()));
    } else {
        number(u64::from(x.unsigned_abs()));
    }
}

// Prints the answer to a list, and ends the line.
pub fn show(list: List<'_>) {
    match tightest::find(list.h, list.releases, list.deadlines, list.volumes) {
        Ok(t) => {
            text(b" found");
            signed(t.slack);
            number(t.a as u64);
            number(t.b as u64);
        }
        Err(r) => {
            text(b" refused");
            number(u64::from(r.number()));
            number(r.place() as u64);
        }
    }
    end_line();
}
