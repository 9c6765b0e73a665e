// Records with several faults, of which one is told.
use super::cases;

// A line `order` of `cases::tried`, with tables of 13 bytes and of 9.
fn told(bytes: &[u8], table: &mut [u8]) {
    cases::tried(b"order", bytes, table, 9);
}

// A padding bit with no slot byte, with one missing, with as many as there are slots awake, and with one more: 31.
fn padding(table: &mut [u8]) {
    told(b"\x0a\x00\x3f\x07", table);
    told(b"\x0a\x00\x3f\x07\x00\x02\x02\x02\x02\x02\x01", table);
    told(b"\x0a\x00\x3f\x07\x00\x02\x02\x02\x02\x02\x01\x01", table);
    told(
        b"\x0a\x00\x3f\x83\x00\x02\x02\x02\x02\x02\x01\x01\x01",
        table,
    );
}

// A padding bit with bad slot bytes, cut and with bytes left over: 31.
fn padding_and_all(table: &mut [u8]) {
    told(b"\x0a\x00\x3f\x07\xff\xff", table);
    told(b"\x0a\x00\x3f\x83\x40\x02\x02\x02\x02\x02\x01\xff", table);
    told(
        b"\x0a\x00\x3f\x07\x40\x02\x02\x02\x02\x02\x01\x01\x01\xff\x00",
        table,
    );
    told(b"\x0a\x00\x00\x80\x40", table);
}

// A bad slot byte in a cut record: 11.
fn cut(table: &mut [u8]) {
    told(b"\x0a\x00\x3f\x03\x40", table);
    told(b"\x0a\x00\x3f\x03\x40\x02\x02\x02\x02\x02\x01", table);
    told(b"\x0a\x00\x3f\x03\x00\x02\x02\x02\x02\x02\xff", table);
}

// A bad slot byte with bytes left over: 32; a bad byte that is left over: 16.
fn left_over(table: &mut [u8]) {
    told(
        b"\x0a\x00\x3f\x03\x40\x02\x02\x02\x02\x02\x01\x01\x00",
        table,
    );
    told(
        b"\x0a\x00\x3f\x03\x00\x02\x02\x02\x02\x02\x01\xff\x00\x00",
        table,
    );
    told(
        b"\x0a\x00\x3f\x03\x00\x02\x02\x02\x02\x02\x01\x01\x40",
        table,
    );
}

// A horizon out of range with bytes that mean nothing: 12; a cut map, and a cut horizon: 11.
fn front(table: &mut [u8]) {
    told(b"\x00\x00\xff\xff\x40", table);
    told(b"\x01\x10\xff\xff\x40", table);
    told(b"\x0a\x00\xff", table);
    told(b"\x0a", table);
}

// All of these.
pub fn each() {
    let mut table = [0u8; 13];
    padding(&mut table);
    padding_and_all(&mut table);
    cut(&mut table);
    left_over(&mut table);
    front(&mut table);
}
