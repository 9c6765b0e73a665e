// Bytes that a call must leave alone.

// The byte that a lent table holds before the call: no table has it.
pub const MARK: u8 = 165;

// Whether all bytes from a place on hold the mark; yes where there are none.
pub fn kept(table: &[u8], from: usize) -> bool {
    table.iter().skip(from).all(|byte| *byte == MARK)
}
