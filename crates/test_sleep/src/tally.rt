// What many tables are after the rule.
use test_bytes::{digest_from, number};

// How many slots are idle and asleep, the energies added up, and a digest of all bytes. The sums are modulo 2^64, which none here comes near.
#[derive(Clone, Copy, Default)]
pub struct Tally {
    pub idle: u64,
    pub asleep: u64,
    pub energy: u64,
    pub sum: u64,
}

// How many slots hold the byte.
pub fn holding(table: &[u8], held: u8) -> u64 {
    table.iter().filter(|&&byte| byte == held).count() as u64
}

// The energy of a table of at most 4,096 slots; 0 of a longer one, and there is none here.
fn energy(q: u16, start: bool, table: &[u8]) -> u64 {
    if table.len() <= 4096 {
        return u64::from(sched::cost_of(q, start, table).energy);
    }
    0
}

impl Tally {
    // Puts the table under the rule, and takes it into the tally.
    pub fn settle(&mut self, q: u16, start: bool, table: &mut [u8]) {
        step5_sleep::sleep(q, start, table);
        self.idle = self.idle.wrapping_add(holding(table, 254));
        self.asleep = self.asleep.wrapping_add(holding(table, 255));
        self.energy = self.energy.wrapping_add(energy(q, start, table));
        self.sum = digest_from(self.sum, table);
    }

    // Prints the tally, and ends the line.
    pub fn show(&self) {
        number(self.idle);
        number(self.asleep);
        number(self.energy);
        number(self.sum);
        test_bytes::end_line();
    }
}
