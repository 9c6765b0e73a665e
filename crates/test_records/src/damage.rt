// Damaged copies of one record.
ghost use Rattle.std.specs.Prelude.{◌≡◌, ◌+◌, ◌*◌, ◌%◌, ◌<◌};

use super::{stretches, tally};
use test_bytes::{Tally, first};

// The record for 40 slots that are awake by stretches, 32 bytes, and two zeros behind it.
fn base() -> [u8; 34] {
    let mut t = [0u8; 40];
    let mut out = [0u8; 34];
    stretches::fill(&mut t);
    let _ = record::write(40, &t, &mut out);
    out
}

// A state, of which only the low 16 bits decide the next one.
#[derive(Drop)]
struct States {
    state: u32,
}

impl States {
    // The next state.
    fn next(&mut self) -> u32
        ensures { (self.new.state ≡ self.old.state % 65536 * 25173 + 13849) × (result ≡ self.new.state) }
    {
        self.state = self.state % 65536 * 25173 + 13849;
        self.state
    }
}

// A byte: for half of the states any, for the others below 64.
fn byte(s: u32) -> u8 {
    let x = s / 4096 % 512;
    if x < 256 { x as u8 } else { (x % 64) as u8 }
}

// How many bytes are left of 34: mostly the 32 of the record, for some states one or two less or more.
fn length(s: u32) -> usize {
    match s / 4096 % 10 {
        0 => 30,
        1 => 31,
        2 => 33,
        3 => 34,
        _ => 32,
    }
}

// Stores a byte at one of the first `span` offsets, by the next two states; nothing past the end.
fn change(bytes: &mut [u8], span: usize, states: &mut States)
    requires { 0 < span }
{
    let at = (states.next() / 4096) as usize % span;
    test_bytes::put(bytes, at, byte(states.next()));
}

// Notes the answers for one damaged copy, by the next five states. One byte is changed, for about half of the copies a second one, and the length
// for some. The tables have 64 bytes and 39.
fn one(tally: &mut Tally<120>, base: [u8; 34], states: &mut States) {
    let mut bytes = base;
    let mut long = [0u8; 64];
    let mut short = [0u8; 39];
    change(&mut bytes, 32, states);
    change(&mut bytes, 64, states);
    let n = length(states.next());
    tally::note(tally, first(&bytes, n), &mut long, &mut short);
}

// Prints a line for 20,000 copies: `damaged`, and what `tally::show` prints.
pub fn each() {
    let base = base();
    let mut states = States { state: 1 };
    let mut tally = Tally::<120>::new();
    test_bytes::text(b"damaged");
    for _ in 0..20000 {
        one(&mut tally, base, &mut states);
    }
    tally::show(&tally);
}
