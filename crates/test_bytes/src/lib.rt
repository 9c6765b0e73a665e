// What the test programs share: numbers and bytes printed, digests, counts, numbers by chance, parts of lists, and tables. That a function prints what is
// said above it, the `stdout` of the programs shows; it is not proved.
#![tactic(auto)]

ghost use Rattle.std.specs.Prelude.{◌≡◌, ◌+◌, ◌*◌, ◌/◌, ◌%◌, ◌^◌, ◌<◌, length, take, replicate, slice_index, slice_set};
ghost use Rattle.test_bytes.specs.Bytes.{digest_from, turns_from};

mod list; // list.rt: a list of jobs

pub use list::List;

// Prints the bytes as they are.
pub fn text(s: &[u8]) {
    io::write_all(1, s);
}

// Prints the name of a line, behind `awake ` where the processor is awake before slot 0.
pub fn begin(start: bool, name: &[u8]) {
    if start {
        text(b"awake ");
    }
    text(name);
}

// Prints a space and n in decimal.
pub fn number(n: u64) {
    text(b" ");
    io::print_decimal(1, n);
}

// Ends the line.
pub fn end_line() {
    text(b"\n");
}

// The digest with one number more: 257 times the digest plus the number plus 1, modulo 1,000,003.
pub fn mixed(sum: u64, x: u64) -> u64
    ensures { result ≡ (sum % 1000003 * 257 + x % 1000003 + 1) % 1000003 }
{
    (sum % 1000003 * 257 + x % 1000003 + 1) % 1000003
}

// The digest with each byte in turn.
pub fn digest_from(sum: u64, out: &[u8]) -> u64
    ensures { result ≡ digest_from sum out.now }
{
    out.iter()
        .fold(sum, |all, &byte| mixed(all, u64::from(byte)))
}

// A number that depends on every byte and its place: the digest of all bytes from 0 on, so 0 for no byte.
pub fn digest(out: &[u8]) -> u64
    ensures { result ≡ digest_from 0 out.now }
{
    digest_from(0, out)
}

// How often each of N things came, and a digest of what else there is to say.
#[derive(Drop)]
pub struct Tally<const N: usize> {
    pub counts: [u64; N],
    pub sum: u64,
}

impl<const N: usize> Tally<N> {
    // The tally of nothing.
    pub fn new() -> Self
        ensures { (result.counts ≡ replicate N 0) × (result.sum ≡ 0) }
    {
        Tally {
            counts: [0; N],
            sum: 0,
        }
    }

    // One more of a thing; nothing from N on.
    pub fn count(&mut self, at: usize)
        ensures { (self.new.counts ≡ slice_set self.old.counts at ((slice_index self.old.counts at + 1) % 2 ^ 64)) × (self.new.sum ≡ self.old.sum) }
    {
        if at < N {
            self.counts[at] = self.counts[at].wrapping_add(1);
        }
    }

    // The digest with one number more.
    pub fn mix(&mut self, x: u64)
        ensures { (self.new.counts ≡ self.old.counts) × (self.new.sum ≡ (self.old.sum % 1000003 * 257 + x % 1000003 + 1) % 1000003) }
    {
        self.sum = mixed(self.sum, x);
    }

    // Prints how often each of these things came; nothing from N on.
    pub fn show(&self, things: &[usize]) {
        for &at in things {
            if at < N {
                number(self.counts[at]);
            }
        }
    }
}

// Numbers by chance, one after the other, by a linear congruence: the state behind the last one.
#[derive(Drop)]
pub struct Chance {
    pub state: u64,
}

impl Chance {
    // A number, which is the next state without its lowest bits: they are better left alone.
    pub fn draw(&mut self) -> u64
        ensures { (self.new.state ≡ (self.old.state % 2147483648 * 1103515245 + 12345) % 2147483648) × (result ≡ self.new.state / 65536) }
    {
        self.state = (self.state % 2147483648 * 1103515245 + 12345) % 2147483648;
        self.state / 65536
    }

    // A number below m. That it is below m is there for safety.
    pub fn below(&mut self, m: u64) -> u64
        requires { 0 < m }
        ensures { (self.new.state ≡ (self.old.state % 2147483648 * 1103515245 + 12345) % 2147483648) × (result ≡ self.new.state / 65536 % m) × (result < m) }
    {
        self.draw() % m
    }
}

// Prints a line of all bytes.
pub fn bytes(out: &[u8]) {
    for &byte in out {
        number(u64::from(byte));
    }
    end_line();
}

// Stores a byte, or an entry, at an index; nothing past the end.
pub fn put<T: Copy>(list: &mut [T], at: usize, x: T)
    ensures { list.new ≡ slice_set list.old at x }
{
    if at < list.len() {
        list[at] = x;
    }
}

// Stores the byte in every slot.
pub fn fill(t: &mut [u8], byte: u8)
    ensures { t.new ≡ replicate (length t.old) byte }
{
    t.fill(byte);
}

// Makes slots 0, 2, 4, .. idle (254), the others asleep (255).
pub fn alternate(t: &mut [u8])
    ensures { t.new ≡ turns_from (length t.old) 0 }
{
    for (i, byte) in t.iter_mut().enumerate() {
        *byte = if i % 2 == 0 { 254 } else { 255 };
    }
}

// The first n bytes or entries, or all where there are fewer.
pub fn first<T>(s: &[T], n: usize) -> &[T]
    ensures { result.now ≡ take n s.now }
{
    &s[..n.min(s.len())]
}
