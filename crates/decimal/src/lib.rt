// Numbers as text: decimal digits in ASCII, written into a lent buffer.
#![tactic(auto)]

ghost use Rattle.std.specs.Prelude.{◌≡◌, ◌+◌, ◌≤◌, length};
ghost use Rattle.decimal.specs.Decimal.{digits, PutsDigits};

// How many digits a number has; 0 has one. Slots have four at most, and for so few tests are quicker than a logarithm.
pub fn size(x: u64) -> usize
    ensures { result ≡ length (digits x) }
{
    match x {
        0..=9 => 1,
        10..=99 => 2,
        100..=999 => 3,
        1000..=9999 => 4,
        _ => x.ilog10() as usize + 1,
    }
}

// The digits of a number, from a place on; the answer is the place behind them. The last digit is found first, so they are stored from
// behind, and what is left is the first one.
pub fn put(x: u64, out: &mut [u8], at: usize) -> usize
    requires { at + length (digits x) ≤ length out.old }
    ensures { PutsDigits x at out.old result out.new }
{
    let end = at + size(x);
    let mut left = x;
    for place in (at + 1..end).rev() {
        out[place] = b'0' + (left % 10) as u8;
        left /= 10;
    }
    out[at] = b'0' + left as u8;
    end
}
