// A number in two bytes, low byte first.
ghost use Rattle.std.specs.Prelude.{◌≡◌, ◌+◌, ◌≤◌, length, drop};
ghost use Rattle.std.proofs.lemmas.List.Edits.{sets};
ghost use Rattle.sched.specs.TwoBytes.{two_bytes, word};

// The number in the two bytes at an offset.
pub fn read_word(bytes: &[u8], at: usize) -> u16
    requires { at + 2 ≤ length bytes.now }
    ensures { result ≡ word (drop at bytes.now) }
{
    u16::from_le_bytes([bytes[at], bytes[at + 1]])
}

// A number into the two bytes at an offset.
pub fn put_word(x: u16, at: usize, out: &mut [u8])
    requires { at + 2 ≤ length out.old }
    ensures { out.new ≡ sets out.old at (two_bytes x) }
{
    let [low, high] = x.to_le_bytes();
    out[at] = low;
    out[at + 1] = high;
}
