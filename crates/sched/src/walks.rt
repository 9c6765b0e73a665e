// Two walks from one place up to but without another: a check of each byte, and the end of a stretch of slots.
ghost use Rattle.std.specs.Prelude.{ℕ, ◌≡◌, ◌-◌, ◌≤◌, ◌<◌, Bool, List, length};
ghost use Rattle.sched.specs.Slots.{awake};
ghost use Rattle.sched.specs.Runs.{StretchEnd};
ghost use Rattle.sched.specs.Refusals.{Checked};
ghost use Rattle.sched.specs.Checks.{ByteCheck, bytes_by};

use crate::Refusal;

// The first fault of the bytes, by a check of a byte and its place.
pub fn check_each<F: Fn(usize, u8) -> Result<(), Refusal>>(
    bytes: &[u8],
    from: usize,
    to: usize,
    check: F,
) -> Result<(), Refusal>
    requires within { (from ≤ to) × (to ≤ length bytes.now) }
    requires callable { F.IsAlwaysCallable check }
    ensures { (by : ByteCheck) → ((t byte : ℕ) (r : Checked) → F.post check t byte r → r ≡ by t byte) → result ≡ bytes_by by (to - from) from bytes.now }
{
    for t in from..to {
        check(t, bytes[t])?;
    }
    Ok(())
}

// Where the slots that are awake end, or those that sleep; a test tells of each slot below h whether it is awake.
pub fn stretch_end<F: Fn(usize) -> bool>(h: usize, from: usize, state: bool, is_awake: F) -> usize
    requires within { from ≤ h }
    requires callable { (t : ℕ) → t < h → F.pre is_awake t }
    ensures { (S : List Bool) → ((t : ℕ) (b : Bool) → t < h → F.post is_awake t b → b ≡ awake S t) → StretchEnd S h from state result }
{
    for t in from..h {
        if is_awake(t) != state {
            return t;
        }
    }
    h
}
