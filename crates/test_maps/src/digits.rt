// The digits of numbers that stand for lists.
ghost use Rattle.std.specs.Prelude.{◌≡◌, ◌/◌, ◌%◌, ◌^◌, ◌<◌};

// The digit with n digits behind it.
pub fn digit(code: usize, base: usize, n: usize) -> usize
    requires { 0 < base }
    ensures { result ≡ code / base ^ n % base }
{
    let mut left = code;
    for _ in 0..n {
        left /= base;
    }
    left % base
}
