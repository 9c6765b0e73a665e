// An answer as numbers.
use sched::Refusal;

// Calls `visit` with 0 and each of the values, or with the number and the place of a refusal.
pub fn each<const N: usize, F: FnMut(u64)>(answer: Result<[u64; N], Refusal>, mut visit: F)
    requires { F.IsAlwaysCallable visit }
{
    match answer {
        Ok(values) => {
            visit(0);
            for x in values {
                visit(x);
            }
        }
        Err(r) => {
            visit(u64::from(r.number()));
            visit(r.place() as u64);
        }
    }
}
