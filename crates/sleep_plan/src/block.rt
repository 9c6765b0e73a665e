// The answer block: four numbers of four bytes each.
ghost use Rattle.std.specs.Prelude.{◌≡◌, [], ◌∷◌, ◌+◌, ◌≤◌, length};
ghost use Rattle.std.proofs.lemmas.List.Edits.{sets};
ghost use Rattle.sleep_plan.specs.Block.{block_length, four_bytes, answered};
ghost use Rattle.sleep_plan.specs.Puts.{Puts, PutsRefused, PutsOutcome};
ghost use Rattle.sched.specs.Refusals.{number, place};

use joblist::ListHeader;
use sched::{Outcome, Refusal};

// The low four bytes of a number, low first.
fn put(x: usize, at: usize, block: &mut [u8])
    requires { at + 4 ≤ length block.old }
    ensures { block.new ≡ sets block.old at (four_bytes x) }
{
    let bytes = x.to_le_bytes();
    block[at] = bytes[0];
    block[at + 1] = bytes[1];
    block[at + 2] = bytes[2];
    block[at + 3] = bytes[3];
}

fn put_numbers(w: usize, x: usize, y: usize, z: usize, block: &mut [u8])
    requires { block_length ≤ length block.old }
    ensures { block.new ≡ answered (w ∷ x ∷ y ∷ z ∷ []) block.old }
{
    put(w, 0, block);
    put(x, 4, block);
    put(y, 8, block);
    put(z, 12, block);
}

// The place of a refusal; its number is returned.
fn put_refusal(r: Refusal, block: &mut [u8]) -> u32
    requires { block_length ≤ length block.old }
    ensures { Puts (number r) (place r ∷ []) block.old result block.new }
{
    put_numbers(r.place(), 0, 0, 0, block);
    r.number()
}

// What the reader refused. A list that it took has nothing to tell.
pub fn put_refused(read: Result<ListHeader, Refusal>, block: &mut [u8]) -> u32
    requires { block_length ≤ length block.old }
    ensures { PutsRefused read block.old result block.new }
{
    match read {
        Ok(_) => 0,
        Err(r) => put_refusal(r, block),
    }
}

pub fn put_outcome(outcome: Outcome, block: &mut [u8]) -> u32
    requires { block_length ≤ length block.old }
    ensures { PutsOutcome outcome block.old result block.new }
{
    match outcome {
        Outcome::Planned(f) => {
            put_numbers(
                f.energy as usize,
                f.awake as usize,
                f.runs as usize,
                f.added as usize,
                block,
            );
            0
        }
        Outcome::Overloaded(i) => {
            put_numbers(i.a, i.b, 0, 0, block);
            18
        }
        Outcome::Refused(r) => put_refusal(r, block),
    }
}
