// What stands before the jobs: its numbers, its checks, and its bytes.
ghost use Rattle.std.specs.Prelude.{◌≡◌, false, [], ◌∷◌, ◌++◌, ◌≤◌, length};
ghost use Rattle.std.proofs.lemmas.List.Edits.{sets};
ghost use Rattle.sched.specs.TwoBytes.{two_bytes};
ghost use Rattle.list_parts.specs.Header.{header_length, count_in, count_byte, header_check};
ghost use Rattle.list_parts.specs.Parts.{NumbersOf, HeaderFits};

use sched::Refusal;

// Horizon, wake cost, and the byte with the number of jobs.
#[derive(Clone, Copy)]
pub struct Header {
    pub h: u16,
    pub q: u16,
    pub byte: u8,
}

// The number of jobs that its byte says.
pub fn count_in(byte: u8) -> usize
    ensures { result ≡ count_in byte }
{
    usize::from(byte)
}

// The header of bytes that hold one.
pub fn read(bytes: &[u8]) -> Header
    requires { header_length ≤ length bytes.now }
    ensures { NumbersOf bytes.now result }
{
    Header {
        h: sched::read_word(bytes, 0),
        q: sched::read_word(bytes, 2),
        byte: bytes[4],
    }
}

// 11 for the header, 12 for H, 12 for the count.
pub fn check(bytes: &[u8]) -> Result<(), Refusal>
    ensures { result ≡ header_check bytes.now }
{
    if bytes.len() < 5 {
        return Err(Refusal::Truncated(bytes.len()));
    }
    let list = read(bytes);
    sched::check_horizon(list.h)?;
    sched::check_count(count_in(list.byte))
}

// The byte with the number of jobs; the processor sleeps before slot 0.
fn count_byte(n: usize) -> u8
    requires { n ≤ 64 }
    ensures { result ≡ count_byte false n }
{
    n as u8
}

fn put_header(h: u16, q: u16, count: u8, out: &mut [u8])
    requires { header_length ≤ length out.old }
    ensures { out.new ≡ sets out.old 0 (two_bytes h ++ (two_bytes q ++ (count ∷ []))) }
{
    sched::put_word(h, 0, out);
    sched::put_word(q, 2, out);
    out[4] = count;
}

// The header of a list of `n` jobs.
pub fn put(h: u16, q: u16, n: usize, out: &mut [u8])
    requires { HeaderFits n out.old }
    ensures { out.new ≡ sets out.old 0 (two_bytes h ++ (two_bytes q ++ (count_byte false n ∷ []))) }
{
    put_header(h, q, count_byte(n), out);
}
