// A line of text: a word, numbers one space apart, and byte 10.
ghost use Rattle.std.specs.Prelude.{◌≡◌, ◌∷◌, ◌+◌, ◌≤◌, length};
ghost use Rattle.decimal.specs.Decimal.{digits};
ghost use Rattle.sched.specs.Buffers.{PutAt};
ghost use Rattle.report.specs.Report.{numbers, line};

fn numbers_size(values: &[u64]) -> usize
    requires { length values.now ≤ 4 }
    ensures { result ≡ length (numbers values.now) }
{
    let mut n = 0;
    for &x in values {
        n += 1 + decimal::size(x);
    }
    n
}

// The length of a line of at most four numbers.
pub fn size(word: &[u8], values: &[u64]) -> usize
    requires { (length word.now ≤ 7) × (length values.now ≤ 4) }
    ensures { result ≡ length (line word.now values.now) }
{
    word.len() + numbers_size(values) + 1
}

fn put_word(word: &[u8], out: &mut [u8], at: usize) -> usize
    requires { at + length word.now ≤ length out.old }
    ensures { PutAt out.old at word.now result out.new }
{
    let end = at + word.len();
    out[at..end].copy_from_slice(word);
    end
}

// A space and a number.
fn put_number(x: u64, out: &mut [u8], at: usize) -> usize
    requires { at + length (32 ∷ digits x) ≤ length out.old }
    ensures { PutAt out.old at (32 ∷ digits x) result out.new }
{
    out[at] = b' ';
    decimal::put(x, out, at + 1)
}

fn put_numbers(values: &[u64], out: &mut [u8], at: usize) -> usize
    requires { at + length (numbers values.now) ≤ length out.old }
    ensures { PutAt out.old at (numbers values.now) result out.new }
{
    let mut place = at;
    for &x in values {
        place = put_number(x, out, place);
    }
    place
}

// A line, from a place on; the answer is the place behind it.
pub fn put(word: &[u8], values: &[u64], out: &mut [u8], at: usize) -> usize
    requires { at + length (line word.now values.now) ≤ length out.old }
    ensures { PutAt out.old at (line word.now values.now) result out.new }
{
    let numbers_at = put_word(word, out, at);
    let end = put_numbers(values, out, numbers_at);
    out[end] = b'\n';
    end + 1
}
