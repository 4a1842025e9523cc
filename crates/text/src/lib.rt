// Text put into a buffer: bytes, numbers in decimal, lists of numbers with commas.
// A place in the buffer is handed on beside it, since who puts a text may give it up and put the next one in its place.
#![tactic(auto)]

ghost use Rattle.std.specs.Prelude.{◌+◌, ◌*◌, ◌≤◌, ◌++◌, length};
ghost use Rattle.text.specs.Text.{decimal, comma, Put, PutList};

/// Puts bytes behind the first `at` of out, and answers how many stand there then.
pub fn put(out: &mut [u8], at: usize, text: &[u8]) -> usize
    requires { at + length text.now ≤ length out.old }
    ensures { Put out.old at text.now (length text.now) out.new result }
{
    let end = at + text.len();
    out[at..end].copy_from_slice(text);
    end
}

/// Puts a number in decimal.
pub fn put_number(out: &mut [u8], at: usize, n: u64) -> usize
    requires { at + 20 ≤ length out.old }
    ensures { Put out.old at (decimal n) 20 out.new result }
{
    let mut digits = [0u8; 20];
    let k = io::decimal(n, &mut digits);
    put(out, at, &digits[..k])
}

/// Puts a number of a list, with a comma unless none was put before it.
fn put_item(out: &mut [u8], at: usize, before: usize, n: u64) -> usize
    requires { at + 21 ≤ length out.old }
    ensures { Put out.old at (comma before ++ decimal n) 21 out.new result }
{
    if before == 0 {
        return put_number(out, at, n);
    }
    let a = put(out, at, b",");
    put_number(out, a, n)
}

/// Puts the numbers of a list, with commas between.
pub fn put_list<T: Copy + Into<u64>>(out: &mut [u8], at: usize, list: &[T]) -> usize
    requires { at + 21 * length list.now ≤ length out.old }
    ensures { PutList T.converts out.old at list.now out.new result }
{
    let mut end = at;
    for (i, &x) in list.iter().enumerate() {
        end = put_item(out, end, i, x.into());
    }
    end
}
