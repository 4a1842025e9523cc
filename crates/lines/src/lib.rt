// The lines of the program `report`, read and put: a name, then a number or a list of blocks. It knows no array and no device.
#![tactic(auto)]

ghost use Rattle.std.specs.Prelude.{◌≡◌, ◌+◌, ◌*◌, ◌≤◌, length};
ghost use Rattle.lines.specs.Input.{value_from, line_of, line_in};
ghost use Rattle.text.specs.Text.{Put};
ghost use Rattle.lines.specs.Text.{number_line, blocks_line};

/// A number and the end of its line, and what stands behind it.
fn value(text: &[u8]) -> Option<(u16, &[u8])>
    ensures { line_in result ≡ value_from 0 0 text.now }
{
    let mut v: u16 = 0;
    for (i, &x) in text.iter().enumerate() {
        if x == b'\n' {
            return if i == 0 {
                None
            } else {
                Some((v, &text[i + 1..]))
            };
        }
        if 5 <= i || !x.is_ascii_digit() {
            return None;
        }
        v = v.checked_mul(10)?.checked_add(u16::from(x - b'0'))?;
    }
    None
}

/// A line that begins with this name: its number, and what stands behind it.
pub fn line<'a>(name: &[u8], text: &'a [u8]) -> Option<(u16, &'a [u8])>
    ensures { line_in result ≡ line_of name.now text.now }
{
    value(text.strip_prefix(name)?)
}

/// Puts a line with a name and a number.
pub fn number_line(out: &mut [u8], at: usize, name: &[u8], n: u64) -> usize
    requires { at + (length name.now + 21) ≤ length out.old }
    ensures { Put out.old at (number_line name.now n) (length name.now + 21) out.new result }
{
    let a = text::put(out, at, name);
    let b = text::put_number(out, a, n);
    text::put(out, b, b"\n")
}

/// Puts a line with a name and blocks.
pub fn blocks_line(out: &mut [u8], at: usize, name: &[u8], blocks: &[u8]) -> usize
    requires { at + (length name.now + 21 * length blocks.now + 1) ≤ length out.old }
    ensures { Put out.old at (blocks_line name.now blocks.now) (length name.now + 21 * length blocks.now + 1) out.new result }
{
    let a = text::put(out, at, name);
    let b = text::put_list(out, a, blocks);
    text::put(out, b, b"\n")
}
