// Prints the table for the boot logic: the zero bits of each byte value, one decimal a line from value 0 up.
// It counts them; the table that the library carries has the numbers printed here (crate `table`), and both are shown equal to the same list.
#![tactic(auto)]

ghost use Rattle.std.specs.Prelude.{◌≡◌, ◌-◌, take};
ghost use Rattle.std.specs.Int.Count.{ones};
ghost use Rattle.io.specs.Counts.{IsPrefixLen};
ghost use Rattle.table.specs.Counts.{counts};
ghost use Rattle.zerotable.specs.Text.{lines_of};

use std::io::Write;

/// The zero bits of a byte value, counted.
fn zero_count(x: u8) -> u32
    ensures { result ≡ 8 - ones x }
{
    // by the ones, in which the rule of the table is stated
    8 - x.count_ones()
}

/// Puts the lines of all 256 byte values at the front of out, and answers their length.
fn text(out: &mut [u8; 8192]) -> usize
    ensures { (take result out.new ≡ lines_of (counts 0 256)) × IsPrefixLen result out.new }
{
    let mut end: usize = 0;
    for x in 0..256usize {
        end = lines::number_line(out, end, b"", u64::from(zero_count(x as u8)));
    }
    end
}

fn main(rt: HostRuntime) -> std::io::Result<()> {
    let mut out = [0u8; 8192];
    let n = text(&mut out);
    rt.stdout().write_all(&out[..n])
}
