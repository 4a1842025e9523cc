// The report on an array: reads three lines and the array from standard input, and writes what crate `reporting` makes of them.
// The lines have at most 39 bytes and the array 65,536: whatever is longer is told by one byte more.
#![tactic(auto)]

ghost use Rattle.std.specs.Prelude.{◌≤◌, IfOk, length};

use std::io::{Read, Write};

/// Reads until the buffer is full or the input ends, and answers how many bytes stand at its front then.
fn fill<R: Read>(input: &mut R, buffer: &mut [u8]) -> std::io::Result<usize>
    ensures { IfOk result (λ n. n ≤ length buffer.new) }
{
    // by hand: `read_exact` takes an early end for an error, and `read_to_end` wants a heap
    let mut done: usize = 0;
    while done < buffer.len() {
        let n = input.read(&mut buffer[done..])?;
        if n == 0 {
            break;
        }
        done += n;
    }
    Ok(done)
}

fn main(rt: HostRuntime) -> std::io::Result<()> {
    let mut input = [0u8; 65576];
    let n = fill(&mut rt.stdin(), &mut input)?;
    let mut out = [0u8; 8192];
    let r = reporting::report(&input[..n], &mut out);
    rt.stdout().write_all(&out[..r])
}
