// Prints every short session of point 13 of document 02 (docs/PAPERS.md), one line each: what crate `sessions` puts.
#![tactic(auto)]

use std::io::Write;

fn main(rt: HostRuntime) -> std::io::Result<()> {
    let mut out = [0u8; 32768];
    let Some(n) = sessions::list(&mut out) else {
        return rt
            .stderr()
            .write_all(b"the text is longer than its buffer\n");
    };
    rt.stdout().write_all(&out[..n])
}
