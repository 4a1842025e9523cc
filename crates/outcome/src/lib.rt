// The lines that tell of a recovery that is done: the answer, the state, the map and the number of torn pages.
#![tactic(auto)]

ghost use Rattle.std.specs.Prelude.{◌≡◌, ◌+◌, ◌≤◌, length, take};
ghost use Rattle.text.specs.Text.{Put};
ghost use Rattle.outcome.specs.Text.{mapped_in, zones_text, counts_text, state_text, answer_text};

use model::{Map, State, Zones};

/// How many logical pages are mapped.
fn mapped(map: &[u16]) -> usize
    ensures { result ≡ mapped_in map.now }
{
    map.iter().filter(|&&page| page != Map::UNMAPPED).count()
}

/// The first n blocks of a list, or all where it has fewer.
fn first(blocks: &[u8], n: u8) -> &[u8]
    ensures { result.now ≡ take n blocks.now }
{
    &blocks[..blocks.len().min(usize::from(n))]
}

/// Puts the lines of the zone lists.
fn zone_lines(out: &mut [u8], at: usize, z: &Zones) -> usize
    requires { at + 5500 ≤ length out.old }
    ensures { Put out.old at (zones_text z.now) 5500 out.new result }
{
    let available = first(&z.available, z.na);
    let unavailable = first(&z.unavailable, z.nu);
    let free = first(&z.free, z.nf);
    let a = lines::blocks_line(out, at, b"available=", available);
    let b = lines::blocks_line(out, a, b"unavailable=", unavailable);
    lines::blocks_line(out, b, b"free=", free)
}

/// Puts the lines of the numbers of mapped and of torn pages.
fn count_lines(out: &mut [u8], at: usize, map: &[u16], torn: usize) -> usize
    requires { at + 60 ≤ length out.old }
    ensures { Put out.old at (counts_text map.now torn) 60 out.new result }
{
    let n = mapped(map);
    let a = lines::number_line(out, at, b"mapped=", n as u64);
    lines::number_line(out, a, b"torn=", torn as u64)
}

/// Puts the lines after the answer.
fn state_lines(out: &mut [u8], at: usize, s: &State, map: &[u16], torn: usize) -> usize
    requires { at + 6000 ≤ length out.old }
    ensures { Put out.old at (state_text s.now map.now torn) 6000 out.new result }
{
    let a = lines::number_line(out, at, b"checkpoint=", u64::from(s.checkpoint));
    let b = lines::number_line(out, a, b"version=", u64::from(s.version));
    let c = zone_lines(out, b, &s.zones);
    count_lines(out, c, map, torn)
}

/// Puts the answer of a recovery that is done, and the lines after it.
pub fn done_lines(out: &mut [u8], s: &State, map: &[u16], torn: usize) -> usize
    requires { 8192 ≤ length out.old }
    ensures { Put out.old 0 (answer_text 0 s.now map.now torn) 8192 out.new result }
{
    let at = lines::number_line(out, 0, b"answer=", 0);
    state_lines(out, at, s, map, torn)
}
