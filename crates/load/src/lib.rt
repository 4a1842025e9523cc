// What is read back from a checkpoint, and refusal 3.
#![tactic(auto)]

ghost use Rattle.std.specs.Prelude.{◌≡◌, true, ◌&&◌, ◌+◌, ◌-◌, ◌*◌, ◌≤◌, ◌<◌, length, take, drop, eqb, ◌++◌, replicate};
ghost use Rattle.model.specs.Lists.{all};
ghost use Rattle.model.specs.Bytes.{words};
ghost use Rattle.model.specs.Page.{data_at};
ghost use Rattle.model.specs.Geometry.{geometry_ok, unmapped, map_ok};
ghost use Rattle.model.specs.Checkpoint.{load_map, zones_in};
ghost use Rattle.load.specs.Load.{zone_page_ok, Entries, Counts};

use blocks::Blocks;
use model::{Geometry, Map, Zones};

/// How many front blocks there are.
const FRONT: usize = Geometry::FRONT_BLOCKS as usize;

/// The entries of the map page k.
fn load_page(array: &[u8], k: usize, to: &mut [u16])
    requires { (k * 528 + 528 ≤ length array.now) × (length to.old ≡ 256) }
    ensures { to.new ≡ words (data_at array.now k) }
{
    page::words16(flash::page_of(array, k), 0, to);
}

/// The entries of the m map pages from page k on, and zeros behind them. They are lent: 2 KB that are returned may be copied once more on the stack.
pub fn load_map(array: &[u8], k: usize, m: usize, entries: &mut [u16; 1024])
    requires { (k * 528 + m * 528 ≤ length array.now) × (m ≤ 4) }
    ensures { entries.new ≡ load_map array.now k m ++ replicate (1024 - 256 * m) 0 }
{
    // by index: a proof does not know what a chunk of `chunks_exact_mut` was left with
    for i in 0..m {
        let a = Map::ENTRIES_A_PAGE * i;
        load_page(array, k + i, &mut entries[a..a + Map::ENTRIES_A_PAGE]);
    }
    entries[Map::ENTRIES_A_PAGE * m..].fill(0);
}

/// Whether every entry is unmapped: the lowest is. The fold has no other way out, so many entries are taken at once.
fn all_unmapped(entries: &[u16]) -> bool
    ensures { result ≡ all (eqb unmapped) entries.now }
{
    entries
        .iter()
        .fold(Map::UNMAPPED, |lowest, e| lowest.min(*e))
        == Map::UNMAPPED
}

/// Whether every byte is zero: the highest is.
fn all_zero(rest: &[u8]) -> bool
    ensures { result ≡ all (eqb 0) rest.now }
{
    rest.iter().fold(0, |highest: u8, b| highest.max(*b)) == 0
}

/// Whether refusal 3 passes the data of a zone page.
pub fn zone_page_ok(g: Geometry, z: &[u8]) -> bool
    requires { (geometry_ok g ≡ true) × (length z.now ≡ 512) }
    ensures { result ≡ zone_page_ok g z.now }
{
    let na = z[5] as usize;
    let nu = z[6] as usize;
    let n = na + nu + z[7] as usize;
    if n > g.blocks as usize - FRONT {
        return false;
    }
    let e = 8 + n;
    ranges::lists_ok(g, &z[8..e], na, nu, z[4]) && all_zero(&z[e..])
}

/// Whether refusal 3 passes the map entries, used and unused.
// in a frame of its own: its table is gone before the scan
#[inline(never)]
pub fn entries_ok(g: Geometry, entries: &[u16]) -> bool
    requires { Entries g entries.now }
    ensures { result ≡ (map_ok g (take g.logical entries.now) && all (eqb unmapped) (drop g.logical entries.now)) }
{
    let l = g.logical as usize;
    ranges::map_ok(g, &entries[..l]) && all_unmapped(&entries[l..])
}

/// The zones in the data of a zone page.
pub fn zones_in(z: &[u8]) -> Zones
    requires { Counts z.now }
    ensures { result ≡ zones_in z.now }
{
    let u = 8 + z[5] as usize;
    let f = u + z[6] as usize;
    let e = f + z[7] as usize;
    let available = Blocks::of(&z[8..u]);
    let unavailable = Blocks::of(&z[u..f]);
    let free = Blocks::of(&z[f..e]);
    blocks::zones_of(available, unavailable, free, z[4])
}
