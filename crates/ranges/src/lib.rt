// Whether a geometry, the lent buffers, a map and zone lists are in range: what refusals 1 and 3 share.
#![tactic(auto)]

ghost use Rattle.std.specs.Prelude.{◌≡◌, true, ◌&&◌, ◌||◌, ◌+◌, ◌-◌, ◌*◌, ◌≤◌, ◌<◌, [], length, take, drop, eqb};
ghost use Rattle.model.specs.Lists.{all_heads, rising};
ghost use Rattle.model.specs.Geometry.{geometry_ok, lengths_ok, map_pages, map_ok};
ghost use Rattle.model.specs.Zones.{new_block, zone_lists_ok, zones_ok};
ghost use Rattle.ranges.specs.Ranges.{entry_within, Laid};

use model::{Geometry, Map, Spare, State, Zones};

/// How many front blocks there are.
const FRONT: usize = Geometry::FRONT_BLOCKS as usize;

/// The first data block.
const FIRST: u8 = Geometry::FRONT_BLOCKS as u8;

/// Whether a device may have this many planes.
fn planes_ok(planes: u16) -> bool
    ensures { result ≡ (eqb planes 1 || eqb planes 2) }
{
    planes == 1 || planes == 2
}

/// Whether a geometry is in range.
// no type of its own for one in range: a state keeps the plain record, zeros before a format, and each command tests it once
#[tactic(auto, unfolding(model::specs::Geometry::geometry_ok))]
pub fn geometry_ok(g: Geometry) -> bool
    ensures { result ≡ geometry_ok g }
{
    g.blocks >= Geometry::MIN_BLOCKS
        && g.blocks <= Geometry::MAX_BLOCKS
        && g.pages >= Geometry::MIN_PAGES
        && g.pages <= Geometry::MAX_PAGES
        && g.logical >= 1
        && g.logical <= Geometry::MAX_LOGICAL
        && g.logical <= (g.blocks - Geometry::SPARE_BLOCKS) * g.pages
        && planes_ok(g.planes)
}

/// Whether the lent buffers have the lengths that a geometry asks.
#[tactic(auto, unfolding(model::specs::Geometry::lengths_ok))]
pub fn lengths_ok(g: Geometry, array: &[u8], map: &[u16], hold: &[u8]) -> bool
    ensures { result ≡ lengths_ok g array.now map.now hold.now }
{
    array.len() == usize::from(g.blocks) * usize::from(g.pages) * Spare::PAGE
        && map.len() == usize::from(g.logical)
        && hold.len() == State::HOLD
}

/// Whether geometry and lengths are in range: all that recover looks at for refusal 1.
pub fn lent_ok(g: Geometry, array: &[u8], map: &[u16], hold: &[u8]) -> bool
    ensures { result ≡ (geometry_ok g && lengths_ok g array.now map.now hold.now) }
{
    geometry_ok(g) && lengths_ok(g, array, map, hold)
}

/// The map pages of a checkpoint.
#[tactic(auto, unfolding(model::specs::Geometry::map_pages))]
pub fn map_pages(g: Geometry) -> usize
    ensures { result ≡ map_pages g }
{
    usize::from(g.logical).div_ceil(Map::ENTRIES_A_PAGE)
}

/// Whether every entry is unmapped, or at least lo, below hi and new.
fn entries_ok(map: &[u16], lo: usize, hi: usize) -> bool
    requires { hi ≤ 8192 }
    ensures { result ≡ all_heads (entry_within lo hi) [] map.now }
{
    let mut seen = [false; 8192];
    for &x in map {
        if x == Map::UNMAPPED {
            continue;
        }
        let k = usize::from(x);
        if k < lo || k >= hi || seen[k] {
            return false;
        }
        seen[k] = true;
    }
    true
}

/// Whether a map's entries are unmapped, or pages of data blocks and none repeated.
pub fn map_ok(g: Geometry, map: &[u16]) -> bool
    requires { geometry_ok g ≡ true }
    ensures { result ≡ map_ok g map.now }
{
    let pages = usize::from(g.pages);
    entries_ok(map, FRONT * pages, usize::from(g.blocks) * pages)
}

/// Whether each is a data block that did not come before.
// apart from entries_ok: no number stands for none, and one function for both would want a trait for the width of the numbers
fn blocks_new(g: Geometry, list: &[u8]) -> bool
    requires { geometry_ok g ≡ true }
    ensures { result ≡ all_heads (new_block g) [] list.now }
{
    let hi = usize::from(g.blocks);
    let mut seen = [false; 128];
    for &b in list {
        let b = usize::from(b);
        if b < FRONT || b >= hi || seen[b] {
            return false;
        }
        seen[b] = true;
    }
    true
}

/// Whether each is below the next, and so below all that come later.
fn is_rising(list: &[u8]) -> bool
    ensures { result ≡ rising list.now }
{
    list.is_sorted_by(|a, b| a < b)
}

/// Whether zone lists that stand one after the other are in range: na available, nu unavailable, the others free.
pub fn lists_ok(g: Geometry, list: &[u8], na: usize, nu: usize, pointer: u8) -> bool
    requires { Laid g list.now na nu }
    ensures { result ≡ zone_lists_ok g na nu (length list.now - (na + nu)) (take na list.now) (take nu (drop na list.now)) (drop (na + nu) list.now) pointer }
{
    na <= 3
        && blocks_new(g, list)
        && is_rising(&list[na + nu..])
        && pointer >= FIRST
        && u16::from(pointer) < g.blocks
}

/// Whether the zone lists and the pointer are in range.
pub fn zones_ok(g: Geometry, z: Zones) -> bool
    requires { geometry_ok g ≡ true }
    ensures { result ≡ zones_ok g z }
{
    let na = usize::from(z.na);
    let nu = usize::from(z.nu);
    let nf = usize::from(z.nf);
    if na + nu + nf > usize::from(g.blocks) - FRONT || na > 3 {
        return false;
    }
    lists_ok(g, blocks::listed(z).as_slice(), na, nu, z.pointer)
}
