// The pages of a checkpoint, and the newest complete one.
#![tactic(auto)]

ghost use Rattle.std.specs.Prelude.{◌≡◌, true, cond, ◌&&◌, ◌+◌, ◌-◌, ◌*◌, ◌≤◌, ◌<◌, length, get_or};
ghost use Rattle.model.specs.Geometry.{unmapped};
ghost use Rattle.model.specs.Checkpoint.{map_bytes, map_spare, zone_spare, zone_data, page_is, maps_at, number_at, complete_at, at, newer, newest_from, newest};
ghost use Rattle.blocks.specs.Blocks.{Counted};
ghost use Rattle.checkpoint.specs.Found.{found_of, Fronts};

use model::{Map, Spare, Zones};
use table::Table;

/// Entry k of the map, unmapped past its end.
fn entry_at(map: &[u16], k: usize) -> u16
    ensures { result ≡ get_or map.now k unmapped }
{
    map.get(k).copied().unwrap_or(Map::UNMAPPED)
}

/// The data of map page i.
pub fn map_data(map: &[u16], i: usize) -> [u8; Spare::DATA]
    requires { i < 4 }
    ensures { result ≡ map_bytes map.now (256 * i) 256 }
{
    let mut d = [0u8; Spare::DATA];
    for j in 0..Map::ENTRIES_A_PAGE {
        let x = entry_at(map, Map::ENTRIES_A_PAGE * i + j);
        page::put16(&mut d, 2 * j, x);
    }
    d
}

/// The spare area of map page i of checkpoint n.
pub fn map_spare(i: usize, n: u32) -> Spare
    requires { i < 65536 }
    ensures { result ≡ map_spare i n }
{
    Spare {
        lpn: i as u16,
        cnt: 0,
        id: 0,
        ver: n,
        kind: Spare::MAP_KIND,
        reserved: 0,
    }
}

/// The spare area of the zone page behind m map pages of checkpoint n.
pub fn zone_spare(m: usize, n: u32) -> Spare
    requires { m < 65535 }
    ensures { result ≡ zone_spare m n }
{
    Spare {
        lpn: m as u16,
        cnt: (m + 1) as u16,
        id: 0,
        ver: n,
        kind: Spare::ZONE_KIND,
        reserved: 0,
    }
}

/// The data of the zone page.
pub fn zone_data(version: u32, z: Zones) -> [u8; Spare::DATA]
    requires { Counted z }
    ensures { result ≡ zone_data version z }
{
    let all = blocks::listed(z);
    let mut d = [0u8; Spare::DATA];
    page::put32(&mut d, 0, version);
    d[4] = z.pointer;
    d[5] = z.na;
    d[6] = z.nu;
    d[7] = z.nf;
    let list = all.as_slice();
    d[8..8 + list.len()].copy_from_slice(list);
    d
}

/// Whether page k is whole, its zero bits counted by the table, and has this spare area.
fn page_is(array: &[u8], k: usize, s: Spare, t: &Table) -> bool
    requires { k * 528 + 528 ≤ length array.now }
    ensures { result ≡ page_is array.now k s }
{
    let page = flash::page_of(array, k);
    page::read_spare(page) == s && t.is_whole(page)
}

/// Whether the m pages from page k on are the map pages of checkpoint c.
fn maps_at(array: &[u8], k: usize, c: u32, m: usize, t: &Table) -> bool
    requires { (k * 528 + m * 528 ≤ length array.now) × (m ≤ 4) }
    ensures { result ≡ maps_at array.now k 0 c m }
{
    for i in 0..m {
        if !page_is(array, k + i, map_spare(i, c), t) {
            return false;
        }
    }
    true
}

/// The checkpoint number that page k would have.
pub fn number_at(array: &[u8], k: usize) -> u32
    requires { k * 528 + 528 ≤ length array.now }
    ensures { result ≡ number_at array.now k }
{
    flash::spare_at(array, k).ver
}

/// Whether a complete checkpoint with m map pages stands from page k on.
fn complete_at(array: &[u8], m: usize, k: usize, t: &Table) -> bool
    requires { (k * 528 + (m * 528 + 528) ≤ length array.now) × (m ≤ 4) }
    ensures { result ≡ complete_at array.now m k }
{
    let c = number_at(array, k);
    maps_at(array, k, c, m, t) && page_is(array, k + m, zone_spare(m, c), t)
}

/// Whether the checkpoint at page k is newer than the best so far.
fn is_newer(array: &[u8], k: usize, best: Option<usize>) -> bool
    requires { Fronts (length array.now) k best }
    ensures { result ≡ newer array.now k (found_of best) }
{
    match best {
        None => true,
        Some(j) => number_at(array, j) < number_at(array, k),
    }
}

/// The newer of the best so far and of a checkpoint at page k, if one is there.
fn better(array: &[u8], m: usize, k: usize, best: Option<usize>, t: &Table) -> Option<usize>
    requires { (k * 528 + (m * 528 + 528) ≤ length array.now) × ((m ≤ 4) × Fronts (length array.now) k best) }
    ensures { found_of result ≡ cond (complete_at array.now m k && newer array.now k (found_of best)) (at k) (found_of best) }
{
    if complete_at(array, m, k, t) && is_newer(array, k, best) {
        return Some(k);
    }
    best
}

/// The newest of the best so far and of those that start on the n pages from page k on.
fn newest_from(
    array: &[u8],
    m: usize,
    k: usize,
    n: usize,
    best: Option<usize>,
    t: &Table,
) -> Option<usize>
    requires { (k * 528 + (n + m) * 528 ≤ length array.now) × ((m ≤ 4) × Fronts (length array.now) k best) }
    ensures { found_of result ≡ newest_from array.now m k n (found_of best) }
{
    let mut found = best;
    for i in 0..n {
        found = better(array, m, k + i, found, t);
    }
    found
}

/// The newest complete checkpoint of both front blocks of `pages` pages.
pub fn newest(array: &[u8], m: usize, pages: usize) -> Option<usize>
    requires { (2 * pages * 528 ≤ length array.now) × ((m ≤ 4) × (8 ≤ pages)) }
    ensures { found_of result ≡ newest array.now m pages }
{
    let table = Table::new();
    let n = pages - m;
    let first = newest_from(array, m, 0, n, None, &table);
    newest_from(array, m, pages, n, first, &table)
}
