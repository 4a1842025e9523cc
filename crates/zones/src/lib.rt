// Scan order, and what a checkpoint moves between the zones.
// An identifier is compared before a page is classed, so a page is classed only where its answer counts.
// A slide first lists the identifiers on whole pages of the near blocks, those still available: 3 of at most 64 pages, so at most 192. From
// then on it compares numbers from spare areas, and a page of another block is classed, once, where its identifier is wanted.
#![tactic(auto)]

ghost use Rattle.std.specs.Prelude.{◌≡◌, ◌+◌, ◌*◌, ◌≤◌, ◌<◌, ◌∷◌, ◌++◌, [], length};
ghost use Rattle.model.specs.Lists.{any, those, count, up_from};
ghost use Rattle.model.specs.Page.{torn_at};
ghost use Rattle.model.specs.Zones.{entry_at, whole_from, scan_in, scan_of, torn_in, on_pages, is_full, staying, leaving, slide, unavailable_of};
ghost use Rattle.flash.specs.Ranges.{Within};
ghost use Rattle.zones.specs.Judging.{ids_in, wanted_id, wanted_by, holds_by, Ready, Near, Leaving};

use blocks::Blocks;
use model::{Geometry, Place, State, Zones};
use refill::Taken;
use std::marker::Model;

/// Identifiers, at most 192.
#[derive(Drop)]
struct Ids {
    list: [u32; 192],
    n: usize,
}

impl Model for Ids {
    ghost use Rattle.std.specs.Prelude.{ℕ, ◌≤◌, List, take};

    ghost Value = { List ℕ };

    ghost view = { λ ids. take ids.n ids.list };

    ghost invariant = { λ ids. ids.n ≤ 192 };
}

impl Ids {
    /// No identifier.
    fn none() -> Self
        ensures { result ≡ [] }
    {
        Ids {
            list: [0; 192],
            n: 0,
        }
    }

    /// One more at the end.
    fn push(&mut self, id: u32)
        requires { length self.old < 192 }
        ensures { self.new ≡ self.old ++ (id ∷ []) }
    {
        self.list[self.n] = id;
        self.n += 1;
    }

    /// The identifiers as a slice.
    fn as_slice(&self) -> &[u32]
        ensures { result.now ≡ self.now }
    {
        &self.list[..self.n]
    }
}

/// Whether page k is whole and has the identifier.
fn has_id(array: &[u8], k: usize, id: u32) -> bool
    requires { k * 528 + 528 ≤ length array.now }
    ensures { result ≡ on_pages id (entry_at array.now k) }
{
    flash::spare_at(array, k).id == id && flash::is_whole(array, k)
}

/// Whether a whole page of block b has the identifier.
fn block_has_id(array: &[u8], pages: usize, b: usize, id: u32) -> bool
    requires { b * pages * 528 + pages * 528 ≤ length array.now }
    ensures { result ≡ on_pages id (whole_from array.now (b * pages) pages) }
{
    let first = b * pages;
    (first..first + pages).any(|k| has_id(array, k, id))
}

/// Whether a whole page of these blocks has the identifier.
pub fn id_in(array: &[u8], pages: usize, bs: &[u8], id: u32) -> bool
    requires { Within (length array.now) pages bs.now }
    ensures { result ≡ on_pages id (scan_in array.now pages bs.now) }
{
    bs.iter()
        .any(|&b| block_has_id(array, pages, usize::from(b), id))
}

/// Whether a whole page in scan order has the identifier.
pub fn id_scanned(g: Geometry, array: &[u8], z: Zones, id: u32) -> bool
    requires { Ready g array.now z }
    ensures { result ≡ on_pages id (scan_of array.now g.pages z) }
{
    let pages = usize::from(g.pages);
    id_in(array, pages, &z.unavailable[..usize::from(z.nu)], id)
        || id_in(array, pages, &z.available[..usize::from(z.na)], id)
}

/// How many pages of block b are torn.
fn block_torn(array: &[u8], pages: usize, b: usize) -> usize
    requires { b * pages * 528 + pages * 528 ≤ length array.now }
    ensures { (result ≡ count (torn_at array.now) (up_from (b * pages) pages)) × (result ≤ pages) }
{
    let first = b * pages;
    (first..first + pages)
        .filter(|&k| flash::is_torn(array, k))
        .count()
}

/// How many pages of these blocks are torn.
pub fn torn_in(array: &[u8], pages: usize, bs: &[u8]) -> usize
    requires { Within (length array.now) pages bs.now × (pages ≤ 64) }
    ensures { result ≡ torn_in array.now pages bs.now }
{
    let mut torn: usize = 0;
    for &b in bs {
        torn += block_torn(array, pages, usize::from(b));
    }
    torn
}

/// Lists the identifiers other than 0 of the whole pages of block b behind the others.
fn list_block(array: &[u8], pages: usize, b: usize, near: &mut Ids)
    requires { (b * pages * 528 + pages * 528 ≤ length array.now) × (length near.old + pages ≤ 192) }
    ensures { near.new ≡ near.old ++ ids_in (whole_from array.now (b * pages) pages) }
{
    let first = b * pages;
    for k in first..first + pages {
        let id = flash::spare_at(array, k).id;
        if id != 0 && flash::is_whole(array, k) {
            near.push(id);
        }
    }
}

/// Lists the identifiers other than 0 of the whole pages of the near blocks.
fn list_near(array: &[u8], pages: usize, bs: &[u8], near: &mut Ids)
    requires { Near array.now pages bs.now × (near.old ≡ []) }
    ensures { near.new ≡ ids_in (scan_in array.now pages bs.now) }
{
    for &b in bs {
        list_block(array, pages, usize::from(b), near);
    }
}

/// Whether an identifier is of an active transaction or among the near ones.
fn is_wanted(ids: [u32; State::PLACES], near: &[u32], id: u32) -> bool
    ensures { result ≡ wanted_id ids near.now id }
{
    id != 0 && (places::is_active_in(ids, id) || places::among(near, id))
}

/// Whether page k is whole and wanted.
fn page_wanted(array: &[u8], ids: [u32; State::PLACES], near: &[u32], k: usize) -> bool
    requires { k * 528 + 528 ≤ length array.now }
    ensures { result ≡ any (wanted_by ids near.now) (entry_at array.now k) }
{
    is_wanted(ids, near, flash::spare_at(array, k).id) && flash::is_whole(array, k)
}

/// Whether a whole page of block b is wanted.
fn holds_wanted(
    array: &[u8],
    pages: usize,
    ids: [u32; State::PLACES],
    near: &[u32],
    b: usize,
) -> bool
    requires { b * pages * 528 + pages * 528 ≤ length array.now }
    ensures { result ≡ holds_by array.now pages ids near.now b }
{
    let first = b * pages;
    (first..first + pages).any(|k| page_wanted(array, ids, near, k))
}

/// Those of some blocks that have a whole page which is wanted.
fn judge(array: &[u8], pages: usize, ids: [u32; State::PLACES], near: &[u32], bs: &[u8]) -> Blocks
    requires { Within (length array.now) pages bs.now }
    ensures { result ≡ those (holds_by array.now pages ids near.now) bs.now }
{
    let mut kept = Blocks::none();
    for &b in bs {
        if holds_wanted(array, pages, ids, near, usize::from(b)) {
            kept = kept.with(b);
        }
    }
    kept
}

/// Whether block b is full, so that it has no clean page. It is where its last page is not erased.
fn is_full(array: &[u8], pages: usize, b: usize) -> bool
    requires { (b * pages * 528 + pages * 528 ≤ length array.now) × (1 ≤ pages) }
    ensures { result ≡ is_full array.now pages b }
{
    let last = b * pages + (pages - 1);
    !flash::is_blank(array, last)
}

/// Those of some blocks that are not full, and those that are.
fn parted(array: &[u8], pages: usize, bs: &[u8]) -> (Blocks, Blocks)
    requires { Within (length array.now) pages bs.now × (1 ≤ pages) }
    ensures { (result.0 ≡ staying array.now pages bs.now) × (result.1 ≡ leaving array.now pages bs.now) }
{
    let mut stay = Blocks::none();
    let mut leave = Blocks::none();
    for &b in bs {
        if is_full(array, pages, usize::from(b)) {
            leave = leave.with(b);
        } else {
            stay = stay.with(b);
        }
    }
    (stay, leave)
}

/// The unavailable blocks and then the leavers, those of each that have a page which is wanted.
fn judged(
    array: &[u8],
    pages: usize,
    ids: [u32; State::PLACES],
    z: Zones,
    stay: &[u8],
    leave: &[u8],
) -> Blocks
    requires { Leaving array.now pages z stay.now leave.now }
    ensures { result ≡ those (holds_by array.now pages ids (ids_in (scan_in array.now pages stay.now))) (unavailable_of z ++ leave.now) }
{
    let mut near = Ids::none();
    list_near(array, pages, stay, &mut near);
    let all = blocks::unavailable(z).joined(leave);
    judge(array, pages, ids, near.as_slice(), all.as_slice())
}

/// The zones that a checkpoint leaves.
pub fn slide(g: Geometry, array: &[u8], places: [Place; State::PLACES], z: Zones) -> Zones
    requires { Ready g array.now z }
    ensures { result ≡ slide g array.now places z }
{
    let pages = usize::from(g.pages);
    let ids = places::ids_of(&places);
    let (stay, leave) = parted(array, pages, &z.available[..usize::from(z.na)]);
    let kept = judged(array, pages, ids, z, stay.as_slice(), leave.as_slice());
    let left = Taken {
        available: stay,
        free: blocks::free(z),
        pointer: z.pointer,
    };
    left.refill(g).zones(kept)
}
