// What a recovery applies: the committed transactions above the floor, by rising version. They are entered in any order: for each logical page
// the best version so far is kept, and a page enters where its own is not below it. So the pages of changes are taken as they stand sorted by
// TxID, one run of an identifier after the other, each in turn, and then the lone pages. It takes the same steps for any versions.
#![tactic(auto)]

ghost use Rattle.std.specs.Prelude.{◌≡◌, ◌+◌, ◌*◌, ◌≤◌, ◌<◌, length, drop, get_or};
ghost use Rattle.model.specs.Zones.{Entry, scan_in};
ghost use Rattle.model.specs.Recovery.{top, redone};
ghost use Rattle.ranks.specs.Pass.{enter_best, best_of};
ghost use Rattle.ranks.specs.Best.{rank_of};
ghost use Rattle.sorting.specs.Sort.{key_at, Pages};
ghost use Rattle.scan.specs.Taken.{listed, entry_in, entries_in};
ghost use Rattle.scan.specs.Notes.{noted};
ghost use Rattle.recovery.specs.Redo.{rank_by, best, all_entered, run_of, run_version, Enterable, Runs, Ready};

use model::{Geometry, Map, Spare};
use scan::{Note, Wanted};

/// A best version for each logical page.
const LOGICAL: usize = Geometry::MAX_LOGICAL as usize;

/// Enters page k with this version, unless a better one was entered for its logical page.
fn enter(map: &mut [u16], bests: &mut [u32], array: &[u8], k: u16, v: u32)
    requires { (k * 528 + 528 ≤ length array.now) × (((entry_in array.now k).lpn < length map.old) × (length bests.old ≡ length map.old)) }
    ensures { best map.new bests.new ≡ enter_best (λ (e : Entry). v) (entry_in array.now k) (best map.old bests.old) }
{
    let page = flash::page_of(array, usize::from(k));
    let l = usize::from(page::word16(page, Spare::LPN));
    if v < bests[l] {
        return;
    }
    bests[l] = v;
    map[l] = Map::leads(page[Spare::KIND] == Spare::DROP_KIND, k);
}

/// The version that page k is entered with: that of its run, or its own.
fn version_of(array: &[u8], k: u16, run: Option<u32>) -> u32
    requires { k * 528 + 528 ≤ length array.now }
    ensures { result ≡ rank_by run (entry_in array.now k) }
{
    match run {
        Some(v) => v,
        None => page::word32(flash::page_of(array, usize::from(k)), Spare::VER),
    }
}

/// Enters the pages of a list: those of a run with its version, lone ones each with its own.
fn enter_pages(map: &mut [u16], bests: &mut [u32], array: &[u8], order: &[u16], run: Option<u32>)
    requires { Enterable array.now order.now map.old bests.old }
    ensures { best map.new bests.new ≡ best_of (rank_by run) (entries_in array.now order.now) (best map.old bests.old) }
{
    for &k in order {
        enter(map, bests, array, k, version_of(array, k, run));
    }
}

/// Where the run of the identifier of page i of the list ends.
fn run_end(array: &[u8], order: &[u16], i: usize) -> usize
    requires { Pages (length array.now) order.now × (i < length order.now) }
    ensures { (result ≡ i + run_of array.now (key_at array.now 516 (get_or order.now i 0)) (drop i order.now)) × ((i < result) × (result ≤ length order.now)) }
{
    let id = id_of(array, order[i]);
    let rest = &order[i..];
    i + rest
        .iter()
        .position(|&k| id_of(array, k) != id)
        .unwrap_or(rest.len())
}

/// The identifier of page k.
fn id_of(array: &[u8], k: u16) -> u32
    requires { k * 528 + 528 ≤ length array.now }
    ensures { result ≡ key_at array.now 516 k }
{
    page::word32(flash::page_of(array, usize::from(k)), Spare::ID)
}

/// The version of a run: that of its mark, if the mark counts its pages, else 0.
fn run_version(array: &[u8], run: &[u16]) -> u32
    requires { Pages (length array.now) run.now }
    ensures { result ≡ run_version array.now run.now }
{
    let mut v: u32 = 0;
    for &k in run {
        let page = flash::page_of(array, usize::from(k));
        if usize::from(page::word16(page, Spare::CNT)) == run.len() {
            v = v.max(page::word32(page, Spare::VER));
        }
    }
    v
}

/// Enters the pages of changes, run after run.
fn enter_runs(map: &mut [u16], bests: &mut [u32], array: &[u8], order: &[u16])
    requires { Enterable array.now order.now map.old bests.old × Runs array.now order.now }
    ensures { best map.new bests.new ≡ best_of (rank_of (entries_in array.now order.now)) (entries_in array.now order.now) (best map.old bests.old) }
{
    // by index: a step is a whole run
    let mut i: usize = 0;
    while i < order.len() {
        let j = run_end(array, order, i);
        let v = run_version(array, &order[i..j]);
        enter_pages(map, bests, array, &order[i..j], Some(v));
        i = j;
    }
}

/// Enters the pages of changes, run after run, and then the lone pages of the scan.
fn enter_all(
    map: &mut [u16],
    bests: &mut [u32],
    array: &[u8],
    g: Geometry,
    bs: &[u8],
    changes: &[u16],
    notes: &[Note],
    other: &mut [u16],
)
    requires { Ready g.planes map.old array.now g.pages bs.now changes.now notes.now other.old × (length bests.old ≡ length map.old) }
    ensures { best map.new bests.new ≡ all_entered array.now changes.now (noted array.now Wanted.Singles (listed g.pages bs.now)) (best map.old bests.old) }
{
    enter_runs(map, bests, array, changes);
    scan::list(g, bs, other);
    let n = scan::pick(other, notes, Wanted::Singles);
    enter_pages(map, bests, array, &other[..n], None);
}

/// Enters the committed transactions above the floor by rising version; the highest version of the scan is given, and its pages of changes
/// sorted by TxID, those of one in turn. `other` is room for the scan's pages.
// in a frame of its own, beside that of the sort
#[inline(never)]
pub fn redo(
    map: &mut [u16],
    array: &[u8],
    g: Geometry,
    bs: &[u8],
    changes: &[u16],
    notes: &[Note],
    other: &mut [u16],
    floor: u32,
    highest: u32,
)
    requires { Ready g.planes map.old array.now g.pages bs.now changes.now notes.now other.old × (highest ≡ top (scan_in array.now g.pages bs.now)) }
    ensures { map.new ≡ redone g.planes floor (scan_in array.now g.pages bs.now) map.old }
{
    if highest <= floor {
        return;
    }
    let l = map.len();
    let mut bests = [floor + 1; LOGICAL];
    enter_all(map, &mut bests[..l], array, g, bs, changes, notes, other);
}
