// Recover, from a complete checkpoint: 3, 4, and else the map and the state that follow. It programs nothing.
#![tactic(auto)]

ghost use Rattle.std.specs.Prelude.{◌≡◌, true, ◌<◌, take, MatchOption};
ghost use Rattle.model.specs.declared.State.{State};
ghost use Rattle.model.specs.Answers.{number};
ghost use Rattle.model.specs.Geometry.{geometry_ok};
ghost use Rattle.model.specs.Zones.{scan_in};
ghost use Rattle.strides.specs.Strode.{Strode};
ghost use Rattle.recover.specs.Recovering.{scanned_of, recovered_of, Scannable, Lent, Standing, Loaded, from_plan};

use model::{Answer, Geometry, Map, Place, Plane, Refusal, Spare, State, Work, Zones};
use scan::Note;
use strides::Stride;

/// Few pages to scan, and the most: 126 blocks of 64.
const FEW: usize = 512;

const MOST: usize = 8064;

/// Scans the blocks, and where refusal 4 passes makes the map of the entries and what is applied above the floor: the scan's highest version. A
/// list of pages, room for another and notes are lent, each as long as the scan.
fn scan_pages(
    array: &[u8],
    map: &mut [u16],
    g: Geometry,
    bs: &[u8],
    floor: u32,
    entries: &[u16],
    order: &mut [u16],
    other: &mut [u16],
    notes: &mut [Note],
) -> Option<u32>
    requires { Scannable g array.now map.old bs.now entries.now × Lent g.pages bs.now order.old other.old notes.old }
    ensures { scanned_of g.planes g.logical (scan_in array.now g.pages bs.now) floor (take g.logical entries.now) map.old ≡ record { top = result; map = map.new } }
{
    scan::list(g, bs, order);
    let seen = scan::visit(array, order, notes, g);
    if !scan::pages_good(array, g, bs, order, other, notes, seen) {
        return None;
    }
    let l = map.len();
    map.copy_from_slice(&entries[..l]);
    let n = seen.changes as usize;
    recovery::redo(
        map,
        array,
        g,
        bs,
        &order[..n],
        notes,
        other,
        floor,
        seen.top,
    );
    Some(seen.top)
}

/// The same, with lists in local memory: 40 KiB, or where few pages are scanned, as on most power-ups, 2.5 KiB.
fn scan_blocks(
    array: &[u8],
    map: &mut [u16],
    g: Geometry,
    bs: &[u8],
    floor: u32,
    entries: &[u16],
) -> Option<u32>
    requires { Scannable g array.now map.old bs.now entries.now }
    ensures { scanned_of g.planes g.logical (scan_in array.now g.pages bs.now) floor (take g.logical entries.now) map.old ≡ record { top = result; map = map.new } }
{
    let n = scan::size(g, bs);
    if n <= FEW {
        let mut order = [0u16; FEW];
        let mut other = [0u16; FEW];
        let mut notes = [Note::NotWhole; FEW];
        return scan_pages(
            array,
            map,
            g,
            bs,
            floor,
            entries,
            &mut order[..n],
            &mut other[..n],
            &mut notes[..n],
        );
    }
    let mut order = [0u16; MOST];
    let mut other = [0u16; MOST];
    let mut notes = [Note::NotWhole; MOST];
    scan_pages(
        array,
        map,
        g,
        bs,
        floor,
        entries,
        &mut order[..n],
        &mut other[..n],
        &mut notes[..n],
    )
}

/// The state from the checkpoint on page k on.
fn recovered(g: Geometry, zones: Zones, version: u32, checkpoint: u32, k: usize) -> State
    requires { (geometry_ok g ≡ true) × (k < 128) }
    ensures { result ≡ recovered_of g zones version checkpoint k }
{
    let ps = [Place::free(); State::PLACES];
    State {
        geometry: g,
        zones,
        version,
        checkpoint,
        front: (k / (g.pages as usize)) as u8,
        first: 0,
        work: Work::Idle,
        last: Plane::Neither,
        places: ps,
    }
}

/// What a checkpoint and the scan after it say, where refusal 4 passes the scan: of what the state is made.
#[derive(Clone, Copy)]
struct Applied {
    zones: Zones,
    version: u32,
    number: u32,
}

/// Scans and applies what the zones of a checkpoint list. No state goes in and none comes out: the scan's lists take most of the stack that there is.
#[inline(never)]
fn apply(
    array: &[u8],
    map: &mut [u16],
    g: Geometry,
    k: usize,
    z: &[u8],
    entries: &[u16],
) -> Option<Applied>
    requires { Standing g array.now map.old k × Loaded g array.now k z.now entries.now }
    ensures { MatchOption result ((s : State) → Strode (from_plan g k) s array.now map.old 4 array.now map.new s)
        (λ f. (s r : State) → r ≡ recovered_of g f.zones f.version f.number k → Strode (from_plan g k) s array.now map.old 0 array.now map.new r) }
{
    let zones = load::zones_in(z);
    let floor = page::word32(z, 0);
    let order = blocks::scan_order(zones);
    let top = scan_blocks(array, map, g, order.as_slice(), floor, entries)?;
    Some(Applied {
        zones,
        version: floor.max(top),
        number: checkpoint::number_at(array, k),
    })
}

/// Recovers from the complete checkpoint on page k on: 3, 4, or done.
pub fn recover_from(s: State, array: &[u8], map: &mut [u16], g: Geometry, k: usize) -> Stride
    requires { Standing g array.now map.old k }
    ensures { Strode (from_plan g k) s array.now map.old (number result.answer) array.now map.new result.state }
{
    let m = ranges::map_pages(g);
    let used = Map::ENTRIES_A_PAGE * m;
    let mut entries = [0u16; 1024];
    load::load_map(array, k, m, &mut entries);
    let a = (k + m) * Spare::PAGE;
    let e = a + Spare::DATA;
    if !load::entries_ok(g, &entries[..used]) {
        return strides::refused(s, Refusal::BadCheckpoint);
    }
    if !load::zone_page_ok(g, &array[a..e]) {
        return strides::refused(s, Refusal::BadCheckpoint);
    }
    let Some(f) = apply(array, map, g, k, &array[a..e], &entries[..used]) else {
        return strides::refused(s, Refusal::BadPage);
    };
    Stride {
        answer: Answer::Done,
        state: recovered(g, f.zones, f.version, f.number, k),
    }
}
