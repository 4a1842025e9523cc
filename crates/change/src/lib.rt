// The pages of a change: held, programmed and entered in the map. Refusals have been looked at before.
#![tactic(auto)]

ghost use Rattle.std.specs.Prelude.{◌≡◌, true, cond, ℕ, ◌+◌, ◌*◌, ◌/◌, ◌≤◌, ◌<◌, length, get_or, take, leb, ltb, eqb};
ghost use Rattle.model.specs.Lists.{all, those};
ghost use Rattle.model.specs.Page.{page_bytes};
ghost use Rattle.model.specs.Zones.{available_of, clean_in, other_plane};
ghost use Rattle.model.specs.Frame.{no_place, free_place};
ghost use Rattle.model.specs.Transactions.{with_place, with_version, with_last, number_of, page_kind, held_at, hold_with, entered, write_plan, lone_plan, mark_plan};
ghost use Rattle.model.specs.Commands.{Outcome};
ghost use Rattle.flash.specs.Programs.{Programmed};
ghost use Rattle.zones.specs.Judging.{Ready};
ghost use Rattle.change.specs.Changes.{next_of, data_spare, done, HeldDone, Taking, Writing, LoneFits, LonePut};

use model::{Geometry, Map, Place, Plane, Spare, State};

/// Whether block b is of the other plane than the last.
#[tactic(auto, unfolding(model::specs::Zones::other_plane, model::specs::Zones::is_odd))]
fn is_other(last: Plane, b: u8) -> bool
    ensures { result ≡ other_plane last b }
{
    match last {
        Plane::Neither => false,
        Plane::Even => b % 2 == 1,
        Plane::Odd => b % 2 != 1,
    }
}

/// Those of the available blocks that are of the other plane than the last, put into the room that is lent.
fn others<'a>(last: Plane, available: &[u8], room: &'a mut [u8; 3]) -> &'a [u8]
    requires { length available.now ≤ 3 }
    ensures { result.now ≡ those (other_plane last) available.now }
{
    let mut n: usize = 0;
    for b in available {
        if is_other(last, *b) {
            room[n] = *b;
            n += 1;
        }
    }
    &room[..n]
}

/// The page to be programmed next: on two planes of the other plane than the last, if that has clean pages.
pub fn next_page(s: State, array: &[u8]) -> usize
    requires { Ready s.geometry array.now s.zones }
    ensures { result ≡ next_of s array.now }
{
    let z = s.zones;
    let available = &z.available[..z.na as usize];
    let pages = s.geometry.pages as usize;
    if s.geometry.planes != 2 {
        return flash::next_in(array, pages, available);
    }
    let mut room = [0u8; 3];
    let other = others(s.last, available, &mut room);
    if flash::clean_short(array, pages, other, 1) {
        return flash::next_in(array, pages, available);
    }
    flash::next_in(array, pages, other)
}

/// Whether the clean available pages are no more than a block has.
pub fn zone_short(s: State, array: &[u8]) -> bool
    requires { Ready s.geometry array.now s.zones }
    ensures { result ≡ leb (clean_in array.now s.geometry.pages (available_of s.zones)) s.geometry.pages }
{
    let z = s.zones;
    let available = &z.available[..z.na as usize];
    let pages = s.geometry.pages as usize;
    flash::clean_short(array, pages, available, pages + 1)
}

/// The kind of a page that writes or drops its logical page.
fn kind_of(drop: bool) -> u8
    ensures { result ≡ page_kind drop }
{
    if drop {
        Spare::DROP_KIND
    } else {
        Spare::DATA_KIND
    }
}

/// Reserved of the n-th page of a transaction: on two planes its number, else 0.
#[tactic(auto, unfolding(model::specs::Transactions::number_of))]
fn number_of(g: Geometry, n: u8) -> u8
    ensures { result ≡ number_of g n }
{
    if g.planes == 2 { n } else { 0 }
}

/// The spare area of a page that writes or drops a logical page.
pub fn data_spare(drop: bool, lpn: u16, cnt: u16, id: u32, ver: u32, number: u8) -> Spare
    ensures { result ≡ data_spare drop lpn cnt id ver number }
{
    Spare {
        lpn,
        cnt,
        id,
        ver,
        kind: kind_of(drop),
        reserved: number,
    }
}

/// Programs page k with the page that place i holds.
pub fn program_held(array: &mut [u8], k: usize, hold: &[u8], i: usize, s: Spare)
    requires { (k * 528 + 528 ≤ length array.old) × ((length hold.now ≡ 4096) × (i < 8)) }
    ensures { Programmed array.old k (page_bytes (held_at i hold.now) s) array.new }
{
    let a = Spare::DATA * i;
    flash::program_at(array, k, &hold[a..a + Spare::DATA], s);
}

/// Holds a page in place i.
pub fn hold_page(hold: &mut [u8], i: usize, data: &[u8])
    requires { (length hold.old ≡ 4096) × ((i < 8) × (length «data».now ≡ 512)) }
    ensures { hold.new ≡ hold_with hold.old i «data».now }
{
    let a = Spare::DATA * i;
    hold[a..a + Spare::DATA].copy_from_slice(data);
}

/// Enters the pages of a place in the map, in write order.
pub fn enter(map: &mut [u16], p: &Place)
    requires { (p.now.count ≤ 64) × (all (λ (l : ℕ). ltb l (length map.old)) (take p.now.count p.now.lpns) ≡ true) }
    ensures { map.new ≡ entered map.old p.now.lpns p.now.ppns p.now.drops p.now.count }
{
    let n = p.count as usize;
    // by index: a `zip` of three arrays is a pair of pairs
    for (i, lpn) in p.lpns[..n].iter().enumerate() {
        map[*lpn as usize] = Map::leads(p.drops[i], p.ppns[i]);
    }
}

/// Programs the page that a place holds, with this TxCnt and TxVer; its write number is that of the place's pages. Of a place without pages, nothing.
pub fn write_held(
    g: Geometry,
    array: &mut [u8],
    hold: &[u8],
    i: usize,
    p: &Place,
    k: usize,
    cnt: u16,
    ver: u32,
)
    requires { (k * 528 + 528 ≤ length array.old) × ((length hold.now ≡ 4096) × ((i < 8) × (p.now.count ≤ 64))) }
    ensures { HeldDone g array.old k (held_at i hold.now) p.now cnt ver array.new }
{
    let n = p.count as usize;
    if n == 0 {
        return;
    }
    let number = number_of(g, p.count);
    let spare = data_spare(p.drops[n - 1], p.lpns[n - 1], cnt, p.id, ver, number);
    program_held(array, k, hold, i, spare);
}

/// The state with place q as place i, which had pages: then the one it held was programmed on page k.
fn with_written(s: State, i: usize, q: Place, had: u8, k: usize) -> State
    requires { (i < 8) × (0 < s.geometry.pages) }
    ensures { result ≡ with_place (cond (eqb had 0) s (with_last s (k / s.geometry.pages))) i q }
{
    if had == 0 || s.geometry.planes != 2 {
        return places::with_place(s, i, q);
    }
    let t = places::with_last(s, k / s.geometry.pages as usize);
    places::with_place(t, i, q)
}

/// The state when page k was programmed with version v.
pub fn with_page(s: State, v: u32, k: usize) -> State
    requires { 0 < s.geometry.pages }
    ensures { result ≡ with_version (with_last s (k / s.geometry.pages)) v }
{
    if s.geometry.planes != 2 {
        return places::with_version(s, v);
    }
    let t = places::with_last(s, k / s.geometry.pages as usize);
    places::with_version(t, v)
}

/// The state when the mark of place i was programmed on page k with version v. The planes are asked for here already: then one plane costs one copy.
fn with_marked(s: State, i: usize, v: u32, k: usize) -> State
    requires { (i < 8) × (0 < s.geometry.pages) }
    ensures { result ≡ with_place (with_version (with_last s (k / s.geometry.pages)) v) i free_place }
{
    let free = Place::free();
    if s.geometry.planes != 2 {
        let t = places::with_version(s, v);
        return places::with_place(t, i, free);
    }
    let t = with_page(s, v, k);
    places::with_place(t, i, free)
}

/// Writes or drops a logical page in place i: the page held before is programmed, the new one held.
pub fn write_in(
    s: State,
    array: &mut [u8],
    map: &[u16],
    hold: &mut [u8],
    i: usize,
    lpn: u16,
    drop: bool,
    data: &[u8],
) -> State
    requires { Writing s array.old map.now hold.old i lpn «data».now }
    ensures { ◌≡◌ {A = Outcome} (record { answer = 0; world = record { array = array.new; map = map.now; hold = hold.new; state = result } }) (done (write_plan i (get_or s.places i no_place) lpn drop «data».now) (record { array = array.old; map = map.now; hold = hold.old; state = s })) }
{
    let g = s.geometry;
    let p = s.places[i];
    let k = next_page(s, array);
    write_held(g, array, hold, i, &p, k, 0, 0);
    hold_page(hold, i, data);
    let q = places::written(p, k as u16, lpn, drop);
    with_written(s, i, q, p.count, k)
}

/// Programs page k with a lone page of version v, of a lone write or a copy, and enters it in the map.
pub fn put_lone(array: &mut [u8], map: &mut [u16], k: usize, lpn: u16, v: u32, data: &[u8])
    requires { LoneFits array.old map.old k lpn «data».now }
    ensures { LonePut array.old map.old k lpn v «data».now array.new map.new }
{
    let spare = data_spare(false, lpn, 1, 0, v, 0);
    flash::program_at(array, k, data, spare);
    map[lpn as usize] = k as u16;
}

/// Programs a lone write.
pub fn write_lone(
    s: State,
    array: &mut [u8],
    map: &mut [u16],
    hold: &[u8],
    lpn: u16,
    data: &[u8],
) -> State
    requires { Taking s array.old map.old hold.now × ((lpn < s.geometry.logical) × (length «data».now ≡ 512)) }
    ensures { ◌≡◌ {A = Outcome} (record { answer = 0; world = record { array = array.new; map = map.new; hold = hold.now; state = result } }) (done (lone_plan lpn «data».now) (record { array = array.old; map = map.old; hold = hold.now; state = s })) }
{
    let k = next_page(s, array);
    let v = s.version + 1;
    put_lone(array, map, k, lpn, v, data);
    with_page(s, v, k)
}

/// Programs the mark of place i and enters its pages in the map.
pub fn mark(s: State, array: &mut [u8], map: &mut [u16], hold: &[u8], i: usize) -> State
    requires { Taking s array.old map.old hold.now × ((i < 8) × (0 < (get_or s.places i no_place).count)) }
    ensures { ◌≡◌ {A = Outcome} (record { answer = 0; world = record { array = array.new; map = map.new; hold = hold.now; state = result } }) (done (mark_plan i (get_or s.places i no_place)) (record { array = array.old; map = map.old; hold = hold.now; state = s })) }
{
    let g = s.geometry;
    let mut p = s.places[i];
    let n = p.count as usize;
    let k = next_page(s, array);
    let v = s.version + 1;
    write_held(g, array, hold, i, &p, k, p.count as u16, v);
    p.ppns[n - 1] = k as u16;
    enter(map, &p);
    with_marked(s, i, v, k)
}
