// Refusals 1 and 17: whether a state may be, with the buffers lent beside it, and whether another command's work is under way.
#![tactic(auto)]

ghost use Rattle.std.specs.Prelude.{◌≡◌, true, ℕ, ◌+◌, ◌-◌, ◌*◌, ◌≤◌, ◌<◌, take, drop, get_or, ltb};
ghost use Rattle.answers.specs.Refusals.{refusal_of};
ghost use Rattle.model.specs.Lists.{all};
ghost use Rattle.model.specs.Geometry.{geometry_ok, data_page};
ghost use Rattle.model.specs.Frame.{most_pages, place_ok, places_ok, format_stride_ok, checkpoint_stride_ok, work_ok, frame_ok, is_idle, gate};
ghost use Rattle.frame.specs.Lent.{Sized, within};
ghost use Rattle.frame.specs.Ids.{id_alone};

use model::{Geometry, Place, Refusal, State, Work};

/// How many front blocks there are.
const FRONT: u8 = Geometry::FRONT_BLOCKS as u8;

/// Pages that a place has room for.
const PAGES: u8 = Place::PAGES as u8;

/// Whether each number is at least lo and below hi.
fn numbers_ok(list: &[u16], lo: u16, hi: u16) -> bool
    ensures { result ≡ all (within lo hi) list.now }
{
    list.iter().all(|&k| lo <= k && k < hi)
}

/// Whether each logical page number is in range.
fn lpns_ok(lpns: &[u16], logical: u16) -> bool
    ensures { result ≡ all (λ (l : ℕ). ltb l logical) lpns.now }
{
    numbers_ok(lpns, 0, logical)
}

/// Whether each page number is of a data block.
fn ppns_ok(g: Geometry, ppns: &[u16]) -> bool
    requires { geometry_ok g ≡ true }
    ensures { result ≡ all (data_page g) ppns.now }
{
    numbers_ok(ppns, Geometry::FRONT_BLOCKS * g.pages, g.blocks * g.pages)
}

/// The pages that a place may have: on two planes, those that a change may be written up to.
#[tactic(auto, unfolding(model::specs::Frame::most_pages))]
fn most_pages(g: Geometry) -> u8
    ensures { (result ≡ most_pages g) × (result ≤ 64) }
{
    if g.planes == 2 {
        State::LONGEST_CHANGE
    } else {
        PAGES
    }
}

/// Whether a place is in range.
#[tactic(auto, unfolding(model::specs::Frame::place_ok, model::specs::Frame::bad_id, model::specs::Lists::all))]
fn place_ok(g: Geometry, p: &Place) -> bool
    requires { geometry_ok g ≡ true }
    ensures { result ≡ place_ok g p.now }
{
    let n = p.count as usize;
    p.count <= most_pages(g)
        && p.id != State::NO_NUMBER
        && (n == 0 || p.id != 0 && lpns_ok(&p.lpns[..n], g.logical) && ppns_ok(g, &p.ppns[..n - 1]))
}

/// Whether no later place has the identifier of place i, or that is free.
#[tactic(auto, unfolding(crate::specs::Ids::id_alone))]
fn is_alone(ids: &[u32; State::PLACES], i: usize) -> bool
    requires { i < 8 }
    ensures { result ≡ id_alone (get_or ids.now i 0) (drop (i + 1) ids.now) }
{
    ids[i] == 0 || !ids[i + 1..].contains(&ids[i])
}

/// Whether the places are in range, and no two share an identifier.
fn places_ok(g: Geometry, ps: &[Place; State::PLACES]) -> bool
    requires { geometry_ok g ≡ true }
    ensures { result ≡ places_ok g ps.now }
{
    let ids = places::ids_of(ps);
    for (i, p) in ps.iter().enumerate() {
        if !place_ok(g, p) || !is_alone(&ids, i) {
            return false;
        }
    }
    true
}

/// Whether a format's stride number is in range and its next front page erased.
#[tactic(auto, unfolding(model::specs::Frame::format_stride_ok))]
pub fn format_stride_ok(g: Geometry, array: &[u8], k: u16) -> bool
    requires { Sized g array.now }
    ensures { result ≡ format_stride_ok g array.now k }
{
    let n = k as usize;
    let blocks = g.blocks as usize;
    1 <= n
        && n <= blocks + ranges::map_pages(g)
        && (n < blocks || flash::is_blank(array, n - blocks))
}

/// Whether a checkpoint's stride number is in range and its next front page erased.
#[tactic(auto, unfolding(model::specs::Frame::checkpoint_stride_ok))]
fn checkpoint_stride_ok(g: Geometry, array: &[u8], front: u8, first: u8, k: u16) -> bool
    requires { Sized g array.now × (front < 2) }
    ensures { result ≡ checkpoint_stride_ok g array.now front first k }
{
    let m = ranges::map_pages(g);
    let pages = g.pages as usize;
    let n = k as usize;
    let q = first as usize;
    n <= m
        && q + m < pages
        && (n != 0 || q == 0)
        && flash::is_blank(array, front as usize * pages + (q + n))
}

/// Whether the work under way, its first page and its next front page are in range.
#[tactic(auto, unfolding(model::specs::Frame::work_ok))]
fn work_ok(s: &State, array: &[u8]) -> bool
    requires { Sized s.now.geometry array.now × (s.now.front < 2) }
    ensures { result ≡ work_ok s.now array.now s.now.work }
{
    let g = s.geometry;
    match s.work {
        Work::Idle | Work::Reclaim => s.first == 0,
        Work::Format(k) => s.first == 0 && format_stride_ok(g, array, k),
        Work::Checkpoint(k) => checkpoint_stride_ok(g, array, s.front, s.first, k),
    }
}

/// Whether a state and the buffers lent beside it are in range.
#[tactic(auto, unfolding(model::specs::Frame::frame_ok, model::specs::Frame::lent_ok))]
pub fn frame_ok(s: &State, array: &[u8], map: &[u16], hold: &[u8]) -> bool
    ensures { result ≡ frame_ok (record { array = array.now; map = map.now; hold = hold.now; state = s.now }) }
{
    let g = s.geometry;
    ranges::lent_ok(g, array, map, hold)
        && ranges::map_ok(g, map)
        && ranges::zones_ok(g, s.zones)
        && places_ok(g, &s.places)
        && s.front < FRONT
        && work_ok(s, array)
}

/// Whether no work is under way.
pub fn is_idle(work: Work) -> bool
    ensures { result ≡ is_idle work }
{
    work == Work::Idle
}

/// What refuses on such a world, 1 or 17; `own`: nothing is under way but the command's own work, or the command is read.
#[tactic(auto, unfolding(model::specs::Frame::gate, model::specs::Order::first_number))]
pub fn gate(own: bool, s: &State, array: &[u8], map: &[u16], hold: &[u8]) -> Result<(), Refusal>
    ensures { refusal_of result ≡ gate own (record { array = array.now; map = map.now; hold = hold.now; state = s.now }) }
{
    if !frame_ok(s, array, map, hold) {
        return Err(Refusal::BadFrame);
    }
    if !own && !is_idle(s.work) {
        return Err(Refusal::Busy);
    }
    Ok(())
}
