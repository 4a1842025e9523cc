// The places of a state and the state with one part replaced, by value.
#![tactic(auto)]

ghost use Rattle.std.specs.Prelude.{◌≡◌, ◌+◌, ◌<◌};
ghost use Rattle.model.specs.Lists.{any, find};
ghost use Rattle.model.specs.Zones.{has_id, active, plane_of};
ghost use Rattle.model.specs.Frame.{free_place, bad_id};
ghost use Rattle.model.specs.Transactions.{place_of, with_place, with_version, with_last, begun, written};
ghost use Rattle.model.specs.Strides.{with_work, with_zones, with_number};
ghost use Rattle.places.specs.Ids.{ids_of, is_id, active_in, place_at};

use model::{Place, Plane, State, Work, Zones};
use std::array;

/// Whether an identifier is 0 or 0xFFFFFFFF.
#[tactic(auto, unfolding(model::specs::Frame::bad_id))]
pub fn bad_id(id: u32) -> bool
    ensures { result ≡ bad_id id }
{
    id == 0 || id == State::NO_NUMBER
}

/// The identifiers of the places, 0 for a free one.
pub fn ids_of(places: &[Place; State::PLACES]) -> [u32; State::PLACES]
    ensures { result ≡ ids_of places.now }
{
    array::from_fn(|i| places[i].id)
}

/// Whether an identifier is among these.
pub fn among(ids: &[u32], id: u32) -> bool
    ensures { result ≡ any (is_id id) ids.now }
{
    ids.contains(&id)
}

/// The first place with an identifier.
pub fn find_id(places: &[Place; State::PLACES], id: u32) -> Option<usize>
    ensures { result ≡ place_at (find (has_id id) places.now) }
{
    places.iter().position(|p| p.id == id)
}

/// The place of an active identifier.
#[tactic(auto, unfolding(model::specs::Transactions::place_of, crate::specs::Ids::place_at))]
pub fn place_of(places: &[Place; State::PLACES], id: u32) -> Option<usize>
    ensures { result ≡ place_at (place_of places.now id) }
{
    if id == 0 {
        return None;
    }
    find_id(places, id)
}

/// Whether an identifier is active.
pub fn is_active(places: &[Place; State::PLACES], id: u32) -> bool
    ensures { result ≡ active id places.now }
{
    place_of(places, id).is_some()
}

/// Whether an identifier other than 0 is among these.
#[tactic(auto, unfolding(crate::specs::Ids::active_in))]
pub fn is_active_in(ids: [u32; State::PLACES], id: u32) -> bool
    ensures { result ≡ active_in id ids }
{
    id != 0 && among(&ids, id)
}

/// The place of a transaction that was just begun.
#[tactic(auto, unfolding(model::specs::Transactions::begun))]
pub fn begun(id: u32) -> Place
    ensures { result ≡ begun id }
{
    Place {
        id,
        ..Place::free()
    }
}

/// The place with one more page, held, the one held before being programmed on page k.
#[tactic(auto, unfolding(model::specs::Transactions::written))]
pub fn written(p: Place, k: u16, lpn: u16, drop: bool) -> Place
    requires { p.count < 64 }
    ensures { result ≡ written p k lpn drop }
{
    let n = p.count as usize;
    let mut q = Place {
        count: p.count + 1,
        ..p
    };
    q.lpns[n] = lpn;
    q.drops[n] = drop;
    if n != 0 {
        q.ppns[n - 1] = k;
    }
    q
}

/// The state with another place.
#[tactic(auto, unfolding(model::specs::Transactions::with_place))]
pub fn with_place(s: State, i: usize, p: Place) -> State
    requires { i < 8 }
    ensures { result ≡ with_place s i p }
{
    let mut t = s;
    t.places[i] = p;
    t
}

/// The state with another last version.
#[tactic(auto, unfolding(model::specs::Transactions::with_version))]
pub fn with_version(s: State, v: u32) -> State
    ensures { result ≡ with_version s v }
{
    State { version: v, ..s }
}

/// The state with another checkpoint number.
#[tactic(auto, unfolding(model::specs::Strides::with_number))]
pub fn with_number(s: State, n: u32) -> State
    ensures { result ≡ with_number s n }
{
    State { checkpoint: n, ..s }
}

/// The state with other zones.
#[tactic(auto, unfolding(model::specs::Strides::with_zones))]
pub fn with_zones(s: State, z: Zones) -> State
    ensures { result ≡ with_zones s z }
{
    State { zones: z, ..s }
}

/// The state with another front block, first page and work under way.
#[tactic(auto, unfolding(model::specs::Strides::with_work))]
pub fn with_work(s: State, front: u8, first: u8, work: Work) -> State
    ensures { result ≡ with_work s front first work }
{
    State {
        front,
        first,
        work,
        ..s
    }
}

/// The plane of a block.
#[tactic(auto, unfolding(model::specs::Zones::plane_of, model::specs::Zones::is_odd))]
fn plane_of(b: usize) -> Plane
    ensures { result ≡ plane_of b }
{
    if b % 2 == 1 { Plane::Odd } else { Plane::Even }
}

/// The state when a page of block b was the last data block page. On one plane that is the same state.
#[tactic(auto, unfolding(model::specs::Transactions::with_last))]
pub fn with_last(s: State, b: usize) -> State
    ensures { result ≡ with_last s b }
{
    if s.geometry.planes != 2 {
        return s;
    }
    State {
        last: plane_of(b),
        ..s
    }
}

/// The state with place i free again.
pub fn forgotten(s: State, i: usize) -> State
    requires { i < 8 }
    ensures { result ≡ with_place s i free_place }
{
    with_place(s, i, Place::free())
}
