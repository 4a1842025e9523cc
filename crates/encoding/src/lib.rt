// A state as 2,881 bytes, for callers in C or Rust, and back. Numbers are little-endian, and nothing is left between them.
// 0 blocks (2 bytes), 2 pages (2), 4 logical pages (2), 6 planes (2); 8 the 3 available blocks, 11 their count, 12 the 126 unavailable ones,
// 138 their count, 139 the 126 free ones, 265 their count, 266 the pointer; 267 last version (4), 271 checkpoint number (4), 275 front block,
// 276 first page, 277 the kind of the work under way (0 none, 1 format, 2 checkpoint, 3 reclaim), 278 its stride number (2), 280 the plane of
// the last data block page (0 neither, 1 even, 2 odd); from 281 on 8 places of 325 bytes, each its identifier (4), its count, 64 logical pages
// (2 each), 64 pages (2 each) and 64 drops (1 each): whether the page drops its logical page, 0 or 1.
// Bytes encode a state if they are so many, kind and last plane are of these, the stride number of a kind that has none is 0, and every drop
// is 0 or 1.
#![tactic(auto)]

ghost use Rattle.std.specs.Prelude.{◌≡◌, ◌+◌, ◌*◌, ◌≤◌, ◌<◌, length};
ghost use Rattle.model.specs.Lists.{part};
ghost use Rattle.model.specs.Bytes.{bytes16, bytes32, words};
ghost use Rattle.encoding.specs.Encoding.{zones_from, work_from, plane_from, drops_from, place_from, places_in, state_from, work_coded, drops_coded, places_coded, encodes, each, geometry_bytes, zone_bytes, kind_of, stride_of, plane_byte, drop_bytes, place_bytes, bytes_of, Laid};

use model::{Geometry, Place, Plane, State, Work, Zones};

/// The bytes of a state.
pub const STATE: usize = 2881;

/// Where the kind of the work under way stands, its stride number and the last plane.
const KIND: usize = 277;

const STRIDE: usize = 278;

const LAST: usize = 280;

/// Where the places begin, and the bytes of each.
const PLACES: usize = 281;

const PLACE: usize = 325;

/// Where the drops of a place begin within it.
const DROPS: usize = 261;

/// Whether a kind of work and a stride number go together.
#[tactic(auto, unfolding(crate::specs::Encoding::work_coded))]
fn work_coded(kind: u8, stride: u16) -> bool
    ensures { result ≡ work_coded kind stride }
{
    match kind {
        1 | 2 => true,
        0 | 3 => stride == 0,
        _ => false,
    }
}

/// Whether each of the 64 bytes from `at` on is 0 or 1. The fold looks at all of them, so many bytes are taken at once.
fn drops_coded(from: &[u8], at: usize) -> bool
    requires { at + 64 ≤ length from.now }
    ensures { result ≡ drops_coded (part at 64 from.now) }
{
    from[at..at + Place::PAGES]
        .iter()
        .fold(true, |coded, x| coded & (*x < 2))
}

/// Whether every drop is 0 or 1, of all places.
// of a slice, here and below, with its length in the clause and not in its type: so C lends the bytes
fn places_coded(from: &[u8]) -> bool
    requires { length from.now ≡ 2881 }
    ensures { result ≡ places_coded from.now 8 }
{
    let mut coded = true;
    for place in 0..State::PLACES {
        coded &= drops_coded(from, PLACES + PLACE * place + DROPS);
    }
    coded
}

/// Whether the bytes encode a state.
pub fn encodes(from: &[u8]) -> bool
    ensures { result ≡ encodes from.now }
{
    from.len() == STATE
        && work_coded(from[KIND], page::word16(from, STRIDE))
        && from[LAST] <= 2
        && places_coded(from)
}

/// The N bytes from `at` on.
fn load_bytes<const N: usize>(from: &[u8], at: usize) -> [u8; N]
    requires { at + N ≤ length from.now }
    ensures { result ≡ part at N from.now }
{
    let mut list = [0u8; N];
    list.copy_from_slice(&from[at..at + N]);
    list
}

/// The N numbers of 2 bytes from `at` on.
fn load_halves<const N: usize>(from: &[u8], at: usize) -> [u16; N]
    requires { at + 2 * N ≤ length from.now }
    ensures { result ≡ words (part at (2 * N) from.now) }
{
    let mut list = [0u16; N];
    page::words16(from, at, &mut list);
    list
}

/// The drops from `at` on.
fn load_drops(from: &[u8], at: usize) -> [bool; Place::PAGES]
    requires { at + 64 ≤ length from.now }
    ensures { result ≡ drops_from (part at 64 from.now) }
{
    // a loop: by an array's `map` a load takes six times as long
    let mut drops = [false; Place::PAGES];
    for (i, drop) in drops.iter_mut().enumerate() {
        *drop = from[at + i] == 1;
    }
    drops
}

/// The zones among the bytes.
fn load_zones(from: &[u8]) -> Zones
    requires { length from.now ≡ 2881 }
    ensures { result ≡ zones_from from.now }
{
    Zones {
        available: load_bytes(from, 8),
        na: from[11],
        unavailable: load_bytes(from, 12),
        nu: from[138],
        free: load_bytes(from, 139),
        nf: from[265],
        pointer: from[266],
    }
}

/// The work of a kind and a stride number.
#[tactic(auto, unfolding(crate::specs::Encoding::work_from))]
fn load_work(kind: u8, stride: u16) -> Work
    ensures { result ≡ work_from kind stride }
{
    match kind {
        1 => Work::Format(stride),
        2 => Work::Checkpoint(stride),
        3 => Work::Reclaim,
        _ => Work::Idle,
    }
}

/// The plane that a byte says.
#[tactic(auto, unfolding(crate::specs::Encoding::plane_from))]
fn load_plane(byte: u8) -> Plane
    ensures { result ≡ plane_from byte }
{
    match byte {
        1 => Plane::Even,
        2 => Plane::Odd,
        _ => Plane::Neither,
    }
}

/// Place i among the bytes.
fn load_place(from: &[u8], i: usize) -> Place
    requires { (length from.now ≡ 2881) × (i < 8) }
    ensures { result ≡ place_from from.now i }
{
    let at = PLACES + PLACE * i;
    Place {
        id: page::word32(from, at),
        count: from[at + 4],
        lpns: load_halves(from, at + 5),
        ppns: load_halves(from, at + 133),
        drops: load_drops(from, at + DROPS),
    }
}

/// The places among the bytes.
fn load_places(from: &[u8]) -> [Place; State::PLACES]
    requires { length from.now ≡ 2881 }
    ensures { result ≡ places_in from.now 8 }
{
    // one by one: by `array::from_fn` a call's stack is 8.8 KB deeper
    [
        load_place(from, 0),
        load_place(from, 1),
        load_place(from, 2),
        load_place(from, 3),
        load_place(from, 4),
        load_place(from, 5),
        load_place(from, 6),
        load_place(from, 7),
    ]
}

/// The state that the bytes say.
pub fn load(from: &[u8]) -> State
    requires { length from.now ≡ 2881 }
    ensures { result ≡ state_from from.now }
{
    State {
        geometry: Geometry {
            blocks: page::word16(from, 0),
            pages: page::word16(from, 2),
            logical: page::word16(from, 4),
            planes: page::word16(from, 6),
        },
        zones: load_zones(from),
        version: page::word32(from, 267),
        checkpoint: page::word32(from, 271),
        front: from[275],
        first: from[276],
        work: load_work(from[KIND], page::word16(from, STRIDE)),
        last: load_plane(from[LAST]),
        places: load_places(from),
    }
}

/// Puts numbers of 2 bytes from `at` on.
fn put_halves(to: &mut [u8], at: usize, list: &[u16])
    requires { at + 2 * length list.now ≤ length to.old }
    ensures { Laid to.old at (2 * length list.now) (each bytes16 list.now) to.new }
{
    for (i, x) in list.iter().enumerate() {
        page::put16(to, at + 2 * i, *x);
    }
}

/// Puts drops from `at` on.
fn put_drops(to: &mut [u8], at: usize, list: &[bool])
    requires { at + length list.now ≤ length to.old }
    ensures { Laid to.old at (length list.now) (drop_bytes list.now) to.new }
{
    for (i, drop) in list.iter().enumerate() {
        to[at + i] = u8::from(*drop);
    }
}

/// Puts the geometry among the bytes.
fn put_geometry(to: &mut [u8], g: Geometry)
    requires { length to.old ≡ 2881 }
    ensures { Laid to.old 0 8 (geometry_bytes g) to.new }
{
    page::put16(to, 0, g.blocks);
    page::put16(to, 2, g.pages);
    page::put16(to, 4, g.logical);
    page::put16(to, 6, g.planes);
}

/// Puts the zones among the bytes.
fn put_zones(to: &mut [u8], z: &Zones)
    requires { length to.old ≡ 2881 }
    ensures { Laid to.old 8 259 (zone_bytes z.now) to.new }
{
    to[8..11].copy_from_slice(&z.available);
    to[11] = z.na;
    to[12..138].copy_from_slice(&z.unavailable);
    to[138] = z.nu;
    to[139..265].copy_from_slice(&z.free);
    to[265] = z.nf;
    to[266] = z.pointer;
}

/// The kind of a work.
fn kind_of(work: Work) -> u8
    ensures { result ≡ kind_of work }
{
    match work {
        Work::Idle => 0,
        Work::Format(_) => 1,
        Work::Checkpoint(_) => 2,
        Work::Reclaim => 3,
    }
}

/// The stride number of a work.
fn stride_of(work: Work) -> u16
    ensures { result ≡ stride_of work }
{
    match work {
        Work::Format(k) | Work::Checkpoint(k) => k,
        Work::Idle | Work::Reclaim => 0,
    }
}

/// The byte of a plane.
// by match, as `kind_of`: the numbers are of the bytes, and the types do not know them
fn plane_byte(plane: Plane) -> u8
    ensures { result ≡ plane_byte plane }
{
    match plane {
        Plane::Neither => 0,
        Plane::Even => 1,
        Plane::Odd => 2,
    }
}

/// Puts place i among the bytes.
fn put_place(to: &mut [u8], i: usize, p: &Place)
    requires { (length to.old ≡ 2881) × (i < 8) }
    ensures { Laid to.old (281 + 325 * i) 325 (place_bytes p.now) to.new }
{
    let at = PLACES + PLACE * i;
    page::put32(to, at, p.id);
    to[at + 4] = p.count;
    put_halves(to, at + 5, &p.lpns);
    put_halves(to, at + 133, &p.ppns);
    put_drops(to, at + DROPS, &p.drops);
}

/// Puts the places among the bytes.
fn put_places(to: &mut [u8], places: &[Place; State::PLACES])
    requires { length to.old ≡ 2881 }
    ensures { Laid to.old 281 2600 (each place_bytes places.now) to.new }
{
    for (i, p) in places.iter().enumerate() {
        put_place(to, i, p);
    }
}

/// Puts a state as bytes.
pub fn store(to: &mut [u8], s: &State)
    requires { length to.old ≡ 2881 }
    ensures { to.new ≡ bytes_of s.now }
{
    put_geometry(to, s.geometry);
    put_zones(to, &s.zones);
    page::put32(to, 267, s.version);
    page::put32(to, 271, s.checkpoint);
    to[275] = s.front;
    to[276] = s.first;
    to[KIND] = kind_of(s.work);
    page::put16(to, STRIDE, stride_of(s.work));
    to[LAST] = plane_byte(s.last);
    put_places(to, &s.places);
}
