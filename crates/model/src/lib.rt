// Document 01 (docs/PAPERS.md) as types and definitions: what a reader must believe. The types stand here, the definitions in specs/.
// Everything is plain data by value; it assumes nothing.
#![tactic(auto)]

ghost use Rattle.std.specs.Prelude.{◌≡◌};
ghost use Rattle.model.specs.Geometry.{leads};
ghost use Rattle.model.specs.Frame.{free_place, fresh_state};
ghost use Rattle.model.specs.Zones.{no_zones};

/// The shape of a device: blocks, pages a block, logical pages, planes.
#[derive(Clone, Copy, PartialEq, Eq)]
pub struct Geometry {
    pub blocks: u16,
    pub pages: u16,
    pub logical: u16,
    pub planes: u16,
}

impl Geometry {
    pub const MIN_BLOCKS: u16 = 8;

    pub const MAX_BLOCKS: u16 = 128;

    pub const MIN_PAGES: u16 = 8;

    pub const MAX_PAGES: u16 = 64;

    pub const MAX_LOGICAL: u16 = 1024;

    /// Blocks that the logical pages leave over: the front and four more.
    pub const SPARE_BLOCKS: u16 = 6;

    /// The front is blocks 0 and 1; the data blocks follow.
    pub const FRONT_BLOCKS: u16 = 2;
}

/// The map is a lent slice with one number for each logical page: its page number, or `UNMAPPED`.
#[derive(Clone, Copy)]
pub struct Map;

impl Map {
    pub const UNMAPPED: u16 = 0xFFFF;

    /// Entries on one map page of a checkpoint.
    pub const ENTRIES_A_PAGE: usize = 256;

    /// The entry of a logical page whose newest page is k: none where that page drops it.
    pub fn leads(drop: bool, k: u16) -> u16
        ensures { result ≡ leads drop k }
    {
        if drop {
            return Map::UNMAPPED;
        }
        k
    }
}

/// The spare area of a page before Zeros: LPN, TxCnt, TxID, TxVer, Kind, Reserved.
/// TxCnt is 0, or on a mark the number of all pages of its transaction; TxVer is 0 wherever TxCnt is, on data pages.
#[derive(Clone, Copy, PartialEq, Eq)]
pub struct Spare {
    pub lpn: u16,
    pub cnt: u16,
    pub id: u32,
    pub ver: u32,
    pub kind: u8,
    pub reserved: u8,
}

/// Offsets within the page of 528 bytes: document 01's spare offsets after 512 bytes of data.
impl Spare {
    /// The bytes of data before the spare area.
    pub const DATA: usize = 512;

    pub const LPN: usize = 512;

    pub const CNT: usize = 514;

    pub const ID: usize = 516;

    pub const VER: usize = 520;

    pub const KIND: usize = 524;

    pub const RESERVED: usize = 525;

    /// The number of zero bits in the bytes before it.
    pub const ZEROS: usize = 526;

    pub const PAGE: usize = 528;

    pub const DATA_KIND: u8 = 0;

    pub const MAP_KIND: u8 = 1;

    pub const ZONE_KIND: u8 = 2;

    /// A page that drops its logical page.
    pub const DROP_KIND: u8 = 3;
}

/// Erased: all 528 bytes 0xFF. Whole: otherwise, and Zeros agrees. Torn: neither; it belongs to nobody, and Zeros minus the zero bits counted
/// says how torn it is.
#[derive(Clone, Copy, PartialEq, Eq)]
pub enum Class {
    Erased,
    Whole,
    Torn(i32),
}

/// A transaction place: `count` pages written, the last of them held, those before it programmed on `ppns`; `drops` says which of them drop
/// their logical page. Free: identifier 0 and count 0.
#[derive(Clone, Copy)]
pub struct Place {
    pub id: u32,
    pub count: u8,
    pub lpns: [u16; 64],
    pub ppns: [u16; 64],
    pub drops: [bool; 64],
}

/// The zone lists, of which the first `na`, `nu` and `nf` numbers count; every other data block is checkpointed.
/// The free ones ascend; the pointer says from where the next free block is taken.
#[derive(Clone, Copy)]
pub struct Zones {
    pub available: [u8; 3],
    pub na: u8,
    pub unavailable: [u8; 126],
    pub nu: u8,
    pub free: [u8; 126],
    pub nf: u8,
    pub pointer: u8,
}

/// The plane of the last data block page on a device of two planes; neither after format and recover.
#[derive(Clone, Copy, PartialEq, Eq)]
pub enum Plane {
    Neither,
    Even,
    Odd,
}

/// The work under way. Format: strides done. Checkpoint: pages programmed. Reclaim picks anew at each stride.
#[derive(Clone, Copy, PartialEq, Eq)]
pub enum Work {
    Idle,
    Format(u16),
    Checkpoint(u16),
    Reclaim,
}

/// What goes into a command and comes back: `front` is the current front block, `first` the page within it
/// at which a checkpoint under way began, else 0.
#[derive(Clone, Copy)]
pub struct State {
    pub geometry: Geometry,
    pub zones: Zones,
    pub version: u32,
    pub checkpoint: u32,
    pub front: u8,
    pub first: u8,
    pub work: Work,
    pub last: Plane,
    pub places: [Place; 8],
}

/// The refusals, by the trade's word for each, with their numbers in the table.
#[derive(Clone, Copy, PartialEq, Eq)]
pub enum Refusal {
    BadFrame = 1,
    NoCheckpoint = 2,
    BadCheckpoint = 3,
    BadPage = 4,
    BadLogicalPage = 5,
    BadIdentifier = 6,
    IdentifierLive = 7,
    NotBegun = 8,
    PlacesFull = 9,
    TooLong = 10,
    BadLength = 11,
    ZoneShort = 12,
    VersionsSpent = 13,
    NeverWritten = 14,
    NoGain = 15,
    ReserveShort = 16,
    Busy = 17,
}

#[derive(Clone, Copy, PartialEq, Eq)]
pub enum Answer {
    Done,
    More,
    Refused(Refusal),
}

impl Place {
    /// Pages that a place has room for.
    pub const PAGES: usize = 64;

    pub fn free() -> Place
        ensures { result ≡ free_place }
    {
        Place {
            id: 0,
            count: 0,
            lpns: [0u16; Place::PAGES],
            ppns: [0u16; Place::PAGES],
            drops: [false; Place::PAGES],
        }
    }
}

impl Zones {
    /// No list has a block; the pointer is at the first data block.
    pub fn empty() -> Zones
        ensures { result ≡ no_zones }
    {
        Zones {
            available: [0u8; 3],
            na: 0,
            unavailable: [0u8; 126],
            nu: 0,
            free: [0u8; 126],
            nf: 0,
            pointer: 2,
        }
    }
}

impl State {
    pub const PLACES: usize = 8;

    /// The hold has room for one page of data for each place.
    pub const HOLD: usize = 4096;

    /// The pages up to which a change may be written. A place has room for more: a change that has more can still be committed.
    pub const LONGEST_CHANGE: u8 = 41;

    /// The highest version and checkpoint number.
    pub const LAST_NUMBER: u32 = 0xFFFF_FFFE;

    /// No identifier and no version.
    pub const NO_NUMBER: u32 = 0xFFFF_FFFF;

    /// The state that format and recover start from.
    pub fn fresh(g: Geometry) -> State
        ensures { result ≡ fresh_state g }
    {
        let z = Zones::empty();
        let p = Place::free();
        let ps = [p; State::PLACES];
        State {
            geometry: g,
            zones: z,
            version: 0,
            checkpoint: 0,
            front: 0,
            first: 0,
            work: Work::Idle,
            last: Plane::Neither,
            places: ps,
        }
    }
}
