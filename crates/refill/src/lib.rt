// Free blocks: taken for the available list, and given back.
#![tactic(auto)]

ghost use Rattle.std.specs.Prelude.{◌≡◌, true, ◌-◌, ◌≤◌, ◌<◌, length};
ghost use Rattle.model.specs.Lists.{up_from};
ghost use Rattle.model.specs.Geometry.{geometry_ok};
ghost use Rattle.model.specs.Zones.{free_index, past_block, take_one, refill, zones_taken, format_zones, freed};
ghost use Rattle.blocks.specs.Blocks.{Counted};
ghost use Rattle.refill.specs.Taking.{may_take, Fits, Room};

use blocks::Blocks;
use model::{Geometry, Zones};
use std::marker::Model;

/// The first data block.
const FIRST: u8 = Geometry::FRONT_BLOCKS as u8;

/// What is left of the zones when some free blocks are taken.
#[derive(Clone, Copy)]
pub struct Taken {
    pub available: Blocks,
    pub free: Blocks,
    pub pointer: u8,
}

impl Model for Taken {
    ghost use Rattle.model.specs.Zones as zones;

    ghost Value = { zones.Taken };

    ghost view = { λ t. record { available = t.available; free = t.free; pointer = t.pointer } };

    ghost inverse = { λ t. record { available = t.available; free = t.free; pointer = t.pointer } };
}

/// The index of the free block to take: the first at or after the pointer, or 0.
fn free_index(pointer: u8, free: &[u8]) -> usize
    ensures { result ≡ free_index pointer free.now }
{
    free.iter().position(|&b| pointer <= b).unwrap_or(0)
}

/// The block after b, from the last to the first data block.
fn past_block(g: Geometry, b: u8) -> u8
    requires { (geometry_ok g ≡ true) × (b < g.blocks) }
    ensures { result ≡ past_block g b }
{
    if u16::from(b) + 1 < g.blocks {
        b + 1
    } else {
        FIRST
    }
}

impl Taken {
    /// One free block goes to the end of the available list.
    fn take_one(self, g: Geometry) -> Self
        requires { Room g self }
        ensures { result ≡ take_one g self }
    {
        let i = free_index(self.pointer, self.free.as_slice());
        let b = self.free.as_slice()[i];
        Taken {
            available: self.available.with(b),
            free: self.free.without(i),
            pointer: past_block(g, b),
        }
    }

    /// The same, unless three are available or none is free.
    fn take_next(self, g: Geometry) -> Self
        requires { Fits g self }
        ensures { result ≡ may_take g self }
    {
        if self.available.as_slice().len() >= 3 || self.free.as_slice().is_empty() {
            self
        } else {
            self.take_one(g)
        }
    }

    /// Free blocks go to the end of the available list until three are available or none is free.
    pub fn refill(self, g: Geometry) -> Self
        requires { Fits g self }
        ensures { result ≡ refill g 3 self }
    {
        self.take_next(g).take_next(g).take_next(g)
    }

    /// The zones of what is left and these unavailable blocks.
    pub fn zones(self, unavailable: Blocks) -> Zones
        requires { length self.available ≤ 3 }
        ensures { result ≡ zones_taken unavailable self }
    {
        blocks::zones_of(self.available, unavailable, self.free, self.pointer)
    }
}

/// The data blocks, rising.
fn data_blocks(g: Geometry) -> Blocks
    requires { geometry_ok g ≡ true }
    ensures { result ≡ up_from 2 (g.blocks - 2) }
{
    // put in place: a list that goes from hand to hand is copied for each of its blocks
    let mut all = Blocks::none();
    for b in FIRST..g.blocks as u8 {
        all.push(b);
    }
    all
}

/// The zones of a format: all data blocks free, then three taken.
pub fn format_zones(g: Geometry) -> Zones
    requires { geometry_ok g ≡ true }
    ensures { result ≡ format_zones g }
{
    let all = Taken {
        available: Blocks::none(),
        free: data_blocks(g),
        pointer: FIRST,
    };
    all.refill(g).zones(Blocks::none())
}

/// The zones with block b free.
pub fn freed(z: Zones, b: u8) -> Zones
    requires { Counted z × (z.nf < 126) }
    ensures { result ≡ freed z b }
{
    blocks::zones_of(
        blocks::available(z),
        blocks::unavailable(z),
        blocks::free(z).insert(b),
        z.pointer,
    )
}
