// Reclaim: the block that it takes, and its strides.
#![tactic(auto)]

ghost use Rattle.std.specs.Prelude.{◌≡◌, true, ◌&&◌, ◌-◌, ◌/◌, ◌≤◌, ◌<◌, length, eqb, leb, ltb, IfOk};
ghost use Rattle.model.specs.Lists.{find};
ghost use Rattle.model.specs.Geometry.{data_block};
ghost use Rattle.model.specs.Zones.{checkpointed};
ghost use Rattle.zones.specs.Judging.{Ready};
ghost use Rattle.model.specs.Answers.{number};
ghost use Rattle.model.specs.Checkpoint.{nothing, at};
ghost use Rattle.model.specs.Order.{first_number};
ghost use Rattle.model.specs.Transactions.{with_version, with_last};
ghost use Rattle.model.specs.Strides.{with_work, mapped_in, pick_from, picked, lowest_from, is_reclaim, copy_stride, free_stride, reclaim_stride};
ghost use Rattle.model.specs.declared.Work.TheVariants.{Reclaim};
ghost use Rattle.answers.specs.Refusals.{refusal_of};
ghost use Rattle.checkpoint.specs.Found.{found_of};
ghost use Rattle.strides.specs.Strode.{Strode, Fit};
ghost use Rattle.reclaim.specs.Copies.{looked, copies_checks, own_checks, Taken, Going, Counts, InTable, with_listed, Pickable, Copying};

use model::{Answer, Geometry, Refusal, Spare, State, Work};
use strides::Stride;

/// The first data block.
const FIRST: usize = Geometry::FRONT_BLOCKS as usize;

/// What stands for a listed block among the counts: no block has as many mapped pages.
const LISTED: u16 = 0xFFFF;

/// The block that a reclaim takes, with the copies due from it.
#[derive(Clone, Copy)]
pub struct Due {
    pub block: usize,
    pub copies: usize,
}

/// Whether the work under way is a reclaim.
pub fn is_reclaim(work: Work) -> bool
    ensures { result ≡ is_reclaim work }
{
    matches!(work, Work::Reclaim)
}

/// Whether an entry is a page from page lo on and below hi.
fn in_range(e: u16, lo: usize, hi: usize) -> bool
    ensures { result ≡ (leb lo e && ltb e hi) }
{
    (lo..hi).contains(&(e as usize))
}

/// The mapped pages of block b.
fn mapped_in(map: &[u16], pages: usize, b: usize) -> usize
    requires { (length map.now ≤ 1024) × ((pages ≤ 64) × (b < 128)) }
    ensures { result ≡ mapped_in map.now pages b }
{
    let lo = b * pages;
    let hi = lo + pages;
    let mut n: usize = 0;
    // not `filter(..).count()`, which takes the entries one by one
    for e in map {
        if in_range(*e, lo, hi) {
            n += 1;
        }
    }
    n
}

/// The mapped pages of each block.
fn mapped(map: &[u16], pages: u16) -> [u16; 128]
    requires { (length map.now ≤ 1024) × (0 < pages) }
    ensures { Counts map.now pages result }
{
    let mut counts = [0u16; 128];
    for e in map {
        let b = (*e / pages) as usize;
        if b < 128 {
            counts[b] += 1;
        }
    }
    counts
}

/// The counts with LISTED for each block that is listed.
fn with_listed(counts: [u16; 128], listed: &[u8]) -> [u16; 128]
    requires { InTable listed.now }
    ensures { result ≡ with_listed listed.now counts }
{
    let mut table = counts;
    for b in listed {
        table[*b as usize] = LISTED;
    }
    table
}

/// The checkpointed block with fewest mapped pages, the lowest of them.
pub fn picked(s: State, map: &[u16]) -> Option<usize>
    requires { Pickable s map.now }
    ensures { found_of result ≡ pick_from s.zones map.now s.geometry.pages 2 (s.geometry.blocks - 2) nothing }
{
    let z = s.zones;
    let all = blocks::listed(z);
    let last = s.geometry.blocks as usize;
    let counts = with_listed(mapped(map, s.geometry.pages), all.as_slice());
    let mut least = LISTED;
    let mut best: Option<usize> = None;
    for b in FIRST..last {
        if counts[b] < least {
            least = counts[b];
            best = Some(b);
        }
    }
    best
}

/// The lowest mapped page from page lo on and below hi, or hi.
fn lowest_from(map: &[u16], lo: usize, hi: usize) -> usize
    requires { lo ≤ hi }
    ensures { result ≡ lowest_from map.now lo (hi - lo) }
{
    let mut least = hi;
    for e in map {
        if in_range(*e, lo, least) {
            least = *e as usize;
        }
    }
    least
}

/// The first logical page that is mapped to page j, or the map's length.
fn find_page(map: &[u16], j: u16) -> usize
    ensures { result ≡ find (eqb j) map.now }
{
    map.iter().position(|e| *e == j).unwrap_or(map.len())
}

/// The state when a page was copied to page k with version v. The planes are asked for here already: then one plane costs one copy.
fn with_copied(s: State, v: u32, k: usize) -> State
    requires { 0 < s.geometry.pages }
    ensures { result ≡ with_work (with_version (with_last s (k / s.geometry.pages)) v) s.front s.first Reclaim }
{
    if s.geometry.planes != 2 {
        let t = places::with_version(s, v);
        return places::with_work(t, s.front, s.first, Work::Reclaim);
    }
    let t = change::with_page(s, v, k);
    places::with_work(t, s.front, s.first, Work::Reclaim)
}

/// Copies page j as a lone write.
fn copy_stride(s: State, array: &mut [u8], map: &mut [u16], j: usize) -> Stride
    requires { Copying s array.old map.old j }
    ensures { Strode (copy_stride j) s array.old map.old (number result.answer) array.new map.new result.state }
{
    let lpn = find_page(map, j as u16);
    let k = change::next_page(s, array);
    let from = j * Spare::PAGE;
    let mut d = [0u8; Spare::DATA];
    d.copy_from_slice(&array[from..from + Spare::DATA]);
    let v = s.version + 1;
    change::put_lone(array, map, k, lpn as u16, v, &d);
    Stride {
        answer: Answer::More,
        state: with_copied(s, v, k),
    }
}

/// Erases block b, which is then free.
fn free_stride(s: State, array: &mut [u8], map: &[u16], b: usize) -> Stride
    requires { Fit s array.old map.now × ((data_block s.geometry b ≡ true) × (checkpointed s.zones b ≡ true)) }
    ensures { Strode (free_stride b) s array.old map.now (number result.answer) array.new map.now result.state }
{
    flash::erase_block(array, s.geometry.pages as usize, b);
    let z = s.zones;
    let t = places::with_work(s, s.front, s.first, Work::Idle);
    let t2 = places::with_zones(t, refill::freed(z, b as u8));
    Stride {
        answer: Answer::Done,
        state: t2,
    }
}

/// Whether the copies due find numbers and room: 13, 16.
fn copies_refusal(s: State, array: &[u8], due: usize) -> Result<(), Refusal>
    requires { Ready s.geometry array.now s.zones × (due ≤ 64) }
    ensures { refusal_of result ≡ first_number (copies_checks s array.now due) }
{
    if due == 0 {
        return Ok(());
    }
    if s.version as usize + due > State::LAST_NUMBER as usize {
        return Err(Refusal::VersionsSpent);
    }
    let z = s.zones;
    let available = &z.available[..z.na as usize];
    if flash::clean_short(array, s.geometry.pages as usize, available, due) {
        return Err(Refusal::ReserveShort);
    }
    Ok(())
}

/// What refuses a reclaim of block b, which is picked, 15, 13, 16, or that block with its copies.
fn block_refusal(s: State, array: &[u8], map: &[u16], b: usize) -> Result<Due, Refusal>
    requires { Fit s array.now map.now × (picked (looked s array.now map.now) ≡ at b) }
    ensures refusal { refusal_of result ≡ first_number (own_checks (looked s array.now map.now)) }
    ensures taken { IfOk result (λ d. Taken (looked s array.now map.now) d.block d.copies) }
{
    let pages = s.geometry.pages as usize;
    let copies = mapped_in(map, pages, b);
    if copies >= pages {
        return Err(Refusal::NoGain);
    }
    copies_refusal(s, array, copies)?;
    Ok(Due { block: b, copies })
}

/// What refuses a reclaim, 15, 13, 16, or the block that it takes with the copies due from it.
pub fn refusal(s: State, array: &[u8], map: &[u16]) -> Result<Due, Refusal>
    requires { Fit s array.now map.now }
    ensures refusal { refusal_of result ≡ first_number (own_checks (looked s array.now map.now)) }
    ensures taken { IfOk result (λ d. Taken (looked s array.now map.now) d.block d.copies) }
{
    let Some(b) = picked(s, map) else {
        return Err(Refusal::NoGain);
    };
    block_refusal(s, array, map, b)
}

/// A stride on block b, which is taken: a copy while any is due.
pub fn reclaim_stride(
    s: State,
    array: &mut [u8],
    map: &mut [u16],
    b: usize,
    copies: usize,
) -> Stride
    requires { Fit s array.old map.old × Going s array.old map.old b copies }
    ensures { Strode reclaim_stride s array.old map.old (number result.answer) array.new map.new result.state }
{
    if copies == 0 {
        return free_stride(s, array, map, b);
    }
    let pages = s.geometry.pages as usize;
    let j = lowest_from(map, b * pages, b * pages + pages);
    copy_stride(s, array, map, j)
}
