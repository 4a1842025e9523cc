// The strides of a checkpoint: each does at most one program or erase.
// What a stride returns is its answer and the state; it leaves the hold alone.
#![tactic(auto)]

ghost use Rattle.std.specs.Prelude.{◌≡◌, true, ◌<◌};
ghost use Rattle.model.specs.Geometry.{map_pages};
ghost use Rattle.model.specs.Answers.{refusal_number, number};
ghost use Rattle.model.specs.World.{World};
ghost use Rattle.model.specs.Frame.{work_ok};
ghost use Rattle.model.specs.Strides.{map_stride, zone_stride, page_stride, other_stride, first_stride, is_checkpoint, checkpoint_stride};
ghost use Rattle.strides.specs.Strode.{Strode, Fit, Next};

use model::{Answer, Refusal, State, Work};

/// The answer and the state after a stride.
#[derive(Clone, Copy)]
pub struct Stride {
    pub answer: Answer,
    pub state: State,
}

/// What a refusal leaves: the state as it was.
pub fn refused(s: State, why: Refusal) -> Stride
    ensures { (number result.answer ≡ refusal_number why) × (result.state ≡ s) }
{
    Stride {
        answer: Answer::Refused(why),
        state: s,
    }
}

/// Programs map page i of the checkpoint that began on page q of the current front block.
fn map_stride(s: State, array: &mut [u8], map: &[u16], q: usize, i: usize) -> Stride
    requires { Next s array.old map.now q i × (i < map_pages s.geometry) }
    ensures { Strode (map_stride q i) s array.old map.now (number result.answer) array.new map.now result.state }
{
    let d = checkpoint::map_data(map, i);
    let spare = checkpoint::map_spare(i, s.checkpoint + 1);
    let k = s.front as usize * s.geometry.pages as usize + (q + i);
    flash::program_at(array, k, &d, spare);
    let t = places::with_work(s, s.front, q as u8, Work::Checkpoint((i + 1) as u16));
    Stride {
        answer: Answer::More,
        state: t,
    }
}

/// Programs the zone page: the last stride, in which the zones change.
fn zone_stride(s: State, array: &mut [u8], map: &[u16], q: usize, i: usize) -> Stride
    requires { Next s array.old map.now q i }
    ensures { Strode (zone_stride q i) s array.old map.now (number result.answer) array.new map.now result.state }
{
    let g = s.geometry;
    let old = s.zones;
    let z = zones::slide(g, array, s.places, old);
    let n = s.checkpoint + 1;
    let d = checkpoint::zone_data(s.version, z);
    let spare = checkpoint::zone_spare(ranges::map_pages(g), n);
    let k = s.front as usize * g.pages as usize + (q + i);
    flash::program_at(array, k, &d, spare);
    let t1 = places::with_work(s, s.front, 0, Work::Idle);
    let t2 = places::with_zones(t1, z);
    let t3 = places::with_number(t2, n);
    Stride {
        answer: Answer::Done,
        state: t3,
    }
}

/// Programs page i of the checkpoint: a map page, or behind them the zone page.
fn page_stride(s: State, array: &mut [u8], map: &[u16], q: usize, i: usize) -> Stride
    requires { Next s array.old map.now q i }
    ensures { Strode (page_stride q i) s array.old map.now (number result.answer) array.new map.now result.state }
{
    if i < ranges::map_pages(s.geometry) {
        return map_stride(s, array, map, q, i);
    }
    zone_stride(s, array, map, q, i)
}

/// Erases the other front block, which becomes current.
fn other_stride(s: State, array: &mut [u8], map: &[u16]) -> Stride
    requires { Fit s array.old map.now }
    ensures { Strode other_stride s array.old map.now (number result.answer) array.new map.now result.state }
{
    let front = 1 - s.front;
    flash::erase_block(array, s.geometry.pages as usize, front as usize);
    let t = places::with_work(s, front, 0, Work::Checkpoint(0));
    Stride {
        answer: Answer::More,
        state: t,
    }
}

/// The first stride: in the current front block if its clean pages suffice.
fn first_stride(s: State, array: &mut [u8], map: &[u16]) -> Stride
    requires { Fit s array.old map.now × (s.checkpoint < 4294967294) }
    ensures { Strode first_stride s array.old map.now (number result.answer) array.new map.now result.state }
{
    let pages = s.geometry.pages as usize;
    let used = flash::used_in(array, pages, s.front as usize);
    if pages - used < ranges::map_pages(s.geometry) + 1 {
        return other_stride(s, array, map);
    }
    page_stride(s, array, map, used, 0)
}

/// The next stride of a checkpoint, by the work under way.
pub fn checkpoint_stride(s: State, array: &mut [u8], map: &[u16], work: Work) -> Stride
    requires { Fit s array.old map.now × ((s.checkpoint < 4294967294) × (work_ok s array.old work ≡ true)) }
    ensures { Strode (λ (w : World). checkpoint_stride w work) s array.old map.now (number result.answer) array.new map.now result.state }
{
    match work {
        Work::Idle => first_stride(s, array, map),
        Work::Checkpoint(k) => page_stride(s, array, map, s.first as usize, k as usize),
        Work::Format(_) | Work::Reclaim => refused(s, Refusal::Busy),
    }
}

/// Whether the work under way is a checkpoint.
pub fn is_checkpoint(work: Work) -> bool
    ensures { result ≡ is_checkpoint work }
{
    matches!(work, Work::Checkpoint(_))
}
