// Format: how far it is, and its strides. Each does one program or erase; what a stride returns is its answer and the state.
#![tactic(auto)]

ghost use Rattle.std.specs.Prelude.{◌≡◌, List, ℕ, ◌+◌, ◌<◌, length, replicate};
ghost use Rattle.model.specs.Answers.{number};
ghost use Rattle.model.specs.Geometry.{map_pages};
ghost use Rattle.model.specs.Frame.{fresh_state};
ghost use Rattle.model.specs.Strides.{with_work, strides_done, format_work_ok, format_stride};
ghost use Rattle.model.specs.declared.Work.TheVariants.{Format};
ghost use Rattle.frame.specs.Lent.{Sized};
ghost use Rattle.format.specs.Format.{Formattable, Formats};

use model::{Answer, Geometry, Map, State, Work};
use strides::Stride;

/// The strides that a format of geometry g has done.
#[tactic(auto, unfolding(model::specs::Strides::strides_done, model::specs::Geometry::same_geometry))]
pub fn strides_done(g: Geometry, s: State, work: Work) -> u16
    ensures { result ≡ strides_done g s work }
{
    match work {
        Work::Format(k) if g == s.geometry => k,
        _ => 0,
    }
}

/// Whether a format's own work under way is in range, whatever map and hold are.
#[tactic(auto, unfolding(model::specs::Strides::format_work_ok, model::specs::Geometry::same_geometry))]
pub fn work_ok(g: Geometry, s: State, array: &[u8], work: Work) -> bool
    requires { Sized g array.now }
    ensures { (map hold : List ℕ) → result ≡ format_work_ok g (record { array = array.now; map = map; hold = hold; state = s }) work }
{
    match work {
        Work::Format(k) => g != s.geometry || frame::format_stride_ok(g, array, k),
        _ => true,
    }
}

/// Makes every logical page unmapped.
fn blank_map(map: &mut [u16])
    ensures { map.new ≡ replicate (length map.old) 65535 }
{
    map.fill(Map::UNMAPPED);
}

/// The state after a stride before the last, of which k were done before it.
fn under_way(g: Geometry, k: u16) -> State
    requires { k < 65535 }
    ensures { result ≡ with_work (fresh_state g) 0 0 (Format (k + 1)) }
{
    places::with_work(State::fresh(g), 0, 0, Work::Format(k + 1))
}

/// Erases block k.
fn erase_stride(g: Geometry, array: &mut [u8], map: &mut [u16], k: u16) -> Stride
    requires { Formattable g array.old map.old k × (k < g.blocks) }
    ensures { Formats (format_stride g k) array.old map.old (number result.answer) array.new map.new result.state }
{
    flash::erase_block(array, g.pages as usize, k as usize);
    blank_map(map);
    Stride {
        answer: Answer::More,
        state: under_way(g, k),
    }
}

/// Programs map page i of checkpoint 1, after k strides.
fn map_stride(g: Geometry, array: &mut [u8], map: &mut [u16], k: u16, i: usize) -> Stride
    requires { Formattable g array.old map.old k × ((k ≡ g.blocks + i) × (i < map_pages g)) }
    ensures { Formats (format_stride g k) array.old map.old (number result.answer) array.new map.new result.state }
{
    blank_map(map);
    let d = checkpoint::map_data(map, i);
    let spare = checkpoint::map_spare(i, 1);
    flash::program_at(array, i, &d, spare);
    Stride {
        answer: Answer::More,
        state: under_way(g, k),
    }
}

/// Programs the zone page of checkpoint 1: the last stride.
fn last_stride(g: Geometry, array: &mut [u8], map: &mut [u16]) -> Stride
    requires { Formattable g array.old map.old (g.blocks + map_pages g) }
    ensures { Formats (format_stride g (g.blocks + map_pages g)) array.old map.old (number result.answer) array.new map.new result.state }
{
    blank_map(map);
    let m = ranges::map_pages(g);
    let z = refill::format_zones(g);
    let d = checkpoint::zone_data(0, z);
    let spare = checkpoint::zone_spare(m, 1);
    flash::program_at(array, m, &d, spare);
    let t = places::with_zones(State::fresh(g), z);
    let t2 = places::with_number(t, 1);
    Stride {
        answer: Answer::Done,
        state: t2,
    }
}

/// The stride of a format after k.
pub fn format_stride(g: Geometry, array: &mut [u8], map: &mut [u16], k: u16) -> Stride
    requires { Formattable g array.old map.old k }
    ensures { Formats (format_stride g k) array.old map.old (number result.answer) array.new map.new result.state }
{
    if k < g.blocks {
        return erase_stride(g, array, map, k);
    }
    let i = (k - g.blocks) as usize;
    if i < ranges::map_pages(g) {
        return map_stride(g, array, map, k, i);
    }
    last_stride(g, array, map)
}
