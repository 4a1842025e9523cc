// Format and recover, which take any state: refusal 1 for geometry and lengths, then a stride, or the recovery.
#![tactic(auto)]

ghost use Rattle.std.specs.Prelude.{◌≡◌};
ghost use Rattle.model.specs.Answers.{number};
ghost use Rattle.model.specs.Order.{first_number};
ghost use Rattle.model.specs.Strides.{format_checks};
ghost use Rattle.answers.specs.Refusals.{refusal_of};
ghost use Rattle.model.specs.Commands.{Outcome, exec, format, recover};

use model::{Geometry, Refusal, State};
use strides::Stride;

/// What refuses a format: 1, for geometry, lengths and its own work under way.
fn format_refusal(
    s: State,
    array: &[u8],
    map: &[u16],
    hold: &[u8],
    g: Geometry,
) -> Result<(), Refusal>
    ensures { refusal_of result ≡ first_number (format_checks g (record { array = array.now; map = map.now; hold = hold.now; state = s })) }
{
    if !ranges::lent_ok(g, array, map, hold) || !format::work_ok(g, s, array, s.work) {
        return Err(Refusal::BadFrame);
    }
    Ok(())
}

/// One stride of a format.
pub fn format(s: State, array: &mut [u8], map: &mut [u16], hold: &[u8], g: Geometry) -> Stride
    ensures { ◌≡◌ {A = Outcome} (record { answer = number result.answer; world = record { array = array.new; map = map.new; hold = hold.now; state = result.state } }) (exec (format g) (record { array = array.old; map = map.old; hold = hold.now; state = s })) }
{
    if let Err(why) = format_refusal(s, array, map, hold, g) {
        return strides::refused(s, why);
    }
    let k = format::strides_done(g, s, s.work);
    format::format_stride(g, array, map, k)
}

/// Makes map and state from what stands on the array: 1, for geometry and lengths; 2; 3 and 4 as the work itself finds them.
pub fn recover(s: State, array: &[u8], map: &mut [u16], hold: &[u8], g: Geometry) -> Stride
    ensures { ◌≡◌ {A = Outcome} (record { answer = number result.answer; world = record { array = array.now; map = map.new; hold = hold.now; state = result.state } }) (exec (recover g) (record { array = array.now; map = map.old; hold = hold.now; state = s })) }
{
    if !ranges::lent_ok(g, array, map, hold) {
        return strides::refused(s, Refusal::BadFrame);
    }
    match checkpoint::newest(array, ranges::map_pages(g), g.pages as usize) {
        None => strides::refused(s, Refusal::NoCheckpoint),
        Some(k) => recover::recover_from(s, array, map, g, k),
    }
}
