// Checkpoint and reclaim: what refuses them, and else a stride.
#![tactic(auto)]

ghost use Rattle.std.specs.Prelude.{◌≡◌, IfOk};
ghost use Rattle.model.specs.Answers.{number};
ghost use Rattle.model.specs.Order.{first_number};
ghost use Rattle.model.specs.Strides.{checkpoint_checks, reclaim_checks};
ghost use Rattle.model.specs.Commands.{Outcome, exec, checkpoint, reclaim};
ghost use Rattle.answers.specs.Refusals.{refusal_of};
ghost use Rattle.reclaim.specs.Copies.{Taken};

use model::{Refusal, State};
use reclaim::Due;
use strides::Stride;

/// What refuses a checkpoint: 1, 17, 13.
fn checkpoint_refusal(s: State, array: &[u8], map: &[u16], hold: &[u8]) -> Result<(), Refusal>
    ensures { refusal_of result ≡ first_number (checkpoint_checks (record { array = array.now; map = map.now; hold = hold.now; state = s })) }
{
    frame::gate(strides::is_checkpoint(s.work), &s, array, map, hold)?;
    if s.checkpoint >= State::LAST_NUMBER {
        return Err(Refusal::VersionsSpent);
    }
    Ok(())
}

/// One stride of a checkpoint.
pub fn checkpoint(s: State, array: &mut [u8], map: &[u16], hold: &[u8]) -> Stride
    ensures { ◌≡◌ {A = Outcome} (record { answer = number result.answer; world = record { array = array.new; map = map.now; hold = hold.now; state = result.state } }) (exec checkpoint (record { array = array.old; map = map.now; hold = hold.now; state = s })) }
{
    if let Err(why) = checkpoint_refusal(s, array, map, hold) {
        return strides::refused(s, why);
    }
    strides::checkpoint_stride(s, array, map, s.work)
}

/// What refuses a reclaim, 1, 17, 15, 13, 16, or the block that it takes with the copies due from it.
fn reclaim_refusal(s: State, array: &[u8], map: &[u16], hold: &[u8]) -> Result<Due, Refusal>
    ensures refusal { refusal_of result ≡ first_number (reclaim_checks (record { array = array.now; map = map.now; hold = hold.now; state = s })) }
    ensures taken { IfOk result (λ d. Taken (record { array = array.now; map = map.now; hold = hold.now; state = s }) d.block d.copies) }
{
    frame::gate(reclaim::is_reclaim(s.work), &s, array, map, hold)?;
    reclaim::refusal(s, array, map)
}

/// One stride of a reclaim.
pub fn reclaim(s: State, array: &mut [u8], map: &mut [u16], hold: &[u8]) -> Stride
    ensures { ◌≡◌ {A = Outcome} (record { answer = number result.answer; world = record { array = array.new; map = map.new; hold = hold.now; state = result.state } }) (exec reclaim (record { array = array.old; map = map.old; hold = hold.now; state = s })) }
{
    match reclaim_refusal(s, array, map, hold) {
        Ok(due) => reclaim::reclaim_stride(s, array, map, due.block, due.copies),
        Err(why) => strides::refused(s, why),
    }
}
