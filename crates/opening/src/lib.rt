// A change opened and forgotten: a place taken, and given back. Nothing is programmed.
#![tactic(auto)]

ghost use Rattle.std.specs.Prelude.{◌≡◌, ◌||◌, ◌<◌, IfOk};
ghost use Rattle.model.specs.Lists.{find};
ghost use Rattle.model.specs.Zones.{active, has_id, on_pages, scan_of};
ghost use Rattle.model.specs.Answers.{number};
ghost use Rattle.model.specs.Order.{first_number};
ghost use Rattle.model.specs.Transactions.{place_of, begin_checks, abort_checks};
ghost use Rattle.model.specs.Commands.{Outcome, exec, begin, abort};
ghost use Rattle.answers.specs.Refusals.{refusal_of};
ghost use Rattle.zones.specs.Judging.{Ready};

use model::{Answer, Refusal, State};
use strides::Stride;

/// Whether an identifier is active, or on a whole page in scan order.
fn is_live(s: State, array: &[u8], id: u32) -> bool
    requires { Ready s.geometry array.now s.zones }
    ensures { result ≡ (active id s.places || on_pages id (scan_of array.now s.geometry.pages s.zones)) }
{
    places::is_active(&s.places, id) || zones::id_scanned(s.geometry, array, s.zones, id)
}

/// What refuses a begin, 1, 17, 6, 7, 9, or the place that it takes.
fn begin_refusal(
    s: State,
    array: &[u8],
    map: &[u16],
    hold: &[u8],
    id: u32,
) -> Result<usize, Refusal>
    ensures refusal { refusal_of result ≡ first_number (begin_checks id (record { array = array.now; map = map.now; hold = hold.now; state = s })) }
    ensures place { IfOk result (λ i. (i ≡ find (has_id 0) s.places) × (i < 8)) }
{
    frame::gate(false, &s, array, map, hold)?;
    if places::bad_id(id) {
        return Err(Refusal::BadIdentifier);
    }
    if is_live(s, array, id) {
        return Err(Refusal::IdentifierLive);
    }
    places::find_id(&s.places, 0).ok_or(Refusal::PlacesFull)
}

/// Opens a change.
pub fn begin(s: State, array: &[u8], map: &[u16], hold: &[u8], id: u32) -> Stride
    ensures { ◌≡◌ {A = Outcome} (record { answer = number result.answer; world = record { array = array.now; map = map.now; hold = hold.now; state = result.state } }) (exec (begin id) (record { array = array.now; map = map.now; hold = hold.now; state = s })) }
{
    match begin_refusal(s, array, map, hold, id) {
        Ok(i) => Stride {
            answer: Answer::Done,
            state: places::with_place(s, i, places::begun(id)),
        },
        Err(why) => strides::refused(s, why),
    }
}

/// What refuses an abort, 1, 17, 8, or the place of its change.
fn abort_refusal(
    s: State,
    array: &[u8],
    map: &[u16],
    hold: &[u8],
    id: u32,
) -> Result<usize, Refusal>
    ensures refusal { refusal_of result ≡ first_number (abort_checks id (record { array = array.now; map = map.now; hold = hold.now; state = s })) }
    ensures place { IfOk result (λ i. (i ≡ place_of s.places id) × (i < 8)) }
{
    frame::gate(false, &s, array, map, hold)?;
    places::place_of(&s.places, id).ok_or(Refusal::NotBegun)
}

/// Forgets an open change.
pub fn abort(s: State, array: &[u8], map: &[u16], hold: &[u8], id: u32) -> Stride
    ensures { ◌≡◌ {A = Outcome} (record { answer = number result.answer; world = record { array = array.now; map = map.now; hold = hold.now; state = result.state } }) (exec (abort id) (record { array = array.now; map = map.now; hold = hold.now; state = s })) }
{
    match abort_refusal(s, array, map, hold, id) {
        Ok(i) => Stride {
            answer: Answer::Done,
            state: places::forgotten(s, i),
        },
        Err(why) => strides::refused(s, why),
    }
}
