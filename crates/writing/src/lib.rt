// The commands that write pages: what refuses them, and else the pages of a change.
#![tactic(auto)]

ghost use Rattle.std.specs.Prelude.{◌≡◌, ◌<◌, [], ◌∷◌, IfOk};
ghost use Rattle.model.specs.Answers.{number};
ghost use Rattle.model.specs.Order.{first_number};
ghost use Rattle.model.specs.Transactions.{place_of, bad_logical_page, short_zone, versions_spent, write_checks, drop_checks, lone_checks, commit_checks};
ghost use Rattle.model.specs.Commands.{Outcome, exec, write, drop_page, lone, commit};
ghost use Rattle.answers.specs.Refusals.{refusal_of};
ghost use Rattle.zones.specs.Judging.{Ready};
ghost use Rattle.writing.specs.Looked.{looked, page_checks};

use model::{Answer, Refusal, Spare, State};
use strides::Stride;

/// Whether a page that must be programmed finds room: 12.
#[tactic(auto, unfolding(model::specs::Order::first_number))]
fn room_refusal(s: State, array: &[u8], programs: bool) -> Result<(), Refusal>
    requires { Ready s.geometry array.now s.zones }
    ensures { refusal_of result ≡ first_number (short_zone programs (looked s array.now) ∷ []) }
{
    if programs && change::zone_short(s, array) {
        return Err(Refusal::ZoneShort);
    }
    Ok(())
}

/// What refuses one page more in a change, 8, 10, 12, or its place.
fn page_refusal(s: State, array: &[u8], id: u32) -> Result<usize, Refusal>
    requires { Ready s.geometry array.now s.zones }
    ensures refusal { refusal_of result ≡ first_number (page_checks id (looked s array.now)) }
    ensures place { IfOk result (λ i. (i ≡ place_of s.places id) × (i < 8)) }
{
    let i = places::place_of(&s.places, id).ok_or(Refusal::NotBegun)?;
    let count = s.places[i].count;
    if count >= State::LONGEST_CHANGE {
        return Err(Refusal::TooLong);
    }
    room_refusal(s, array, count != 0)?;
    Ok(i)
}

/// The same for a page of this number: 5, 8, 10, 12.
#[tactic(auto, unfolding(model::specs::Order::first_number))]
fn add_refusal(s: State, array: &[u8], id: u32, lpn: u16) -> Result<usize, Refusal>
    requires { Ready s.geometry array.now s.zones }
    ensures refusal { refusal_of result ≡ first_number (bad_logical_page lpn (looked s array.now) ∷ page_checks id (looked s array.now)) }
    ensures place { IfOk result (λ i. (i ≡ place_of s.places id) × (i < 8)) }
{
    if lpn >= s.geometry.logical {
        return Err(Refusal::BadLogicalPage);
    }
    page_refusal(s, array, id)
}

/// What refuses a write, 1, 17, 11, 5, 8, 10, 12, or the place of its change.
fn write_refusal(
    s: State,
    array: &[u8],
    map: &[u16],
    hold: &[u8],
    id: u32,
    lpn: u16,
    data: &[u8],
) -> Result<usize, Refusal>
    ensures refusal { refusal_of result ≡ first_number (write_checks id lpn «data».now (record { array = array.now; map = map.now; hold = hold.now; state = s })) }
    ensures place { IfOk result (λ i. (i ≡ place_of s.places id) × (i < 8)) }
{
    frame::gate(false, &s, array, map, hold)?;
    if data.len() != Spare::DATA {
        return Err(Refusal::BadLength);
    }
    add_refusal(s, array, id, lpn)
}

/// Adds a page to an open change.
pub fn write(
    s: State,
    array: &mut [u8],
    map: &[u16],
    hold: &mut [u8],
    id: u32,
    lpn: u16,
    data: &[u8],
) -> Stride
    ensures { ◌≡◌ {A = Outcome} (record { answer = number result.answer; world = record { array = array.new; map = map.now; hold = hold.new; state = result.state } }) (exec (write id lpn «data».now) (record { array = array.old; map = map.now; hold = hold.old; state = s })) }
{
    match write_refusal(s, array, map, hold, id, lpn, data) {
        Ok(i) => Stride {
            answer: Answer::Done,
            state: change::write_in(s, array, map, hold, i, lpn, false, data),
        },
        Err(why) => strides::refused(s, why),
    }
}

/// What refuses a drop, 1, 17, 5, 8, 10, 12, or the place of its change.
fn drop_refusal(
    s: State,
    array: &[u8],
    map: &[u16],
    hold: &[u8],
    id: u32,
    lpn: u16,
) -> Result<usize, Refusal>
    ensures refusal { refusal_of result ≡ first_number (drop_checks id lpn (record { array = array.now; map = map.now; hold = hold.now; state = s })) }
    ensures place { IfOk result (λ i. (i ≡ place_of s.places id) × (i < 8)) }
{
    frame::gate(false, &s, array, map, hold)?;
    add_refusal(s, array, id, lpn)
}

/// Adds a page that drops a logical page to an open change.
pub fn drop(s: State, array: &mut [u8], map: &[u16], hold: &mut [u8], id: u32, lpn: u16) -> Stride
    ensures { ◌≡◌ {A = Outcome} (record { answer = number result.answer; world = record { array = array.new; map = map.now; hold = hold.new; state = result.state } }) (exec (drop_page id lpn) (record { array = array.old; map = map.now; hold = hold.old; state = s })) }
{
    match drop_refusal(s, array, map, hold, id, lpn) {
        Ok(i) => {
            let gone = [0xFFu8; Spare::DATA];
            Stride {
                answer: Answer::Done,
                state: change::write_in(s, array, map, hold, i, lpn, true, &gone),
            }
        }
        Err(why) => strides::refused(s, why),
    }
}

/// Whether a page with a version that must be programmed finds number and room: 13, 12.
#[tactic(auto, unfolding(model::specs::Order::first_number))]
fn version_refusal(s: State, array: &[u8], programs: bool) -> Result<(), Refusal>
    requires { Ready s.geometry array.now s.zones }
    ensures { refusal_of result ≡ first_number (versions_spent programs s.version 1 ∷ short_zone programs (looked s array.now) ∷ []) }
{
    if programs && s.version >= State::LAST_NUMBER {
        return Err(Refusal::VersionsSpent);
    }
    room_refusal(s, array, programs)
}

/// What refuses a lone write: 1, 17, 11, 5, 13, 12.
fn lone_refusal(
    s: State,
    array: &[u8],
    map: &[u16],
    hold: &[u8],
    lpn: u16,
    data: &[u8],
) -> Result<(), Refusal>
    ensures { refusal_of result ≡ first_number (lone_checks lpn «data».now (record { array = array.now; map = map.now; hold = hold.now; state = s })) }
{
    frame::gate(false, &s, array, map, hold)?;
    if data.len() != Spare::DATA {
        return Err(Refusal::BadLength);
    }
    if lpn >= s.geometry.logical {
        return Err(Refusal::BadLogicalPage);
    }
    version_refusal(s, array, true)
}

/// Writes a page by itself.
pub fn lone(
    s: State,
    array: &mut [u8],
    map: &mut [u16],
    hold: &[u8],
    lpn: u16,
    data: &[u8],
) -> Stride
    ensures { ◌≡◌ {A = Outcome} (record { answer = number result.answer; world = record { array = array.new; map = map.new; hold = hold.now; state = result.state } }) (exec (lone lpn «data».now) (record { array = array.old; map = map.old; hold = hold.now; state = s })) }
{
    if let Err(why) = lone_refusal(s, array, map, hold, lpn, data) {
        return strides::refused(s, why);
    }
    Stride {
        answer: Answer::Done,
        state: change::write_lone(s, array, map, hold, lpn, data),
    }
}

/// What refuses a commit, 1, 17, 8, and 13 and 12 only with a held page, or the place of its change.
fn commit_refusal(
    s: State,
    array: &[u8],
    map: &[u16],
    hold: &[u8],
    id: u32,
) -> Result<usize, Refusal>
    ensures refusal { refusal_of result ≡ first_number (commit_checks id (record { array = array.now; map = map.now; hold = hold.now; state = s })) }
    ensures place { IfOk result (λ i. (i ≡ place_of s.places id) × (i < 8)) }
{
    frame::gate(false, &s, array, map, hold)?;
    let i = places::place_of(&s.places, id).ok_or(Refusal::NotBegun)?;
    version_refusal(s, array, s.places[i].count != 0)?;
    Ok(i)
}

/// Closes a change: with a held page its mark is programmed and its pages are entered; without one nothing is.
pub fn commit(s: State, array: &mut [u8], map: &mut [u16], hold: &[u8], id: u32) -> Stride
    ensures { ◌≡◌ {A = Outcome} (record { answer = number result.answer; world = record { array = array.new; map = map.new; hold = hold.now; state = result.state } }) (exec (commit id) (record { array = array.old; map = map.old; hold = hold.now; state = s })) }
{
    match commit_refusal(s, array, map, hold, id) {
        Ok(i) if s.places[i].count == 0 => Stride {
            answer: Answer::Done,
            state: places::forgotten(s, i),
        },
        Ok(i) => Stride {
            answer: Answer::Done,
            state: change::mark(s, array, map, hold, i),
        },
        Err(why) => strides::refused(s, why),
    }
}
