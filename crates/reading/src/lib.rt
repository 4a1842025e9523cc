// Read: what it answers, and the part of the array that it hands back.
#![tactic(auto)]

ghost use Rattle.std.specs.Prelude.{◌≡◌, get_or, IfOk};
ghost use Rattle.model.specs.Answers.{number};
ghost use Rattle.model.specs.Transactions.{read_answer, read_part};
ghost use Rattle.answers.specs.Refusals.{refusal_of};
ghost use Rattle.model.specs.Commands.{Outcome, exec, read};

use model::{Answer, Map, Refusal, Spare, State};

/// What refuses a read, 1, 5, 14, or the page that its logical page is mapped to.
fn refusal(s: State, array: &[u8], map: &[u16], hold: &[u8], lpn: u16) -> Result<u16, Refusal>
    ensures refusal { refusal_of result ≡ read_answer lpn (record { array = array.now; map = map.now; hold = hold.now; state = s }) }
    ensures page { IfOk result (λ k. k ≡ get_or map.now lpn 0) }
{
    if !frame::frame_ok(&s, array, map, hold) {
        return Err(Refusal::BadFrame);
    }
    if lpn >= s.geometry.logical {
        return Err(Refusal::BadLogicalPage);
    }
    let k = map[lpn as usize];
    if k == Map::UNMAPPED {
        return Err(Refusal::NeverWritten);
    }
    Ok(k)
}

/// What reading a logical page answers.
pub fn read(s: State, array: &[u8], map: &[u16], hold: &[u8], lpn: u16) -> Answer
    ensures { ◌≡◌ {A = Outcome} (record { answer = number result; world = record { array = array.now; map = map.now; hold = hold.now; state = s } }) (exec (read lpn) (record { array = array.now; map = map.now; hold = hold.now; state = s })) }
{
    match refusal(s, array, map, hold, lpn) {
        Ok(_) => Answer::Done,
        Err(why) => Answer::Refused(why),
    }
}

/// The part of the array that a read hands back: the 512 bytes of the mapped page, empty where refused.
pub fn read_part<'a>(s: State, array: &'a [u8], map: &[u16], hold: &[u8], lpn: u16) -> &'a [u8]
    ensures { result.now ≡ read_part lpn (record { array = array.now; map = map.now; hold = hold.now; state = s }) }
{
    let Ok(k) = refusal(s, array, map, hold, lpn) else {
        return &[];
    };
    let page = flash::page_of(array, k as usize);
    &page[..Spare::DATA]
}
