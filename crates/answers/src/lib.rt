// Answers by the numbers of document 01 (docs/PAPERS.md), for those who hand them on: 0 done, 255 more, else the refusal's number in the table.
#![tactic(auto)]

ghost use Rattle.std.specs.Prelude.{◌≡◌, true};
ghost use Rattle.model.specs.Answers.{refusal_number, number, in_table, refused};

use model::{Answer, Refusal};

/// The number of a refusal.
fn refusal_number(why: Refusal) -> u8
    ensures { result ≡ refusal_number why }
{
    why as u8
}

/// The refusals by their numbers, from 1 up.
const TABLE: [Refusal; 17] = [
    Refusal::BadFrame,
    Refusal::NoCheckpoint,
    Refusal::BadCheckpoint,
    Refusal::BadPage,
    Refusal::BadLogicalPage,
    Refusal::BadIdentifier,
    Refusal::IdentifierLive,
    Refusal::NotBegun,
    Refusal::PlacesFull,
    Refusal::TooLong,
    Refusal::BadLength,
    Refusal::ZoneShort,
    Refusal::VersionsSpent,
    Refusal::NeverWritten,
    Refusal::NoGain,
    Refusal::ReserveShort,
    Refusal::Busy,
];

/// The answer that refuses with this number.
pub fn refusal(n: u8) -> Answer
    requires { in_table n ≡ true }
    ensures { number result ≡ n }
{
    Answer::Refused(TABLE[(n - 1) as usize])
}

/// The number of an answer.
pub fn number(answer: Answer) -> u8
    ensures { result ≡ number answer }
{
    match answer {
        Answer::Done => 0,
        Answer::More => 255,
        Answer::Refused(why) => refusal_number(why),
    }
}

/// Whether an answer with this number is a refusal.
#[tactic(auto, unfolding(model::specs::Answers::refused))]
pub fn refused(answer: u8) -> bool
    ensures { result ≡ refused answer }
{
    answer != 0 && answer != 255
}
