// Why a call is not served: the refusals of the rules page, each with its number. A call that is refused changes nothing.
#![tactic(auto)]

ghost use Rattle.std.specs.Prelude.{◌≡◌};
ghost use Rattle.refusals.specs.Number.{number};

// In the order of their numbers, 1 to 13. Lengths are those of memory and lock bytes, Room is room for what the call gives.
#[derive(Clone, Copy, Debug, PartialEq, Eq)]
pub enum Refusal {
    CardRecord,
    Lengths,
    LockByte,
    AnswerRoom,
    List,
    Ended,
    Unfit,
    Room,
    NoTrack,
    WalkRecord,
    NoAnswer,
    NoAnswerTrack,
    Rack,
}

impl Refusal {
    // The number that the rules page gives it.
    #[tactic(auto, unfolding(crate::specs::Number::number))]
    pub fn number(self) -> u8
        ensures { result ≡ number self }
    {
        match self {
            Refusal::CardRecord => 1,
            Refusal::Lengths => 2,
            Refusal::LockByte => 3,
            Refusal::AnswerRoom => 4,
            Refusal::List => 5,
            Refusal::Ended => 6,
            Refusal::Unfit => 7,
            Refusal::Room => 8,
            Refusal::NoTrack => 9,
            Refusal::WalkRecord => 10,
            Refusal::NoAnswer => 11,
            Refusal::NoAnswerTrack => 12,
            Refusal::Rack => 13,
        }
    }
}
