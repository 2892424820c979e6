// Why a call, a text or the program's words are refused, and the number of each refusal.
#![tactic(auto)]

ghost use Rattle.std.specs.Prelude.{◌≡◌};
ghost use Rattle.refusal.specs.Numbers.{number};

// The refusals of document 01, "Turned back by the input" and "Turned back by the state", and of document 02, C-12 and C-15, in the order of their numbers.
#[derive(Clone, Copy, Debug, PartialEq, Eq)]
pub enum Refusal {
    TooManyVertices = 1,
    TableLength = 2,
    TableByte = 3,
    SelfJoined = 4,
    OneWay = 5,
    Notion = 6,
    Kind = 7,
    Factor = 8,
    BytesLength = 9,
    WorkLength = 10,
    SetByte = 11,
    PositionByte = 21,
    Gap = 22,
    DeadPosition = 23,
    FirstLetter = 31,
    Form = 32,
    NoProblemLine = 33,
    SecondProblemLine = 34,
    TextVertices = 35,
    EdgeRange = 36,
    EdgeLoop = 37,
    EdgeCount = 39,
    TableRoom = 40,
    TextLength = 41,
    Degrees = 42,
    PairRange = 43,
    PairEqual = 44,
    StrayBit = 45,
}

impl From<Refusal> for u32 {
    ghost from_gives = { λ r n. n ≡ number r };

    fn from(r: Refusal) -> u32 {
        r as u32
    }
}
