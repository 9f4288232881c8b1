// Document 01's refusals, each by its own name, and the answer of a call: accepted, or refused at a place.
#![tactic(auto)]

ghost use Rattle.std.specs.Prelude.{◌≡◌};
ghost use Rattle.refusals.specs.Outcome.{number_of};

// The rows of 01's two tables of refusals, in their order, and those that 02's requests add, each with the number that it is given.
#[derive(Clone, Copy, PartialEq, Eq)]
pub enum Refusal {
    BadLine = 1,
    Malformed = 2,
    OutOfRange = 3,
    BadName = 4,
    Missing = 5,
    TooMany = 6,
    Ended = 7,
    BadDate = 8,
    BadMinutes = 9,
    TooManyTurns = 10,
    TooLarge = 11,
    NoTable = 21,
    NoStation = 22,
    NoMonth = 23,
    UnequalBuffers = 31,
    BadStationNumber = 32,
    BadHeight = 33,
    ShortBuffer = 34,
    BadStride = 35,
}

// A refusal, with the place that 01 gives it. (No PartialEq or Debug: they call std's code, which `has-the-clock` of claim_runs can't have.)
#[derive(Clone, Copy)]
pub struct Refused {
    pub refusal: Refusal,
    pub place: usize,
}

impl Refusal {
    // This refusal, at a place.
    pub fn at(self, place: usize) -> Refused
        ensures { result ≡ record { refusal = self; place = place } }
    {
        Refused {
            refusal: self,
            place,
        }
    }
}

// What a call says: it is accepted, or refused.
pub type Answer = Result<(), Refused>;

// The number that 01 gives a refusal.
// (A number for a refusal: 01 gives it, C gets it, and the definition `number_of` has it.)
pub fn number_of(r: Refusal) -> u32
    ensures { result ≡ number_of r }
{
    r as u32
}
